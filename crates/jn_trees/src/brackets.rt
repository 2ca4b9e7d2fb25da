//! How many brackets are open at once.
ghost use Rattle.std.specs.Prelude.{◌≡◌, ◌<◌, MatchOption};
ghost use Rattle.jn_trees.specs.Pieces.{IsTooDeep, Shallow, kinds, opened as spec_opened};

use crate::token::{Token, TokenKind};

/// The most brackets, of all three kinds together, that may be open at once.
const MOST_OPEN: u32 = 200;

/// How many brackets are open after a token, where this many are before it.
fn opened(count: u32, kind: TokenKind) -> u32
    requires { count < 4294967295 }
    ensures { result ≡ spec_opened count kind }
{
    match kind {
        TokenKind::LeftParen | TokenKind::LeftBracket | TokenKind::LeftBrace => count + 1,
        TokenKind::RightParen | TokenKind::RightBracket | TokenKind::RightBrace => {
            count.saturating_sub(1)
        }
        _ => count,
    }
}

/// The number of the first token after which more than 200 brackets, of all three kinds together, are open at once. A closing bracket where none is open counts nothing. Takes no memory.
pub fn too_deep(tokens: &[Token]) -> Option<usize>
    ensures { MatchOption result (Shallow (kinds tokens.now))
        (λ n. IsTooDeep (kinds tokens.now) n) }
{
    let mut count: u32 = 0;
    for (place, token) in tokens.iter().enumerate() {
        count = opened(count, token.kind);
        if count > MOST_OPEN {
            return Some(place);
        }
    }
    None
}
