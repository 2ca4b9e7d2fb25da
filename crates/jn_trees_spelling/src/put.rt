//! Tokens after others.
ghost use Rattle.jn_trees_spelling.specs.Parts.{separator};
ghost use Rattle.std.specs.Prelude.{◌≡◌, ◌++◌, ◌∷◌, [], OnOk};

use jn_base::{OutOfMemory, lists};
use jn_trees::TokenKind;

/// Puts the token after the others.
pub fn put(kinds: &mut Vec<TokenKind>, kind: TokenKind) -> Result<(), OutOfMemory>
    ensures { OnOk result (kinds.new.items ≡ kinds.old.items ++ kind ∷ []) }
{
    lists::put(kinds, kind)?;
    Ok(())
}

/// Puts the tokens after the others, in their order.
pub fn put_all(kinds: &mut Vec<TokenKind>, more: &[TokenKind]) -> Result<(), OutOfMemory>
    ensures { OnOk result (kinds.new.items ≡ kinds.old.items ++ more.now) }
{
    match kinds.extend_from_slice(more) {
        Ok(()) => Ok(()),
        Err(_) => Err(OutOfMemory),
    }
}

/// Puts a comma after the tokens, unless the item that follows is the first.
pub fn separate(kinds: &mut Vec<TokenKind>, place: usize) -> Result<(), OutOfMemory>
    ensures { OnOk result (kinds.new.items ≡ kinds.old.items ++ separator place) }
{
    if place == 0 {
        return Ok(());
    }
    put(kinds, TokenKind::Comma)
}
