//! Tokens with other numbers for their names.
ghost use Rattle.std.specs.Prelude.{◌≡◌, ◌++◌, OnOk, OnErr};
ghost use Rattle.jn_renumber.specs.Tokens.{token_by, tokens_by};

use jn_base::{NameNo, OutOfMemory};
use jn_renumber::entry;
use jn_trees::{Token, TokenKind};

/// Gives the token's name, if it has one, the entry of its number.
fn renumber_token(numbers: &[NameNo], token: &mut Token)
    ensures { token.new ≡ token_by numbers.now token.old }
{
    match &mut token.kind {
        TokenKind::Id(name) => *name = entry(numbers, *name),
        TokenKind::Str(name) => *name = entry(numbers, *name),
        _ => (),
    }
}

/// Gives the tokens' names the entries of their numbers.
fn renumber_tokens(numbers: &[NameNo], tokens: &mut Vec<Token>)
    ensures { tokens.new.items ≡ tokens_by numbers.now tokens.old.items }
{
    for at in 0..tokens.len() {
        renumber_token(numbers, &mut tokens[at]);
    }
}

/// Moves the others to the tokens' end, with the entries of their names' numbers.
///
/// Where no memory is found, the tokens are as before, and nothing is said of the others.
pub fn put_renumbered(
    tokens: &mut Vec<Token>,
    others: &mut Vec<Token>,
    numbers: &[NameNo],
) -> Result<(), OutOfMemory>
    ensures ok { OnOk result
        (tokens.new.items ≡ tokens.old.items ++ tokens_by numbers.now others.old.items) }
    ensures err { OnErr result (tokens.new.items ≡ tokens.old.items) }
{
    renumber_tokens(numbers, others);
    tokens.append(others)?;
    Ok(())
}
