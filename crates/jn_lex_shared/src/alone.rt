//! One text, or a part of one, lexed by one worker.
ghost use Rattle.std.specs.Prelude.{◌≤◌, ◌<◌, ◌+◌, ◌-◌, ◌^◌, [], length, IfOk, IfErr, OnOk};
ghost use Rattle.jn_known.specs.Known.{known_names};
ghost use Rattle.jn_lexer.specs.Faults.{LexicalFault};
ghost use Rattle.jn_lexer.specs.Lexed.{Lexed};
ghost use Rattle.jn_lexer.specs.Moved.{LexedOnto};
ghost use Rattle.jn_trees.specs.Refused.{IfRefused};

use crate::cutting::window_end;
use crate::names::known_names;
use jn_base::{Fail, FileNo, Row};
use jn_lexer::lex_onto;
use jn_trees::{Names, Token};
use std::alloc::Global;

/// Puts the tokens of a part of a text after the others, window by window: the names go on from one window to the next, and only one
/// window's characters are held at a time. The part's first byte is the text's byte `at`.
///
/// It fails where a window is refused, which may come from its cut, as in a comment of several lines. Then, and on want of memory,
/// `tokens` and `names` have perhaps some more.
fn put_windows(
    alloc: Global,
    text: &[u8],
    file: FileNo,
    at: u32,
    names: &mut Names,
    tokens: &mut Vec<Token>,
) -> Result<(), Fail<Row>>
    requires names { length names.old + length text.now < 2 ^ 32 - 1 }
    requires spans { at + length text.now < 2 ^ 32 }
    ensures { OnOk result
        (LexedOnto file text.now at names.old tokens.old.items names.new tokens.new.items) }
{
    let mut rest = text;
    let mut from = at;
    while let Some(cut) = window_end(rest) {
        let (window, behind) = rest.split_at(cut);
        lex_onto(alloc, window, file, from, names, tokens)?;
        from += cut as u32;
        rest = behind;
    }
    lex_onto(alloc, rest, file, from, names, tokens)
}

/// As [`lex_part`]; it fails where a window is refused, too.
fn in_windows(
    alloc: Global,
    text: &[u8],
    file: FileNo,
    at: u32,
    ahead: usize,
) -> Result<(Vec<Token>, Names), Fail<Row>>
    requires { at + length text.now ≤ 1048576 }
    ensures { IfOk result (λ r. LexedOnto file text.now at known_names [] r.1 r.0.items) }
{
    let mut names = match known_names(alloc) {
        Ok(names) => names,
        Err(_) => return Err(Fail::OutOfMemory),
    };
    let mut tokens = Vec::new(alloc);
    let _asked = tokens.reserve(ahead);
    match put_windows(alloc, text, file, at, &mut names, &mut tokens) {
        Ok(()) => Ok((tokens, names)),
        Err(fail) => Err(fail),
    }
}

/// As [`lex_part`], by the characters of the whole part.
fn as_whole(
    alloc: Global,
    text: &[u8],
    file: FileNo,
    at: u32,
) -> Result<(Vec<Token>, Names), Fail<Row>>
    requires { at + length text.now ≤ 1048576 }
    ensures ok { IfOk result (λ r. LexedOnto file text.now at known_names [] r.1 r.0.items) }
    ensures refused { IfErr result
        (λ fail. IfRefused fail (λ row. LexicalFault file text.now row)) }
{
    let mut names = match known_names(alloc) {
        Ok(names) => names,
        Err(_) => return Err(Fail::OutOfMemory),
    };
    let mut tokens = Vec::new(alloc);
    match lex_onto(alloc, text, file, at, &mut names, &mut tokens) {
        Ok(()) => Ok((tokens, names)),
        Err(fail) => Err(fail),
    }
}

/// The tokens of a part of a text, whose first byte is the text's byte `at`, from the known names on, and the names then; it
/// refuses with the row of the part's fault, counted within the part.
///
/// It asks for room for as many tokens as `ahead` bytes can have, one for each, and goes on without where there isn't as much: a list
/// that has room needn't be moved while it grows, nor where others are put after it, and room that isn't written to takes no memory.
///
/// Besides tokens and names it takes memory for the characters of one window, some 64 KiB where no line is long. Only where a window
/// is refused, for a fault or because its cut stands in a comment of several lines, the part is lexed once more, from its begin and
/// by the characters of all of it, of 4 bytes each; what the windows gave is freed before. So each byte is lexed at most twice.
pub fn lex_part(
    alloc: Global,
    text: &[u8],
    file: FileNo,
    at: u32,
    ahead: usize,
) -> Result<(Vec<Token>, Names), Fail<Row>>
    requires { at + length text.now ≤ 1048576 }
    ensures ok { IfOk result (λ r. LexedOnto file text.now at known_names [] r.1 r.0.items) }
    ensures refused { IfErr result
        (λ fail. IfRefused fail (λ row. LexicalFault file text.now row)) }
{
    match in_windows(alloc, text, file, at, ahead) {
        Ok(lexed) => Ok(lexed),
        Err(Fail::Refused(_row)) => as_whole(alloc, text, file, at),
        Err(Fail::OutOfMemory) => Err(Fail::OutOfMemory),
    }
}

/// The tokens of a text from the known names on, and the names then; it refuses with the row of the text's fault. It takes the
/// memory that [`lex_part`] takes.
pub fn lex_alone(
    alloc: Global,
    text: &[u8],
    file: FileNo,
    ahead: usize,
) -> Result<(Vec<Token>, Names), Fail<Row>>
    requires { length text.now ≤ 1048576 }
    ensures ok { IfOk result (λ r. Lexed file text.now known_names r.0.items r.1) }
    ensures refused { IfErr result
        (λ fail. IfRefused fail (λ row. LexicalFault file text.now row)) }
{
    lex_part(alloc, text, file, 0, ahead)
}
