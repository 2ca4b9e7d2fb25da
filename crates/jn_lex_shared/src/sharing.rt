//! One text, lexed in parts.
ghost use Rattle.std.specs.Prelude.{◌≡◌, ◌≤◌, ◌<◌, ◌-◌, ◌/◌, ◌+◌, [], length, take, drop, min, IfOk, IfErr, OnOk};
ghost use Rattle.std.specs.Thread.{IsSync};
ghost use Rattle.jn_known.specs.Known.{known_names};
ghost use Rattle.jn_lex_shared.specs.Cut.{IsCut};
ghost use Rattle.jn_lexer.specs.Faults.{LexicalFault};
ghost use Rattle.jn_lexer.specs.Lexed.{Lexed};
ghost use Rattle.jn_lexer.specs.Moved.{LexedOnto};
ghost use Rattle.jn_trees.specs.Refused.{IfRefused};

use crate::alone::{lex_alone, lex_part};
use crate::cutting::cut_from;
use crate::renumbering::put_renumbered;
use jn_base::{Fail, FileNo, OutOfMemory, Row};
use jn_renumber::merge;
use jn_trees::{Names, Token};
use std::alloc::Global;
use std::thread::{Threads, join};

/// The fewest bytes for which a worker takes part, so that lexing them takes far longer than starting it and waiting for it.
const LEAST_SHARE: usize = 32_768;

/// Makes the tokens and names of the first `cut` bytes those of the text, the other bytes of which have the others, at their places
/// in the text, by names of their own.
///
/// Where no memory is found, the names are perhaps some more than before, and the others have perhaps their numbers among them.
fn put_behind(
    alloc: Global,
    text: &[u8],
    file: FileNo,
    cut: u32,
    tokens: &mut Vec<Token>,
    names: &mut Names,
    others: &mut Vec<Token>,
    own: &Names,
) -> Result<(), OutOfMemory>
    requires bytes { length text.now ≤ 1048576 }
    requires cut { IsCut cut text.now }
    requires front { Lexed file (take cut text.now) known_names tokens.old.items names.old }
    requires back { LexedOnto file (drop cut text.now) cut known_names [] own.now
        others.old.items }
    ensures { OnOk result (Lexed file text.now known_names tokens.new.items names.new) }
{
    let (_text, _file, _cut) = (text, file, cut);
    let numbers = merge(alloc, names, own)?;
    put_renumbered(tokens, others, numbers.as_slice())
}

/// The tokens and names of a text, of which the first `cut` bytes and those after them have these, each from the known names on
/// and at their places in the text; it fails where one of them does.
fn in_order(
    alloc: Global,
    text: &[u8],
    file: FileNo,
    cut: u32,
    front: Result<(Vec<Token>, Names), Fail<Row>>,
    back: Result<(Vec<Token>, Names), Fail<Row>>,
) -> Result<(Vec<Token>, Names), Fail<Row>>
    requires bytes { length text.now ≤ 1048576 }
    requires cut { IsCut cut text.now }
    requires front { IfOk front
        (λ r. Lexed file (take cut text.now) known_names r.0.items r.1) }
    requires back { IfOk back
        (λ r. LexedOnto file (drop cut text.now) cut known_names [] r.1 r.0.items) }
    ensures { IfOk result (λ r. Lexed file text.now known_names r.0.items r.1) }
{
    let (mut tokens, mut names) = front?;
    let (mut others, own) = back?;
    put_behind(
        alloc,
        text,
        file,
        cut,
        &mut tokens,
        &mut names,
        &mut others,
        &own,
    )?;
    Ok((tokens, names))
}

/// The tokens of a text from the known names on, and the names then, by one worker and as many others as `more`: each takes a
/// share, which ends with a line. Those after the second are larger, each by about a third, since the tokens before them are put
/// together while they are lexed. It fails where a part is refused, which may come from the cut, as in a comment of several lines.
///
/// The list has room for the tokens of `ahead` bytes ([`lex_part`]): of the text and of what others lex after it.
#[cycle(part)]
fn lex_parts<R: Threads + Sync>(
    rt: &R,
    alloc: Global,
    text: &[u8],
    file: FileNo,
    more: u32,
    ahead: usize,
) -> Result<(Vec<Token>, Names), Fail<Row>>
    requires { length text.now ≤ 1048576 }
    ensures { IfOk result (λ r. Lexed file text.now known_names r.0.items r.1) }
{
    if more == 0 {
        return lex_alone(alloc, text, file, ahead);
    }
    let share = 2 * text.len() / (more as usize + 3);
    let cut = match cut_from(text, text.len().saturating_sub(share)) {
        Some(cut) => cut,
        None => return lex_alone(alloc, text, file, ahead),
    };
    let (front, back) = text.split_at(cut);
    let at = cut as u32;
    let theirs = move || -> Result<(Vec<Token>, Names), Fail<Row>>
        requires { at + length back.now ≤ 1048576 }
        ensures { IfOk result
            (λ r. LexedOnto file back.entry.now at known_names [] r.1 r.0.items) }
    { lex_part(alloc, back, file, at, back.len()) };
    let ours = move || -> Result<(Vec<Token>, Names), Fail<Row>>
        requires { IsSync R.row × (0 < more) × (length front.now ≤ 1048576) }
        ensures { IfOk result (λ r. Lexed file front.entry.now known_names r.0.items r.1) }
    { lex_parts(rt, alloc, front, file, more - 1, ahead) };
    let (theirs, ours) = join(rt, theirs, ours);
    in_order(alloc, text, file, at, ours, theirs)
}

/// How many of the others take part in a text of so many bytes: each worker has a share that is worth its start.
fn others_for(bytes: usize, more: u32) -> u32
    ensures { result ≡ min more (bytes / 32768 - 1) }
{
    let shares = bytes / LEAST_SHARE;
    if shares == 0 {
        0
    } else if shares - 1 < more as usize {
        (shares - 1) as u32
    } else {
        more
    }
}

/// The tokens of a file's bytes from the known names on, and the names then, by one worker and as many others as `more`, or
/// fewer where the text is short; they are the same for every number of workers.
///
/// It refuses with the row of the text's fault, as `jn_lexer::lex` says: L1 where the bytes aren't UTF-8, else L2 at the first
/// Unicode escape, else L3 to L7 at the first place where a token should begin and none can. It starts its workers by `join` and
/// waits for them. Its time is in proportion to the bytes: where a part is refused, the text is lexed once more, by one worker.
///
/// The list of tokens has room for one for each byte, of 20 bytes each, of which only what is written to takes memory; another
/// worker's list has it for each byte of the worker's part. Besides tokens and names each worker takes some 64 KiB, for the characters
/// of one window. A part with a window that is refused takes 4 bytes for each of its characters, as does the text where it has a
/// fault.
pub fn lex_shared<R: Threads + Sync>(
    rt: &R,
    alloc: Global,
    text: &[u8],
    file: FileNo,
    more: u32,
) -> Result<(Vec<Token>, Names), Fail<Row>>
    requires { length text.now ≤ 1048576 }
    ensures ok { IfOk result (λ r. Lexed file text.now known_names r.0.items r.1) }
    ensures refused { IfErr result
        (λ fail. IfRefused fail (λ row. LexicalFault file text.now row)) }
{
    let more = others_for(text.len(), more);
    if more == 0 {
        return lex_alone(alloc, text, file, text.len());
    }
    match lex_parts(rt, alloc, text, file, more, text.len()) {
        Ok(lexed) => Ok(lexed),
        Err(Fail::Refused(_row)) => lex_alone(alloc, text, file, text.len()),
        Err(Fail::OutOfMemory) => Err(Fail::OutOfMemory),
    }
}
