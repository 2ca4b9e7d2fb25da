//! Lines of two texts, one against the other.
ghost use Rattle.std.specs.Prelude.{◌≡◌, ◌≤◌, ◌<◌, ◌+◌, ◌∷◌, false, true, bytes_eq, drop, length, not, take, IfOk};
ghost use Rattle.jn_diff.specs.Lines as spec;
ghost use Rattle.jn_diff.specs.Lines.{line_length, lines_of};
ghost use Rattle.jn_diff.specs.Hunks.{is_changed};

use jn_base::lists::put;
use jn_base::{OutOfMemory, Seq};
use std::alloc::{AllocError, Global};

/// A line of a text against that of another one, each with the line feed that ends it. Where a text has no such line, it is empty.
#[derive(Drop)]
pub struct Line {
    pub old: Seq<u8>,
    pub new: Seq<u8>,
}

/// Whether the bytes are the same.
pub(crate) fn are_same(old: &[u8], new: &[u8]) -> bool
    ensures { result ≡ bytes_eq old.now new.now }
{
    old == new
}

/// Whether the texts differ in the line.
pub(crate) fn is_changed(line: &Line) -> bool
    ensures { result ≡ is_changed line.now }
{
    !are_same(line.old.as_slice(), line.new.as_slice())
}

/// The number of bytes of the first line, its line feed with them.
fn line_length(text: &[u8]) -> usize
    ensures is { result ≡ line_length text.now }
    ensures within { result ≤ length text.now }
{
    let mut count = 0;
    for byte in text {
        count += 1;
        if *byte == b'\n' {
            return count;
        }
    }
    count
}

/// The first line, and what stands after it.
fn first_line(alloc: Global, text: &[u8]) -> Result<(Seq<u8>, &[u8]), AllocError>
    ensures line { IfOk result (λ r. r.0 ≡ take (line_length text.now) text.now) }
    ensures rest { IfOk result (λ r. r.1.now ≡ drop (line_length text.now) text.now) }
{
    let count = line_length(text);
    let line = Vec::from_slice(alloc, &text[..count])?;
    Ok((Seq::of_vec(line), &text[count..]))
}

/// Whether one of the texts has a line.
fn has_line(old: &[u8], new: &[u8]) -> bool
    ensures some { result ≡ true → 0 < length old.now + length new.now }
    ensures none { result ≡ false → length old.now + length new.now ≡ 0 }
{
    old.len() != 0 || new.len() != 0
}

/// What stands after the first line.
fn behind_line(text: &[u8]) -> &[u8]
    ensures { result.now ≡ drop (line_length text.now) text.now }
{
    let count = line_length(text);
    &text[count..]
}

/// How many lines the text has.
fn line_count(text: &[u8]) -> usize
    ensures { result ≡ length (lines_of text.now) }
{
    let mut count = 0;
    let mut rest = text;
    while rest.len() != 0 {
        rest = behind_line(rest);
        count += 1;
    }
    count
}

/// Whether both lines are there and differ, while more are due that only the new text has.
fn is_added(extra: usize, old: &[u8], new: &[u8]) -> bool
    ensures { result ≡ spec.is_added extra old.now new.now }
{
    0 < extra && old.len() != 0 && new.len() != 0 && !are_same(old, new)
}

/// The next of the lines that stand against each other, and what is left after it.
#[derive(Drop)]
struct Next<'t> {
    line: Line,
    extra: usize,
    olds: &'t [u8],
    news: &'t [u8],
}

/// The next line of two texts, of which the new one has so many lines more.
fn next_line<'t>(
    alloc: Global,
    extra: usize,
    olds: &'t [u8],
    news: &'t [u8],
) -> Result<Next<'t>, AllocError>
    requires some { 0 < length olds.now + length news.now }
    ensures next { IfOk result (λ n. spec.paired_by extra olds.now news.now
        ≡ n.line ∷ spec.paired_by n.extra n.olds.now n.news.now) }
    ensures smaller { IfOk result
        (λ n. length n.olds.now + length n.news.now < length olds.now + length news.now) }
{
    let (old, more) = first_line(alloc, olds)?;
    let (new, others) = first_line(alloc, news)?;
    if is_added(extra, old.as_slice(), new.as_slice()) {
        drop(old);
        return Ok(Next {
            line: Line {
                old: Seq::new(alloc),
                new,
            },
            extra: extra - 1,
            olds,
            news: others,
        });
    }
    Ok(Next {
        line: Line { old, new },
        extra,
        olds: more,
        news: others,
    })
}

/// The lines of two texts, one against the other.
pub(crate) fn paired(alloc: Global, old: &[u8], new: &[u8]) -> Result<Vec<Line>, OutOfMemory>
    ensures { IfOk result (λ lines. lines.items ≡ spec.paired old.now new.now) }
{
    let mut lines = Vec::new(alloc);
    let mut extra = line_count(new).saturating_sub(line_count(old));
    let mut olds = old;
    let mut news = new;
    while has_line(olds, news) {
        let next = next_line(alloc, extra, olds, news)?;
        extra = next.extra;
        olds = next.olds;
        news = next.news;
        put(&mut lines, next.line)?;
    }
    Ok(lines)
}
