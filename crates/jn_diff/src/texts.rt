//! The texts of lines and hunks.
ghost use Rattle.std.specs.Prelude.{◌≡◌, ◌≤◌, ◌++◌, codes, cond, length, IfOk};
ghost use Rattle.std.specs.List.{flat_map};
ghost use Rattle.jn_diff.specs.Diff as spec;
ghost use Rattle.jn_diff.specs.Lines.{is_there};

use crate::line::{Line, is_changed};
use itoa::{Buffer, Integer};
use std::alloc::{AllocError, Global};

/// Whether the last byte is a line feed.
fn is_ended(line: &[u8]) -> bool
    ensures { result ≡ spec.is_ended line.now }
{
    match line.last() {
        Some(byte) => *byte == b'\n',
        None => false,
    }
}

/// What stands after a line that has no line feed.
fn ending(line: &[u8]) -> &'static [u8]
    ensures { result.now ≡ spec.ending line.now }
{
    if is_ended(line) {
        b""
    } else {
        b"\n\\ No newline at end of file\n"
    }
}

/// Puts the line after a sign, where it is there.
fn put_signed(text: &mut Vec<u8>, sign: &[u8], line: &[u8]) -> Result<(), AllocError>
    ensures { IfOk result (λ u. text.new.items
        ≡ text.old.items ++ spec.signed sign.now line.now) }
{
    if line.len() == 0 {
        return Ok(());
    }
    text.extend_from_slice(sign)?;
    text.extend_from_slice(line)?;
    text.extend_from_slice(ending(line))
}

/// Puts a line that differs, as it was and as it is.
fn put_both(text: &mut Vec<u8>, line: &Line) -> Result<(), AllocError>
    ensures { IfOk result (λ u. text.new.items
        ≡ text.old.items
        ++ (spec.signed (codes "-") line.now.old ++ spec.signed (codes "+") line.now.new)) }
{
    put_signed(text, b"-", line.old.as_slice())?;
    put_signed(text, b"+", line.new.as_slice())
}

fn put_line(text: &mut Vec<u8>, line: &Line) -> Result<(), AllocError>
    ensures { IfOk result (λ u. text.new.items ≡ text.old.items ++ spec.line_text line.now) }
{
    if is_changed(line) {
        put_both(text, line)
    } else {
        put_signed(text, b" ", line.old.as_slice())
    }
}

fn put_lines(text: &mut Vec<u8>, lines: &[Line]) -> Result<(), AllocError>
    ensures { IfOk result (λ u. text.new.items
        ≡ text.old.items ++ flat_map spec.line_text lines.now) }
{
    for line in lines {
        put_line(text, line)?;
    }
    Ok(())
}

/// How many lines the old text has.
fn old_count(lines: &[Line]) -> usize
    ensures is { result ≡ spec.old_count lines.now }
{
    lines.iter().filter(|line| line.old.len() != 0).count()
}

/// How many lines the new text has.
fn new_count(lines: &[Line]) -> usize
    ensures is { result ≡ spec.new_count lines.now }
{
    lines.iter().filter(|line| line.new.len() != 0).count()
}

/// One where only the new text has the line.
fn added(line: &Line) -> usize
    ensures is { result ≡ cond (is_there line.now.old) 0 1 }
    ensures few { result ≤ 1 }
{
    if line.old.len() == 0 { 1 } else { 0 }
}

/// How many lines only the new text has.
pub(crate) fn added_count(lines: &[Line]) -> usize
    ensures is { result ≡ spec.added_count lines.now }
    ensures few { result ≤ length lines.now }
{
    let mut count = 0;
    for line in lines {
        count += added(line);
    }
    count
}

/// The number of the first line, and how many there are.
fn range(alloc: Global, first: usize, count: usize) -> Result<Vec<u8>, AllocError>
    ensures { IfOk result (λ text. text.items ≡ spec.range first count) }
{
    let mut text = Vec::from_slice(alloc, Buffer::new().format(first).as_bytes())?;
    text.extend_from_slice(b",")?;
    text.extend_from_slice(Buffer::new().format(count).as_bytes())?;
    Ok(text)
}

fn hunk_head(
    alloc: Global,
    back: usize,
    first: usize,
    lines: &[Line],
) -> Result<Vec<u8>, AllocError>
    ensures { IfOk result
        (λ text. text.items ≡ spec.hunk_head back (record { first = first; lines = lines.now })) }
{
    let olds = range(alloc, first.saturating_sub(back), old_count(lines))?;
    let news = range(alloc, first, new_count(lines))?;
    let mut text = Vec::from_slice(alloc, b"@@ -")?;
    text.extend_from_slice(&olds)?;
    text.extend_from_slice(b" +")?;
    text.extend_from_slice(&news)?;
    text.extend_from_slice(b" @@\n")?;
    Ok(text)
}

/// The text of a hunk whose first line has this number, after so many lines that only the new text has.
#[tactic(auto, unfolding(crate::specs::Diff::hunk_text))]
pub(crate) fn hunk_text(
    alloc: Global,
    back: usize,
    first: usize,
    lines: &[Line],
) -> Result<Vec<u8>, AllocError>
    ensures { IfOk result
        (λ text. text.items ≡ spec.hunk_text back (record { first = first; lines = lines.now })) }
{
    let mut text = hunk_head(alloc, back, first, lines)?;
    put_lines(&mut text, lines)?;
    Ok(text)
}
