//! The diff of a file.
ghost use Rattle.std.specs.Prelude.{◌≡◌, ◌≤◌, ◌<◌, ◌+◌, ◌^◌, ◌++◌, drop, length, IfOk};
ghost use Rattle.jn_diff.specs.Diff as spec;
ghost use Rattle.jn_diff.specs.Hunks.{hunks, hunks_from};
ghost use Rattle.jn_diff.specs.Lines as lines_spec;

use crate::hunks::shown_count;
use crate::line::{Line, are_same, paired};
use crate::names::put_side;
use crate::texts::{added_count, hunk_text};
use jn_base::OutOfMemory;
use std::alloc::{AllocError, Global};

/// Puts the hunk that begins with the first line, where one does, after so many lines that only the new text has; and gives the number of
/// lines that need no second look, and after how many such lines those stand that follow.
fn put_hunk(
    alloc: Global,
    text: &mut Vec<u8>,
    back: usize,
    first: usize,
    lines: &[Line],
) -> Result<(usize, usize), AllocError>
    requires some { 0 < length lines.now }
    requires few { back + length lines.now < 2 ^ 64 }
    ensures passed { IfOk result (λ r. (1 ≤ r.0) × (r.0 ≤ length lines.now)) }
    ensures behind { IfOk result (λ r. r.1 ≤ back + r.0) }
    ensures text { IfOk result (λ r. text.new.items
        ++ spec.hunks_text r.1 (hunks_from (first + r.0) 0 (drop r.0 lines.now))
        ≡ text.old.items ++ spec.hunks_text back (hunks_from first 0 lines.now)) }
{
    let count = shown_count(lines);
    if count == 0 {
        return Ok((1, back));
    }
    let shown = &lines[..count];
    let hunk = hunk_text(alloc, back, first, shown)?;
    text.extend_from_slice(&hunk)?;
    Ok((count, back + added_count(shown)))
}

/// The texts of the hunks of lines.
fn hunks_text(alloc: Global, lines: &[Line]) -> Result<Vec<u8>, AllocError>
    ensures { IfOk result (λ text. text.items ≡ spec.hunks_text 0 (hunks lines.now)) }
{
    let mut text = Vec::new(alloc);
    let mut at = 0;
    let mut back = 0;
    while at < lines.len() {
        let (count, behind) = put_hunk(alloc, &mut text, back, 1 + at, &lines[at..])?;
        at += count;
        back = behind;
    }
    Ok(text)
}

fn names_text(alloc: Global, name: &str) -> Result<Vec<u8>, AllocError>
    ensures { IfOk result (λ text. text.items ≡ spec.names_text name.now) }
{
    let mut text = Vec::from_slice(alloc, b"--- ")?;
    put_side(alloc, &mut text, b"a/", name)?;
    text.extend_from_slice(b"\n+++ ")?;
    put_side(alloc, &mut text, b"b/", name)?;
    text.extend_from_slice(b"\n")?;
    Ok(text)
}

/// The unified diff that makes the old text of a file the new one, as `git apply` takes it; nothing where they are the same. Where the new
/// text has more lines, the first ones that differ count as added; else one line stands against the next of the other text.
///
/// # Errors
///
/// No memory was found.
pub fn file_diff(alloc: Global, name: &str, old: &[u8], new: &[u8]) -> Result<Vec<u8>, OutOfMemory>
    ensures { IfOk result (λ text. text.items ≡ spec.file_diff name.now old.now new.now) }
{
    if are_same(old, new) {
        return Ok(Vec::new(alloc));
    }
    let lines = paired(alloc, old, new)?;
    let hunks = hunks_text(alloc, &lines)?;
    let mut text = names_text(alloc, name)?;
    text.extend_from_slice(&hunks)?;
    Ok(text)
}
