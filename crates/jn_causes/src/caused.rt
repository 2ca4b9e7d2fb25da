//! What is kept of a row.
ghost use Rattle.std.specs.Prelude.{◌≡◌, IfOk, option_copied};
ghost use Rattle.jn_causes.specs.Causes as spec;
ghost use Rattle.jn_reporters.specs.Reports.{plain_row};

use jn_base::{Code, OutOfMemory, Seq};
use jn_reporters::telling::noted;
use jn_reporters::{Plain, Reporter, RowView, ShownNote};
use std::alloc::{AllocError, Global};

/// What is kept of a row: whether its chain of causes has an end, what stands after the number of rows of its group, and its line.
#[derive(Drop)]
pub struct Caused {
    pub ends: bool,
    pub head: Seq<u8>,
    pub line: Seq<u8>,
}

/// The last note with which a chain of causes ends.
fn end_of(notes: &[ShownNote]) -> Option<&ShownNote>
    ensures { option_copied result ≡ spec.end_of notes.now }
{
    let mut left = notes;
    while let Some((last, before)) = left.split_last() {
        if last.ends {
            return Some(last);
        }
        left = before;
    }
    None
}

/// What stands after the number of rows of a group: `: ` and the end, or a space and the code.
fn head_of(alloc: Global, code: Code, end: Option<&ShownNote>) -> Result<Vec<u8>, AllocError>
    ensures { IfOk result (λ head. head.items ≡ spec.head_of code (option_copied end.entry)) }
{
    match end {
        None => {
            let mut head = Vec::from_slice(alloc, b" ")?;
            head.extend_from_slice(code.name().as_bytes())?;
            Ok(head)
        }
        Some(note) => {
            let mut head = Vec::from_slice(alloc, b": ")?;
            let words = noted(alloc, note)?;
            head.extend_from_slice(&words)?;
            Ok(head)
        }
    }
}

/// The row's line, as the plain report has it.
fn line_of(alloc: Global, row: &RowView<'_>) -> Result<Vec<u8>, OutOfMemory>
    ensures { IfOk result (λ line. line.items ≡ plain_row row.now) }
{
    let mut plain = Plain::new(alloc);
    plain.take(row)?;
    Ok(Vec::from_slice(alloc, plain.bytes())?)
}

/// What is kept of the row.
pub fn caused_of(alloc: Global, row: &RowView<'_>) -> Result<Caused, OutOfMemory>
    ensures { IfOk result (λ caused. caused ≡ spec.caused_of row.now) }
{
    let end = end_of(row.notes());
    let head = head_of(alloc, row.row().code, end)?;
    let line = line_of(alloc, row)?;
    Ok(Caused {
        ends: end.is_some(),
        head: Seq::of_vec(head),
        line: Seq::of_vec(line),
    })
}
