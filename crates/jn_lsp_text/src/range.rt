//! Ranges of a text.
ghost use Rattle.std.specs.Prelude.{◌≡◌, ◌≤◌, ◌<◌, ◌^◌, ◌++◌, length, IfOk};
ghost use Rattle.jn_lsp_text.specs.Ranges as spec;
ghost use Rattle.jn_lsp_text.specs.Ranges.{IsReplaced, HaveOneReplacement};

use crate::encoding::Encoding;
use crate::position::{Position, offset_of, position_of};
use jn_base::OutOfMemory;
use std::alloc::{AllocError, Global};

/// What stands between two positions (`Range`, Language Server Protocol 3.17): the end itself isn't in it.
#[derive(Clone, Copy, Debug, PartialEq, Eq, Drop)]
pub struct Range {
    pub start: Position,
    pub end: Position,
}

/// The range of the bytes from `from` up to, and without, `to`. An end beyond the text is the text's end, and a `to` before `from` is `from`.
pub fn range_of(encoding: Encoding, text: &[u8], from: u32, to: u32) -> Range
    requires small { length text.now < 2 ^ 30 }
    ensures { result ≡ spec.range_at encoding text.now from to }
{
    let length = text.len();
    Range {
        start: position_of(encoding, text, (from as usize).min(length)),
        end: position_of(encoding, text, (from.max(to) as usize).min(length)),
    }
}

/// The text with `new` in place of the range (`TextDocumentContentChangeEvent`, Language Server Protocol 3.17). A range whose end stands
/// before its start is taken as from its end to its start. In UTF-8 a range may begin or end within a character, whose bytes are parted
/// then. The one error is want of memory.
pub fn replace(
    alloc: Global,
    encoding: Encoding,
    text: &[u8],
    range: Range,
    new: &[u8],
) -> Result<Vec<u8>, OutOfMemory>
    ensures { IfOk result (λ made. IsReplaced encoding text.now range new.now made.items) }
{
    let start = offset_of(encoding, text, range.start);
    let end = offset_of(encoding, text, range.end);
    Ok(joined(alloc, &text[..start.min(end)], new, &text[start.max(end)..])?)
}

/// The three, one after the other.
fn joined(alloc: Global, before: &[u8], new: &[u8], behind: &[u8]) -> Result<Vec<u8>, AllocError>
    ensures { IfOk result (λ made. made.items ≡ before.now ++ new.now ++ behind.now) }
{
    let mut made = Vec::from_slice(alloc, before)?;
    made.extend_from_slice(new)?;
    made.extend_from_slice(behind)?;
    Ok(made)
}

/// Says that a text with a range replaced is one text.
pub fn ranges_have_one_replacement()
    ensures { HaveOneReplacement }
{}
