//! The rows that are asked for.
ghost use Rattle.std.specs.Prelude.{◌≡◌, slice_get, Some};
ghost use Rattle.jn_lsp_text.specs.Ranges.{range_at};
ghost use Rattle.jn_lsp_actions.specs.Asking as spec;

use jn_base::Span;
use jn_front::SourceFile;
use jn_lsp_solved::Marked;
use jn_lsp_text::{Position, Range};

fn is_before(one: Position, other: Position) -> bool
    ensures { result ≡ spec.is_before one other }
{
    one.line < other.line || (one.line == other.line && one.character < other.character)
}

/// Whether the ranges have a position in common; an end is one of its range.
pub fn meets(one: Range, other: Range) -> bool
    ensures { result ≡ spec.meets one other }
{
    !is_before(one.end, other.start) && !is_before(other.end, one.start)
}

/// The range of the span of the file.
#[tactic(auto, using(crate::proofs::Finding::range_found))]
fn range_there(marked: &Marked, file: &SourceFile, span: Span) -> Range
    requires there { slice_get marked.now.files span.file.0 ≡ Some file.now }
    ensures { result ≡ range_at marked.now.encoding file.now.bytes span.from span.to }
{
    let _file = file;
    marked.range(span.file.0 as usize, span.from, span.to)
}

/// Whether what stands at the span of the file is asked for: in a file of this name, in a range that meets this one.
fn is_asked_in(marked: &Marked, file: &SourceFile, name: &str, range: Range, span: Span) -> bool
    requires there { slice_get marked.now.files span.file.0 ≡ Some file.now }
    ensures { result ≡ spec.is_asked_in marked.now.encoding name.now range span (Some file.now) }
{
    file.name.as_str() == name && meets(range_there(marked, file, span), range)
}

/// Whether what stands at the span is asked for: in a file of this name, in a range that meets this one.
pub fn is_asked(marked: &Marked, name: &str, range: Range, span: Span) -> bool
    ensures { result ≡ spec.is_asked marked.now.encoding marked.now.files name.now range span }
{
    let files = marked.files();
    match files.get(span.file.0 as usize) {
        None => false,
        Some(file) => is_asked_in(marked, file, name, range, span),
    }
}
