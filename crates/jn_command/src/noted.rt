//! Notes of a report's rows, as a reporter is given them.
ghost use Rattle.std.specs.Prelude.{◌≡◌, List, None, Some, IfOk};
ghost use Rattle.jn_base.specs.declared.place.Span.{Span as SpecSpan};
ghost use Rattle.jn_front.specs.Files.{files_of_reads};
ghost use Rattle.jn_command.specs.declared.noted.Noted.{Noted as SpecNoted};
ghost use Rattle.jn_command.specs.Shown.{no_notes, note_of, note_of_file, noted_at};

use jn_base::{OutOfMemory, Seq, Span, Text, place_of};
use jn_front::SourceRead;
use jn_reporters::ShownNote;
use std::alloc::Global;

/// The notes of a row, in their order, and how many more were left out.
#[derive(Drop)]
pub struct Noted {
    pub notes: Seq<ShownNote>,
    pub more: usize,
}

/// Gives the notes of a report's rows, one row's at a time.
pub trait Notes {
    /// The notes of each row, in the rows' order. Rows after the last of them have none.
    ghost told: { Self → List SpecNoted };

    /// The notes of the row at this place among the rows.
    fn of_row(&self, alloc: Global, at: usize) -> Result<Noted, OutOfMemory>
        ensures { IfOk result (λ noted. noted ≡ noted_at (told self.now) at) };
}

/// No notes for any row.
pub struct NoNotes;

impl Notes for NoNotes {
    ghost use Rattle.std.specs.Prelude.{[]};

    ghost told = { λ a. [] };

    fn of_row(&self, alloc: Global, _at: usize) -> Result<Noted, OutOfMemory> {
        Ok(nothing(alloc))
    }
}

/// No notes.
pub fn nothing(alloc: Global) -> Noted
    ensures { result ≡ no_notes }
{
    Noted {
        notes: Seq::new(alloc),
        more: 0,
    }
}

/// The note that tells these words of a place in a file that was read.
fn note_in(
    alloc: Global,
    read: &SourceRead,
    joined: bool,
    ends: bool,
    words: &[u8],
    span: &Span,
) -> Result<ShownNote, OutOfMemory>
    ensures { IfOk result
        (λ note. note ≡ note_of_file (Some read.now.file) joined ends words.now span.now) }
{
    let text = read.file.bytes.as_slice();
    let at = Span {
        file: span.file,
        from: span.from.min(text.len() as u32),
        to: span.to,
    };
    let place = place_of(text, &at);
    Ok(ShownNote {
        text: Seq::of_vec(Vec::from_slice(alloc, words)?),
        name: Text::of_str(alloc, read.file.name.as_str())?,
        line: place.line,
        col: place.col,
        joined,
        ends,
    })
}

/// The same of a place in no file: it has no name.
fn note_nowhere(
    alloc: Global,
    joined: bool,
    ends: bool,
    words: &[u8],
) -> Result<ShownNote, OutOfMemory>
    ensures { IfOk result
        (λ note. (span : SpecSpan) → note ≡ note_of_file None joined ends words.now span) }
{
    Ok(ShownNote {
        text: Seq::of_vec(Vec::from_slice(alloc, words)?),
        name: Text::of_str(alloc, "")?,
        line: 1,
        col: 1,
        joined,
        ends,
    })
}

/// The note that tells these words of a place in the files that were read, at its first byte; where `joined` holds it goes on with the
/// note before it, and where `ends` does a chain of causes ends there.
///
/// # Errors
/// No memory was found.
pub fn note_of(
    alloc: Global,
    reads: &[SourceRead],
    joined: bool,
    ends: bool,
    words: &[u8],
    span: &Span,
) -> Result<ShownNote, OutOfMemory>
    ensures { IfOk result
        (λ note. note ≡ note_of (files_of_reads reads.now) joined ends words.now span.now) }
{
    let file = span.file.0 as usize;
    if file < reads.len() {
        note_in(alloc, &reads[file], joined, ends, words, span)
    } else {
        note_nowhere(alloc, joined, ends, words)
    }
}
