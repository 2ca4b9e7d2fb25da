//! The notes of rows of files that have no trees: beside each syntax row, where its file stops being of the subset.
ghost use Rattle.std.specs.Prelude.{◌≡◌, IfOk, Some, slice_get};
ghost use Rattle.jn_front.specs.Files.{files_of_reads};
ghost use Rattle.jn_phase_notes.specs.Stops as spec;

use jn_base::lists::put;
use jn_base::{Code, OutOfMemory, Row, Seq, Span};
use jn_follow::{StopNote, note_beside};
use jn_front::SourceRead;
use jn_note_words::{Note, Notes};
use std::alloc::Global;

/// Does a row of this code say that a file's tokens are no file of the subset?
fn is_syntax(code: Code) -> bool
    ensures { result ≡ spec.is_syntax code }
{
    match code {
        Code::S1 => true,
        _ => false,
    }
}

/// A note as the one note of a row, or no note.
pub(crate) fn one_note(alloc: Global, note: Option<Note>) -> Result<Notes, OutOfMemory>
    ensures { IfOk result (λ notes. notes ≡ spec.one_note note) }
{
    let mut shown = Seq::new(alloc);
    match note {
        None => Ok(Notes { shown, more: 0 }),
        Some(note) => {
            shown.push(note)?;
            Ok(Notes { shown, more: 0 })
        }
    }
}

/// Where a text stops being of the subset, as the one note of a row, or no note.
fn stop_notes(alloc: Global, note: Option<StopNote>) -> Result<Notes, OutOfMemory>
    ensures { IfOk result (λ notes. notes ≡ spec.stop_notes note) }
{
    match note {
        None => one_note(alloc, None),
        Some(StopNote { words, span }) => {
            let (joined, ends) = (false, false);
            one_note(
                alloc,
                Some(Note {
                    joined,
                    ends,
                    words,
                    span,
                }),
            )
        }
    }
}

/// Of a place in a file that was read, the note of where its text stops being of the subset.
fn notes_in(alloc: Global, read: &SourceRead, span: Span) -> Result<Notes, OutOfMemory>
    ensures { IfOk result (λ notes. spec.AreStopsIn (Some read.now.file) span notes) }
{
    let note = note_beside(alloc, span.file, read.file.bytes.as_slice(), &span)?;
    stop_notes(alloc, note)
}

/// The same of a place in one of the files; there is none where no file has this number.
fn notes_at(alloc: Global, reads: &[SourceRead], span: Span) -> Result<Notes, OutOfMemory>
    ensures { IfOk result
        (λ notes. spec.AreStopsIn (slice_get (files_of_reads reads.now) span.file.0) span notes) }
{
    let file = span.file.0 as usize;
    if file < reads.len() {
        notes_in(alloc, &reads[file], span)
    } else {
        one_note(alloc, None)
    }
}

/// The notes of a row.
fn notes_of_row(alloc: Global, reads: &[SourceRead], row: Row) -> Result<Notes, OutOfMemory>
    ensures { IfOk result (λ notes. spec.AreStopsBy (spec.is_syntax row.code)
        (slice_get (files_of_reads reads.now) row.span.file.0) row.span notes) }
{
    if is_syntax(row.code) {
        notes_at(alloc, reads, row.span)
    } else {
        one_note(alloc, None)
    }
}

/// The notes of rows of files that have no trees, row by row.
///
/// # Errors
/// No memory was found.
pub fn notes_of_texts(
    alloc: Global,
    reads: &[SourceRead],
    rows: &[Row],
) -> Result<Vec<Notes>, OutOfMemory>
    ensures { IfOk result
        (λ notes. spec.AreStops (files_of_reads reads.now) rows.now notes.items) }
{
    let mut list = Vec::new(alloc);
    for row in rows {
        let notes = notes_of_row(alloc, reads, *row)?;
        put(&mut list, notes)?;
    }
    Ok(list)
}
