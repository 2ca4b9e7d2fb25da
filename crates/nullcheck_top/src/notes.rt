//! The notes of a report's rows, with their places in the files.
ghost use Rattle.std.specs.Prelude.{◌≡◌, List, IfOk, map};
ghost use Rattle.jn_command.specs.Shown.{noted_at};
ghost use Rattle.jn_front.specs.Files.{files_of_reads};
ghost use Rattle.nullcheck_top.specs.Report.{placed, placed_note};

use crate::marks::MarkedFile;
use jn_base::{OutOfMemory, Seq};
use jn_command::noted::{Noted, Notes as RowNotes, note_of, nothing};
use jn_note_words::{Note, Notes};
use jn_reporters::ShownNote;
use std::alloc::Global;
use std::marker::Model;

/// The notes of a report's rows, in the rows' order. Each row's get their places when the row is shown.
#[derive(Drop)]
pub(crate) struct PlacedNotes<'a, 'b> {
    files: &'a [MarkedFile<'b>],
    notes: &'a [Notes],
}

impl<'a, 'b> Model for PlacedNotes<'a, 'b> {
    ghost use Rattle.std.specs.Prelude.{List, map};
    ghost use Rattle.jn_command.specs.declared.noted.Noted.{Noted as SpecNoted};
    ghost use Rattle.jn_front.specs.Files.{files_of_reads};
    ghost use Rattle.nullcheck_top.specs.Report.{placed};

    ghost Value = { List SpecNoted };

    ghost view = { λ a. map (placed (files_of_reads a.files.now)) a.notes.now };
}

impl<'a, 'b> PlacedNotes<'a, 'b> {
    pub(crate) fn new(files: &'a [MarkedFile<'b>], notes: &'a [Notes]) -> PlacedNotes<'a, 'b>
        ensures { result ≡ map (placed (files_of_reads files.now)) notes.now }
    {
        PlacedNotes { files, notes }
    }
}

impl<'a, 'b> RowNotes for PlacedNotes<'a, 'b> {
    ghost told = { λ a. a };

    fn of_row(&self, alloc: Global, at: usize) -> Result<Noted, OutOfMemory> {
        notes_at(alloc, self.files, self.notes, at)
    }
}

/// The notes at this place, and none after the last.
fn notes_at(
    alloc: Global,
    files: &[MarkedFile<'_>],
    notes: &[Notes],
    at: usize,
) -> Result<Noted, OutOfMemory>
    ensures { IfOk result
        (λ noted. noted ≡ noted_at (map (placed (files_of_reads files.now)) notes.now) at) }
{
    if at < notes.len() {
        placed(alloc, files, &notes[at])
    } else {
        Ok(nothing(alloc))
    }
}

/// The notes of a row, with their places.
fn placed(alloc: Global, files: &[MarkedFile<'_>], notes: &Notes) -> Result<Noted, OutOfMemory>
    ensures { IfOk result (λ noted. noted ≡ placed (files_of_reads files.now) notes.now) }
{
    Ok(Noted {
        notes: placed_notes(alloc, files, notes.shown.as_slice())?,
        more: notes.more,
    })
}

fn placed_notes(
    alloc: Global,
    files: &[MarkedFile<'_>],
    notes: &[Note],
) -> Result<Seq<ShownNote>, OutOfMemory>
    ensures { IfOk result
        (λ placed. placed ≡ map (placed_note (files_of_reads files.now)) notes.now) }
{
    let mut placed = Seq::new(alloc);
    for note in notes {
        placed.push(placed_note(alloc, files, note)?)?;
    }
    Ok(placed)
}

/// The note with its place; one of no file stands nowhere.
fn placed_note(
    alloc: Global,
    files: &[MarkedFile<'_>],
    note: &Note,
) -> Result<ShownNote, OutOfMemory>
    ensures { IfOk result
        (λ shown. shown ≡ placed_note (files_of_reads files.now) note.now) }
{
    let file = note.span.file.0 as usize;
    if file < files.len() {
        files[file].note(
            alloc,
            note.joined,
            note.ends,
            note.words.as_slice(),
            &note.span,
        )
    } else {
        note_of(
            alloc,
            &[],
            note.joined,
            note.ends,
            note.words.as_slice(),
            &note.span,
        )
    }
}
