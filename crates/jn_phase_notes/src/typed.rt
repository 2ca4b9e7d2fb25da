//! The notes of rows J7: which type is found, and which is wanted.
ghost use Rattle.std.specs.Prelude.{◌≡◌, [], cond, map, IfOk, MatchOption, None, Some};
ghost use Rattle.jn_phase_notes.specs.Stops.{one_note};
ghost use Rattle.jn_phase_notes.specs.Wanting as spec;
ghost use Rattle.jn_places.specs.PlacedView.{placed_file};
ghost use Rattle.jn_points.specs.Members.{some_of};
ghost use Rattle.jn_type_notes.specs.Mismatched.{is_of_types, is_type_row};
ghost use Rattle.jn_type_notes.specs.Wording.{type_notes};

use crate::stops::one_note;
use jn_base::{Code, OutOfMemory, Row, Seq, Span};
use jn_note_words::{Note, Notes};
use jn_notes::reads::same_span;
use jn_trees::{FileTree, Names};
use jn_type_notes::type_notes;
use std::alloc::{AllocError, Global};
use std::thread::Threads;

fn is_of_types(code: Code) -> bool
    ensures { result ≡ is_of_types code }
{
    match code {
        Code::J7 => true,
        _ => false,
    }
}

/// Is one of the rows J7?
pub(crate) fn some_typed(rows: &[Row]) -> bool
    ensures { result ≡ some_of is_type_row rows.now }
{
    for row in rows {
        if is_of_types(row.code) {
            return true;
        }
    }
    false
}

/// The notes of operands whose types don't fit, where they are wanted.
pub(crate) fn types_if<R: Threads + Sync>(
    rt: &R,
    alloc: Global,
    names: &Names,
    trees: &[FileTree],
    wanted: bool,
) -> Result<Seq<Note>, OutOfMemory>
    ensures { IfOk result
        (λ notes. notes ≡ cond wanted (type_notes names.now (map placed_file trees.now)) []) }
{
    if wanted {
        type_notes(rt, alloc, names, trees)
    } else {
        Ok(Seq::new(alloc))
    }
}

/// The first that stands at the place.
fn note_at(notes: &[Note], span: Span) -> Option<&Note>
    ensures { MatchOption result (spec.note_at notes.now span ≡ None)
        (λ note. spec.note_at notes.now span ≡ Some note.now) }
{
    for note in notes {
        if same_span(note.span, span) {
            return Some(note);
        }
    }
    None
}

fn copied(alloc: Global, note: &Note) -> Result<Note, AllocError>
    ensures { IfOk result (λ copy. copy ≡ note.now) }
{
    let words = Vec::from_slice(alloc, note.words.as_slice())?;
    Ok(Note {
        joined: note.joined,
        ends: note.ends,
        words: Seq::of_vec(words),
        span: note.span,
    })
}

/// The notes of a row J7 at the place.
pub(crate) fn notes_at(alloc: Global, notes: &[Note], span: Span) -> Result<Notes, OutOfMemory>
    ensures { IfOk result (λ found. found ≡ one_note (spec.note_at notes.now span)) }
{
    match note_at(notes, span) {
        None => one_note(alloc, None),
        Some(note) => {
            let copy = copied(alloc, note)?;
            one_note(alloc, Some(copy))
        }
    }
}
