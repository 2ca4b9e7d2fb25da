//! The note of a test that isn't kept.
ghost use Rattle.std.specs.Prelude.{◌≡◌, IfOk, None, Some};
ghost use Rattle.jn_note_words.specs.Unkept as spec;

use crate::note::{Note, Notes};
use crate::spans::point_span;
use jn_base::lists::put;
use jn_base::{OutOfMemory, Seq};
use jn_points::Program;
use jn_reasons_law::{Bit, Item};
use jn_unkept::{Held, Reading, Unkept, find_unkept};
use std::alloc::{AllocError, Global};

/// Why a test isn't kept of a value that is read so.
fn reading_words(reading: Reading) -> &'static str
    ensures { result.now ≡ spec.reading_words reading }
{
    match reading {
        Reading::OfField => {
            "what a test says of a field isn't kept where its object is in no local: it was tested at"
        }
        Reading::OfElement => "what a test says of an element isn't kept: it was tested at",
        Reading::OfResult => "what a test says of a method's result isn't kept: it was tested at",
        Reading::Stored =>
            "what a test says isn't kept where its result is stored: it was tested at",
    }
}

fn unkept_note(
    alloc: Global,
    program: &Program,
    body: u32,
    found: Unkept,
) -> Result<Note, AllocError>
    ensures { IfOk result (λ note. note ≡ spec.unkept_note program.now body found) }
{
    let words = reading_words(found.reading);
    Ok(Note {
        joined: false,
        ends: false,
        words: Seq::of_vec(Vec::from_slice(alloc, words.as_bytes())?),
        span: point_span(program, body, found.tested),
    })
}

fn notes_by(
    alloc: Global,
    program: &Program,
    body: u32,
    found: Option<Unkept>,
) -> Result<Vec<Note>, AllocError>
    ensures { IfOk result (λ notes. notes.items ≡ spec.notes_by program.now body found) }
{
    let mut notes = Vec::new(alloc);
    match found {
        None => {}
        Some(found) => put(&mut notes, unkept_note(alloc, program, body, found)?)?,
    }
    Ok(notes)
}

fn item_notes(alloc: Global, program: &Program, item: Item) -> Result<Vec<Note>, OutOfMemory>
    ensures { IfOk result (λ notes. notes.items ≡ spec.item_notes program.now item) }
{
    match item {
        Item::AtRegister(body, point, reg, Bit::Nullable) => {
            let found = find_unkept(alloc, program, body, Held { point, reg })?;
            Ok(notes_by(alloc, program, body, found)?)
        }
        _ => Ok(Vec::new(alloc)),
    }
}

fn unkept_notes(
    alloc: Global,
    program: &Program,
    item: Option<Item>,
) -> Result<Vec<Note>, OutOfMemory>
    ensures { IfOk result (λ notes. notes.items ≡ spec.unkept_notes program.now item) }
{
    match item {
        None => Ok(Vec::new(alloc)),
        Some(item) => item_notes(alloc, program, item),
    }
}

/// The note of a test of the item's value that isn't kept, where there is one, and then these.
///
/// # Errors
/// No memory was found.
pub fn preceded(
    alloc: Global,
    program: &Program,
    item: Option<Item>,
    notes: Notes,
) -> Result<Notes, OutOfMemory>
    ensures { IfOk result (λ r. r ≡ spec.preceded program.now item notes) }
{
    let mut shown = unkept_notes(alloc, program, item)?;
    let Notes { shown: rest, more } = notes;
    let mut others = rest.into_vec();
    shown.append(&mut others)?;
    Ok(Notes {
        shown: Seq::of_vec(shown),
        more,
    })
}
