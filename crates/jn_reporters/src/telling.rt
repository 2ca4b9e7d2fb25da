//! What a reporter for people says of a code, and of a note.
ghost use Rattle.std.specs.Prelude.{◌≡◌, ◌++◌, IfOk, OnOk};
ghost use Rattle.jn_reporters.specs.Words as spec;

use crate::shown::ShownNote;
use itoa::{Buffer, Integer};
use jn_base::Code;
use std::alloc::{AllocError, Global};

/// What is wrong, and what to do about it: `MESSAGE; cure: CURE`.
pub fn told(alloc: Global, code: Code) -> Result<Vec<u8>, AllocError>
    ensures { IfOk result (λ text. text.items ≡ spec.told code) }
{
    let mut text = Vec::from_slice(alloc, code.message().as_bytes())?;
    text.extend_from_slice(b"; cure: ")?;
    text.extend_from_slice(code.cure().as_bytes())?;
    Ok(text)
}

/// What a note tells, and where: `TEXT FILE:LINE:COL`.
pub fn noted(alloc: Global, note: &ShownNote) -> Result<Vec<u8>, AllocError>
    ensures { IfOk result (λ text. text.items ≡ spec.note_words note.now) }
{
    let mut text = Vec::from_slice(alloc, note.text.as_slice())?;
    text.extend_from_slice(b" ")?;
    text.extend_from_slice(note.name.as_str().as_bytes())?;
    text.extend_from_slice(b":")?;
    text.extend_from_slice(Buffer::new().format(note.line).as_bytes())?;
    text.extend_from_slice(b":")?;
    text.extend_from_slice(Buffer::new().format(note.col).as_bytes())?;
    Ok(text)
}

/// Puts a note that goes on with the one before it.
#[tactic(auto, unfolding(crate::specs::Words::joined_note))]
fn put_joined_note(out: &mut Vec<u8>, alloc: Global, note: &ShownNote) -> Result<(), AllocError>
    ensures { OnOk result (out.new.items ≡ out.old.items ++ spec.joined_note note.now) }
{
    let words = noted(alloc, note)?;
    let mut text = Vec::from_slice(alloc, b", ")?;
    text.extend_from_slice(&words)?;
    out.extend_from_slice(&text)
}

/// Puts the notes at the front that go on with the one before them.
fn put_joined(out: &mut Vec<u8>, alloc: Global, notes: &[ShownNote]) -> Result<(), AllocError>
    ensures { OnOk result (out.new.items ≡ out.old.items ++ spec.joined_notes notes.now) }
{
    for note in notes {
        if !note.joined {
            return Ok(());
        }
        put_joined_note(out, alloc, note)?;
    }
    Ok(())
}

/// The first note, with what goes on with it, after what is told of the code; nothing where there is none.
#[tactic(auto, unfolding(crate::specs::Words::first_note))]
fn first_note(alloc: Global, notes: &[ShownNote]) -> Result<Vec<u8>, AllocError>
    ensures { IfOk result (λ text. text.items ≡ spec.first_note notes.now) }
{
    let Some((first, rest)) = notes.split_first() else {
        return Ok(Vec::new(alloc));
    };
    let words = noted(alloc, first)?;
    let mut text = Vec::from_slice(alloc, b"; note: ")?;
    text.extend_from_slice(&words)?;
    put_joined(&mut text, alloc, rest)?;
    Ok(text)
}

/// What is wrong, what to do about it, and the first note: `MESSAGE; cure: CURE; note: NOTE`.
pub fn told_noted(alloc: Global, code: Code, notes: &[ShownNote]) -> Result<Vec<u8>, AllocError>
    ensures { IfOk result (λ text. text.items ≡ spec.told_noted code notes.now) }
{
    let mut text = told(alloc, code)?;
    let note = first_note(alloc, notes)?;
    text.extend_from_slice(&note)?;
    Ok(text)
}
