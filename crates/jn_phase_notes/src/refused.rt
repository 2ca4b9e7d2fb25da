//! Which of its causes a row J5 has.
ghost use Rattle.std.specs.Prelude.{◌≡◌, IfOk};
ghost use Rattle.jn_phase_notes.specs.Told as spec;
ghost use Rattle.jn_phase_notes.specs.Stops.{one_note};

use crate::stops::one_note;
use jn_base::{OutOfMemory, Seq, Span};
use jn_note_words::{Note, Notes};
use jn_notes::reads::same_span;
use jn_refused_notes::{Refusal, cause_words};
use std::alloc::{AllocError, Global};

/// The first that stands at the place.
fn refusal_at(refusals: &[Refusal], span: Span) -> Option<Refusal>
    ensures { result ≡ spec.refusal_at refusals.now span }
{
    for refusal in refusals {
        if same_span(refusal.span, span) {
            return Some(*refusal);
        }
    }
    None
}

/// Its cause in words, and the place that is told of it.
fn refusal_note(alloc: Global, refusal: Refusal) -> Result<Note, AllocError>
    ensures { IfOk result (λ note. note ≡ spec.refusal_note refusal) }
{
    let words = Vec::from_slice(alloc, cause_words(refusal.cause).as_bytes())?;
    let (joined, ends) = (false, false);
    Ok(Note {
        joined,
        ends,
        words: Seq::of_vec(words),
        span: refusal.told,
    })
}

/// The notes of a row J5 at the place.
pub(crate) fn cause_notes(
    alloc: Global,
    refusals: &[Refusal],
    span: Span,
) -> Result<Notes, OutOfMemory>
    ensures { IfOk result (λ notes. notes ≡ one_note (spec.cause_note refusals.now span)) }
{
    match refusal_at(refusals, span) {
        None => one_note(alloc, None),
        Some(refusal) => {
            let note = refusal_note(alloc, refusal)?;
            one_note(alloc, Some(note))
        }
    }
}
