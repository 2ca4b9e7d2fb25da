//! Hints with the places that tell why.
ghost use Rattle.std.specs.Prelude.{◌≡◌, map, IfOk};
ghost use Rattle.jn_lsp_solved.specs.Related.{related_of};
ghost use Rattle.jn_lsp_actions.specs.Hinted as spec;

use crate::hints::SlotHint;
use jn_base::lists::put;
use jn_base::{OutOfMemory, Seq};
use jn_lsp_solved::related::all_related_in;
use jn_lsp_solved::{Marked, Traced};
use jn_lsp_text::{Hint, Related};
use jn_note_words::Note;
use std::alloc::{AllocError, Global};

/// The hint with the places that tell why.
fn with_related(alloc: Global, hint: &Hint, related: Seq<Related>) -> Result<Hint, AllocError>
    ensures { IfOk result (λ made. made ≡ spec.with_related hint.now related) }
{
    Ok(Hint {
        at: hint.at,
        label: hint.label.copy(alloc)?,
        space_before: hint.space_before,
        space_behind: hint.space_behind,
        related,
    })
}

/// Notes at their files, of which these are marked.
fn related_by(
    alloc: Global,
    traced: &Traced,
    marked: &Marked,
    notes: &[Note],
) -> Result<Seq<Related>, AllocError>
    requires marked { marked.now ≡ record { encoding = traced.now.encoding; files = traced.now.files } }
    ensures { IfOk result (λ related. related
        ≡ map (related_of traced.now.encoding traced.now.files) notes.now) }
{
    let _traced = traced;
    all_related_in(alloc, marked, notes)
}

/// A hint with the notes of the first chains of its slot.
fn explained(
    alloc: Global,
    traced: &Traced,
    marked: &Marked,
    one: &SlotHint,
) -> Result<Hint, OutOfMemory>
    requires marked { marked.now ≡ record { encoding = traced.now.encoding; files = traced.now.files } }
    ensures { IfOk result (λ hint.
        spec.IsExplained traced.now.encoding traced.now.files traced.now.names traced.now.program
        traced.now.sig traced.now.tables one.now hint) }
{
    let notes = traced.reasons_of(alloc, one.slot)?;
    let related = related_by(alloc, traced, marked, &notes)?;
    let hint = with_related(alloc, &one.hint, related)?;
    Ok(hint)
}

/// The same of each.
fn all_explained(
    alloc: Global,
    traced: &Traced,
    marked: &Marked,
    shown: &[SlotHint],
) -> Result<Vec<Hint>, OutOfMemory>
    requires marked { marked.now ≡ record { encoding = traced.now.encoding; files = traced.now.files } }
    ensures { IfOk result (λ hints.
        spec.AreExplained traced.now.encoding traced.now.files traced.now.names traced.now.program
        traced.now.sig traced.now.tables shown.now hints.items) }
{
    let mut hints = Vec::new(alloc);
    for one in shown {
        let hint = explained(alloc, traced, marked, one)?;
        put(&mut hints, hint)?;
    }
    Ok(hints)
}

/// The same of each, from the marks of the files.
fn explained_from_marks(
    alloc: Global,
    traced: &Traced,
    shown: &[SlotHint],
) -> Result<Vec<Hint>, OutOfMemory>
    ensures { IfOk result (λ hints.
        spec.AreExplained traced.now.encoding traced.now.files traced.now.names traced.now.program
        traced.now.sig traced.now.tables shown.now hints.items) }
{
    let marked = traced.solved_files().marked(alloc, shown.len() > 0)?;
    let hints = all_explained(alloc, traced, &marked, shown)?;
    Ok(hints)
}

/// Hints of solved files, each with the notes of the first chains of its slot at their places.
///
/// # Errors
/// No memory was found.
pub fn with_reasons(
    alloc: Global,
    traced: &Traced,
    shown: &[SlotHint],
) -> Result<Seq<Hint>, OutOfMemory>
    ensures { IfOk result (λ hints.
        spec.HaveReasons traced.now.encoding traced.now.files traced.now.names traced.now.program
        traced.now.sig shown.now hints) }
{
    traced.facts();
    let hints = explained_from_marks(alloc, traced, shown)?;
    Ok(Seq::of_vec(hints))
}
