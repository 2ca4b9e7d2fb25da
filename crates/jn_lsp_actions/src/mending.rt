//! The diagnostics that actions mend.
ghost use Rattle.std.specs.Prelude.{◌≡◌, ◌++◌, ◌∷◌, [], cond, IfOk, OnOk};
ghost use Rattle.jn_lsp_actions.specs.Mended as spec;

use jn_base::{OutOfMemory, Row, Seq};
use jn_lsp_solved::related::diagnostic_of;
use jn_lsp_solved::{Marked, Traced};
use jn_lsp_text::Diagnostic;
use jn_note_words::Notes;
use std::alloc::{AllocError, Global};

/// Rows that are asked for, by their diagnostics, and the slots at which something is offered for each.
#[derive(Clone, Copy)]
pub struct Mending<'a> {
    pub wants: &'a [Seq<u32>],
    pub diagnostics: &'a [Diagnostic],
}

/// The diagnostics of rows of marked files, each with its notes.
#[tactic(auto, using(crate::proofs::Listing::next_diagnostic))]
fn diagnostics_in(
    alloc: Global,
    marked: &Marked,
    rows: &[Row],
    notes: &[Notes],
) -> Result<Seq<Diagnostic>, AllocError>
    ensures { IfOk result (λ made. made
        ≡ spec.diagnostics_of marked.now.encoding marked.now.files rows.now notes.now) }
{
    let mut made = Seq::new(alloc);
    let mut rest = rows;
    let mut left = notes;
    while let [row, more @ ..] = rest {
        match left {
            [] => return Ok(made),
            [first, others @ ..] => {
                made.push(diagnostic_of(alloc, marked, row, first.shown.as_slice())?)?;
                rest = more;
                left = others;
            }
        }
    }
    Ok(made)
}

/// The diagnostics of rows, each with its notes.
///
/// # Errors
/// No memory was found.
pub fn diagnostics_of(
    alloc: Global,
    traced: &Traced,
    rows: &[Row],
    notes: &[Notes],
) -> Result<Seq<Diagnostic>, OutOfMemory>
    ensures { IfOk result (λ made. made
        ≡ spec.diagnostics_of traced.now.encoding traced.now.files rows.now notes.now) }
{
    let marked = traced.solved_files().marked(alloc, rows.len() > 0)?;
    let made = diagnostics_in(alloc, &marked, rows, notes)?;
    Ok(made)
}

/// Whether the slot is among these.
pub fn comes(slot: u32, slots: &[u32]) -> bool
    ensures { result ≡ spec.comes slot slots.now }
{
    let mut rest = slots;
    while let [other, more @ ..] = rest {
        if *other == slot {
            return true;
        }
        rest = more;
    }
    false
}

/// Puts a diagnostic after the others, where the slot is among those of its row.
fn push_if(
    made: &mut Seq<Diagnostic>,
    alloc: Global,
    slot: u32,
    slots: &[u32],
    one: &Diagnostic,
) -> Result<(), AllocError>
    ensures { OnOk result
        (made.new ≡ made.old ++ cond (spec.comes slot slots.now) (one.now ∷ []) []) }
{
    if comes(slot, slots) {
        made.push(one.copy(alloc)?)
    } else {
        Ok(())
    }
}

/// The diagnostics of the rows among whose slots this one is.
///
/// # Errors
/// No memory was found.
#[tactic(auto, using(crate::proofs::Listing::next_part))]
pub fn mended(alloc: Global, mending: &Mending, slot: u32) -> Result<Seq<Diagnostic>, AllocError>
    ensures { IfOk result (λ made. made
        ≡ spec.mended mending.now.wants.now mending.now.diagnostics.now slot) }
{
    let mut made = Seq::new(alloc);
    let mut rest = mending.wants;
    let mut left = mending.diagnostics;
    while let [slots, more @ ..] = rest {
        match left {
            [] => return Ok(made),
            [first, others @ ..] => {
                push_if(&mut made, alloc, slot, slots.as_slice(), first)?;
                rest = more;
                left = others;
            }
        }
    }
    Ok(made)
}
