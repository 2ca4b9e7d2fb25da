//! Which inferred slots get words.
ghost use Rattle.std.specs.Prelude.{◌≡◌, IfOk, slice_index_or};
ghost use Rattle.jn_quals.specs.Order.{no_qual};
ghost use Rattle.jn_annotate.specs.Chosen as spec;

use crate::words::is_unspelled;
use jn_base::{OutOfMemory, Seq, SlotNo};
use jn_points::{Program, SlotInfo};
use jn_quals::Qual;
use jn_sigs::Sig;
use std::alloc::{AllocError, Global};

/// Whether a position says this on which nothing is written, where it isn't inferred.
fn is_default(q: Qual) -> bool
    ensures { result ≡ spec.is_default q }
{
    q.has_committed() && !q.has_free() && !q.has_null()
}

/// Whether words are put for the qualifier.
fn gets_words(terse: bool, q: Qual) -> bool
    ensures { result ≡ spec.gets_words terse q }
{
    !is_unspelled(q) && !(terse && is_default(q))
}

/// The qualifier of the slot; empty where there is no such slot.
fn qual_at(sig: &Sig, at: usize) -> Qual
    ensures { result ≡ slice_index_or sig.now at no_qual }
{
    if at < sig.slots() as usize {
        sig.get(SlotNo(at as u32))
    } else {
        Qual::none()
    }
}

/// The slots, which count as inferred only where they get words.
fn chosen_slots(
    alloc: Global,
    terse: bool,
    slots: &[SlotInfo],
    sig: &Sig,
) -> Result<Seq<SlotInfo>, AllocError>
    ensures { IfOk result (λ made. made ≡ spec.chosen_from terse sig.now 0 slots.now) }
{
    let mut made = Seq::new(alloc);
    for at in 0..slots.len() {
        let info = &slots[at];
        made.push(SlotInfo {
            start: info.start,
            inferred: info.inferred && gets_words(terse, qual_at(sig, at)),
        })?;
    }
    Ok(made)
}

/// A program that has its slots alone, which count as inferred only where they get words: where an annotation says the qualifier, and, where words
/// are terse, it isn't the default.
///
/// # Errors
/// No memory was found.
pub fn chosen_program(
    alloc: Global,
    terse: bool,
    program: &Program,
    sig: &Sig,
) -> Result<Program, OutOfMemory>
    ensures { IfOk result (λ made. made.slots ≡ spec.chosen_slots terse program.now sig.now) }
{
    Ok(Program {
        classes: Seq::new(alloc),
        fields: Seq::new(alloc),
        methods: Seq::new(alloc),
        bodies: Seq::new(alloc),
        slots: chosen_slots(alloc, terse, program.slots.as_slice(), sig)?,
    })
}
