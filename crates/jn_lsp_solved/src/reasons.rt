//! Why a slot has its bits.
ghost use Rattle.std.specs.Prelude.{◌≡◌, ◌++◌, IfOk, slice_index_or};
ghost use Rattle.jn_notes.specs.Noted.{AreFrom};
ghost use Rattle.jn_quals.specs.Order.{no_qual};
ghost use Rattle.jn_reasons_law.specs.Items.{on};
ghost use Rattle.jn_lsp_solved.specs.Reasons.{AreReasons, bit_item};
ghost use Rattle.jn_lsp_solved.specs.Solving.{AreOriginsOf, AreParts, solved_of};

use crate::solved::Parts;
use jn_base::{OutOfMemory, SlotNo};
use jn_note_words::{Note, Notes};
use jn_notes::SolvedProgram;
use jn_notes::explain::{no_notes, notes_from};
use jn_origins::LeastOrigins;
use jn_origins::law::what_stands_has_a_chain;
use jn_quals::Qual;
use jn_reasons_law::{Bit, Item};
use std::alloc::{AllocError, Global};

fn is_on(qual: Qual, bit: Bit) -> bool
    ensures { result ≡ on bit qual }
{
    match bit {
        Bit::Nullable => qual.has_null(),
        Bit::Committed => qual.has_committed(),
        Bit::Free => qual.has_free(),
    }
}

/// The notes of the first chain of a bit, where the slot has it.
fn notes_of_bit(
    alloc: Global,
    of: &SolvedProgram,
    slot: u32,
    bit: Bit,
) -> Result<Notes, OutOfMemory>
    ensures { IfOk result (λ notes.
        AreFrom of.now.program of.now.names of.now.sig of.now.tables
        (bit_item slot (slice_index_or of.now.sig slot no_qual) bit) notes) }
{
    what_stands_has_a_chain();
    of.facts();
    let basis = of.basis();
    if is_on(basis.sig.get(SlotNo(slot)), bit) {
        notes_from(alloc, of, Item::AtSlot(slot, bit))
    } else {
        Ok(no_notes(alloc))
    }
}

/// These notes, and then the others.
fn joined(notes: Notes, others: Notes) -> Result<Vec<Note>, AllocError>
    ensures { IfOk result (λ all. all.items ≡ notes.shown ++ others.shown) }
{
    let mut all = notes.shown.into_vec();
    let mut more = others.shown.into_vec();
    all.append(&mut more)?;
    Ok(all)
}

/// The notes of the first chain of each bit that a slot has: that it may be null, and then that it may be under construction.
pub(crate) fn reasons_by(
    alloc: Global,
    parts: &Parts,
    origins: &LeastOrigins,
    slot: u32,
) -> Result<Vec<Note>, OutOfMemory>
    requires hold { AreParts parts.now }
    requires origins { AreOriginsOf (solved_of parts.now) origins.now }
    ensures { IfOk result (λ notes.
        AreReasons parts.now.names.now parts.now.program.now
        parts.now.sig.now parts.now.tables.now slot notes.items) }
{
    let of = SolvedProgram::new(parts.names, parts.owners, origins);
    let null = notes_of_bit(alloc, &of, slot, Bit::Nullable)?;
    let free = notes_of_bit(alloc, &of, slot, Bit::Free)?;
    let all = joined(null, free)?;
    Ok(all)
}
