//! The least slot that lacks what methods that override send to it.
ghost use Rattle.std.specs.Prelude.{◌≡◌, ◌<◌, IfOk, length};
ghost use Rattle.jn_points.specs.Regular.{FewItems};
ghost use Rattle.jn_contrib.specs.Entries.{AreOverriders};
ghost use Rattle.jn_contrib.specs.Sends.{slot_numbers};
ghost use Rattle.jn_transfer.specs.Pairs.{pair_sends, under};
ghost use Rattle.jn_cert_judge.specs.Judging as spec;

use crate::sends::note;
use jn_base::{MethodNo, OutOfMemory, SlotNo};
use jn_contrib::{Overrider, overriders, pair_contrib_by};
use jn_index::indexed::IndexedProgram;
use jn_points::Program;
use jn_quals::Qual;
use jn_sigs::Sig;
use std::alloc::Global;

/// Notes each slot that lacks what is sent to it.
fn note_slots(sig: &Sig, least: Option<u32>, sends: &[(SlotNo, Qual)]) -> Option<u32>
    ensures { result ≡ spec.note_all sig.now least (slot_numbers sends.now) }
{
    let mut noted = least;
    for (slot, qual) in sends {
        noted = note(sig, noted, slot.0, *qual);
    }
    noted
}

/// Notes what a method sends.
fn note_method(
    alloc: Global,
    program: &Program,
    sig: &Sig,
    least: Option<u32>,
    over: &Overrider,
) -> Result<Option<u32>, OutOfMemory>
    requires inside { over.now.method < length program.now.methods }
    requires under { over.now.under ≡ under program.now over.now.method }
    ensures { IfOk result (λ noted. noted
        ≡ spec.note_all sig.now least (pair_sends program.now sig.now over.now.method)) }
{
    let method = MethodNo(over.method);
    let sends = pair_contrib_by(alloc, program, sig, method, over.under.as_slice())?;
    Ok(note_slots(sig, least, &sends))
}

/// Notes what each of the methods sends.
fn note_methods(
    alloc: Global,
    program: &Program,
    sig: &Sig,
    least: Option<u32>,
    list: &[Overrider],
) -> Result<Option<u32>, OutOfMemory>
    requires overriders { AreOverriders program.now list.now }
    ensures { IfOk result (λ noted. noted
        ≡ spec.note_all sig.now least (spec.overriding_sends program.now sig.now)) }
{
    let mut noted = least;
    for at in 0..list.len() {
        noted = note_method(alloc, program, sig, noted, &list[at])?;
    }
    Ok(noted)
}

/// Notes what the methods that override send, in their order.
///
/// # Errors
/// No memory was found.
pub fn note_overriding(
    alloc: Global,
    program: &IndexedProgram,
    sig: &Sig,
    least: Option<u32>,
) -> Result<Option<u32>, OutOfMemory>
    requires few { FewItems program.now }
    ensures { IfOk result (λ noted. noted
        ≡ spec.note_all sig.now least (spec.overriding_sends program.now sig.now)) }
{
    let list = overriders(alloc, program)?;
    note_methods(alloc, program.program(), sig, least, list.as_slice())
}
