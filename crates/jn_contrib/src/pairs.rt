//! What a method that overrides sends.
ghost use Rattle.std.specs.Prelude.{◌≡◌, ◌<◌, ◌^◌, ◌++◌, ◌∷◌, [], IfOk, OnOk, Some, None, cond, flat_map, length, slice_get, slice_index_or};
ghost use Rattle.jn_points.specs.Lookup.{method_at};
ghost use Rattle.jn_transfer.specs.Contributions.{sends};
ghost use Rattle.jn_contrib.specs.Sends.{slot_numbers};
ghost use Rattle.jn_transfer.specs.Pairs.{under, slot_sends, slots_sends, override_sends, pair_sends};

use crate::body::with_slots;
use crate::sends::{Send, send, slot_at};
use crate::under::under_of;
use jn_base::{MethodNo, OutOfMemory, SlotNo};
use jn_index::indexed::IndexedProgram;
use jn_points::lookup::method_at;
use jn_points::{Method, Program};
use jn_quals::Qual;
use jn_sigs::Sig;
use std::alloc::{AllocError, Global};

/// What the first slot has, to the second.
fn send_slot(
    program: &Program,
    list: &mut Vec<Send>,
    sig: &Sig,
    from: Option<SlotNo>,
    to: Option<SlotNo>,
) -> Result<(), AllocError>
    ensures { OnOk result (list.new.items
        ≡ list.old.items ++ slot_sends program.now sig.now from to) }
{
    match from {
        None => Ok(()),
        Some(slot) => send(program, list, to, sig.get(slot)),
    }
}

/// Slot by slot.
fn send_slots(
    program: &Program,
    list: &mut Vec<Send>,
    sig: &Sig,
    from: &[Option<SlotNo>],
    to: &[Option<SlotNo>],
) -> Result<(), AllocError>
    ensures { OnOk result (list.new.items
        ≡ list.old.items ++ slots_sends program.now sig.now from.now to.now) }
{
    for i in 0..from.len() {
        let low = slot_at(from, i);
        let high = slot_at(to, i);
        send_slot(program, list, sig, low, high)?;
    }
    Ok(())
}

/// To the overrider's parameters and receiver, and from its result.
#[tactic(auto, using(crate::proofs::Gathering::three_sent))]
fn send_override(
    program: &Program,
    list: &mut Vec<Send>,
    sig: &Sig,
    over: &Method,
    lower: &Method,
) -> Result<(), AllocError>
    ensures { OnOk result (list.new.items
        ≡ list.old.items ++ override_sends program.now sig.now (Some over.now) (Some lower.now)) }
{
    send_slots(
        program,
        list,
        sig,
        lower.param_slots.as_slice(),
        over.param_slots.as_slice(),
    )?;
    send_slot(program, list, sig, lower.receiver, over.receiver)?;
    send_slot(program, list, sig, over.result_slot, lower.result_slot)
}

/// With a method of a number.
#[tactic(auto, using(crate::proofs::Gathering::lower_there, crate::proofs::Gathering::no_lower_sends))]
fn send_found(
    program: &Program,
    list: &mut Vec<Send>,
    sig: &Sig,
    over: &Method,
    k: u32,
) -> Result<(), AllocError>
    ensures { OnOk result (list.new.items
        ≡ list.old.items
        ++ override_sends program.now sig.now (Some over.now) (method_at program.now k)) }
{
    match method_at(program, k as usize) {
        None => Ok(()),
        Some(lower) => send_override(program, list, sig, over, lower),
    }
}

/// With each of some methods.
fn send_some(
    program: &Program,
    list: &mut Vec<Send>,
    sig: &Sig,
    over: &Method,
    ks: &[u32],
) -> Result<(), AllocError>
    ensures { OnOk result (list.new.items
        ≡ list.old.items
        ++ flat_map (λ k. override_sends program.now sig.now (Some over.now)
        (method_at program.now k)) ks.now) }
{
    for k in ks {
        send_found(program, list, sig, over, *k)?;
    }
    Ok(())
}

/// What a method sends whose overridden methods are at hand; see `pair_contrib`.
///
/// # Errors
/// No memory was found.
#[tactic(auto, using(crate::proofs::Gathering::all_sent))]
pub fn pair_contrib_by(
    alloc: Global,
    program: &Program,
    sig: &Sig,
    method: MethodNo,
    ks: &[u32],
) -> Result<Vec<(SlotNo, Qual)>, OutOfMemory>
    requires inside { method.0 < length program.now.methods }
    requires under { ks.now ≡ under program.now method.0 }
    ensures { IfOk result
        (λ sends. slot_numbers sends.items ≡ pair_sends program.now sig.now method.0) }
{
    let over = &program.methods.as_slice()[method.0 as usize];
    let mut list = Vec::new(alloc);
    send_some(program, &mut list, sig, over, ks)?;
    Ok(with_slots(alloc, list)?)
}

/// What a method sends into inferred slots, for each method that it overrides: that one's parameters and receiver to its own, and its
/// result to that one's. Each slot stands with the qualifier that is sent to it; one pair may stand several times.
///
/// # Errors
/// No memory was found.
pub fn pair_contrib(
    alloc: Global,
    program: &IndexedProgram,
    sig: &Sig,
    method: MethodNo,
) -> Result<Vec<(SlotNo, Qual)>, OutOfMemory>
    requires inside { method.0 < length program.now.methods }
    requires few { length program.now.classes < 2 ^ 32 }
    requires methods { length program.now.methods < 2 ^ 32 }
    ensures { IfOk result
        (λ sends. slot_numbers sends.items ≡ pair_sends program.now sig.now method.0) }
{
    let over = &program.program().methods.as_slice()[method.0 as usize];
    let ks = under_of(alloc, program, method.0, over)?;
    pair_contrib_by(alloc, program.program(), sig, method, ks.as_slice())
}
