//! What a bit that a method sends for those that it overrides comes from.
ghost use Rattle.std.specs.Prelude.{◌≡◌, ◌<◌, ◌++◌, ◌∷◌, [], OnOk, Some, None, cond, eqb, flat_map, length};
ghost use Rattle.jn_points.specs.Lookup.{method_at};
ghost use Rattle.jn_transfer.specs.Pairs.{under};
ghost use Rattle.jn_reasons_law.specs.Sources.{from_slot_to, from_slots_to, from_override, from_pairs};

use crate::entry::slot_at;
use crate::sources::{Source, add_slot};
use jn_base::{MethodNo, SlotNo};
use jn_points::lookup::method_at;
use jn_points::{Method, Program};
use jn_reasons_law::Bit;
use std::alloc::AllocError;

/// What the first slot has, where the second is the one that is asked for.
fn add_from(
    list: &mut Vec<Source>,
    from: Option<SlotNo>,
    to: Option<SlotNo>,
    wanted: SlotNo,
    bit: Bit,
) -> Result<(), AllocError>
    ensures { OnOk result (list.new.items ≡ list.old.items ++ from_slot_to wanted.0 from to bit) }
{
    match to {
        None => Ok(()),
        Some(slot) => {
            if slot.0 == wanted.0 {
                add_slot(list, from, bit)
            } else {
                Ok(())
            }
        }
    }
}

/// Slot by slot.
fn add_slots(
    list: &mut Vec<Source>,
    from: &[Option<SlotNo>],
    to: &[Option<SlotNo>],
    wanted: SlotNo,
    bit: Bit,
) -> Result<(), AllocError>
    ensures { OnOk result
        (list.new.items ≡ list.old.items ++ from_slots_to wanted.0 from.now to.now bit) }
{
    for i in 0..from.len() {
        let low = slot_at(from, i);
        let high = slot_at(to, i);
        add_from(list, low, high, wanted, bit)?;
    }
    Ok(())
}

/// From the overridden method's parameters and receiver, and from the overrider's result.
#[tactic(auto, using(crate::proofs::Overridden::three_added))]
fn add_override(
    list: &mut Vec<Source>,
    over: &Method,
    lower: &Method,
    wanted: SlotNo,
    bit: Bit,
) -> Result<(), AllocError>
    ensures { OnOk result (list.new.items
        ≡ list.old.items ++ from_override wanted.0 (Some over.now) (Some lower.now) bit) }
{
    add_slots(
        list,
        lower.param_slots.as_slice(),
        over.param_slots.as_slice(),
        wanted,
        bit,
    )?;
    add_from(list, lower.receiver, over.receiver, wanted, bit)?;
    add_from(list, over.result_slot, lower.result_slot, wanted, bit)
}

/// With a method of a number.
#[tactic(auto, using(crate::proofs::Overridden::lower_there, crate::proofs::Overridden::no_lower_adds))]
fn add_found(
    program: &Program,
    list: &mut Vec<Source>,
    over: &Method,
    k: u32,
    wanted: SlotNo,
    bit: Bit,
) -> Result<(), AllocError>
    ensures { OnOk result (list.new.items
        ≡ list.old.items
        ++ from_override wanted.0 (Some over.now) (method_at program.now k) bit) }
{
    match method_at(program, k as usize) {
        None => Ok(()),
        Some(lower) => add_override(list, over, lower, wanted, bit),
    }
}

/// With each of some methods.
fn add_some(
    program: &Program,
    list: &mut Vec<Source>,
    over: &Method,
    ks: &[u32],
    wanted: SlotNo,
    bit: Bit,
) -> Result<(), AllocError>
    ensures { OnOk result (list.new.items
        ≡ list.old.items
        ++ flat_map (λ k. from_override wanted.0 (Some over.now) (method_at program.now k) bit)
        ks.now) }
{
    for k in ks {
        add_found(program, list, over, *k, wanted, bit)?;
    }
    Ok(())
}

/// Adds what the bit comes from that the method sends to the slot, for each of the methods that it overrides.
///
/// # Errors
/// No memory was found.
#[tactic(auto, using(crate::proofs::Overridden::all_added))]
pub fn add_pairs(
    program: &Program,
    list: &mut Vec<Source>,
    method: MethodNo,
    ks: &[u32],
    wanted: SlotNo,
    bit: Bit,
) -> Result<(), AllocError>
    requires inside { method.0 < length program.now.methods }
    requires under { ks.now ≡ under program.now method.0 }
    ensures { OnOk result
        (list.new.items ≡ list.old.items ++ from_pairs program.now method.0 wanted.0 bit) }
{
    let over = &program.methods.as_slice()[method.0 as usize];
    add_some(program, list, over, ks, wanted, bit)
}
