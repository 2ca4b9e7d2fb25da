//! What a register's bit at a body's entry comes from.
ghost use Rattle.std.specs.Prelude.{◌≡◌, ◌++◌, OnOk, Some, None, slice_index_or};
ghost use Rattle.jn_points.specs.Lookup as spec;
ghost use Rattle.jn_reasons_law.specs.Sources.{from_given, from_this, from_this_or_given, at_entry};

use crate::sources::{Source, add_slot, add_text};
use jn_base::{BodyNo, RegNo, SlotNo};
use jn_points::lookup::method_in;
use jn_points::{Method, Program};
use jn_reasons_law::Bit;
use std::alloc::AllocError;

/// The slot at a place; None where there is none.
pub(crate) fn slot_at(slots: &[Option<SlotNo>], i: usize) -> Option<SlotNo>
    ensures { result ≡ slice_index_or slots.now i None }
{
    match slots.get(i) {
        None => None,
        Some(slot) => *slot,
    }
}

/// A parameter's slot's.
fn add_given(
    list: &mut Vec<Source>,
    slots: &[Option<SlotNo>],
    at: usize,
    bit: Bit,
) -> Result<(), AllocError>
    ensures { OnOk result (list.new.items ≡ list.old.items ++ from_given slots.now at bit) }
{
    add_slot(list, slot_at(slots, at), bit)
}

fn add_this(list: &mut Vec<Source>, method: &Method, bit: Bit) -> Result<(), AllocError>
    ensures { OnOk result (list.new.items ≡ list.old.items ++ from_this (Some method.now) bit) }
{
    if method.ctor {
        add_text(list)
    } else {
        add_slot(list, method.receiver, bit)
    }
}

fn add_of_method(
    list: &mut Vec<Source>,
    method: &Method,
    reg: RegNo,
    bit: Bit,
) -> Result<(), AllocError>
    ensures { OnOk result
        (list.new.items ≡ list.old.items ++ at_entry (Some method.now) reg.0 bit) }
{
    if method.is_static {
        add_given(list, method.param_slots.as_slice(), reg.0 as usize, bit)
    } else {
        add_this_or_given(list, method, reg, bit)
    }
}

fn add_this_or_given(
    list: &mut Vec<Source>,
    method: &Method,
    reg: RegNo,
    bit: Bit,
) -> Result<(), AllocError>
    ensures { OnOk result
        (list.new.items ≡ list.old.items ++ from_this_or_given (Some method.now) reg.0 bit) }
{
    if reg.0 == 0 {
        add_this(list, method, bit)
    } else {
        add_given(list, method.param_slots.as_slice(), reg.0 as usize - 1, bit)
    }
}

/// Adds what a register's bit at the body's entry comes from.
///
/// # Errors
/// No memory was found.
pub fn add_entry(
    program: &Program,
    list: &mut Vec<Source>,
    body: BodyNo,
    reg: RegNo,
    bit: Bit,
) -> Result<(), AllocError>
    ensures { OnOk result (list.new.items
        ≡ list.old.items ++ at_entry (spec.method_in program.now body.0) reg.0 bit) }
{
    match method_in(program, body.0 as usize) {
        None => Ok(()),
        Some(method) => add_of_method(list, method, reg, bit),
    }
}
