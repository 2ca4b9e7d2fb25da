//! The part of a declaration whose position a fault speaks of, and its words.
ghost use Rattle.std.specs.Prelude.{◌≡◌};
ghost use Rattle.nullcheck_annotate_top.specs.Parts as spec;

use crate::faults::{has_slot, is_slot};
use jn_base::SlotNo;
use jn_points::{Field, Method, Program};

/// A part of a declaration that has a position of its own: a field's type, or a method's parameter by its number from 0, `this` or result.
#[derive(Clone, Copy)]
pub enum Part {
    OfField,
    Parameter(usize),
    Receiver,
    Result,
}

/// The number of the first parameter whose slot it is.
fn parameter_with(slot: u32, slots: &[Option<SlotNo>]) -> Option<usize>
    ensures { result ≡ spec.parameter_with slot 0 slots.now }
{
    for (at, has) in slots.iter().enumerate() {
        if is_slot(slot, *has) {
            return Some(at);
        }
    }
    None
}

/// The part of a method that has the slot.
fn part_in(slot: u32, method: &Method) -> Part
    ensures { result ≡ spec.part_in slot method.now }
{
    match parameter_with(slot, method.param_slots.as_slice()) {
        Some(at) => Part::Parameter(at),
        None => {
            if is_slot(slot, method.receiver) {
                Part::Receiver
            } else {
                Part::Result
            }
        }
    }
}

/// Whether a field has the slot.
fn is_of_field(slot: u32, fields: &[Field]) -> bool
    ensures { result ≡ spec.is_of_field slot fields.now }
{
    for field in fields {
        if is_slot(slot, field.slot) {
            return true;
        }
    }
    false
}

/// The part of the first method that has the slot.
fn part_of_methods(slot: u32, methods: &[Method]) -> Option<Part>
    ensures { result ≡ spec.part_of_methods slot methods.now }
{
    for method in methods {
        if has_slot(slot, method) {
            return Some(part_in(slot, method));
        }
    }
    None
}

/// The part of a declaration whose position the slot is; none of what is no slot.
pub(crate) fn slot_part(program: &Program, slot: u32) -> Option<Part>
    ensures { result ≡ spec.slot_part program.now slot }
{
    if is_of_field(slot, program.fields.as_slice()) {
        Some(Part::OfField)
    } else {
        part_of_methods(slot, program.methods.as_slice())
    }
}

/// A parameter by its number from 0, in words.
fn parameter_words(at: usize) -> &'static [u8]
    ensures { result.now ≡ spec.parameter_words at }
{
    match at {
        0 => b"the first parameter",
        1 => b"the second parameter",
        2 => b"the third parameter",
        _ => b"a later parameter",
    }
}

/// A part in words.
pub(crate) fn part_words(part: Option<Part>) -> &'static [u8]
    ensures { result.now ≡ spec.part_words part }
{
    match part {
        None => b"a position",
        Some(Part::OfField) => b"the field",
        Some(Part::Parameter(at)) => parameter_words(at),
        Some(Part::Receiver) => b"`this`",
        Some(Part::Result) => b"the result",
    }
}
