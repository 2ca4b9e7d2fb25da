//! Slots of overriding methods that have a bit which their partners lack.
ghost use Rattle.std.specs.Prelude.{◌≡◌, length, None, Some};
ghost use Rattle.jn_points.specs.Lookup.{method_at};
ghost use Rattle.jn_sites.specs.Near.{AreNear};
ghost use Rattle.jn_note_words.specs.Owned.{first_below};
ghost use Rattle.jn_notes.specs.Asked.{by_lower, by_override, by_part, by_under, lacking, lacking_bit, part_of, slot_item, some_lacking};

use crate::reads::same_span;
use jn_base::{Code, SlotNo, Span, least};
use jn_contrib::Overrider;
use jn_points::lookup::method_at;
use jn_points::{Method, Program};
use jn_quals::Qual;
use jn_reasons_law::{Bit, Item};
use jn_sigs::Sig;
use jn_transfer::lookup::slot_qual;

/// The part of an overriding pair that a code speaks of.
#[derive(Clone, Copy, Debug, PartialEq, Eq)]
pub enum Part {
    OverParameters,
    OverReceiver,
    OverResult,
}

/// The part of an overriding pair that a code speaks of.
pub fn part_of(code: Code) -> Option<Part>
    ensures { result ≡ part_of code }
{
    match code {
        Code::OvrParam => Some(Part::OverParameters),
        Code::OvrReceiver => Some(Part::OverReceiver),
        Code::OvrResult => Some(Part::OverResult),
        _ => None,
    }
}

/// What the first qualifier has and the second lacks: null before under construction.
fn lacking_bit(slot: SlotNo, from: Qual, to: Qual) -> Option<Item>
    ensures { result ≡ lacking_bit slot.0 from to }
{
    if from.has_null() && !to.has_null() {
        Some(Item::AtSlot(slot.0, Bit::Nullable))
    } else if from.has_free() && !to.has_free() {
        Some(Item::AtSlot(slot.0, Bit::Free))
    } else {
        None
    }
}

fn lacking(sig: &Sig, from: Option<SlotNo>, to: Option<SlotNo>) -> Option<Item>
    ensures { result ≡ lacking sig.now from to }
{
    match from {
        None => None,
        Some(slot) => lacking_bit(slot, sig.get(slot), slot_qual(sig, to)),
    }
}

/// Slot by slot, the first.
fn some_lacking(sig: &Sig, from: &[Option<SlotNo>], to: &[Option<SlotNo>]) -> Option<Item>
    ensures { result ≡ some_lacking sig.now from.now to.now }
{
    for i in 0..least(from.len(), to.len()) {
        let found = lacking(sig, from[i], to[i]);
        if found.is_some() {
            return found;
        }
    }
    None
}

/// What the overridden method's parameters and receiver have and the overrider's lack, or the overrider's result has and the other's lacks.
fn by_part(sig: &Sig, part: Part, over: &Method, lower: &Method) -> Option<Item>
    ensures { result ≡ by_part sig.now part over.now lower.now }
{
    match part {
        Part::OverParameters => some_lacking(
            sig,
            lower.param_slots.as_slice(),
            over.param_slots.as_slice(),
        ),
        Part::OverReceiver => lacking(sig, lower.receiver, over.receiver),
        Part::OverResult => lacking(sig, over.result_slot, lower.result_slot),
    }
}

/// Of a method that is overridden, where there is such.
fn by_lower(sig: &Sig, part: Part, program: &Program, over: &Method, lower: u32) -> Option<Item>
    ensures { result ≡ by_override sig.now part (Some over.now) (method_at program.now lower) }
{
    match method_at(program, lower as usize) {
        None => None,
        Some(lower) => by_part(sig, part, over, lower),
    }
}

fn by_lowers(sig: &Sig, part: Part, program: &Program, over: &Method, under: &[u32]) -> Option<Item>
    ensures { result
        ≡ first_below (by_lower program.now sig.now part (Some over.now) under.now)
        (length under.now) }
{
    for i in 0..under.len() {
        let found = by_lower(sig, part, program, over, under[i]);
        if found.is_some() {
            return found;
        }
    }
    None
}

/// Of a method with those that it overrides, where it stands at the span.
fn by_under(
    sig: &Sig,
    span: Span,
    part: Part,
    program: &Program,
    over: &Method,
    under: &[u32],
) -> Option<Item>
    ensures { result ≡ by_under program.now sig.now span part (Some over.now) under.now }
{
    if same_span(over.span, span) {
        by_lowers(sig, part, program, over, under)
    } else {
        None
    }
}

fn by_overrider(
    sig: &Sig,
    span: Span,
    part: Part,
    program: &Program,
    overrider: &Overrider,
) -> Option<Item>
    ensures { result
        ≡ by_under program.now sig.now span part (method_at program.now overrider.now.method)
        overrider.now.under }
{
    match method_at(program, overrider.method as usize) {
        None => None,
        Some(over) => by_under(sig, span, part, program, over, overrider.under.as_slice()),
    }
}

fn by_overriders(
    sig: &Sig,
    span: Span,
    part: Part,
    program: &Program,
    overriders: &[Overrider],
) -> Option<Item>
    requires overriders { AreNear program.now span overriders.now }
    ensures { result ≡ slot_item program.now sig.now span (Some part) }
{
    for j in 0..overriders.len() {
        let found = by_overrider(sig, span, part, program, &overriders[j]);
        if found.is_some() {
            return found;
        }
    }
    None
}

/// The slot that a row of an overriding pair speaks of, by the overriders that stand at its place.
pub fn slot_item(
    sig: &Sig,
    span: Span,
    part: Option<Part>,
    program: &Program,
    overriders: &[Overrider],
) -> Option<Item>
    requires overriders { AreNear program.now span overriders.now }
    ensures { result ≡ slot_item program.now sig.now span part }
{
    match part {
        None => None,
        Some(part) => by_overriders(sig, span, part, program, overriders),
    }
}
