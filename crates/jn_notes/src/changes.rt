//! What overriding methods narrow or widen of those that they override.
ghost use Rattle.std.specs.Prelude.{◌≡◌, length, Some};
ghost use Rattle.jn_points.specs.Lookup.{method_at};
ghost use Rattle.jn_sigs.specs.Signature.{slot_quals};
ghost use Rattle.jn_sites.specs.Near.{AreNear};
ghost use Rattle.jn_note_words.specs.Owned.{first_below};
ghost use Rattle.jn_notes.specs.Spoken as spec;

use crate::pairs::Part;
use crate::reads::same_span;
use jn_base::{SlotNo, Span, least};
use jn_contrib::Overrider;
use jn_note_words::owners::Owner;
use jn_points::lookup::method_at;
use jn_points::{Method, Program};
use jn_quals::Qual;
use jn_sigs::Sig;
use jn_transfer::lookup::slot_qual;

/// The owner, unless the first qualifier is within the other.
fn if_outside(low: Qual, high: Qual, owner: Owner) -> Option<Owner>
    ensures { result ≡ spec.if_outside low high owner }
{
    if low.within(high) { None } else { Some(owner) }
}

/// The first of a method's parameters that takes what the overrider's doesn't.
fn first_outside(
    sig: &Sig,
    method: u32,
    lower: &[Option<SlotNo>],
    over: &[Option<SlotNo>],
) -> Option<Owner>
    ensures { result
        ≡ spec.first_outside method 0 (slot_quals sig.now lower.now) (slot_quals sig.now over.now) }
{
    for i in 0..least(lower.len(), over.len()) {
        let to = Owner::OfParameter(method, i);
        let found = if_outside(slot_qual(sig, lower[i]), slot_qual(sig, over[i]), to);
        if found.is_some() {
            return found;
        }
    }
    None
}

/// What a method narrows or widens of one that it overrides.
fn changed(sig: &Sig, part: Part, over: &Method, lower: &Method, number: u32) -> Option<Owner>
    ensures { result ≡ spec.changed number sig.now part over.now lower.now }
{
    match part {
        Part::OverParameters => first_outside(
            sig,
            number,
            lower.param_slots.as_slice(),
            over.param_slots.as_slice(),
        ),
        Part::OverReceiver => if_outside(
            slot_qual(sig, lower.receiver),
            slot_qual(sig, over.receiver),
            Owner::OfReceiver(number),
        ),
        Part::OverResult => if_outside(
            slot_qual(sig, over.result_slot),
            slot_qual(sig, lower.result_slot),
            Owner::OfResult(number),
        ),
    }
}

/// The same of a method that is overridden, where there is such.
fn by_lower(sig: &Sig, part: Part, program: &Program, over: &Method, lower: u32) -> Option<Owner>
    ensures { result
        ≡ spec.changed_in lower sig.now part (Some over.now) (method_at program.now lower) }
{
    match method_at(program, lower as usize) {
        None => None,
        Some(info) => changed(sig, part, over, info, lower),
    }
}

fn by_lowers(
    sig: &Sig,
    part: Part,
    program: &Program,
    over: &Method,
    under: &[u32],
) -> Option<Owner>
    ensures { result
        ≡ first_below (spec.changed_at program.now sig.now part (Some over.now) under.now)
        (length under.now) }
{
    for i in 0..under.len() {
        let found = by_lower(sig, part, program, over, under[i]);
        if found.is_some() {
            return found;
        }
    }
    None
}

/// Of a method with those that it overrides, where it stands at the span.
fn by_under(
    sig: &Sig,
    span: Span,
    part: Part,
    program: &Program,
    over: &Method,
    under: &[u32],
) -> Option<Owner>
    ensures { result ≡ spec.changed_by program.now sig.now span part (Some over.now) under.now }
{
    if same_span(over.span, span) {
        by_lowers(sig, part, program, over, under)
    } else {
        None
    }
}

fn by_overrider(
    sig: &Sig,
    span: Span,
    part: Part,
    program: &Program,
    overrider: &Overrider,
) -> Option<Owner>
    ensures { result
        ≡ spec.changed_by program.now sig.now span part
        (method_at program.now overrider.now.method) overrider.now.under }
{
    match method_at(program, overrider.method as usize) {
        None => None,
        Some(over) => by_under(sig, span, part, program, over, overrider.under.as_slice()),
    }
}

/// What the overrider at the span changes of the first method of which it changes this part.
pub fn overridden_of(
    sig: &Sig,
    span: Span,
    part: Part,
    program: &Program,
    overriders: &[Overrider],
) -> Option<Owner>
    requires overriders { AreNear program.now span overriders.now }
    ensures { result ≡ spec.overridden_of program.now sig.now span part }
{
    for j in 0..overriders.len() {
        let found = by_overrider(sig, span, part, program, &overriders[j]);
        if found.is_some() {
            return found;
        }
    }
    None
}
