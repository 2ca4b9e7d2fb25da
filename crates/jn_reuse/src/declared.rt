//! Classes, fields, methods and slots of two programs compared.
ghost use Rattle.std.specs.Prelude.{◌≡◌, ◌↔◌, ◌≤◌, true};
ghost use Rattle.jn_recheck_law.specs.Alike.{AllAlike, SameClass, SameDeclarations, SameField, SameMethod, SameName, SameSlot};

use crate::lists::{same_bases, same_classes, same_slots};
use crate::texts::same_name;
use jn_base::NameNo;
use jn_points::{Class, Field, Method, Program, SlotInfo};
use jn_trees::Names;

/// Whether two names have one text, from this place on; those before aren't compared.
fn same_name_from(
    first: usize,
    at: usize,
    names: &Names,
    name: NameNo,
    more: &Names,
    other: NameNo,
) -> bool
    ensures { (result ≡ true) ↔ (first ≤ at → SameName names.now more.now name other) }
{
    if at < first {
        true
    } else {
        same_name(names, name, more, other)
    }
}

fn same_class(names: &Names, one: &Class, more: &Names, other: &Class, at: usize) -> bool
    ensures { (result ≡ true) ↔ SameClass names.now more.now at one.now other.now }
{
    same_name_from(2, at, names, one.name, more, other.name)
        && one.interface == other.interface
        && one.is_abstract == other.is_abstract
        && one.is_final == other.is_final
        && one.parent == other.parent
        && same_classes(one.supers.as_slice(), other.supers.as_slice())
}

fn same_field(names: &Names, one: &Field, more: &Names, other: &Field, at: usize) -> bool
    ensures { (result ≡ true) ↔ SameField names.now more.now at one.now other.now }
{
    let _at = at;
    same_name(names, one.name, more, other.name)
        && one.owner == other.owner
        && one.base == other.base
        && one.is_static == other.is_static
        && one.is_final == other.is_final
        && one.is_private == other.is_private
        && one.is_monotonic == other.is_monotonic
        && one.first == other.first
        && one.slot == other.slot
}

fn same_flags(one: &Method, other: &Method) -> bool
    ensures { (result ≡ true) ↔ ((one.now.ctor ≡ other.now.ctor)
        × (one.now.is_static ≡ other.now.is_static)
        × (one.now.is_private ≡ other.now.is_private)
        × (one.now.is_abstract ≡ other.now.is_abstract)
        × (one.now.is_final ≡ other.now.is_final)
        × (one.now.is_main ≡ other.now.is_main)) }
{
    one.ctor == other.ctor
        && one.is_static == other.is_static
        && one.is_private == other.is_private
        && one.is_abstract == other.is_abstract
        && one.is_final == other.is_final
        && one.is_main == other.is_main
}

fn same_positions(one: &Method, other: &Method) -> bool
    ensures { (result ≡ true) ↔ ((one.now.body ≡ other.now.body)
        × (one.now.receiver ≡ other.now.receiver)
        × (one.now.param_slots ≡ other.now.param_slots)
        × (one.now.result_slot ≡ other.now.result_slot)) }
{
    one.body == other.body
        && one.receiver == other.receiver
        && same_slots(one.param_slots.as_slice(), other.param_slots.as_slice())
        && one.result_slot == other.result_slot
}

fn same_method(names: &Names, one: &Method, more: &Names, other: &Method, at: usize) -> bool
    ensures { (result ≡ true) ↔ SameMethod names.now more.now at one.now other.now }
{
    one.owner == other.owner
        && one.result == other.result
        && same_bases(one.params.as_slice(), other.params.as_slice())
        && same_flags(one, other)
        && same_positions(one, other)
        && same_name_from(1, at, names, one.name, more, other.name)
}

fn same_slot(names: &Names, one: &SlotInfo, more: &Names, other: &SlotInfo, at: usize) -> bool
    ensures { (result ≡ true) ↔ SameSlot names.now more.now at one.now other.now }
{
    let _names = names;
    let _more = more;
    let _at = at;
    one.start == other.start && one.inferred == other.inferred
}

#[tactic(auto, using(crate::proofs::Turns::lengths_differ))]
fn all_classes(names: &Names, one: &[Class], more: &Names, other: &[Class]) -> bool
    ensures { (result ≡ true) ↔ AllAlike (SameClass names.now more.now) 0 one.now other.now }
{
    if one.len() != other.len() {
        return false;
    }
    for at in 0..one.len() {
        if !same_class(names, &one[at], more, &other[at], at) {
            return false;
        }
    }
    true
}

#[tactic(auto, using(crate::proofs::Turns::lengths_differ))]
fn all_fields(names: &Names, one: &[Field], more: &Names, other: &[Field]) -> bool
    ensures { (result ≡ true) ↔ AllAlike (SameField names.now more.now) 0 one.now other.now }
{
    if one.len() != other.len() {
        return false;
    }
    for at in 0..one.len() {
        if !same_field(names, &one[at], more, &other[at], at) {
            return false;
        }
    }
    true
}

#[tactic(auto, using(crate::proofs::Turns::lengths_differ))]
fn all_methods(names: &Names, one: &[Method], more: &Names, other: &[Method]) -> bool
    ensures { (result ≡ true) ↔ AllAlike (SameMethod names.now more.now) 0 one.now other.now }
{
    if one.len() != other.len() {
        return false;
    }
    for at in 0..one.len() {
        if !same_method(names, &one[at], more, &other[at], at) {
            return false;
        }
    }
    true
}

#[tactic(auto, using(crate::proofs::Turns::lengths_differ))]
fn all_slots(names: &Names, one: &[SlotInfo], more: &Names, other: &[SlotInfo]) -> bool
    ensures { (result ≡ true) ↔ AllAlike (SameSlot names.now more.now) 0 one.now other.now }
{
    if one.len() != other.len() {
        return false;
    }
    for at in 0..one.len() {
        if !same_slot(names, &one[at], more, &other[at], at) {
            return false;
        }
    }
    true
}

/// Whether the programs, each with the texts of its names, have equal classes, fields, methods and slots, but for spans.
pub fn same_declarations(names: &Names, one: &Program, more: &Names, other: &Program) -> bool
    ensures { (result ≡ true) ↔ SameDeclarations names.now more.now one.now other.now }
{
    all_slots(names, one.slots.as_slice(), more, other.slots.as_slice())
        && all_classes(
            names,
            one.classes.as_slice(),
            more,
            other.classes.as_slice(),
        )
        && all_fields(names, one.fields.as_slice(), more, other.fields.as_slice())
        && all_methods(
            names,
            one.methods.as_slice(),
            more,
            other.methods.as_slice(),
        )
}
