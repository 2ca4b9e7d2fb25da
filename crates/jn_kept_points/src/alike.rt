//! Whether types declare the same but for places and what is written of nullness and initialization.
ghost use Rattle.std.specs.Prelude.{◌≡◌, map, option_map, true};
ghost use Rattle.jn_heads_law.specs.Plain.{plain_field, plain_head, plain_kind, plain_method, plain_name, plain_param, plain_type, plain_use};

use jn_heads::{ClassHead, FieldHead, MethodHead, Notes, ParamHead, TypeHead};
use jn_trees::{Base, Identifier};

fn same_name(one: &Identifier, other: &Identifier) -> bool
    ensures { result ≡ true → plain_name one.now ≡ plain_name other.now }
{
    one.name == other.name
}

fn same_base(one: &Base, other: &Base) -> bool
    ensures { result ≡ true → plain_use one.now ≡ plain_use other.now }
{
    match one {
        Base::Class(name) => match other {
            Base::Class(more) => same_name(name, more),
            _ => false,
        },
        Base::Int(_) => match other {
            Base::Int(_) => true,
            _ => false,
        },
        Base::Boolean(_) => match other {
            Base::Boolean(_) => true,
            _ => false,
        },
    }
}

#[tactic(auto, using(crate::proofs::Types::same_words))]
fn same_notes(one: &Notes, other: &Notes) -> bool
    ensures { result ≡ true → one.now ≡ other.now }
{
    one.non_null == other.non_null
        && one.nullable == other.nullable
        && one.initialized == other.initialized
        && one.under == other.under
        && one.unknown == other.unknown
        && one.monotonic == other.monotonic
}

/// Whether both are arrays, or neither is, and what is written of their elements.
fn same_array(one: &TypeHead, other: &TypeHead) -> bool
    ensures { result ≡ true
        → (one.now.array ≡ other.now.array) × (one.now.elements ≡ other.now.elements) }
{
    one.array == other.array && same_notes(&one.elements, &other.elements)
}

fn same_monotonic(one: &TypeHead, other: &TypeHead) -> bool
    ensures { result ≡ true → one.now.notes.monotonic ≡ other.now.notes.monotonic }
{
    one.notes.monotonic == other.notes.monotonic
}

/// The type of a parameter or a result.
#[tactic(auto, using(crate::proofs::Types::same_types))]
fn same_type(one: &TypeHead, other: &TypeHead) -> bool
    ensures { result ≡ true → plain_type one.now ≡ plain_type other.now }
{
    same_array(one, other) && same_base(&one.base, &other.base)
}

/// The type of a field.
#[tactic(auto, using(crate::proofs::Types::same_kinds))]
fn same_kind(one: &TypeHead, other: &TypeHead) -> bool
    ensures { result ≡ true → plain_kind one.now ≡ plain_kind other.now }
{
    same_array(one, other) && same_monotonic(one, other) && same_base(&one.base, &other.base)
}

fn same_field(one: &FieldHead, other: &FieldHead) -> bool
    ensures { result ≡ true → plain_field one.now ≡ plain_field other.now }
{
    one.is_static == other.is_static
        && one.is_final == other.is_final
        && one.is_private == other.is_private
        && one.first == other.first
        && same_name(&one.name, &other.name)
        && same_kind(&one.kind, &other.kind)
}

fn same_param(one: &ParamHead, other: &ParamHead) -> bool
    ensures { result ≡ true → plain_param one.now ≡ plain_param other.now }
{
    same_name(&one.name, &other.name) && same_type(&one.kind, &other.kind)
}

fn same_result(one: &Option<TypeHead>, other: &Option<TypeHead>) -> bool
    ensures { result ≡ true → option_map plain_type one.now ≡ option_map plain_type other.now }
{
    match one {
        None => other.is_none(),
        Some(one) => match other {
            None => false,
            Some(other) => same_type(one, other),
        },
    }
}

fn same_parent(one: &Option<Identifier>, other: &Option<Identifier>) -> bool
    ensures { result ≡ true → option_map plain_name one.now ≡ option_map plain_name other.now }
{
    match one {
        None => other.is_none(),
        Some(one) => match other {
            None => false,
            Some(other) => same_name(one, other),
        },
    }
}

#[tactic(auto, using(crate::proofs::Lists::none_gone, crate::proofs::Lists::one_gone, crate::proofs::Lists::all_gone))]
fn same_names(one: &[Identifier], other: &[Identifier]) -> bool
    ensures { result ≡ true → map plain_name one.now ≡ map plain_name other.now }
{
    if one.len() != other.len() {
        return false;
    }
    for at in 0..one.len() {
        if !same_name(&one[at], &other[at]) {
            return false;
        }
    }
    true
}

#[tactic(auto, using(crate::proofs::Lists::none_gone, crate::proofs::Lists::one_gone, crate::proofs::Lists::all_gone))]
fn same_fields(one: &[FieldHead], other: &[FieldHead]) -> bool
    ensures { result ≡ true → map plain_field one.now ≡ map plain_field other.now }
{
    if one.len() != other.len() {
        return false;
    }
    for at in 0..one.len() {
        if !same_field(&one[at], &other[at]) {
            return false;
        }
    }
    true
}

#[tactic(auto, using(crate::proofs::Lists::none_gone, crate::proofs::Lists::one_gone, crate::proofs::Lists::all_gone))]
fn same_params(one: &[ParamHead], other: &[ParamHead]) -> bool
    ensures { result ≡ true → map plain_param one.now ≡ map plain_param other.now }
{
    if one.len() != other.len() {
        return false;
    }
    for at in 0..one.len() {
        if !same_param(&one[at], &other[at]) {
            return false;
        }
    }
    true
}

/// The words before a method, and whether it has a body.
fn same_flags(one: &MethodHead, other: &MethodHead) -> bool
    ensures { result ≡ true → (one.now.ctor ≡ other.now.ctor)
        × (one.now.is_public ≡ other.now.is_public)
        × (one.now.is_static ≡ other.now.is_static)
        × (one.now.is_private ≡ other.now.is_private)
        × (one.now.is_abstract ≡ other.now.is_abstract)
        × (one.now.is_final ≡ other.now.is_final)
        × (one.now.has_body ≡ other.now.has_body) }
{
    one.ctor == other.ctor
        && one.is_public == other.is_public
        && one.is_static == other.is_static
        && one.is_private == other.is_private
        && one.is_abstract == other.is_abstract
        && one.is_final == other.is_final
        && one.has_body == other.has_body
}

fn same_method(one: &MethodHead, other: &MethodHead) -> bool
    ensures { result ≡ true → plain_method one.now ≡ plain_method other.now }
{
    same_flags(one, other)
        && one.calls == other.calls
        && same_name(&one.name, &other.name)
        && same_result(&one.result, &other.result)
        && same_params(one.params.as_slice(), other.params.as_slice())
}

#[tactic(auto, using(crate::proofs::Lists::none_gone, crate::proofs::Lists::one_gone, crate::proofs::Lists::all_gone))]
fn same_methods(one: &[MethodHead], other: &[MethodHead]) -> bool
    ensures { result ≡ true → map plain_method one.now ≡ map plain_method other.now }
{
    if one.len() != other.len() {
        return false;
    }
    for at in 0..one.len() {
        if !same_method(&one[at], &other[at]) {
            return false;
        }
    }
    true
}

fn same_head(one: &ClassHead, other: &ClassHead) -> bool
    ensures { result ≡ true → plain_head one.now ≡ plain_head other.now }
{
    one.interface == other.interface
        && one.is_abstract == other.is_abstract
        && one.is_final == other.is_final
        && same_name(&one.name, &other.name)
        && same_parent(&one.parent, &other.parent)
        && same_names(one.interfaces.as_slice(), other.interfaces.as_slice())
        && same_fields(one.fields.as_slice(), other.fields.as_slice())
        && same_methods(one.methods.as_slice(), other.methods.as_slice())
}

/// Whether the types declare the same, in one order, but for places and what is written of nullness and initialization.
#[tactic(auto, using(crate::proofs::Lists::none_gone, crate::proofs::Lists::one_gone, crate::proofs::Lists::all_gone))]
pub fn same_heads(one: &[ClassHead], other: &[ClassHead]) -> bool
    ensures { result ≡ true → map plain_head one.now ≡ map plain_head other.now }
{
    if one.len() != other.len() {
        return false;
    }
    for at in 0..one.len() {
        if !same_head(&one[at], &other[at]) {
            return false;
        }
    }
    true
}
