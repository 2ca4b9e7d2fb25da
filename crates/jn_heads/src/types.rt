//! Types and qualifiers of what is declared (JLS 4.3, 9.7.4).
ghost use Rattle.std.specs.Prelude.{◌≡◌, ◌||◌, not, IfOk};
ghost use Rattle.jn_heads.specs.Types as spec;

use crate::declarations::Declarations;
use crate::head::{MethodHead, Notes, ParamHead, TypeHead};
use jn_base::{Seq, either};
use jn_points::lookup::is_reference;
use jn_points::{BaseType, Elem, SlotInfo};
use jn_quals::Qual;
use jn_trees::Base;
use std::alloc::{AllocError, Global};

fn qual(null: bool, committed: bool, free: bool) -> Qual
    ensures { result ≡ record { null = null; committed = committed; free = free } }
{
    match (null, committed, free) {
        (false, false, false) => Qual::of_bits(0),
        (true, false, false) => Qual::of_bits(1),
        (false, true, false) => Qual::of_bits(2),
        (true, true, false) => Qual::of_bits(3),
        (false, false, true) => Qual::of_bits(4),
        (true, false, true) => Qual::of_bits(5),
        (false, true, true) => Qual::of_bits(6),
        (true, true, true) => Qual::of_bits(7),
    }
}

fn is_written(notes: Notes) -> bool
    ensures { result ≡ spec.is_written notes }
{
    let has_kind = either(either(notes.non_null, notes.nullable), notes.initialized);
    either(
        either(either(has_kind, notes.under), notes.unknown),
        notes.monotonic,
    )
}

fn is_committed(notes: Notes) -> bool
    ensures { result ≡ (notes.initialized || notes.unknown || not notes.under) }
{
    either(either(notes.initialized, notes.unknown), !notes.under)
}

/// What is written, with the missing half by default.
pub fn written_qual(notes: Notes) -> Qual
    ensures { result ≡ spec.written_qual notes }
{
    qual(
        notes.nullable,
        is_committed(notes),
        either(notes.under, notes.unknown),
    )
}

pub fn field_qual(notes: Notes) -> Qual
    ensures { result ≡ spec.field_qual notes }
{
    qual(either(notes.nullable, notes.monotonic), true, false)
}

pub fn receiver_qual(notes: Notes) -> Qual
    ensures { result ≡ spec.receiver_qual notes }
{
    qual(
        false,
        is_committed(notes),
        either(notes.under, notes.unknown),
    )
}

/// The slot of a position of a member that is private, or not.
pub fn slot_of(is_private: bool, notes: Notes, written: Qual) -> SlotInfo
    ensures { result ≡ spec.slot_of is_private notes written }
{
    if is_private && !is_written(notes) {
        SlotInfo {
            start: Qual::none(),
            inferred: true,
        }
    } else {
        SlotInfo {
            start: written,
            inferred: false,
        }
    }
}

fn plain_base(declared: &Declarations, base: Base) -> BaseType
    ensures { result ≡ spec.plain_base declared.now base }
{
    match base {
        Base::Class(name) => BaseType::Ref(declared.class_of_name(name)),
        Base::Int(_) => BaseType::Int,
        Base::Boolean(_) => BaseType::Bool,
    }
}

fn array_base(declared: &Declarations, base: Base, nullable: bool) -> BaseType
    ensures { result ≡ spec.array_base declared.now base nullable }
{
    match base {
        Base::Class(name) => BaseType::Array(Elem::Ref(declared.class_of_name(name)), nullable),
        Base::Int(_) => BaseType::Array(Elem::Int, false),
        Base::Boolean(_) => BaseType::Array(Elem::Bool, false),
    }
}

/// The base type of a field, a parameter or a result.
pub fn base_of(declared: &Declarations, kind: TypeHead) -> BaseType
    ensures { result ≡ spec.base_of declared.now kind }
{
    if kind.array {
        array_base(declared, kind.base, kind.elements.nullable)
    } else {
        plain_base(declared, kind.base)
    }
}

pub fn result_base(declared: &Declarations, kind: Option<TypeHead>) -> BaseType
    ensures { result ≡ spec.result_base declared.now kind }
{
    match kind {
        None => BaseType::Void,
        Some(kind) => base_of(declared, kind),
    }
}

/// Whether a position of the type has a slot.
pub fn is_position(declared: &Declarations, kind: TypeHead) -> bool
    ensures { result ≡ spec.is_position declared.now kind }
{
    is_reference(base_of(declared, kind))
}

pub fn param_bases(
    alloc: Global,
    declared: &Declarations,
    params: &[ParamHead],
) -> Result<Seq<BaseType>, AllocError>
    ensures { IfOk result (λ bases. bases ≡ spec.param_bases declared.now params.now) }
{
    let mut bases = Seq::new(alloc);
    for param in params {
        bases.push(base_of(declared, param.kind))?;
    }
    Ok(bases)
}

/// Whether a method has a receiver's position.
pub fn has_receiver(head: &MethodHead) -> bool
    ensures { result ≡ spec.has_receiver head.now }
{
    !either(head.is_static, head.ctor)
}
