//! What the analysis looks up in a program and a signature.
ghost use Rattle.std.specs.Prelude.{◌≡◌};
ghost use Rattle.jn_points.specs.Lookup.{is_flat, flat_field, locals, ctor_of, class_of, field_info, method_in, method_at};
ghost use Rattle.jn_sigs.specs.Signature.{slot_qual, field_qual, result_of};
ghost use Rattle.jn_transfer.specs.Contributions.{field_slot_of, result_slot_of};
ghost use Rattle.jn_transfer.specs.Transfer.{literal_qual, elem_qual};

use jn_base::{BodyNo, ClassNo, FieldNo, MethodNo, SlotNo};
use jn_points::lookup::{field_info, method_at, method_in};
use jn_points::{BaseType, Elem, Literal, Program};
use jn_quals::Qual;
use jn_sigs::Sig;

/// The qualifier of a literal.
pub fn literal_qual(value: Literal) -> Qual
    ensures { result ≡ literal_qual value }
{
    match value {
        Literal::Int(_) => Qual::none(),
        Literal::Truth(_) => Qual::none(),
        Literal::Str(_) => Qual::committed_only(),
        Literal::Null => Qual::null_only(),
    }
}

/// The qualifier of an array's elements.
pub fn elem_qual(base: BaseType) -> Qual
    ensures { result ≡ elem_qual base }
{
    match base {
        BaseType::Array(Elem::Ref(_), true) => Qual::null_or_committed(),
        BaseType::Array(Elem::Ref(_), false) => Qual::committed_only(),
        BaseType::Array(Elem::Int, _) => Qual::none(),
        BaseType::Array(Elem::Bool, _) => Qual::none(),
        BaseType::Int => Qual::none(),
        BaseType::Bool => Qual::none(),
        BaseType::Void => Qual::none(),
        BaseType::Null => Qual::none(),
        BaseType::Ref(_) => Qual::none(),
    }
}

/// The slot of a field; None where it has none, or isn't there.
pub fn field_slot(program: &Program, field: FieldNo) -> Option<SlotNo>
    ensures { result ≡ field_slot_of (field_info program.now field.0) }
{
    match field_info(program, field) {
        None => None,
        Some(info) => info.slot,
    }
}

/// The slot of a method's result; None where it has none, or the method isn't there.
pub fn result_slot(program: &Program, method: MethodNo) -> Option<SlotNo>
    ensures { result ≡ result_slot_of (method_at program.now method.0) }
{
    match method_at(program, method.0 as usize) {
        None => None,
        Some(info) => info.result_slot,
    }
}

/// How many of a body's registers are parameters or locals.
pub fn locals(program: &Program, body: BodyNo) -> u32
    ensures { result ≡ locals program.now body.0 }
{
    match program.bodies.as_slice().get(body.0 as usize) {
        None => 0,
        Some(info) => info.locals,
    }
}

/// Whether the body is a constructor's.
pub fn is_ctor(program: &Program, body: BodyNo) -> bool
    ensures { result ≡ ctor_of (method_in program.now body.0) }
{
    match method_in(program, body.0 as usize) {
        None => false,
        Some(method) => method.ctor,
    }
}

/// The number of the class that declares the body's method; 0 where it is not there.
pub fn class_of(program: &Program, body: BodyNo) -> u32
    ensures { result ≡ class_of (method_in program.now body.0) }
{
    match method_in(program, body.0 as usize) {
        None => 0,
        Some(method) => method.owner.0,
    }
}

/// Whether the field is of String or array type.
pub fn is_flat_field(program: &Program, field: u32) -> bool
    ensures { result ≡ flat_field program.now field }
{
    match field_info(program, FieldNo(field)) {
        None => false,
        Some(info) => is_flat(info.base),
    }
}

fn is_flat(base: BaseType) -> bool
    ensures { result ≡ is_flat base }
{
    match base {
        BaseType::Ref(ClassNo(class)) => class == 1,
        BaseType::Array(_, _) => true,
        BaseType::Int => false,
        BaseType::Bool => false,
        BaseType::Void => false,
        BaseType::Null => false,
    }
}

/// The qualifier of a slot; empty where there is none.
pub fn slot_qual(sig: &Sig, slot: Option<SlotNo>) -> Qual
    ensures { result ≡ slot_qual sig.now slot }
{
    match slot {
        None => Qual::none(),
        Some(slot) => sig.get(slot),
    }
}

/// The qualifier of a field's slot.
pub fn field_qual(program: &Program, sig: &Sig, field: u32) -> Qual
    ensures { result ≡ field_qual program.now sig.now field }
{
    match field_info(program, FieldNo(field)) {
        None => Qual::none(),
        Some(info) => slot_qual(sig, info.slot),
    }
}

/// The qualifier of a method's result.
pub fn result_qual(program: &Program, sig: &Sig, method: MethodNo) -> Qual
    ensures { result ≡ result_of sig.now (method_at program.now method.0) }
{
    match method_at(program, method.0 as usize) {
        None => Qual::none(),
        Some(info) => slot_qual(sig, info.result_slot),
    }
}
