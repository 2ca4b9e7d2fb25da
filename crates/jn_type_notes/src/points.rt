//! The operands of points whose types don't fit.
ghost use Rattle.std.specs.Prelude.{◌≡◌, ◌<◌, ◌^◌, ◌++◌, drop, length, slice_get, IfOk, OnOk, Some};
ghost use Rattle.jn_points.specs.Lookup as looked;
ghost use Rattle.jn_type_notes.specs.Mismatched as spec;

use crate::mismatch::{Mismatch, all, arguments, operand, optional};
use jn_base::{ClassNo, FieldNo, MethodNo, Seq};
use jn_basecheck::Want;
use jn_index::indexed::IndexedProgram;
use jn_points::lookup::{
    class_of, elem_base, field_base, is_void, method_in, owner, params_of, reg_base,
};
use jn_points::{BaseType, Body, Operand, Operator, Point, PointKind};
use std::alloc::{AllocError, Global};

/// The type of what the body of this number returns; Void where it returns no value.
fn result_base(program: &IndexedProgram, body: usize) -> BaseType
    ensures { result ≡ looked.result_base_of (looked.method_in program.now body) }
{
    match method_in(program.program(), body) {
        None => BaseType::Void,
        Some(method) => method.result,
    }
}

/// What a Return of the body at a place wants of its value.
fn returned(program: &IndexedProgram, body: usize) -> Want
    ensures { result ≡ spec.returned program.now body }
{
    let result = result_base(program, body);
    if is_void(result) {
        Want::Valued
    } else {
        Want::Within(result)
    }
}

/// Puts two operands of which the same is wanted.
fn put_two(
    found: &mut Seq<Mismatch>,
    program: &IndexedProgram,
    body: usize,
    want: Want,
    left: Operand,
    right: Operand,
) -> Result<(), AllocError>
    ensures { OnOk result (found.new
        ≡ found.old
        ++ (spec.operand_found program.now body want left
        ++ spec.operand_found program.now body want right)) }
{
    operand(found, program, body, want, left)?;
    operand(found, program, body, want, right)
}

/// Puts the sides of `==` and `!=` on primitives.
fn put_same(
    found: &mut Seq<Mismatch>,
    program: &IndexedProgram,
    body: usize,
    left: Operand,
    right: Operand,
) -> Result<(), AllocError>
    ensures { OnOk result (found.new
        ≡ found.old
        ++ (spec.operand_found program.now body Want.Primitive left
        ++ spec.operand_found program.now body
        (Want.Same (looked.reg_base program.now body left.reg.0)) right)) }
{
    operand(found, program, body, Want::Primitive, left)?;
    let same = Want::Same(reg_base(program.program(), body, left.reg));
    operand(found, program, body, same, right)
}

fn put_binary(
    found: &mut Seq<Mismatch>,
    program: &IndexedProgram,
    body: usize,
    operator: Operator,
    left: Operand,
    right: Operand,
) -> Result<(), AllocError>
    ensures { OnOk result (found.new
        ≡ found.old ++ spec.binary_found program.now body operator left right) }
{
    match operator {
        Operator::Equal => put_same(found, program, body, left, right),
        Operator::NotEqual => put_same(found, program, body, left, right),
        _ => put_two(
            found,
            program,
            body,
            Want::Within(BaseType::Int),
            left,
            right,
        ),
    }
}

/// Puts an object whose field is read or written.
fn put_object(
    found: &mut Seq<Mismatch>,
    program: &IndexedProgram,
    body: usize,
    field: FieldNo,
    object: Operand,
) -> Result<(), AllocError>
    ensures { OnOk result (found.new
        ≡ found.old
        ++ spec.operand_found program.now body
        (Want.Within (BaseType.Ref (record { 0 = looked.owner program.now field.0 })))
        object) }
{
    let class = ClassNo(owner(program.program(), field.0));
    operand(
        found,
        program,
        body,
        Want::Within(BaseType::Ref(class)),
        object,
    )
}

/// Puts a value that a field is given.
fn put_given(
    found: &mut Seq<Mismatch>,
    program: &IndexedProgram,
    body: usize,
    field: FieldNo,
    value: Operand,
) -> Result<(), AllocError>
    ensures { OnOk result (found.new
        ≡ found.old
        ++ spec.operand_found program.now body
        (Want.Within (looked.field_base program.now field.0)) value) }
{
    let base = field_base(program.program(), field);
    operand(found, program, body, Want::Within(base), value)
}

/// Puts an array and an index into it.
fn put_element(
    found: &mut Seq<Mismatch>,
    program: &IndexedProgram,
    body: usize,
    array: Operand,
    index: Operand,
) -> Result<(), AllocError>
    ensures { OnOk result (found.new
        ≡ found.old
        ++ (spec.operand_found program.now body Want.Elements array
        ++ spec.operand_found program.now body (Want.Within BaseType.Int) index)) }
{
    operand(found, program, body, Want::Elements, array)?;
    operand(found, program, body, Want::Within(BaseType::Int), index)
}

/// Puts a receiver, where there is one.
fn put_receiver(
    found: &mut Seq<Mismatch>,
    program: &IndexedProgram,
    body: usize,
    method: MethodNo,
    receiver: Option<Operand>,
) -> Result<(), AllocError>
    ensures { OnOk result (found.new
        ≡ found.old
        ++ spec.optional_found program.now body
        (Want.Within (BaseType.Ref
        (record { 0 = looked.class_of (looked.method_at program.now method.0) })))
        receiver) }
{
    let class = class_of(program.program(), method);
    optional(
        found,
        program,
        body,
        Want::Within(BaseType::Ref(class)),
        receiver,
    )
}

/// Puts the operands of a point of the body of this number.
fn put_kind(
    found: &mut Seq<Mismatch>,
    program: &IndexedProgram,
    body: usize,
    kind: &PointKind,
) -> Result<(), AllocError>
    ensures { OnOk result
        (found.new ≡ found.old ++ spec.kind_found program.now body kind.now) }
{
    match kind {
        PointKind::Move { dst, from, .. } => {
            let base = reg_base(program.program(), body, *dst);
            operand(found, program, body, Want::Within(base), *from)
        }
        PointKind::Unary { of, .. } => {
            operand(found, program, body, Want::Within(BaseType::Int), *of)
        }
        PointKind::Binary {
            operator,
            left,
            right,
            ..
        } => put_binary(found, program, body, *operator, *left, *right),
        PointKind::Concat { left, right, .. } => {
            put_two(found, program, body, Want::Joinable, *left, *right)
        }
        PointKind::SameRef { left, right, .. } => {
            put_two(found, program, body, Want::Reference, *left, *right)
        }
        PointKind::FieldRead { object, field, .. } => {
            put_object(found, program, body, *field, *object)
        }
        PointKind::FieldWrite {
            object,
            field,
            value,
        } => {
            put_object(found, program, body, *field, *object)?;
            put_given(found, program, body, *field, *value)
        }
        PointKind::StaticWrite { field, value } => put_given(found, program, body, *field, *value),
        PointKind::ElemRead { array, index, .. } => {
            put_element(found, program, body, *array, *index)
        }
        PointKind::ElemWrite {
            array,
            index,
            value,
        } => {
            put_element(found, program, body, *array, *index)?;
            let elem = elem_base(reg_base(program.program(), body, array.reg));
            operand(found, program, body, Want::Within(elem), *value)
        }
        PointKind::ArrayLen { array, .. } => {
            operand(found, program, body, Want::Elements, *array)
        }
        PointKind::NewArray { length, .. } => {
            operand(found, program, body, Want::Within(BaseType::Int), *length)
        }
        PointKind::ArrayOf { base, values, .. } => {
            let want = Want::Within(elem_base(*base));
            all(found, program, body, want, values.as_slice())
        }
        PointKind::New { ctor, args, .. } => {
            let params = params_of(program.program(), *ctor);
            arguments(found, program, body, params, args.as_slice())
        }
        PointKind::CtorCall { ctor, args, .. } => {
            let params = params_of(program.program(), *ctor);
            arguments(found, program, body, params, args.as_slice())
        }
        PointKind::Call {
            method,
            receiver,
            args,
            ..
        } => {
            put_receiver(found, program, body, *method, *receiver)?;
            let params = params_of(program.program(), *method);
            arguments(found, program, body, params, args.as_slice())
        }
        PointKind::StrOp { of, other, .. } => {
            let string = BaseType::Ref(ClassNo(1));
            operand(found, program, body, Want::Within(string), *of)?;
            optional(found, program, body, Want::Reference, *other)
        }
        PointKind::Print { of } => operand(found, program, body, Want::Printable, *of),
        PointKind::Cast { of, .. } => operand(found, program, body, Want::Reference, *of),
        PointKind::TestInst { of, .. } => operand(found, program, body, Want::Reference, *of),
        PointKind::TestNull { of, .. } => operand(found, program, body, Want::Reference, *of),
        PointKind::Branch { of, .. } => {
            operand(found, program, body, Want::Within(BaseType::Bool), *of)
        }
        PointKind::Return { value } => {
            optional(found, program, body, returned(program, body), *value)
        }
        PointKind::Const { .. } => Ok(()),
        PointKind::StaticRead { .. } => Ok(()),
        PointKind::Goto { .. } => Ok(()),
    }
}

/// Puts those of points, one after the other.
fn put_points(
    found: &mut Seq<Mismatch>,
    program: &IndexedProgram,
    body: usize,
    points: &[Point],
) -> Result<(), AllocError>
    ensures { OnOk result
        (found.new ≡ found.old ++ spec.points_found program.now body points.now) }
{
    for point in points {
        put_kind(found, program, body, &point.kind)?;
    }
    Ok(())
}

/// Puts those of bodies, numbered from 0 on.
fn put_bodies(
    found: &mut Seq<Mismatch>,
    program: &IndexedProgram,
    bodies: &[Body],
) -> Result<(), AllocError>
    ensures { OnOk result
        (found.new ≡ found.old ++ spec.bodies_found program.now 0 bodies.now) }
{
    for body in 0..bodies.len() {
        put_points(found, program, body, bodies[body].points.as_slice())?;
    }
    Ok(())
}

/// All operands of a program whose types don't fit, body by body.
///
/// # Errors
/// No memory was found.
pub(crate) fn mismatches_of(
    alloc: Global,
    program: &IndexedProgram,
) -> Result<Seq<Mismatch>, AllocError>
    ensures { IfOk result (λ found. found ≡ spec.program_found program.now) }
{
    let mut found = Seq::new(alloc);
    put_bodies(&mut found, program, program.program().bodies.as_slice())?;
    Ok(found)
}
