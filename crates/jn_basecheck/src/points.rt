//! The rows J7 and J10 at the points of a body.
ghost use Rattle.std.specs.Prelude.{◌≡◌, ◌<◌, ◌++◌, length, OnOk};
ghost use Rattle.jn_points.specs.BaseRows as rules;
ghost use Rattle.jn_points.specs.Lookup as spec;
ghost use Rattle.jn_basecheck.specs.Rows as rows_of;
ghost use Rattle.jn_basecheck.specs.Wanted.{meant};

use crate::lookup::{body_of, point_of, result_base};
use crate::types::{Want, push_all, push_arguments, push_operand, push_optional};
use jn_base::{ClassNo, FieldNo, MethodNo, Row};
use jn_index::indexed::IndexedProgram;
use jn_points::lookup::{class_of, elem_base, field_base, is_void, owner, params_of, reg_base};
use jn_points::{BaseType, Operand, Operator, PointKind};
use std::alloc::AllocError;

/// What a Return of the body at a place wants of its value.
fn returned(program: &IndexedProgram, body: usize) -> Want
    ensures { meant result ≡ rules.returned program.now body }
{
    let result = result_base(program.program(), body);
    if is_void(result) {
        Want::Valued
    } else {
        Want::Within(result)
    }
}

/// The rows of two operands of one kind of type.
fn push_two(
    rows: &mut Vec<Row>,
    program: &IndexedProgram,
    body: usize,
    want: Want,
    left: Operand,
    right: Operand,
) -> Result<(), AllocError>
    ensures { OnOk result (rows.new.items
        ≡ rows.old.items
        ++ (rules.operand_rows program.now body (meant want) left
        ++ rules.operand_rows program.now body (meant want) right)) }
{
    push_operand(rows, program, body, want, left)?;
    push_operand(rows, program, body, want, right)
}

/// The rows of the sides of `==` and `!=` on primitives.
fn push_same(
    rows: &mut Vec<Row>,
    program: &IndexedProgram,
    body: usize,
    left: Operand,
    right: Operand,
) -> Result<(), AllocError>
    ensures { OnOk result (rows.new.items
        ≡ rows.old.items
        ++ (rules.operand_rows program.now body rules.Primitive left
        ++ rules.operand_rows program.now body
        (rules.Same (spec.reg_base program.now body left.reg.0)) right)) }
{
    push_operand(rows, program, body, Want::Primitive, left)?;
    let same = Want::Same(reg_base(program.program(), body, left.reg));
    push_operand(rows, program, body, same, right)
}

fn push_binary(
    rows: &mut Vec<Row>,
    program: &IndexedProgram,
    body: usize,
    operator: Operator,
    left: Operand,
    right: Operand,
) -> Result<(), AllocError>
    ensures { OnOk result (rows.new.items
        ≡ rows.old.items ++ rules.binary_rows program.now body operator left right) }
{
    match operator {
        Operator::Equal => push_same(rows, program, body, left, right),
        Operator::NotEqual => push_same(rows, program, body, left, right),
        _ => push_two(
            rows,
            program,
            body,
            Want::Within(BaseType::Int),
            left,
            right,
        ),
    }
}

/// The row of an object whose field is read or written.
fn push_object(
    rows: &mut Vec<Row>,
    program: &IndexedProgram,
    body: usize,
    field: FieldNo,
    object: Operand,
) -> Result<(), AllocError>
    ensures { OnOk result (rows.new.items
        ≡ rows.old.items
        ++ rules.operand_rows program.now body
        (rules.Within (BaseType.Ref (record { 0 = spec.owner program.now field.0 })))
        object) }
{
    let class = ClassNo(owner(program.program(), field.0));
    push_operand(
        rows,
        program,
        body,
        Want::Within(BaseType::Ref(class)),
        object,
    )
}

/// The row of a value that a field is given.
fn push_given(
    rows: &mut Vec<Row>,
    program: &IndexedProgram,
    body: usize,
    field: FieldNo,
    value: Operand,
) -> Result<(), AllocError>
    ensures { OnOk result (rows.new.items
        ≡ rows.old.items
        ++ rules.operand_rows program.now body
        (rules.Within (spec.field_base program.now field.0)) value) }
{
    let base = field_base(program.program(), field);
    push_operand(rows, program, body, Want::Within(base), value)
}

/// The rows of an array and an index into it.
fn push_element(
    rows: &mut Vec<Row>,
    program: &IndexedProgram,
    body: usize,
    array: Operand,
    index: Operand,
) -> Result<(), AllocError>
    ensures { OnOk result (rows.new.items
        ≡ rows.old.items
        ++ (rules.operand_rows program.now body rules.Elements array
        ++ rules.operand_rows program.now body (rules.Within BaseType.Int) index)) }
{
    push_operand(rows, program, body, Want::Elements, array)?;
    push_operand(rows, program, body, Want::Within(BaseType::Int), index)
}

/// The row of a receiver, where there is one.
fn push_receiver(
    rows: &mut Vec<Row>,
    program: &IndexedProgram,
    body: usize,
    method: MethodNo,
    receiver: Option<Operand>,
) -> Result<(), AllocError>
    ensures { OnOk result (rows.new.items
        ≡ rows.old.items
        ++ rules.optional_rows program.now body
        (rules.Within (BaseType.Ref
        (record { 0 = spec.class_of (spec.method_at program.now method.0) })))
        receiver) }
{
    let class = class_of(program.program(), method);
    push_optional(
        rows,
        program,
        body,
        Want::Within(BaseType::Ref(class)),
        receiver,
    )
}

/// The rows J7 and J10 of a point of the body at a place: an operand whose type does not fit, and
/// one of which only element nullity differs.
///
/// # Errors
/// No memory was found.
pub fn push_types(
    rows: &mut Vec<Row>,
    program: &IndexedProgram,
    body: usize,
    kind: &PointKind,
) -> Result<(), AllocError>
    ensures { OnOk result
        (rows.new.items ≡ rows.old.items ++ rules.type_rows program.now body kind.now) }
{
    match kind {
        PointKind::Move { dst, from, .. } => {
            let base = reg_base(program.program(), body, *dst);
            push_operand(rows, program, body, Want::Within(base), *from)
        }
        PointKind::Unary { of, .. } => {
            push_operand(rows, program, body, Want::Within(BaseType::Int), *of)
        }
        PointKind::Binary {
            operator,
            left,
            right,
            ..
        } => push_binary(rows, program, body, *operator, *left, *right),
        PointKind::Concat { left, right, .. } => {
            push_two(rows, program, body, Want::Joinable, *left, *right)
        }
        PointKind::SameRef { left, right, .. } => {
            push_two(rows, program, body, Want::Reference, *left, *right)
        }
        PointKind::FieldRead { object, field, .. } => {
            push_object(rows, program, body, *field, *object)
        }
        PointKind::FieldWrite {
            object,
            field,
            value,
        } => {
            push_object(rows, program, body, *field, *object)?;
            push_given(rows, program, body, *field, *value)
        }
        PointKind::StaticWrite { field, value } => push_given(rows, program, body, *field, *value),
        PointKind::ElemRead { array, index, .. } => {
            push_element(rows, program, body, *array, *index)
        }
        PointKind::ElemWrite {
            array,
            index,
            value,
        } => {
            push_element(rows, program, body, *array, *index)?;
            let elem = elem_base(reg_base(program.program(), body, array.reg));
            push_operand(rows, program, body, Want::Within(elem), *value)
        }
        PointKind::ArrayLen { array, .. } => {
            push_operand(rows, program, body, Want::Elements, *array)
        }
        PointKind::NewArray { length, .. } => {
            push_operand(rows, program, body, Want::Within(BaseType::Int), *length)
        }
        PointKind::ArrayOf { base, values, .. } => {
            let want = Want::Within(elem_base(*base));
            push_all(rows, program, body, want, values.as_slice())
        }
        PointKind::New { ctor, args, .. } => {
            let params = params_of(program.program(), *ctor);
            push_arguments(rows, program, body, params, args.as_slice())
        }
        PointKind::CtorCall { ctor, args, .. } => {
            let params = params_of(program.program(), *ctor);
            push_arguments(rows, program, body, params, args.as_slice())
        }
        PointKind::Call {
            method,
            receiver,
            args,
            ..
        } => {
            push_receiver(rows, program, body, *method, *receiver)?;
            let params = params_of(program.program(), *method);
            push_arguments(rows, program, body, params, args.as_slice())
        }
        PointKind::StrOp { of, other, .. } => {
            let string = BaseType::Ref(ClassNo(1));
            push_operand(rows, program, body, Want::Within(string), *of)?;
            push_optional(rows, program, body, Want::Reference, *other)
        }
        PointKind::Print { of } => push_operand(rows, program, body, Want::Printable, *of),
        PointKind::Cast { of, .. } => push_operand(rows, program, body, Want::Reference, *of),
        PointKind::TestInst { of, .. } => push_operand(rows, program, body, Want::Reference, *of),
        PointKind::TestNull { of, .. } => push_operand(rows, program, body, Want::Reference, *of),
        PointKind::Branch { of, .. } => {
            push_operand(rows, program, body, Want::Within(BaseType::Bool), *of)
        }
        PointKind::Return { value } => {
            push_optional(rows, program, body, returned(program, body), *value)
        }
        PointKind::Const { .. } => Ok(()),
        PointKind::StaticRead { .. } => Ok(()),
        PointKind::Goto { .. } => Ok(()),
    }
}

fn push_types_at(
    rows: &mut Vec<Row>,
    program: &IndexedProgram,
    body: usize,
    at: usize,
) -> Result<(), AllocError>
    ensures { OnOk result
        (rows_of.Adds (rows_of.TypeRowAt program.now body at) rows.old.items rows.new.items) }
{
    match point_of(program.program(), body, at) {
        None => Ok(()),
        Some(point) => push_types(rows, program, body, &point.kind),
    }
}

/// The rows J7 and J10 of the body at a place.
///
/// # Errors
/// No memory was found.
pub fn push_body_types(
    rows: &mut Vec<Row>,
    program: &IndexedProgram,
    body: usize,
) -> Result<(), AllocError>
    requires { body < length program.now.bodies }
    ensures { OnOk result
        (rows_of.Adds (rows_of.TypeRows program.now body) rows.old.items rows.new.items) }
{
    for at in 0..body_of(program.program(), body).points.len() {
        push_types_at(rows, program, body, at)?;
    }
    Ok(())
}
