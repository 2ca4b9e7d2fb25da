//! Copies of bodies.
ghost use Rattle.std.specs.Prelude.{◌≡◌, IfOk};
ghost use Rattle.jn_points.specs.declared.point.PointKind.TheVariants.{ArrayOf, Call, CtorCall, New};

use jn_base::{MethodNo, RegNo, Seq};
use jn_points::{BaseType, Body, Operand, Point, PointKind};
use std::alloc::{AllocError, Global};

fn copy_operands(alloc: Global, operands: &[Operand]) -> Result<Seq<Operand>, AllocError>
    ensures { IfOk result (λ copy. copy ≡ operands.now) }
{
    Ok(Seq::of_vec(Vec::from_slice(alloc, operands)?))
}

fn copy_bases(alloc: Global, bases: &[BaseType]) -> Result<Seq<BaseType>, AllocError>
    ensures { IfOk result (λ copy. copy ≡ bases.now) }
{
    Ok(Seq::of_vec(Vec::from_slice(alloc, bases)?))
}

fn copy_array_of(
    alloc: Global,
    dst: RegNo,
    base: BaseType,
    values: &[Operand],
) -> Result<PointKind, AllocError>
    ensures { IfOk result (λ copy. copy ≡ ArrayOf dst base values.now) }
{
    let values = copy_operands(alloc, values)?;
    Ok(PointKind::ArrayOf { dst, base, values })
}

fn copy_new(
    alloc: Global,
    dst: RegNo,
    ctor: MethodNo,
    args: &[Operand],
) -> Result<PointKind, AllocError>
    ensures { IfOk result (λ copy. copy ≡ New dst ctor args.now) }
{
    let args = copy_operands(alloc, args)?;
    Ok(PointKind::New { dst, ctor, args })
}

fn copy_ctor_call(
    alloc: Global,
    ctor: MethodNo,
    args: &[Operand],
    own: bool,
) -> Result<PointKind, AllocError>
    ensures { IfOk result (λ copy. copy ≡ CtorCall ctor args.now own) }
{
    let args = copy_operands(alloc, args)?;
    Ok(PointKind::CtorCall { ctor, args, own })
}

fn copy_call(
    alloc: Global,
    dst: Option<RegNo>,
    method: MethodNo,
    receiver: Option<Operand>,
    direct: bool,
    args: &[Operand],
) -> Result<PointKind, AllocError>
    ensures { IfOk result (λ copy. copy ≡ Call dst method receiver direct args.now) }
{
    let args = copy_operands(alloc, args)?;
    Ok(PointKind::Call {
        dst,
        method,
        receiver,
        direct,
        args,
    })
}

fn copy_kind(alloc: Global, kind: &PointKind) -> Result<PointKind, AllocError>
    ensures { IfOk result (λ copy. copy ≡ kind.now) }
{
    match kind {
        PointKind::Const { dst, value } => Ok(PointKind::Const {
            dst: *dst,
            value: *value,
        }),
        PointKind::Move { dst, from, bound } => Ok(PointKind::Move {
            dst: *dst,
            from: *from,
            bound: *bound,
        }),
        PointKind::Unary { dst, negate, of } => Ok(PointKind::Unary {
            dst: *dst,
            negate: *negate,
            of: *of,
        }),
        PointKind::Binary {
            dst,
            operator,
            left,
            right,
        } => Ok(PointKind::Binary {
            dst: *dst,
            operator: *operator,
            left: *left,
            right: *right,
        }),
        PointKind::Concat { dst, left, right } => Ok(PointKind::Concat {
            dst: *dst,
            left: *left,
            right: *right,
        }),
        PointKind::SameRef {
            dst,
            equal,
            left,
            right,
        } => Ok(PointKind::SameRef {
            dst: *dst,
            equal: *equal,
            left: *left,
            right: *right,
        }),
        PointKind::FieldRead { dst, object, field } => Ok(PointKind::FieldRead {
            dst: *dst,
            object: *object,
            field: *field,
        }),
        PointKind::FieldWrite {
            object,
            field,
            value,
        } => Ok(PointKind::FieldWrite {
            object: *object,
            field: *field,
            value: *value,
        }),
        PointKind::StaticRead { dst, field } => Ok(PointKind::StaticRead {
            dst: *dst,
            field: *field,
        }),
        PointKind::StaticWrite { field, value } => Ok(PointKind::StaticWrite {
            field: *field,
            value: *value,
        }),
        PointKind::ElemRead { dst, array, index } => Ok(PointKind::ElemRead {
            dst: *dst,
            array: *array,
            index: *index,
        }),
        PointKind::ElemWrite {
            array,
            index,
            value,
        } => Ok(PointKind::ElemWrite {
            array: *array,
            index: *index,
            value: *value,
        }),
        PointKind::ArrayLen { dst, array } => Ok(PointKind::ArrayLen {
            dst: *dst,
            array: *array,
        }),
        PointKind::NewArray { dst, base, length } => Ok(PointKind::NewArray {
            dst: *dst,
            base: *base,
            length: *length,
        }),
        PointKind::ArrayOf { dst, base, values } => copy_array_of(
            alloc,
            *dst,
            *base,
            values.as_slice(),
        ),
        PointKind::New { dst, ctor, args } => copy_new(alloc, *dst, *ctor, args.as_slice()),
        PointKind::CtorCall { ctor, args, own } => copy_ctor_call(
            alloc,
            *ctor,
            args.as_slice(),
            *own,
        ),
        PointKind::Call {
            dst,
            method,
            receiver,
            direct,
            args,
        } => copy_call(alloc, *dst, *method, *receiver, *direct, args.as_slice()),
        PointKind::StrOp { dst, op, of, other } => Ok(PointKind::StrOp {
            dst: *dst,
            op: *op,
            of: *of,
            other: *other,
        }),
        PointKind::Print { of } => Ok(PointKind::Print { of: *of }),
        PointKind::Cast { dst, of, class } => Ok(PointKind::Cast {
            dst: *dst,
            of: *of,
            class: *class,
        }),
        PointKind::TestInst {
            of,
            class,
            origin,
            yes,
            no,
        } => Ok(PointKind::TestInst {
            of: *of,
            class: *class,
            origin: *origin,
            yes: *yes,
            no: *no,
        }),
        PointKind::TestNull {
            of,
            origin,
            null,
            non_null,
        } => Ok(PointKind::TestNull {
            of: *of,
            origin: *origin,
            null: *null,
            non_null: *non_null,
        }),
        PointKind::Branch { of, yes, no } => Ok(PointKind::Branch {
            of: *of,
            yes: *yes,
            no: *no,
        }),
        PointKind::Goto { to } => Ok(PointKind::Goto { to: *to }),
        PointKind::Return { value } => Ok(PointKind::Return { value: *value }),
    }
}

fn copy_point(alloc: Global, point: &Point) -> Result<Point, AllocError>
    ensures { IfOk result (λ copy. copy ≡ point.now) }
{
    Ok(Point {
        kind: copy_kind(alloc, &point.kind)?,
        span: point.span,
    })
}

fn copy_points(alloc: Global, points: &[Point]) -> Result<Seq<Point>, AllocError>
    ensures { IfOk result (λ copy. copy ≡ points.now) }
{
    let mut copy = Vec::with_capacity(alloc, points.len())?;
    for point in points {
        copy.push(copy_point(alloc, point)?)?;
    }
    Ok(Seq::of_vec(copy))
}

/// A copy of a body.
pub fn copy_body(alloc: Global, body: &Body) -> Result<Body, AllocError>
    ensures { IfOk result (λ copy. copy ≡ body.now) }
{
    let regs = copy_bases(alloc, body.regs.as_slice())?;
    let points = copy_points(alloc, body.points.as_slice())?;
    Ok(Body {
        method: body.method,
        regs,
        locals: body.locals,
        points,
    })
}
