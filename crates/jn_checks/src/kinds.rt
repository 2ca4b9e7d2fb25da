//! The rules that each kind of point asks.
ghost use Rattle.std.specs.Prelude.{◌≡◌, ◌++◌, OnOk};
ghost use Rattle.jn_points.specs.Lookup.{dereferences};
ghost use Rattle.jn_transfer.specs.Rules.{kind_rows, rows_at, arg_rows, receiver_rows};
ghost use Rattle.jn_points.specs.Lookup.{method_at, slots_of};
ghost use Rattle.jn_sigs.specs.Signature.{slot_quals, receiver_of};

use crate::rules::{
    push_bound, push_call_args, push_deref, push_elem, push_elems, push_equals, push_new_array,
    push_receiver, push_return, push_write,
};
use jn_base::{BodyNo, MethodNo, Row};
use jn_env::Env;
use jn_points::lookup::reg_base;
use jn_points::{Operand, Point, PointKind, Program};
use jn_sigs::Sig;
use std::alloc::AllocError;

/// The register that a point dereferences.
fn dereferences(kind: &PointKind) -> Option<Operand>
    ensures { result ≡ dereferences kind.now }
{
    match kind {
        PointKind::FieldRead { object, .. } => Some(*object),
        PointKind::FieldWrite { object, .. } => Some(*object),
        PointKind::ElemRead { array, .. } => Some(*array),
        PointKind::ElemWrite { array, .. } => Some(*array),
        PointKind::ArrayLen { array, .. } => Some(*array),
        PointKind::Call { receiver, .. } => *receiver,
        PointKind::StrOp { of, .. } => Some(*of),
        _ => None,
    }
}

/// The broken rules of a point of the body, where it is reached.
pub fn push_rows(
    rows: &mut Vec<Row>,
    program: &Program,
    sig: &Sig,
    body: BodyNo,
    point: &Point,
    slot: &Option<Env>,
) -> Result<(), AllocError>
    ensures { OnOk result
        (rows.new.items ≡ rows.old.items ++ rows_at program.now sig.now body.0 point.now slot.now) }
{
    match slot {
        None => Ok(()),
        Some(env) => {
            push_deref(rows, env, dereferences(&point.kind))?;
            push_kind(rows, program, sig, body, env, point)
        }
    }
}

/// The rules of a point but for its dereference.
fn push_kind(
    rows: &mut Vec<Row>,
    program: &Program,
    sig: &Sig,
    body: BodyNo,
    env: &Env,
    point: &Point,
) -> Result<(), AllocError>
    ensures { OnOk result (rows.new.items
        ≡ rows.old.items
        ++ kind_rows program.now sig.now body.0 env.now point.now.span point.now.kind) }
{
    match &point.kind {
        PointKind::Move { from, bound, .. } => push_bound(rows, env, *from, *bound),
        PointKind::FieldWrite {
            object,
            field,
            value,
        } => push_write(rows, program, sig, env, *object, *field, *value),
        PointKind::ElemWrite { array, value, .. } => {
            push_elem(
                rows,
                env,
                reg_base(program, body.0 as usize, array.reg),
                *value,
            )
        }
        PointKind::NewArray { base, .. } => push_new_array(rows, point.span, *base),
        PointKind::ArrayOf { base, values, .. } => {
            push_elems(rows, env, *base, values.as_slice())
        }
        PointKind::New { ctor, args, .. } => {
            push_call_args(rows, program, sig, env, *ctor, args.as_slice())
        }
        PointKind::CtorCall { ctor, args, .. } => {
            push_call_args(rows, program, sig, env, *ctor, args.as_slice())
        }
        PointKind::Call {
            method,
            receiver,
            args,
            ..
        } => push_call(rows, program, sig, env, *method, *receiver, args.as_slice()),
        PointKind::StrOp { op, other, .. } => push_equals(rows, env, *op, *other),
        PointKind::Return { value } => push_return(rows, program, sig, body, env, *value),
        _ => Ok(()),
    }
}

/// A method is called.
fn push_call(
    rows: &mut Vec<Row>,
    program: &Program,
    sig: &Sig,
    env: &Env,
    method: MethodNo,
    receiver: Option<Operand>,
    args: &[Operand],
) -> Result<(), AllocError>
    ensures { OnOk result (rows.new.items
        ≡ rows.old.items
        ++ arg_rows env.now (slot_quals sig.now (slots_of (method_at program.now method.0)))
        args.now
        ++ receiver_rows env.now receiver
        (receiver_of sig.now (method_at program.now method.0))) }
{
    push_call_args(rows, program, sig, env, method, args)?;
    push_receiver(rows, program, sig, env, receiver, method)
}
