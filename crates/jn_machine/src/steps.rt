//! One point is one step.
ghost use Rattle.std.specs.Prelude.{◌≡◌, ◌<◌, ◌-◌, ◌^◌, ℕ, List, IfOk};
ghost use Rattle.jn_heap.specs.Runs.{act, step};
ghost use Rattle.jn_machine.specs.StateView.{state_of, acted_next, next_of};

use crate::state::{Acted, MachineState, Stepped, jump};
use crate::{arms, calls, members, straight};
use jn_base::OutOfMemory;
use jn_points::{PointKind, Program};
use jn_trees::Names;
use std::alloc::{AllocError, Global};

/// What a point does.
fn act(
    alloc: Global,
    program: &Program,
    names: &Names,
    state: &mut MachineState,
    kind: &PointKind,
) -> Result<Acted, AllocError>
    requires { state.old.top.at < 2 ^ 64 - 1 }
    ensures { IfOk result (λ acted. (out : List ℕ)
        → act program.now names.now (state_of state.old out) kind.now
        ≡ acted_next acted state.new out) }
{
    match kind {
        PointKind::Const { dst, value } => arms::literal(alloc, names, state, *dst, *value),
        PointKind::Move {
            dst,
            from,
            bound: _,
        } => arms::copies(state, *dst, from.reg),
        PointKind::Unary { dst, negate, of } => Ok(arms::unary(state, *dst, *negate, of.reg)),
        PointKind::Binary {
            dst,
            operator,
            left,
            right,
        } => Ok(arms::binary(state, *dst, *operator, left.reg, right.reg)),
        PointKind::Concat { dst, left, right } => {
            arms::concat(alloc, state, *dst, left.reg, right.reg)
        }
        PointKind::SameRef {
            dst,
            equal,
            left,
            right,
        } => Ok(arms::same_ref(state, *dst, *equal, left.reg, right.reg)),
        PointKind::FieldRead { dst, object, field } => {
            arms::read_field(program, state, *dst, object.reg, *field)
        }
        PointKind::FieldWrite {
            object,
            field,
            value,
        } => members::write_field(program, state, object.reg, *field, value.reg),
        PointKind::StaticRead { dst, field } => Ok(arms::read_static(state, *dst, *field)),
        PointKind::StaticWrite { field, value } => {
            Ok(members::write_static(state, *field, value.reg))
        }
        PointKind::ElemRead { dst, array, index } => {
            arms::read_elem(state, *dst, array.reg, index.reg)
        }
        PointKind::ElemWrite {
            array,
            index,
            value,
        } => members::write_elem(program, state, array.reg, index.reg, value.reg),
        PointKind::ArrayLen { dst, array } => Ok(arms::array_len(state, *dst, array.reg)),
        PointKind::NewArray { dst, base, length } => {
            members::new_array(alloc, state, *dst, *base, length.reg)
        }
        PointKind::ArrayOf { dst, base, values } => {
            calls::array_of(alloc, state, *dst, *base, values.as_slice())
        }
        PointKind::New { dst: _, ctor, args } => {
            calls::new_object(alloc, program, state, *ctor, args.as_slice())
        }
        PointKind::CtorCall { ctor, args, own: _ } => {
            calls::ctor_call(alloc, program, state, *ctor, args.as_slice())
        }
        PointKind::Call {
            dst: _,
            method,
            receiver,
            direct,
            args,
        } => calls::call(
            alloc,
            program,
            state,
            *method,
            *receiver,
            *direct,
            args.as_slice(),
        ),
        PointKind::StrOp { dst, op, of, other } => {
            Ok(arms::str_op(state, *dst, *op, of.reg, *other))
        }
        PointKind::Print { of } => straight::print(alloc, state, of.reg),
        PointKind::Cast { dst, of, class } => arms::cast(program, state, *dst, of.reg, *class),
        PointKind::TestInst {
            of,
            class,
            origin: _,
            yes,
            no,
        } => Ok(arms::test_inst(program, state, of.reg, *class, *yes, *no)),
        PointKind::TestNull {
            of,
            origin: _,
            null,
            non_null,
        } => Ok(arms::test_null(state, of.reg, *null, *non_null)),
        PointKind::Branch { of, yes, no } => Ok(arms::branch(state, of.reg, *yes, *no)),
        PointKind::Goto { to } => Ok(jump(state, *to)),
        PointKind::Return { value } => calls::returns(program, state, *value),
    }
}

/// What the next point does; the machine is stuck where there is none.
pub(crate) fn step_once(
    alloc: Global,
    program: &Program,
    names: &Names,
    state: &mut MachineState,
) -> Result<Acted, AllocError>
    ensures { IfOk result (λ acted. (out : List ℕ)
        → step program.now names.now (state_of state.old out) ≡ acted_next acted state.new out) }
{
    match calls::point_at(program, state.top.body(), state.top.at()) {
        None => Ok(Acted::Stuck),
        Some(point) => act(alloc, program, names, state, &point.kind),
    }
}

/// Runs the next point, one step of the definition. What it prints, a text and a line feed, is
/// put after `out`.
///
/// # Errors
/// No memory was found; state and `out` are then of no use.
pub fn step(
    alloc: Global,
    program: &Program,
    names: &Names,
    state: &mut MachineState,
    out: &mut Vec<u8>,
) -> Result<Stepped, OutOfMemory>
    ensures { IfOk result (λ stepped. step program.now names.now (state_of state.old out.old.items)
        ≡ next_of stepped state.new out.new.items) }
{
    match step_once(alloc, program, names, state)? {
        Acted::Goes => Ok(Stepped::Goes),
        Acted::Prints(line) => {
            out.extend_from_slice(line.as_str().as_bytes())?;
            Ok(Stepped::Goes)
        }
        Acted::Ends(end) => Ok(Stepped::Ends(end)),
        Acted::Stuck => Ok(Stepped::Stuck),
    }
}
