//! Points that put what an operation gives into a register, and points that go by a test: each with the few locals that it needs, since a
//! step pays for those of the function that it enters.
ghost use Rattle.std.specs.Prelude.{◌≡◌, ◌<◌, ◌-◌, ◌^◌, ℕ, List, IfOk, slice_get};
ghost use Rattle.jn_heap.specs.Values.{usual_limits};
ghost use Rattle.jn_heap.specs.State.{got_of, got_plain, got_prim, got_sets, int_of, object_of, prim_of, sets, text_in, truth_of, value_at, value_of};
ghost use Rattle.jn_heap.specs.Steps as spec;
ghost use Rattle.jn_machine.specs.StateView.{state_of, acted_next};

use crate::prim::Got;
use crate::state::{Acted, MachineState, jump_to, settle};
use crate::{members, straight};
use jn_base::{ClassNo, FieldNo, PointNo, RegNo};
use jn_points::{Literal, Operand, Operator, Program, StrOperation};
use jn_trees::Names;
use std::alloc::{AllocError, Global};

pub(crate) fn literal(
    alloc: Global,
    names: &Names,
    state: &mut MachineState,
    dst: RegNo,
    value: Literal,
) -> Result<Acted, AllocError>
    requires { state.old.top.at < 2 ^ 64 - 1 }
    ensures { IfOk result (λ acted. (out : List ℕ)
        → sets (state_of state.old out) dst.0 (spec.literal_value names.now value)
        ≡ acted_next acted state.new out) }
{
    let made = straight::literal(alloc, names, value)?;
    Ok(settle(state, dst, Got::Gives(made)))
}

pub(crate) fn copies(state: &mut MachineState, dst: RegNo, from: RegNo) -> Result<Acted, AllocError>
    requires { state.old.top.at < 2 ^ 64 - 1 }
    ensures { IfOk result (λ acted. (out : List ℕ)
        → got_sets (state_of state.old out) dst.0 (got_of (value_at state.old.top.regs from.0))
        ≡ acted_next acted state.new out) }
{
    let got = straight::moved(&state.top, from)?;
    Ok(settle(state, dst, got))
}

pub(crate) fn unary(state: &mut MachineState, dst: RegNo, negate: bool, of: RegNo) -> Acted
    requires { state.old.top.at < 2 ^ 64 - 1 }
    ensures { (out : List ℕ)
        → got_sets (state_of state.old out) dst.0
        (spec.unary_of negate (prim_of (value_at state.old.top.regs of.0)))
        ≡ acted_next result state.new out }
{
    let got = straight::unary(negate, state.top.prim(of));
    settle(state, dst, got)
}

pub(crate) fn binary(
    state: &mut MachineState,
    dst: RegNo,
    operator: Operator,
    left: RegNo,
    right: RegNo,
) -> Acted
    requires { state.old.top.at < 2 ^ 64 - 1 }
    ensures { (out : List ℕ)
        → got_sets (state_of state.old out) dst.0
        (spec.binary_of operator (prim_of (value_at state.old.top.regs left.0))
        (prim_of (value_at state.old.top.regs right.0)))
        ≡ acted_next result state.new out }
{
    let got = straight::binary(operator, state.top.prim(left), state.top.prim(right));
    settle(state, dst, got)
}

pub(crate) fn concat(
    alloc: Global,
    state: &mut MachineState,
    dst: RegNo,
    left: RegNo,
    right: RegNo,
) -> Result<Acted, AllocError>
    requires { state.old.top.at < 2 ^ 64 - 1 }
    ensures { IfOk result (λ acted. (out : List ℕ)
        → got_sets (state_of state.old out) dst.0
        (spec.concat_of usual_limits.longest (text_in (value_at state.old.top.regs left.0))
        (text_in (value_at state.old.top.regs right.0)))
        ≡ acted_next acted state.new out) }
{
    let front = straight::shown(alloc, &state.top, left)?;
    let rest = straight::shown(alloc, &state.top, right)?;
    let got = straight::concat(alloc, front, rest)?;
    Ok(settle(state, dst, got))
}

pub(crate) fn same_ref(
    state: &mut MachineState,
    dst: RegNo,
    equal: bool,
    left: RegNo,
    right: RegNo,
) -> Acted
    requires { state.old.top.at < 2 ^ 64 - 1 }
    ensures { (out : List ℕ)
        → got_sets (state_of state.old out) dst.0
        (spec.same_of equal (value_at state.old.top.regs left.0)
        (value_at state.old.top.regs right.0))
        ≡ acted_next result state.new out }
{
    let got = straight::same_ref(&state.top, equal, left, right);
    settle(state, dst, got)
}

pub(crate) fn str_op(
    state: &mut MachineState,
    dst: RegNo,
    op: StrOperation,
    of: RegNo,
    other: Option<Operand>,
) -> Acted
    requires { state.old.top.at < 2 ^ 64 - 1 }
    ensures { (out : List ℕ)
        → got_sets (state_of state.old out) dst.0
        (spec.str_op op (value_at state.old.top.regs of.0) (value_of state.old.top.regs other))
        ≡ acted_next result state.new out }
{
    let got = straight::str_op(&state.top, op, of, other);
    settle(state, dst, got)
}

pub(crate) fn read_field(
    program: &Program,
    state: &mut MachineState,
    dst: RegNo,
    object: RegNo,
    field: FieldNo,
) -> Result<Acted, AllocError>
    requires { state.old.top.at < 2 ^ 64 - 1 }
    ensures { IfOk result (λ acted. (out : List ℕ)
        → got_sets (state_of state.old out) dst.0
        (spec.read_field program.now state.old.heap.items
        (object_of (value_at state.old.top.regs object.0)) field.0)
        ≡ acted_next acted state.new out) }
{
    let got = members::read_field(program, &state.heap, state.top.object(object), field)?;
    Ok(settle(state, dst, got))
}

pub(crate) fn read_static(state: &mut MachineState, dst: RegNo, field: FieldNo) -> Acted
    requires { state.old.top.at < 2 ^ 64 - 1 }
    ensures { (out : List ℕ)
        → got_sets (state_of state.old out) dst.0
        (got_plain (got_prim (slice_get state.old.statics.items field.0)))
        ≡ acted_next result state.new out }
{
    let got = members::read_static(&state.statics, field);
    settle(state, dst, got)
}

pub(crate) fn read_elem(
    state: &mut MachineState,
    dst: RegNo,
    array: RegNo,
    at: RegNo,
) -> Result<Acted, AllocError>
    requires { state.old.top.at < 2 ^ 64 - 1 }
    ensures { IfOk result (λ acted. (out : List ℕ)
        → got_sets (state_of state.old out) dst.0
        (spec.read_elem state.old.heap.items (object_of (value_at state.old.top.regs array.0))
        (int_of (prim_of (value_at state.old.top.regs at.0))))
        ≡ acted_next acted state.new out) }
{
    let got = members::read_elem(&state.heap, state.top.object(array), state.top.int(at))?;
    Ok(settle(state, dst, got))
}

pub(crate) fn array_len(state: &mut MachineState, dst: RegNo, array: RegNo) -> Acted
    requires { state.old.top.at < 2 ^ 64 - 1 }
    ensures { (out : List ℕ)
        → got_sets (state_of state.old out) dst.0
        (spec.array_len state.old.heap.items (object_of (value_at state.old.top.regs array.0)))
        ≡ acted_next result state.new out }
{
    let got = members::array_len(&state.heap, state.top.object(array));
    settle(state, dst, got)
}

pub(crate) fn cast(
    program: &Program,
    state: &mut MachineState,
    dst: RegNo,
    of: RegNo,
    class: ClassNo,
) -> Result<Acted, AllocError>
    requires { state.old.top.at < 2 ^ 64 - 1 }
    ensures { IfOk result (λ acted. (out : List ℕ)
        → got_sets (state_of state.old out) dst.0
        (spec.cast_of program.now state.old.heap.items (value_at state.old.top.regs of.0) class.0)
        ≡ acted_next acted state.new out) }
{
    let got = members::cast(program, state, of, class)?;
    Ok(settle(state, dst, got))
}

pub(crate) fn test_inst(
    program: &Program,
    state: &mut MachineState,
    of: RegNo,
    class: ClassNo,
    yes: PointNo,
    no: PointNo,
) -> Acted
    ensures { (out : List ℕ)
        → spec.test_inst program.now (state_of state.old out) class.0 yes.0 no.0
        (value_at state.old.top.regs of.0)
        ≡ acted_next result state.new out }
{
    let to = members::test_inst(program, state, of, class, yes, no);
    jump_to(state, to)
}

pub(crate) fn test_null(
    state: &mut MachineState,
    of: RegNo,
    null: PointNo,
    non_null: PointNo,
) -> Acted
    ensures { (out : List ℕ)
        → spec.test_null (state_of state.old out) null.0 non_null.0
        (value_at state.old.top.regs of.0)
        ≡ acted_next result state.new out }
{
    let to = straight::test_null(&state.top, of, null, non_null);
    jump_to(state, to)
}

pub(crate) fn branch(state: &mut MachineState, of: RegNo, yes: PointNo, no: PointNo) -> Acted
    ensures { (out : List ℕ)
        → spec.branch (state_of state.old out) yes.0 no.0
        (truth_of (prim_of (value_at state.old.top.regs of.0)))
        ≡ acted_next result state.new out }
{
    let to = straight::branch(&state.top, of, yes, no);
    jump_to(state, to)
}
