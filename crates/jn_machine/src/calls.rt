//! Calls, new objects and returns.
ghost use Rattle.std.specs.Prelude.{◌≡◌, ◌<◌, ◌+◌, ◌-◌, ◌^◌, ◌++◌, Bool, ◌∷◌, [], ℕ, List, Some, None, IfOk, MatchOption, length, ltb};
ghost use Rattle.jn_points.specs.Lookup.{point_at, body_at, regs_of, body_of, class_of, method_at};
ghost use Rattle.jn_heap.specs.Values.{defaults, Object, usual_limits};
ghost use Rattle.jn_heap.specs.State.{State, gather, value_at, value_of};
ghost use Rattle.jn_heap.specs.Steps.{array_of};
ghost use Rattle.jn_heap.specs.Calls as spec;
ghost use Rattle.jn_machine.specs.Ends.{answer_of};
ghost use Rattle.jn_machine.specs.Parts.{prepended, entry_of};
ghost use Rattle.jn_machine.specs.StateView.{state_of, acted_next};

use crate::frame::Frame;
use crate::members::allocate;
use crate::prim::{End, Got};
use crate::state::{Acted, MachineState};
use crate::straight::copied;
use crate::thing::Thing;
use crate::value::Value;
use jn_base::{ClassNo, MethodNo, RegNo, Seq};
use jn_points::lookup::{class_of, method_at};
use jn_points::members::selected as method_selected;
use jn_points::{BaseType, Field, Operand, Point, PointKind, Program};
use std::alloc::{AllocError, Global};
use std::collections::VecDeque;
use std::mem;

/// The greatest number of frames.
const DEEPEST: usize = 4_096;

/// The point of a body at a place.
pub fn point_at(program: &Program, body: usize, at: usize) -> Option<&Point>
    ensures { MatchOption result (point_at program.now body at ≡ None)
        (λ p. (point_at program.now body at ≡ Some p.now) × (at < 2 ^ 64 - 1)) }
{
    let bodies = program.bodies.as_slice();
    let points = bodies.get(body)?.points.as_slice();
    if at < points.len() {
        Some(&points[at])
    } else {
        None
    }
}

/// Puts the values of all operands after those given; None where a register holds none.
#[tactic(auto, using(crate::proofs::Pieces::prepended_more))]
pub(crate) fn gather(
    frame: &Frame,
    args: &[Operand],
    front: Seq<Value>,
) -> Result<Option<Seq<Value>>, AllocError>
    ensures { IfOk result (λ r. r ≡ prepended front (gather frame.now.regs args.now)) }
{
    let mut values = front;
    for operand in args {
        match copied(frame, operand.reg)? {
            None => return Ok(None),
            Some(value) => values.push(value)?,
        }
    }
    Ok(Some(values))
}

/// The first value is taken, as what the first register holds.
#[tactic(auto, using(crate::proofs::Pieces::pad_next))]
fn first_of(rest: &mut VecDeque<Value>) -> Option<Value>
    ensures { (count i : ℕ) → i < count
        → spec.pad rest.old.items (count - i) ≡ result ∷ spec.pad rest.new.items (count - (i + 1)) }
{
    rest.pop_front()
}

/// A new array of the values of all operands.
pub(crate) fn array_of(
    alloc: Global,
    state: &mut MachineState,
    dst: RegNo,
    base: BaseType,
    values: &[Operand],
) -> Result<Acted, AllocError>
    requires { state.old.top.at < 2 ^ 64 - 1 }
    ensures { IfOk result (λ acted. (out : List ℕ)
        → array_of (state_of state.old out) dst.0 base (gather state.old.top.regs values.now)
        ≡ acted_next acted state.new out) }
{
    match gather(&state.top, values, Seq::new(alloc))? {
        None => Ok(Acted::Stuck),
        Some(items) => allocate(state, dst, Thing::array(base, items.into_vec())),
    }
}

/// So many registers, the first of which hold the values.
pub fn padded(
    alloc: Global,
    values: Vec<Value>,
    count: usize,
) -> Result<Vec<Option<Value>>, AllocError>
    ensures { IfOk result (λ regs. regs.items ≡ spec.pad values.items count) }
{
    let mut rest = VecDeque::from_vec(values);
    let mut regs = Vec::with_capacity(alloc, count)?;
    for _ in 0..count {
        regs.push(first_of(&mut rest))?;
    }
    Ok(regs)
}

/// How many registers a body has.
fn regs_of(program: &Program, body: usize) -> usize
    ensures { result ≡ regs_of (body_at program.now body) }
{
    match program.bodies.as_slice().get(body) {
        None => 0,
        Some(info) => info.regs.len(),
    }
}

/// The frame of a body at its first point.
pub(crate) fn entered(
    alloc: Global,
    program: &Program,
    body: usize,
    values: Seq<Value>,
) -> Result<Frame, AllocError>
    ensures { IfOk result (λ f. f ≡ spec.entered program.now body values) }
{
    let regs = padded(alloc, values.into_vec(), regs_of(program, body))?;
    Ok(Frame::new(body, regs))
}

/// The number of a method's body.
pub fn body_of(program: &Program, method: usize) -> Option<u32>
    ensures { result ≡ body_of (method_at program.now method) }
{
    match method_at(program, method) {
        None => None,
        Some(info) => match info.body {
            None => None,
            Some(body) => Some(body.0),
        },
    }
}

/// The body that a call of the method enters, where that makes few enough frames.
fn entry(program: &Program, state: &MachineState, method: usize) -> Got<u32>
    ensures { answer_of result
        ≡ entry_of (ltb usual_limits.deepest (length state.now.waiting.items + 2))
        (body_of (method_at program.now method)) }
{
    if state.waiting.len() >= DEEPEST - 1 {
        return Got::Fails(End::Deep);
    }
    match body_of(program, method) {
        None => Got::Lacks,
        Some(body) => Got::Gives(body),
    }
}

/// A new frame for the body runs, and the one that ran waits.
fn enter(
    alloc: Global,
    program: &Program,
    state: &mut MachineState,
    body: usize,
    values: Seq<Value>,
) -> Result<(), AllocError>
    ensures heap { IfOk result (λ u. state.new.heap ≡ state.old.heap) }
    ensures statics { IfOk result (λ u. state.new.statics ≡ state.old.statics) }
    ensures top { IfOk result (λ u. state.new.top ≡ spec.entered program.now body values) }
    ensures waiting { IfOk result
        (λ u. state.new.waiting.items ≡ state.old.top ∷ state.old.waiting.items) }
{
    let frame = entered(alloc, program, body, values)?;
    let caller = mem::replace(&mut state.top, frame);
    state.waiting.push_front(caller)?;
    Ok(())
}

/// Calls a method, with `this` among the values.
fn enters(
    alloc: Global,
    program: &Program,
    state: &mut MachineState,
    method: usize,
    values: Seq<Value>,
) -> Result<Acted, AllocError>
    ensures { IfOk result (λ acted. (out : List ℕ)
        → spec.enters program.now (state_of state.old out) state.old.heap.items method values
        ≡ acted_next acted state.new out) }
{
    match entry(program, state, method) {
        Got::Gives(body) => {
            enter(alloc, program, state, body as usize, values)?;
            Ok(Acted::Goes)
        }
        Got::Fails(end) => Ok(Acted::Ends(end)),
        Got::Lacks => Ok(Acted::Stuck),
    }
}

/// A value for each field, as it is first (JLS 4.12.5).
pub fn defaults(alloc: Global, fields: &[Field]) -> Result<Vec<Value>, AllocError>
    ensures { IfOk result (λ v. v.items ≡ defaults fields.now) }
{
    let mut values = Vec::with_capacity(alloc, fields.len())?;
    for field in fields {
        values.push(Value::default_of(field.base))?;
    }
    Ok(values)
}

/// Makes an object with default fields, and calls its constructor.
fn news(
    alloc: Global,
    program: &Program,
    state: &mut MachineState,
    ctor: MethodNo,
    values: Seq<Value>,
) -> Result<Acted, AllocError>
    ensures { IfOk result (λ acted. (out : List ℕ)
        → spec.enters program.now (state_of state.old out)
        (state.old.heap.items
        ++ Object (class_of (method_at program.now ctor.0)) (defaults program.now.fields)
        ∷ [])
        ctor.0 values
        ≡ acted_next acted state.new out) }
{
    match entry(program, state, ctor.0 as usize) {
        Got::Gives(body) => {
            let fields = defaults(alloc, program.fields.as_slice())?;
            state
                .heap
                .push(Thing::object(class_of(program, ctor), fields))?;
            enter(alloc, program, state, body as usize, values)?;
            Ok(Acted::Goes)
        }
        Got::Fails(end) => Ok(Acted::Ends(end)),
        Got::Lacks => Ok(Acted::Stuck),
    }
}

/// A list of one value.
fn one(alloc: Global, value: Value) -> Result<Seq<Value>, AllocError>
    ensures { IfOk result (λ vs. vs ≡ value ∷ []) }
{
    let mut values = Seq::new(alloc);
    values.push(value)?;
    Ok(values)
}

pub(crate) fn new_object(
    alloc: Global,
    program: &Program,
    state: &mut MachineState,
    ctor: MethodNo,
    args: &[Operand],
) -> Result<Acted, AllocError>
    ensures { IfOk result (λ acted. (out : List ℕ)
        → spec.news program.now (state_of state.old out) ctor.0 (gather state.old.top.regs args.now)
        ≡ acted_next acted state.new out) }
{
    let this = one(alloc, Value::at(state.heap.len()))?;
    match gather(&state.top, args, this)? {
        None => Ok(Acted::Stuck),
        Some(values) => news(alloc, program, state, ctor, values),
    }
}

pub(crate) fn ctor_call(
    alloc: Global,
    program: &Program,
    state: &mut MachineState,
    ctor: MethodNo,
    args: &[Operand],
) -> Result<Acted, AllocError>
    ensures { IfOk result (λ acted. (out : List ℕ)
        → spec.ctor_calls program.now (state_of state.old out) ctor.0
        (value_at state.old.top.regs 0) (gather state.old.top.regs args.now)
        ≡ acted_next acted state.new out) }
{
    let Some(this) = copied(&state.top, RegNo(0))? else {
        return Ok(Acted::Stuck);
    };
    let front = one(alloc, this)?;
    match gather(&state.top, args, front)? {
        None => Ok(Acted::Stuck),
        Some(values) => enters(alloc, program, state, ctor.0 as usize, values),
    }
}

/// The method that a call on the object at a place runs (JLS 15.12.4.4).
pub fn selected(
    program: &Program,
    heap: &[Thing],
    place: usize,
    method: MethodNo,
    direct: bool,
) -> Option<usize>
    ensures { result ≡ spec.selected program.now heap.now place method.0 direct }
{
    if direct {
        return Some(method.0 as usize);
    }
    match heap.get(place) {
        None => None,
        Some(thing) => match thing.class() {
            None => None,
            Some(class) => method_selected(program, ClassNo(class), method),
        },
    }
}

fn call_static(
    alloc: Global,
    program: &Program,
    state: &mut MachineState,
    method: MethodNo,
    args: &[Operand],
) -> Result<Acted, AllocError>
    ensures { IfOk result (λ acted. (direct : Bool) (out : List ℕ)
        → spec.calls program.now (state_of state.old out) method.0 None direct
        (gather state.old.top.regs args.now)
        ≡ acted_next acted state.new out) }
{
    match gather(&state.top, args, Seq::new(alloc))? {
        None => Ok(Acted::Stuck),
        Some(values) => enters(alloc, program, state, method.0 as usize, values),
    }
}

fn call_on(
    alloc: Global,
    program: &Program,
    state: &mut MachineState,
    method: MethodNo,
    receiver: Operand,
    direct: bool,
    args: &[Operand],
) -> Result<Acted, AllocError>
    ensures { IfOk result (λ acted. (out : List ℕ)
        → spec.calls program.now (state_of state.old out) method.0 (Some receiver) direct
        (gather state.old.top.regs args.now)
        ≡ acted_next acted state.new out) }
{
    let Some(place) = state.top.object(receiver.reg) else {
        return Ok(Acted::Stuck);
    };
    let this = one(alloc, Value::at(place))?;
    let Some(values) = gather(&state.top, args, this)? else {
        return Ok(Acted::Stuck);
    };
    match selected(program, &state.heap, place, method, direct) {
        None => Ok(Acted::Stuck),
        Some(own) => enters(alloc, program, state, own, values),
    }
}

pub(crate) fn call(
    alloc: Global,
    program: &Program,
    state: &mut MachineState,
    method: MethodNo,
    receiver: Option<Operand>,
    direct: bool,
    args: &[Operand],
) -> Result<Acted, AllocError>
    ensures { IfOk result (λ acted. (out : List ℕ)
        → spec.calls program.now (state_of state.old out) method.0 receiver direct
        (gather state.old.top.regs args.now)
        ≡ acted_next acted state.new out) }
{
    match receiver {
        None => call_static(alloc, program, state, method, args),
        Some(operand) => call_on(alloc, program, state, method, operand, direct, args),
    }
}

/// The waiting frame runs again.
fn resume(state: &mut MachineState, waiting: Frame) -> Acted
    ensures { (st : State) → st.limits ≡ usual_limits → st.heap ≡ state.old.heap.items
        → st.statics ≡ state.old.statics.items
        → spec.resumes st waiting state.old.waiting.items ≡ acted_next result state.new st.out }
{
    state.top = waiting;
    Acted::Goes
}

/// The waiting frame runs again, with the value in a register.
fn give(state: &mut MachineState, mut waiting: Frame, dst: RegNo, value: Option<Value>) -> Acted
    requires { waiting.at < 2 ^ 64 - 1 }
    ensures { (st : State) → st.limits ≡ usual_limits → st.heap ≡ state.old.heap.items
        → st.statics ≡ state.old.statics.items
        → spec.gives st waiting state.old.waiting.items dst.0 value
        ≡ acted_next result state.new st.out }
{
    match value {
        None => Acted::Stuck,
        Some(given) => {
            waiting.hold(dst, given);
            resume(state, waiting)
        }
    }
}

/// The point at which the frame waits takes what its callee gives, or the object made.
fn take(
    program: &Program,
    state: &mut MachineState,
    mut waiting: Frame,
    this: Option<Value>,
    value: Option<Value>,
) -> Acted
    ensures { (st : State) → st.limits ≡ usual_limits → st.heap ≡ state.old.heap.items
        → st.statics ≡ state.old.statics.items
        → spec.takes_at st waiting state.old.waiting.items this value
        (point_at program.now waiting.body waiting.at)
        ≡ acted_next result state.new st.out }
{
    let Some(point) = point_at(program, waiting.body(), waiting.at()) else {
        return Acted::Stuck;
    };
    match &point.kind {
        PointKind::New { dst, .. } => give(state, waiting, *dst, this),
        PointKind::Call { dst: Some(dst), .. } => give(state, waiting, *dst, value),
        PointKind::Call { dst: None, .. } | PointKind::CtorCall { .. } => {
            waiting.advance();
            resume(state, waiting)
        }
        _ => Acted::Stuck,
    }
}

/// The frame that runs gives a value to the one that waits for it; `main`'s frame is the last.
pub(crate) fn returns(
    program: &Program,
    state: &mut MachineState,
    value: Option<Operand>,
) -> Result<Acted, AllocError>
    ensures { IfOk result (λ acted. (out : List ℕ)
        → spec.returns program.now (state_of state.old out) state.old.waiting.items
        (value_at state.old.top.regs 0) (value_of state.old.top.regs value)
        ≡ acted_next acted state.new out) }
{
    let this = copied(&state.top, RegNo(0))?;
    let given = match value {
        None => None,
        Some(operand) => copied(&state.top, operand.reg)?,
    };
    match state.waiting.pop_front() {
        None => Ok(Acted::Ends(End::Done)),
        Some(waiting) => Ok(take(program, state, waiting, this, given)),
    }
}
