//! One call from outside, by the machine or by trees: what it prints and comes to.
use crate::calling::{Run, enter};
use crate::outside::caller::Caller;
use crate::outside::entry::Entry;
use jn_machine::{End, Frame, MachineState, Stepped, Value, body_of, point_at, run};
use jn_points::{PointKind, Program};
use jn_tree_world::frames::padded;
use jn_tree_world::{Halt, World};
use std::alloc::AllocError;
use std::collections::VecDeque;
use std::mem::replace;

/// The most steps of a call, and the units of fuel by trees.
const STEPS: u64 = 1_000_000;

/// What a call came to.
#[derive(Drop)]
pub enum Came {
    /// It is done, and gave this.
    Done(Option<Value>),
    /// It ended otherwise.
    Ended(End),
    /// It dereferenced null.
    Null,
    /// It goes on after all steps.
    Steps,
    /// What it needs isn't there.
    Stuck,
}

/// What a call printed and came to.
#[derive(Drop)]
pub struct Called {
    pub came: Came,
    pub printed: Vec<u8>,
}

/// By what a call is run.
#[derive(Clone, Copy)]
pub enum Way {
    Machine,
    Trees,
}

/// How many registers the body has.
fn registers(program: &Program, body: usize) -> usize {
    match program.bodies.as_slice().get(body) {
        None => 0,
        Some(info) => info.regs.len(),
    }
}

/// What the Return gives at which the machine stands.
fn returned(program: &Program, state: &MachineState) -> Result<Option<Value>, AllocError> {
    let Some(point) = point_at(program, state.top.body(), state.top.at()) else {
        return Ok(None);
    };
    match &point.kind {
        PointKind::Return {
            value: Some(operand),
        } => match state.top.value(operand.reg) {
            None => Ok(None),
            Some(value) => Ok(Some(value.copy()?)),
        },
        _ => Ok(None),
    }
}

/// What `new` gives is the object, and what a method gives is what it returns.
fn given(made: Option<usize>, value: Option<Value>) -> Option<Value> {
    match made {
        None => value,
        Some(place) => Some(Value::at(place)),
    }
}

/// What the machine came to.
fn came_to(stepped: Stepped, value: Option<Value>) -> Came {
    match stepped {
        Stepped::Ends(End::Done) => Came::Done(value),
        Stepped::Ends(end) => Came::Ended(end),
        Stepped::Goes => Came::Steps,
        Stepped::Stuck => Came::Stuck,
    }
}

/// Runs the body of an entry over the caller's heap, in a frame for which none waits.
fn run_body(
    outer: &Run,
    caller: &mut Caller,
    body: usize,
    values: Vec<Value>,
    made: Option<usize>,
) -> Result<Called, AllocError> {
    let alloc = outer.alloc;
    let program = outer.program.program();
    let locals = padded(alloc, values, registers(program, body))?;
    let mut state = MachineState {
        heap: replace(&mut caller.heap, Vec::new(alloc)),
        statics: replace(&mut caller.statics, Vec::new(alloc)),
        top: Frame::new(body, locals),
        waiting: VecDeque::new(alloc),
    };
    let mut printed = Vec::new(alloc);
    let Ok(stepped) = run(alloc, program, outer.names, &mut state, STEPS, &mut printed) else {
        return Err(AllocError);
    };
    let value = given(made, returned(program, &state)?);
    let MachineState { heap, statics, .. } = state;
    caller.heap = heap;
    caller.statics = statics;
    Ok(Called {
        came: came_to(stepped, value),
        printed,
    })
}

fn by_machine(outer: &Run, caller: &mut Caller, entry: Entry) -> Result<Called, AllocError> {
    let Entry {
        method,
        values,
        made,
    } = entry;
    match body_of(outer.program.program(), method) {
        None => Ok(Called {
            came: Came::Stuck,
            printed: Vec::new(outer.alloc),
        }),
        Some(body) => run_body(outer, caller, body as usize, values, made),
    }
}

/// What stopped a run by trees.
fn stopped(halt: Halt) -> Result<Came, AllocError> {
    match halt {
        Halt::Faulted(end, _) => Ok(Came::Ended(end)),
        Halt::NullAt(_) => Ok(Came::Null),
        Halt::FuelOut => Ok(Came::Steps),
        Halt::TooDeep => Ok(Came::Ended(End::Deep)),
        Halt::Senseless => Ok(Came::Stuck),
        Halt::OutOfMemory => Err(AllocError),
    }
}

/// What trees came to.
fn came_by(answer: Result<Option<Value>, Halt>, made: Option<usize>) -> Result<Came, AllocError> {
    match answer {
        Ok(value) => Ok(Came::Done(given(made, value))),
        Err(halt) => stopped(halt),
    }
}

fn by_trees(outer: &Run, caller: &mut Caller, entry: Entry) -> Result<Called, AllocError> {
    let alloc = outer.alloc;
    let Entry {
        method,
        values,
        made,
    } = entry;
    let mut w = World {
        heap: replace(&mut caller.heap, Vec::new(alloc)),
        statics: replace(&mut caller.statics, Vec::new(alloc)),
        out: Vec::new(alloc),
        locals: Vec::new(alloc),
        fuel: STEPS,
    };
    let answer = enter(outer, STEPS, 0, method, values, &mut w);
    let World {
        heap,
        statics,
        out,
        ..
    } = w;
    caller.heap = heap;
    caller.statics = statics;
    Ok(Called {
        came: came_by(answer, made)?,
        printed: out,
    })
}

/// Makes the call.
pub fn make_call(
    way: Way,
    outer: &Run,
    caller: &mut Caller,
    entry: Entry,
) -> Result<Called, AllocError> {
    match way {
        Way::Machine => by_machine(outer, caller, entry),
        Way::Trees => by_trees(outer, caller, entry),
    }
}
