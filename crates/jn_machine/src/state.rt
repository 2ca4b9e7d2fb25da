//! States of the machine.
ghost use Rattle.std.specs.Prelude.{◌≡◌, ◌<◌, ◌-◌, ◌^◌, ℕ, List, Some};
ghost use Rattle.jn_heap.specs.State as spec;
ghost use Rattle.jn_machine.specs.Ends.{answer_of};
ghost use Rattle.jn_machine.specs.Parts.{goes_to};
ghost use Rattle.jn_machine.specs.StateView.{state_of, acted_next};

use crate::frame::Frame;
use crate::prim::{End, Got, Primitive};
use crate::thing::Thing;
use crate::value::Value;
use jn_base::{PointNo, RegNo, Text};
use std::collections::VecDeque;

/// Heap, static numbers, the frame that runs, and the frames that wait for it, the last caller
/// first. The text printed isn't kept.
#[derive(Drop)]
pub struct MachineState {
    pub heap: Vec<Thing>,
    pub statics: Vec<Primitive>,
    pub top: Frame,
    pub waiting: VecDeque<Frame>,
}

/// What a point did.
#[derive(Drop)]
pub(crate) enum Acted {
    Goes,
    /// It goes on, and prints this, which is boxed so that what a step hands on is small.
    Prints(Box<Text>),
    Ends(End),
    /// A value, register, field or body that it needs isn't there.
    Stuck,
}

/// What a step did.
#[derive(Clone, Copy, Debug, PartialEq, Eq)]
pub enum Stepped {
    /// The machine goes on.
    Goes,
    /// The run has ended.
    Ends(End),
    /// A value, register, field, point or body that the point needs isn't there.
    Stuck,
}

/// Puts what an operation gives into a register.
pub(crate) fn settle(state: &mut MachineState, dst: RegNo, got: Got<Value>) -> Acted
    requires { state.old.top.at < 2 ^ 64 - 1 }
    ensures { (out : List ℕ)
        → spec.got_sets (state_of state.old out) dst.0 (answer_of got)
        ≡ acted_next result state.new out }
{
    match got {
        Got::Gives(value) => {
            state.top.hold(dst, value);
            Acted::Goes
        }
        Got::Fails(end) => Acted::Ends(end),
        Got::Lacks => Acted::Stuck,
    }
}

/// Goes to a point.
pub(crate) fn jump(state: &mut MachineState, to: PointNo) -> Acted
    ensures { (out : List ℕ)
        → spec.moves (state_of state.old out) to.0 ≡ acted_next result state.new out }
{
    state.top.jump(to.0 as usize);
    Acted::Goes
}

/// Goes to the point, if there is one.
pub(crate) fn jump_to(state: &mut MachineState, to: Option<PointNo>) -> Acted
    ensures { (out : List ℕ)
        → goes_to (state_of state.old out) to ≡ acted_next result state.new out }
{
    match to {
        None => Acted::Stuck,
        Some(point) => jump(state, point),
    }
}
