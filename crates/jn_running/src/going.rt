//! Steps and runs of an accepted program from a state that a run of its main comes to.
ghost use Rattle.std.specs.Prelude.{◌≡◌, ◌≢◌, ◌≤◌, [], Some, MatchOption};
ghost use Rattle.jn_outside.specs.Causes.{Rose};
ghost use Rattle.jn_points.specs.declared.point.Point.{Point as PointOf};
ghost use Rattle.jn_points.specs.Lookup.{point_at};
ghost use Rattle.jn_heap.specs.State as spec;
ghost use Rattle.jn_machine.specs.StateView.{state_of};
ghost use Rattle.jn_running.specs.Going.{Answers, Comes, IsGoing, running};

use crate::ended::{Ended, ended_at};
use jn_accept::Accepted;
use jn_base::Span;
use jn_machine::{MachineState, StepFail, Stepped, point_at, run_to, step_to};
use jn_outside::Sink;
use jn_points::Program;
use jn_progress_law::law::accepted_runs_go_on;
use jn_trees::Names;
use std::alloc::Global;

/// Where in the source the point stands at which the machine is.
fn span_of(program: &Program, state: &MachineState) -> Span
    requires { (pt : PointOf)
        × (point_at program.now state.now.top.body state.now.top.at ≡ Some pt) }
    ensures { (pt : PointOf) × (point_at program.now state.now.top.body state.now.top.at ≡ Some pt)
        × (pt.span ≡ result) }
{
    match point_at(program, state.top.body(), state.top.at()) {
        None => unreachable!(),
        Some(point) => point.span,
    }
}

/// Runs the next point. None says that the run goes on.
pub(crate) fn step_on<K: Sink>(
    alloc: Global,
    accepted: &Accepted,
    names: &Names,
    state: &mut MachineState,
    out: &mut K,
) -> Option<Ended>
    requires going { IsGoing (running accepted.now.0 names.now state.old) }
    ensures did { MatchOption result
        (Comes (running accepted.now.0 names.now state.old) 1 spec.Goes (state_of state.new [])
        (K.written out.old) (K.written out.new))
        (λ e. Answers (running accepted.now.0 names.now state.old) 1 (K.written out.old)
        (K.written out.new) e) }
    ensures going { MatchOption result (IsGoing (running accepted.now.0 names.now state.new))
        (λ e. e ≢ Ended.Steps) }
    ensures memory { result ≡ Some Ended.OutOfMemory → K.written out.new ≡ K.written out.old }
    ensures failed { result ≡ Some Ended.WriteFault → Rose (K.faults out.old) (K.faults out.new) }
    ensures later { K.faults out.old ≤ K.faults out.new }
    ensures kept { result ≢ Some Ended.WriteFault → K.faults out.new ≡ K.faults out.old }
{
    accepted_runs_go_on();
    match step_to(alloc, accepted.program(), names, state, out) {
        Ok(Stepped::Goes) => None,
        Ok(Stepped::Ends(end)) => Some(ended_at(end, span_of(accepted.program(), state))),
        Ok(Stepped::Stuck) => unreachable!(),
        Err(StepFail::WriteFault) => Some(Ended::WriteFault),
        Err(StepFail::OutOfMemory) => Some(Ended::OutOfMemory),
    }
}

/// Runs at most so many steps; `Steps` says that the run goes on.
pub(crate) fn run_on<K: Sink>(
    alloc: Global,
    accepted: &Accepted,
    names: &Names,
    state: &mut MachineState,
    steps: u64,
    out: &mut K,
) -> Ended
    requires going { IsGoing (running accepted.now.0 names.now state.old) }
    ensures did { Answers (running accepted.now.0 names.now state.old) steps (K.written out.old)
        (K.written out.new) result }
    ensures failed { result ≡ Ended.WriteFault → Rose (K.faults out.old) (K.faults out.new) }
    ensures later { K.faults out.old ≤ K.faults out.new }
    ensures kept { result ≢ Ended.WriteFault → K.faults out.new ≡ K.faults out.old }
{
    accepted_runs_go_on();
    match run_to(alloc, accepted.program(), names, state, steps, out) {
        Ok(Stepped::Goes) => Ended::Steps,
        Ok(Stepped::Ends(end)) => ended_at(end, span_of(accepted.program(), state)),
        Ok(Stepped::Stuck) => unreachable!(),
        Err(StepFail::WriteFault) => Ended::WriteFault,
        Err(StepFail::OutOfMemory) => Ended::OutOfMemory,
    }
}
