//! Steps that print to a sink.
ghost use Rattle.std.specs.Prelude.{◌≡◌, ◌≢◌, ◌≤◌, ◌<◌, ℕ, IfOk, Err};
ghost use Rattle.jn_outside.specs.Causes.{Rose};
ghost use Rattle.jn_heap.specs.State.{Goes};
ghost use Rattle.jn_heap.specs.Runs as spec;
ghost use Rattle.jn_machine.specs.Printed.{PrintsTo, PrintsFront, PrintsSome};
ghost use Rattle.jn_machine.specs.StateView.{state_of};

use crate::state::{Acted, MachineState, Stepped};
use crate::steps::step_once;
use jn_outside::{Sink, write_whole};
use jn_points::Program;
use jn_trees::Names;
use std::alloc::Global;

/// Why a step that prints to a sink gave nothing.
#[derive(Clone, Copy, Debug, PartialEq, Eq)]
pub enum StepFail {
    /// The sink failed, and a prefix of what the step prints went out.
    WriteFault,
    /// No memory was found; the state is of no use then, and the sink took all that was printed before.
    OutOfMemory,
}

/// Runs the next point, one step of the definition. What it prints goes to the sink.
///
/// # Errors
/// `WriteFault` only where the sink's count of faults rose; the step is done then. After
/// `OutOfMemory` the sink has what it had.
pub fn step_to<K: Sink>(
    alloc: Global,
    program: &Program,
    names: &Names,
    state: &mut MachineState,
    sink: &mut K,
) -> Result<Stepped, StepFail>
    ensures ok { IfOk result (λ stepped. PrintsTo
        (λ out. spec.step program.now names.now (state_of state.old out)) stepped state.new
        (K.written sink.old) (K.written sink.new)) }
    ensures prefix { result ≡ Err StepFail.WriteFault
        → PrintsSome (λ out. spec.step program.now names.now (state_of state.old out)) state.new
        (K.written sink.old) (K.written sink.new) }
    ensures memory { result ≡ Err StepFail.OutOfMemory → K.written sink.new ≡ K.written sink.old }
    ensures failed { result ≡ Err StepFail.WriteFault
        → Rose (K.faults sink.old) (K.faults sink.new) }
    ensures later { K.faults sink.old ≤ K.faults sink.new }
    ensures kept { result ≢ Err StepFail.WriteFault → K.faults sink.new ≡ K.faults sink.old }
{
    match step_once(alloc, program, names, state) {
        Err(_) => Err(StepFail::OutOfMemory),
        Ok(Acted::Goes) => Ok(Stepped::Goes),
        Ok(Acted::Ends(end)) => Ok(Stepped::Ends(end)),
        Ok(Acted::Stuck) => Ok(Stepped::Stuck),
        Ok(Acted::Prints(line)) => match write_whole(sink, line.as_str().as_bytes()) {
            Ok(()) => Ok(Stepped::Goes),
            Err(_) => Err(StepFail::WriteFault),
        },
    }
}

/// Runs at most so many steps, and prints to the sink. `Stepped::Goes` says that the machine
/// still goes on after all of them.
///
/// # Errors
/// `WriteFault` only where the sink's count of faults rose; some steps, the last of which prints,
/// are done then. After `OutOfMemory` the sink took the text of some number of steps.
#[tactic(auto, using(crate::proofs::Printing::prints_first, crate::proofs::Printing::prints_more, crate::proofs::Printing::prints_prefix, crate::proofs::Printing::prints_ended, crate::proofs::Printing::prints_stuck))]
pub fn run_to<K: Sink>(
    alloc: Global,
    program: &Program,
    names: &Names,
    state: &mut MachineState,
    steps: u64,
    sink: &mut K,
) -> Result<Stepped, StepFail>
    ensures ok { IfOk result (λ stepped. PrintsTo
        (λ out. spec.run program.now names.now (Goes (state_of state.old out)) steps) stepped
        state.new (K.written sink.old) (K.written sink.new)) }
    ensures prefix { result ≡ Err StepFail.WriteFault
        → (n : ℕ) × (n ≤ steps)
        × PrintsSome (λ out. spec.run program.now names.now (Goes (state_of state.old out)) n)
        state.new (K.written sink.old) (K.written sink.new) }
    ensures memory { result ≡ Err StepFail.OutOfMemory
        → (n : ℕ) × (n < steps)
        × PrintsFront (λ out. spec.run program.now names.now (Goes (state_of state.old out)) n)
        (K.written sink.old) (K.written sink.new) }
    ensures failed { result ≡ Err StepFail.WriteFault
        → Rose (K.faults sink.old) (K.faults sink.new) }
    ensures later { K.faults sink.old ≤ K.faults sink.new }
    ensures kept { result ≢ Err StepFail.WriteFault → K.faults sink.new ≡ K.faults sink.old }
{
    for _ in 0..steps {
        match step_to(alloc, program, names, state, sink) {
            Ok(Stepped::Goes) => {}
            Ok(Stepped::Ends(end)) => return Ok(Stepped::Ends(end)),
            Ok(Stepped::Stuck) => return Ok(Stepped::Stuck),
            Err(StepFail::WriteFault) => return Err(StepFail::WriteFault),
            Err(StepFail::OutOfMemory) => return Err(StepFail::OutOfMemory),
        }
    }
    Ok(Stepped::Goes)
}
