//! Machines of accepted programs.
ghost use Rattle.std.specs.Prelude.{◌≡◌, ◌≢◌, ◌≤◌, ℕ, Some, None, IfOk, IfSome, MatchOption};
ghost use Rattle.jn_outside.specs.Causes.{Rose};
ghost use Rattle.jn_heap.specs.Values.{usual_limits};
ghost use Rattle.jn_heap.specs.State.{Goes};
ghost use Rattle.jn_heap.specs.Runs.{MainForm, start_state};
ghost use Rattle.jn_accept.specs.Mains.{IsMain, IsOnlyMain};
ghost use Rattle.jn_running.specs.Going.{Answers, Comes, IsGoing, RunsMain};

use crate::ended::Ended;
use crate::going::{run_on, step_on};
use jn_accept::Accepted;
use jn_base::{BodyNo, MethodNo, OutOfMemory, Text};
use jn_machine::{MachineState, body_of, start};
use jn_outside::Sink;
use jn_progress_law::law::accepted_runs_go_on;
use jn_trees::Names;
use std::alloc::Global;
use std::marker::Model;

/// A run of an accepted program that goes on. What it prints goes to a sink and isn't kept, so contracts see the
/// program, the texts of its strings, and the definition's state without the text printed.
#[derive(Drop)]
pub struct Machine<'p> {
    alloc: Global,
    accepted: &'p Accepted,
    names: &'p Names,
    state: MachineState,
}

impl<'p> Model for Machine<'p> {
    ghost use Rattle.jn_running.specs.Going.{Running, running};

    ghost Value = { Running };

    ghost view = { λ m. running m.accepted.now.0 m.names.now m.state };
}

impl<'p> Machine<'p> {
    /// The start of a method of the form of a main, with these words as its array. Nothing is printed yet.
    ///
    /// # Errors
    /// No memory was found.
    pub fn start(
        alloc: Global,
        accepted: &'p Accepted,
        names: &'p Names,
        main: MethodNo,
        words: &[Text],
    ) -> Result<Machine<'p>, OutOfMemory>
        requires main { IsMain accepted.now.0 main.0 }
        ensures starts { IfOk result (λ m. (b : ℕ) × MainForm accepted.now.0 main.0 b
            × (m
            ≡ record {
              program = accepted.now.0;
              names = names.now;
              state = start_state accepted.now.0 usual_limits b words.now;
            })) }
        ensures going { IfOk result (λ m. IsGoing m) }
    {
        accepted_runs_go_on();
        match body_of(accepted.program(), main.0 as usize) {
            None => unreachable!(),
            Some(body) => {
                let state = start(alloc, accepted.program(), BodyNo(body), words)?;
                Ok(Machine {
                    alloc,
                    accepted,
                    names,
                    state,
                })
            }
        }
    }

    /// Runs the next point. None says that the machine goes on; after any other answer, which is never `Steps`, it is
    /// of no use. What the point prints goes to the sink: after `WriteFault` a prefix of it, after `OutOfMemory`
    /// nothing.
    pub fn step<K: Sink>(&mut self, out: &mut K) -> Option<Ended>
        requires going { IsGoing self.old }
        ensures did { MatchOption result
            (Comes self.old 1 Goes self.new.state (K.written out.old) (K.written out.new))
            (λ e. Answers self.old 1 (K.written out.old) (K.written out.new) e) }
        ensures going { MatchOption result (IsGoing self.new) (λ e. e ≢ Ended.Steps) }
        ensures program { self.new.program ≡ self.old.program }
        ensures names { self.new.names ≡ self.old.names }
        ensures memory { result ≡ Some Ended.OutOfMemory → K.written out.new ≡ K.written out.old }
        ensures failed { result ≡ Some Ended.WriteFault
            → Rose (K.faults out.old) (K.faults out.new) }
        ensures later { K.faults out.old ≤ K.faults out.new }
        ensures kept { result ≢ Some Ended.WriteFault → K.faults out.new ≡ K.faults out.old }
    {
        step_on(self.alloc, self.accepted, self.names, &mut self.state, out)
    }

    /// Runs at most so many steps, each of them a point, and says how the run ended; `Steps` where it goes on after
    /// all of them. What the run prints goes to the sink: after `WriteFault` a prefix of the text of some of the
    /// steps, after `OutOfMemory` the whole text of some of them.
    pub fn run<K: Sink>(self, steps: u64, out: &mut K) -> Ended
        requires going { IsGoing self }
        ensures did { Answers self.entry steps (K.written out.old) (K.written out.new) result }
        ensures failed { result ≡ Ended.WriteFault → Rose (K.faults out.old) (K.faults out.new) }
        ensures later { K.faults out.old ≤ K.faults out.new }
        ensures kept { result ≢ Ended.WriteFault → K.faults out.new ≡ K.faults out.old }
    {
        let mut machine = self;
        run_on(
            machine.alloc,
            machine.accepted,
            machine.names,
            &mut machine.state,
            steps,
            out,
        )
    }
}

/// Runs the one main of an accepted program with these words, at most so many steps, and says how the run ended; None
/// where the program has no main, or more than one.
pub fn run_main<K: Sink>(
    alloc: Global,
    accepted: &Accepted,
    names: &Names,
    words: &[Text],
    steps: u64,
    out: &mut K,
) -> Option<Ended>
    ensures none { result ≡ None → (m : ℕ) → IsOnlyMain accepted.now.0 m → ⊥ }
    ensures nothing { result ≡ None → K.written out.new ≡ K.written out.old }
    ensures did { IfSome result (λ e. RunsMain accepted.now.0 names.now words.now steps
        (K.written out.old) (K.written out.new) e) }
    ensures failed { result ≡ Some Ended.WriteFault → Rose (K.faults out.old) (K.faults out.new) }
    ensures later { K.faults out.old ≤ K.faults out.new }
    ensures kept { result ≢ Some Ended.WriteFault → K.faults out.new ≡ K.faults out.old }
{
    let Some(main) = accepted.main() else {
        return None;
    };
    match Machine::start(alloc, accepted, names, main, words) {
        Err(_) => Some(Ended::OutOfMemory),
        Ok(machine) => Some(machine.run(steps, out)),
    }
}
