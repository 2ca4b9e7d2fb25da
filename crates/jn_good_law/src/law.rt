//! Laws of good states.
ghost use Rattle.std.specs.Prelude.{List, ℕ, ◌≡◌};
ghost use Rattle.jn_points.specs.BaseRows.{NoBaseRows};
ghost use Rattle.jn_points.specs.Regular.{Regular};
ghost use Rattle.jn_heap.specs.Values.{Limits};
ghost use Rattle.jn_heap.specs.State.{Goes, State};
ghost use Rattle.jn_heap.specs.Runs.{MainForm, NeverNull, NullFault, run, start_state, step};
ghost use Rattle.jn_soundness.specs.ChainExample.{chain_world};
ghost use Rattle.jn_soundness.specs.Solved.{Solved};
ghost use Rattle.jn_soundness.specs.World.{World};
ghost use Rattle.jn_soundness.specs.Marks.{Marking, mark_after, start_marking};
ghost use Rattle.jn_good_law.specs.Good.{Good};

use jn_regular_law::law::{regular_programs_are_typed, regular_programs_exist};
use jn_soundness::law::{constructor_chains_are_accepted, steps_keep_marks};

/// In a regular program without rows of base typing, whose signature is closed and not below the start, whose tables respect
/// the edges, and of which no rule has a row: the start of a main is good with the start marking, for all limits and
/// words; a step from a good state that gives a state gives a good one, with the marking that comes after it; and the point
/// of a good state dereferences no null. An accepted program with its least tables is so (`accepted_programs_are_solved`).
pub fn steps_keep_good_states()
    ensures start { (W : World) → Solved W → Regular W.program → NoBaseRows W.program → (m b : ℕ)
        → MainForm W.program m b → (limits : Limits) (words : List (List ℕ))
        → Good W (start_state W.program limits b words) start_marking }
    ensures step { (W : World) → Solved W → Regular W.program → NoBaseRows W.program
        → (names : List (List ℕ)) (st next : State) (mk : Marking) → Good W st mk
        → step W.program names st ≡ Goes next → Good W next (mark_after W st mk) }
    ensures no_fault { (W : World) → Solved W → (st : State) (mk : Marking) → Good W st mk
        → NullFault W.program st → ⊥ }
{
    regular_programs_are_typed();
    steps_keep_marks();
}

/// So each state that a run of a main comes to is good with some marking, and no run comes to a null fault.
pub fn good_runs_never_fault()
    ensures good { (W : World) → Solved W → Regular W.program → NoBaseRows W.program → (m b : ℕ)
        → MainForm W.program m b → (limits : Limits) (names words : List (List ℕ)) (n : ℕ)
        (st : State)
        → run W.program names (Goes (start_state W.program limits b words)) n ≡ Goes st
        → (mk : Marking) × Good W st mk }
    ensures no_fault { (W : World) → Solved W → Regular W.program → NoBaseRows W.program
        → NeverNull W.program }
{
    steps_keep_good_states();
}

/// The laws on good states are of use: one program, with a chain of constructors, a cycle of objects and an array, meets all that they ask.
pub fn constructor_chains_are_good()
    ensures solved { Solved chain_world }
    ensures regular { Regular chain_world.program }
    ensures untouched { NoBaseRows chain_world.program }
{
    constructor_chains_are_accepted();
    regular_programs_exist();
}
