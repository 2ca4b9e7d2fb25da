//! Laws over the definitions.
ghost use Rattle.std.specs.Prelude.{List, ℕ, ◌≡◌};
ghost use Rattle.jn_heap.specs.Values.{Limits};
ghost use Rattle.jn_heap.specs.State.{Goes, State};
ghost use Rattle.jn_heap.specs.Runs.{MainForm, NeverNull, NullFault, run, start_state, step};
ghost use Rattle.jn_soundness.specs.Solved.{Solved};
ghost use Rattle.jn_soundness.specs.World.{World};
ghost use Rattle.jn_soundness.specs.Marks.{Marking, mark_after, start_marking};
ghost use Rattle.jn_soundness.specs.Marked.{Marked};
ghost use Rattle.jn_soundness.specs.Types.{StateTyped};
ghost use Rattle.jn_points.specs.BaseTyping.{BaseTyped};
ghost use Rattle.jn_soundness.specs.Accepted.{Accepted};
ghost use Rattle.jn_soundness.specs.ChainExample.{chain_program, chain_world};

/// In a base-typed program of the shapes that each regular one has, whose signature is closed, whose tables respect the edges, and of
/// which no rule has a row: the start of a main is as the start marking says, and its values are of their base types; a step that gives a
/// state keeps both, with the marking that comes after it; and where a state is as some marking says, its point
/// dereferences no null.
pub fn steps_keep_marks()
    ensures start { (W : World) → Solved W → (m b : ℕ) → MainForm W.program m b
        → (limits : Limits) (words : List (List ℕ))
        → Marked W (start_state W.program limits b words) start_marking }
    ensures start_types { (W : World) → Solved W → BaseTyped W.program → (m b : ℕ)
        → MainForm W.program m b → (limits : Limits) (words : List (List ℕ))
        → StateTyped W (start_state W.program limits b words) }
    ensures step { (W : World) → Solved W → BaseTyped W.program
        → (names : List (List ℕ)) (st next : State) (mk : Marking) → Marked W st mk
        → StateTyped W st → step W.program names st ≡ Goes next
        → Marked W next (mark_after W st mk) }
    ensures step_types { (W : World) → Solved W → BaseTyped W.program
        → (names : List (List ℕ)) (st next : State) → StateTyped W st
        → step W.program names st ≡ Goes next → StateTyped W next }
    ensures null { (W : World) → Solved W → (st : State) (mk : Marking) → Marked W st mk
        → NullFault W.program st → ⊥ }
{}

/// In a regular, base-typed program without a row of the rules each step keeps base types: where every register, field and
/// element that holds a value holds one of its type, it does after any number of steps.
pub fn steps_keep_base_types()
    ensures { (W : World) → Solved W → BaseTyped W.program
        → (names : List (List ℕ)) (n : ℕ) (one next : State) → StateTyped W one
        → run W.program names (Goes one) n ≡ Goes next → StateTyped W next }
{}

/// A base-typed program of the shapes that each regular one has never dereferences null where its signature is closed, its
/// tables respect the edges, and no rule has a row.
pub fn solved_programs_never_fault()
    ensures { (W : World) → Solved W → BaseTyped W.program → NeverNull W.program }
{}

/// The law on accepted programs is of use: one with a chain of constructors, a cycle of objects
/// that is built by an escaping `this`, field reads and an array is accepted and base-typed.
pub fn constructor_chains_are_accepted()
    ensures accepted { Accepted chain_world }
    ensures solved { Solved chain_world }
    ensures typed { BaseTyped chain_program }
    ensures main { MainForm chain_program 3 3 }
{}
