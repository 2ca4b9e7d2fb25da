//! Values, the heap, and what one point does to them.
//!
//! Definitions alone: `specs/Values.antt` and `specs/State.antt` have values, objects, frames and states, `specs/Steps.antt` what each of
//! the 26 kinds of points does, `specs/Calls.antt` calls and returns, `specs/Runs.antt` runs, their ends and null faults. Soundness is
//! about them, and `jn_machine` runs them.
#![tactic(auto)]
