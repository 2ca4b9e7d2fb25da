//! Laws of fixpoints by whole rounds. The lemmas after them hold over any relation; a clause states them over relations that can be
//! tested.
ghost use Rattle.std.specs.Prelude.{◌≡◌, Bool, ℕ};
ghost use Rattle.jn_fixpoint.specs.Climb.{rounds, IsLeastFixpoint, Climb, Monotone, Holds, Relates};

/// Two least fixpoints of a step above the same start are equal.
pub fn least_fixpoints_are_unique<T>()
    ensures { (step : T → T) (start x y : T) → IsLeastFixpoint step start x
        → IsLeastFixpoint step start y → x ≡ y }
{}

/// After at most `top` rounds of a climbing step nothing changes.
pub fn rounds_end<T>()
    ensures { (valid : T → Bool) (within : T → T → Bool) (weight : T → ℕ) (top : ℕ) (step : T → T)
        → Climb (Holds valid) (Relates within) weight top step → (start : T) → Holds valid start
        → IsLeastFixpoint step start (rounds step top start) }
{}

/// What the rounds end in is above the start, and within all that is above the start and that no round leaves.
pub fn rounds_give_the_least<T>()
    ensures above { (valid : T → Bool) (within : T → T → Bool) (weight : T → ℕ) (top : ℕ)
        (step : T → T)
        → Climb (Holds valid) (Relates within) weight top step → (start x : T) → Holds valid start
        → IsLeastFixpoint step start x → Relates within start x }
    ensures least { (valid : T → Bool) (within : T → T → Bool) (weight : T → ℕ) (top : ℕ)
        (step : T → T)
        → Climb (Holds valid) (Relates within) weight top step
        → Monotone (Holds valid) (Relates within) step → (start x y : T) → Holds valid start
        → Holds valid y → IsLeastFixpoint step start x → Relates within start y
        → Relates within (step y) y → Relates within x y }
{}
