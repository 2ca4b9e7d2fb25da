//! The law of hunks.
ghost use Rattle.std.specs.Prelude.{List, ℕ};
ghost use Rattle.jn_diff.specs.Hunks.{hunks};
ghost use Rattle.jn_diff.specs.Lines.{lines_of, paired};
ghost use Rattle.jn_diff.specs.Patch.{Patches};

/// The hunks of two texts make the lines of the first those of the second: between hunks the lines are the same.
pub fn hunks_patch_the_text()
    ensures { (old new : List ℕ) → Patches 1 (hunks (paired old new)) (lines_of old) (lines_of new) }
{}
