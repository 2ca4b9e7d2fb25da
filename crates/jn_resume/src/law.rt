//! Which words of an earlier solving are below the least words.
ghost use Rattle.std.specs.Prelude.{ℕ, ◌<◌, Bool, List, slice_index, bit_or};
ghost use Rattle.jn_sigtable.specs.System.{System, Within, least};
ghost use Rattle.jn_resume.specs.Keepable.{AreKeepable, IsEditOf};

/// Each bit of the old least words stands in the new ones or may be lost.
pub fn kept_words_are_below()
    ensures { (old new : System) (before start last : List ℕ) (changed : ℕ → Bool) (lost : ℕ → ℕ)
        → IsEditOf old new before start last changed
        → AreKeepable old new before start last changed lost → (w : ℕ) → w < old.words
        → Within (slice_index last w) (bit_or (slice_index (least new start) w) (lost w)) }
{}
