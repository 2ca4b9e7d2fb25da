//! What bodies can reach.
ghost use Rattle.std.specs.Prelude.{◌≡◌, ◌<◌, IfOk, true, length, slice_index};
ghost use Rattle.jn_sigtable.specs.System.{System};
ghost use Rattle.jn_resume.specs.Keepable.{IsBlind, StandsApart};

use jn_base::{BodyNo, OutOfMemory};
use std::alloc::Global;

/// Tells of bits, as a mask for each word, whether a body of a system can't reach them.
pub trait Reach: Drop {
    /// The system as plain data.
    ghost describe: { Self → System };

    /// Whether the body is sure to put out the same on words that differ in these bits alone.
    ///
    /// # Errors
    /// No memory was found.
    fn is_blind(&self, alloc: Global, body: BodyNo, bits: &[u64]) -> Result<bool, OutOfMemory>
        requires body { body.0 < (describe self.now).bodies }
        requires bits { length bits.now ≡ (describe self.now).words }
        ensures { IfOk result
            (λ r. r ≡ true → IsBlind (describe self.now) (slice_index bits.now) body.0) };

    /// Whether it is sure to do so, and to put out none of these bits on any words.
    ///
    /// # Errors
    /// No memory was found.
    fn stands_apart(&self, alloc: Global, body: BodyNo, bits: &[u64]) -> Result<bool, OutOfMemory>
        requires body { body.0 < (describe self.now).bodies }
        requires bits { length bits.now ≡ (describe self.now).words }
        ensures { IfOk result
            (λ r. r ≡ true → StandsApart (describe self.now) (slice_index bits.now) body.0) };
}
