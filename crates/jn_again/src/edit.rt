//! An edit of a system.
ghost use Rattle.jn_again.specs.Edits.{AreReady, ready_prop};

use crate::reach::Reach;
use jn_sigtable::Constraints;

/// An earlier system, which was solved, and the one that it has become, with what is known of both. They have as many words and as many bodies, and a body that isn't
/// flagged puts out the same in both.
#[derive(Drop)]
pub struct Edit<'e, C: Constraints, R: Reach> {
    pub old: &'e C,
    pub new: &'e C,
    /// What bodies of the earlier system can reach.
    pub reach: &'e R,
    /// For each body, whether it may put out something else than it did.
    pub changed: &'e [bool],
    /// The words with which the earlier solving began.
    pub before: &'e [u64],
    /// The words with which the new one begins.
    pub start: &'e [u64],
    /// The least words of the earlier system.
    pub last: &'e [u64],
    ghost ready: { AreReady (C.describe old.now) (C.describe new.now) (R.describe reach.now) before.now start.now last.now changed.now } by { ready_prop (C.describe old.now) (C.describe new.now) (R.describe reach.now) before.now start.now last.now changed.now },
}
