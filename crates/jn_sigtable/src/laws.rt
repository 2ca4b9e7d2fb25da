//! Laws of the least words and of the rule.
ghost use Rattle.std.specs.Prelude.{◌≡◌, ◌≤◌, length, sum_by};
ghost use Rattle.jn_sigtable.specs.System.{least, IsLeast, limit_of};
ghost use Rattle.jn_sigtable.specs.Machine.{Holds, described, start_of, taken_in};

use crate::constraints::Constraints;

/// The least words above a start are closed, have all bits of the start, are within every closed
/// list that has these, and a further round leaves them as they are.
pub fn least_words_are_least<C: Constraints>(system: &C, start: &[u64])
    requires count { length start.now ≡ (C.describe system.now).words }
    ensures least { IsLeast (C.describe system.now) start.now
        (least (C.describe system.now) start.now) }
{}

/// Whatever the workers do, in which order ever: the bodies that all passes of a table have taken and
/// not given back are at most one for each body, and one more for each body and each bit that the
/// least words have above the start.
pub fn bodies_taken_are_bounded<C: Constraints>(_system: &C)
    ensures { (k : _) (s : _) → Holds (described C.describe) k s → sum_by taken_in s.views
        ≤ limit_of (described C.describe k.system) (start_of (described C.describe) k) }
{}
