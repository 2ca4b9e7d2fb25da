//! Which modifiers may stand together, and where.
ghost use Rattle.std.specs.Prelude.{◌↔◌, IsTrue};
ghost use Rattle.jn_trees.specs.Bearers.{may};
ghost use Rattle.jn_trees.specs.View.{marks};
ghost use Rattle.jn_trees.specs.WellFormed.{GoodMarks};

use jn_trees::{Bearer, Modifier, every_may_stand, no_clash};

/// Whether each of the modifiers may stand before that, and no two clash.
pub fn good_marks(bearer: Bearer, modifiers: &[Modifier]) -> bool
    ensures { IsTrue result ↔ GoodMarks (may bearer) (marks modifiers.now) }
{
    every_may_stand(modifiers, bearer) && no_clash(modifiers)
}
