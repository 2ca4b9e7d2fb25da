//! A body to run.
ghost use Rattle.std.specs.Prelude.{◌≡◌, ◌<◌};
ghost use Rattle.jn_sigtable.specs.Words.{system_of};
ghost use Rattle.jn_worklist.specs.Plans.{plan_of, plans_set};

use crate::readers::Plan;
use jn_base::BodyNo;
use jn_sigtable::{Constraints, SigTable};

/// A body of a table's system, with the plan of that system.
#[derive(Drop)]
pub struct Task<'t, C: Constraints> {
    /// The table on which the body runs.
    pub table: &'t SigTable<C>,
    /// The plan of the table's system.
    pub plan: &'t Plan,
    /// One of the system's bodies.
    pub body: BodyNo,
    ghost planned: { plan.now ≡ plan_of (C.describe (system_of table.now)) } by { plans_set _ _ },
    ghost inside: { body.0 < (C.describe (system_of table.now)).bodies },
}
