//! A body's raises.
ghost use Rattle.std.specs.Prelude.{◌≡◌, ℕ, ◌+◌, ◌<◌, length};
ghost use Rattle.jn_sigtable.specs.Words.{system_of, view_of, IsPassOf};
ghost use Rattle.jn_worklist.specs.Plans.{IsDue, IsDueBy};
ghost use Rattle.jn_worklist.specs.Runs.{IsRaisingOn};

use crate::bits::add_bodies;
use crate::task::Task;
use jn_base::WordNo;
use jn_sigtable::{Constraints, Pass};

fn raise_one<C: Constraints>(
    task: &Task<C>,
    pass: &mut Pass<C>,
    values: &[u64],
    output: &[(WordNo, u64)],
    at: usize,
    new: &mut [bool],
    due: &mut [u64],
)
    requires count { length values.now ≡ (C.describe (system_of task.now.table.now)).words }
    requires output { output.now
        ≡ (C.describe (system_of task.now.table.now)).output task.now.body.0 values.now }
    requires at { at < length output.now }
    requires raising { IsRaisingOn C.describe task.now.table.now task.now.body.0 (view_of pass.old)
        pass.old values.now output.now at due.old }
    requires flags { length new.old ≡ length output.now }
    requires from { (x : ℕ) → IsDue due.old x → IsDueBy task.now.plan.now output.now new.old 0 x }
    ensures raising { IsRaisingOn C.describe task.now.table.now task.now.body.0 (view_of pass.old)
        pass.new values.now output.now (at + 1) due.new }
    ensures flags { length new.new ≡ length output.now }
    ensures from { (x : ℕ) → IsDue due.new x → IsDueBy task.now.plan.now output.now new.new 0 x }
{
    let (word, bits) = output[at];
    let found = task.table.raise_word(pass, word, bits);
    if found | bits != found {
        new[at] = true;
        add_bodies(due, task.plan.readers(word));
    }
}

// Raises all outputs of the body, and tells of each whether a bit was new; the bodies that are owed
// a mark are added to those due.
pub fn raise_all<C: Constraints>(
    task: &Task<C>,
    pass: &mut Pass<C>,
    values: &[u64],
    output: &[(WordNo, u64)],
    new: &mut [bool],
    due: &mut [u64],
)
    requires count { length values.now ≡ (C.describe (system_of task.now.table.now)).words }
    requires output { output.now
        ≡ (C.describe (system_of task.now.table.now)).output task.now.body.0 values.now }
    requires raising { IsRaisingOn C.describe task.now.table.now task.now.body.0 (view_of pass.old)
        pass.old values.now output.now 0 due.old }
    requires flags { length new.old ≡ length output.now }
    requires from { (x : ℕ) → IsDue due.old x → IsDueBy task.now.plan.now output.now new.old 0 x }
    ensures raising { IsRaisingOn C.describe task.now.table.now task.now.body.0 (view_of pass.old)
        pass.new values.now output.now (length output.now) due.new }
    ensures flags { length new.new ≡ length output.now }
    ensures from { (x : ℕ) → IsDue due.new x → IsDueBy task.now.plan.now output.now new.new 0 x }
{
    for at in 0..output.len() {
        raise_one(task, pass, values, output, at, new, due);
    }
}
