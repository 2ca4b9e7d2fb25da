//! A body's marks.
ghost use Rattle.std.specs.Prelude.{◌≡◌, ◌≢◌, ℕ, ◌+◌, ◌/◌, ◌<◌, Some, [], length, get_or};
ghost use Rattle.jn_sigtable.specs.Machine.{IsAtRest, dirty_words};
ghost use Rattle.jn_sigtable.specs.Words.{system_of, view_of, IsPassOf};
ghost use Rattle.jn_worklist.specs.Plans.{IsDue, IsDueBy, IsNoneDue, Lists};
ghost use Rattle.jn_worklist.specs.Runs.{IsMarkingOn, HasRun, HasGivenBack};

use crate::task::Task;
use jn_base::{BodyNo, Seq, WordNo};
use jn_sigtable::{Constraints, Pass};

// Marks all bodies of a dirty word that are due.
fn mark_one<C: Constraints>(task: &Task<C>, pass: &mut Pass<C>, dirty: u32, due: &mut [u64])
    requires inside { dirty < dirty_words (C.describe (system_of task.now.table.now)) }
    requires marking { IsMarkingOn C.describe task.now.table.now task.now.body.0 (view_of pass.old)
        pass.old due.old }
    ensures marking { IsMarkingOn C.describe task.now.table.now task.now.body.0 (view_of pass.old)
        pass.new due.new }
    ensures left { (x : ℕ) → IsDue due.new x → IsDue due.old x × (x / 64 ≢ dirty) }
{
    let bits = due[dirty as usize];
    if bits != 0 {
        due[dirty as usize] = 0;
        task.table.mark(pass, WordNo(dirty), bits);
    }
}

// Marks all bodies that are due in the dirty words of these readers.
fn mark_readers<C: Constraints>(
    task: &Task<C>,
    pass: &mut Pass<C>,
    readers: &Seq<BodyNo>,
    due: &mut [u64],
)
    requires room { (x : ℕ) → Lists readers.now x
        → x / 64 < dirty_words (C.describe (system_of task.now.table.now)) }
    requires marking { IsMarkingOn C.describe task.now.table.now task.now.body.0 (view_of pass.old)
        pass.old due.old }
    ensures marking { IsMarkingOn C.describe task.now.table.now task.now.body.0 (view_of pass.old)
        pass.new due.new }
    ensures left { (x : ℕ) → IsDue due.new x → IsDue due.old x × (Lists readers.now x → ⊥) }
{
    for at in 0..readers.len() {
        mark_one(task, pass, readers.at(at).0 / 64, due);
    }
}

// Marks the bodies that are due for one output of the body.
fn mark_output<C: Constraints>(
    task: &Task<C>,
    pass: &mut Pass<C>,
    output: &[(WordNo, u64)],
    new: &[bool],
    at: usize,
    due: &mut [u64],
)
    requires at { at < length output.now }
    requires named { (get_or output.now at (record { 0 = 0 }, 0)).0.0
        < (C.describe (system_of task.now.table.now)).words }
    requires flags { length new.now ≡ length output.now }
    requires marking { IsMarkingOn C.describe task.now.table.now task.now.body.0 (view_of pass.old)
        pass.old due.old }
    requires from { (x : ℕ) → IsDue due.old x → IsDueBy task.now.plan.now output.now new.now at x }
    ensures marking { IsMarkingOn C.describe task.now.table.now task.now.body.0 (view_of pass.old)
        pass.new due.new }
    ensures from { (x : ℕ) → IsDue due.new x
        → IsDueBy task.now.plan.now output.now new.now (at + 1) x }
{
    if new[at] {
        let (word, _) = output[at];
        mark_readers(task, pass, task.plan.readers(word), due);
    }
}

// Marks all bodies that are due: those that read a word in which a bit was new.
pub fn mark_due<C: Constraints>(
    task: &Task<C>,
    pass: &mut Pass<C>,
    output: &[(WordNo, u64)],
    new: &[bool],
    due: &mut [u64],
)
    requires named { (i : ℕ) → i < length output.now
        → (get_or output.now i (record { 0 = 0 }, 0)).0.0
        < (C.describe (system_of task.now.table.now)).words }
    requires flags { length new.now ≡ length output.now }
    requires marking { IsMarkingOn C.describe task.now.table.now task.now.body.0 (view_of pass.old)
        pass.old due.old }
    requires from { (x : ℕ) → IsDue due.old x → IsDueBy task.now.plan.now output.now new.now 0 x }
    ensures own { IsPassOf C.describe task.now.table.now pass.new }
    ensures idle { IsAtRest (C.describe (system_of task.now.table.now)) (view_of pass.new) }
    ensures share { (view_of pass.new).share ≡ (view_of pass.old).share }
    ensures run { HasRun (C.describe (system_of task.now.table.now)) task.now.body.0
        (view_of pass.old) (view_of pass.new) }
    ensures none { IsNoneDue due.new }
{
    for at in 0..output.len() {
        mark_output(task, pass, output, new, at, due);
    }
}

// The body is dirty again, and the pass runs none.
pub fn mark_again<C: Constraints>(task: &Task<C>, pass: &mut Pass<C>)
    requires own { IsPassOf C.describe task.now.table.now pass.old }
    requires runs { (view_of pass.old).body ≡ Some task.now.body.0 }
    requires owed { (view_of pass.old).owed ≡ [] }
    ensures own { IsPassOf C.describe task.now.table.now pass.new }
    ensures idle { IsAtRest (C.describe (system_of task.now.table.now)) (view_of pass.new) }
    ensures share { (view_of pass.new).share ≡ (view_of pass.old).share }
    ensures back { HasGivenBack (view_of pass.old) (view_of pass.new) }
{
    task.table
        .mark(pass, WordNo(task.body.0 / 64), 1u64 << (task.body.0 % 64));
}
