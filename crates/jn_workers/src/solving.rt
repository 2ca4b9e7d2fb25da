//! All workers.
ghost use Rattle.std.specs.Prelude.{◌≡◌, ◌-◌, ◌<◌, length, IfOk};
ghost use Rattle.std.specs.Thread.{IsSync};
ghost use Rattle.jn_sigtable.specs.System.{least};
ghost use Rattle.jn_sigtable.specs.Machine.{IsAtRest, HasSeenAll};
ghost use Rattle.jn_sigtable.specs.Words.{system_of, view_of, IsPassOf};
ghost use Rattle.jn_workers.specs.Ends.{WeighsAs};
ghost use Rattle.jn_workers.specs.Passes.{CanWork, HasWorked};

use crate::working::{Worked, work};
use jn_base::OutOfMemory;
use jn_sharing::{Gate, Workers};
use jn_sigtable::{Constraints, Pass, SigTable};
use jn_worklist::{Plan, plan};
use std::alloc::Global;
use std::thread::{Threads, join};

// The worse of two ends.
fn worse(a: Worked, b: Worked) -> Worked
    ensures { result ≡ Worked.Emptied → (a ≡ Worked.Emptied) × (b ≡ Worked.Emptied) }
{
    match a {
        Worked::Emptied => b,
        Worked::OutOfMemory => Worked::OutOfMemory,
    }
}

fn work_alone<C: Constraints, G: Gate>(
    alloc: Global,
    table: &SigTable<C>,
    plan: &Plan,
    mut pass: Pass<C>,
    worker: u32,
    gate: &G,
) -> (Pass<C>, Worked)
    requires ready { CanWork C.describe table.now plan.now pass }
    ensures worked { HasWorked C.describe table.now pass result.0 }
    ensures emptied { result.1 ≡ Worked.Emptied
        → HasSeenAll (C.describe (system_of table.now)) (view_of result.0) }
{
    let end = work(alloc, table, plan, &mut pass, worker, gate);
    (pass, end)
}

// The pass works as worker 0, and one that is split from it as each of the `more` others.
#[cycle(spread)]
fn spread<R: Threads + Sync, C: Constraints + Sync, G: Gate + Sync>(
    rt: &R,
    alloc: Global,
    table: &SigTable<C>,
    plan: &Plan,
    mut pass: Pass<C>,
    more: u32,
    gate: &G,
) -> (Pass<C>, Worked)
    requires ready { CanWork C.describe table.now plan.now pass }
    ensures own { IsPassOf C.describe table.now result.0 }
    ensures idle { IsAtRest (C.describe (system_of table.now)) (view_of result.0) }
    ensures share { WeighsAs (view_of result.0) (view_of pass) }
    ensures emptied { result.1 ≡ Worked.Emptied
        → HasSeenAll (C.describe (system_of table.now)) (view_of result.0) }
{
    if more == 0 {
        return work_alone(alloc, table, plan, pass, 0, gate);
    }
    let other = table.split(&mut pass);
    let theirs = move || -> (Pass<C>, Worked)
        requires { CanWork C.describe table.now plan.now other }
        ensures worked { HasWorked C.describe table.entry.now other result.0 }
        ensures emptied { result.1 ≡ Worked.Emptied
            → HasSeenAll (C.describe (system_of table.entry.now)) (view_of result.0) }
    { work_alone(alloc, table, plan, other, more, gate) };
    let ours = move || -> (Pass<C>, Worked)
        requires { IsSync R.row × IsSync C.row × IsSync G.row × (0 < more)
            × CanWork C.describe table.now plan.now pass }
        ensures own { IsPassOf C.describe table.entry.now result.0 }
        ensures idle { IsAtRest (C.describe (system_of table.entry.now)) (view_of result.0) }
        ensures share { WeighsAs (view_of result.0) (view_of pass) }
        ensures emptied { result.1 ≡ Worked.Emptied
            → HasSeenAll (C.describe (system_of table.entry.now)) (view_of result.0) }
    { spread(rt, alloc, table, plan, pass, more - 1, gate) };
    let ((theirs, end), (mut ours, last)) = join(rt, theirs, ours);
    table.join_pass(&mut ours, theirs);
    (ours, worse(end, last))
}

/// The least words above the start, found by the given number of workers, 1 to 16, on one table.
/// The first works on the caller's thread or another, each further one on a pass of its own. It
/// goes by `join`, and so may wait for its workers.
pub fn solve<R: Threads + Sync, C: Constraints + Sync, G: Gate + Sync>(
    rt: &R,
    alloc: Global,
    system: C,
    start: &[u64],
    workers: Workers,
    gate: &G,
) -> Result<Vec<u64>, OutOfMemory>
    requires any { 0 < (C.describe system).bodies }
    requires count { length start.now ≡ (C.describe system).words }
    ensures { IfOk result (λ words. words.items ≡ least (C.describe system) start.now) }
{
    let plan = plan(alloc, &system)?;
    let (table, pass) = SigTable::new(alloc, system, start)?;
    let (pass, end) = spread(rt, alloc, &table, &plan, pass, workers.count() - 1, gate);
    let (_, words) = table.close(alloc, pass)?;
    match end {
        Worked::Emptied => Ok(words),
        Worked::OutOfMemory => Err(OutOfMemory),
    }
}
