//! Systems solved by workers and on one thread.
ghost use Rattle.std.specs.Prelude.{◌≡◌, ◌+◌, ◌/◌, ◌<◌, replicate, IfOk};
ghost use Rattle.jn_sigtable.specs.System.{least};
ghost use Rattle.jn_solver_samples.specs.Nets.{net_of};

use crate::net::Net;
use jn_base::OutOfMemory;
use jn_sharing::Workers;
use jn_sigtable::Constraints;
use jn_workers::{Straight, solve};
use jn_worklist::{drain, plan};
use std::alloc::Global;
use std::thread::Threads;

/// The least words of a net above zeros, by workers.
pub fn solved<R: Threads + Sync>(
    rt: &R,
    alloc: Global,
    net: Net,
    workers: Workers,
) -> Result<Vec<u64>, OutOfMemory>
    requires any { 0 < net.bodies }
    ensures { IfOk result
        (λ words. words.items ≡ least (net_of net.shape net.bodies) (replicate net.bodies 0)) }
{
    let start = vec![in alloc; 0; net.bodies as usize]?;
    solve(rt, alloc, net, start.as_slice(), workers, &Straight)
}

/// The least words of a system above zeros, on one thread.
pub fn drained<C: Constraints>(alloc: Global, system: &C) -> Result<Vec<u64>, OutOfMemory>
    ensures { IfOk result (λ words.
        words.items ≡ least (C.describe system.now) (replicate (C.describe system.now).words 0)) }
{
    let start = vec![in alloc; 0; system.words() as usize]?;
    let dirty = vec![in alloc; u64::MAX; (system.bodies() as usize + 63) / 64]?;
    let readers = plan(alloc, system)?;
    drain(alloc, system, &readers, start, dirty)
}
