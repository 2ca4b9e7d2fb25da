//! The files that have no kept tree, lexed and parsed by workers.
ghost use Rattle.std.specs.Prelude.{◌≡◌, ◌≤◌, ◌<◌, None, length, map, IfOk};
ghost use Rattle.std.specs.Thread.{IsSync};
ghost use Rattle.jn_kept_trees.specs.Fresh.{AreFresh, IsFreshOf, has_tree};

use crate::kept::KeptTree;
use jn_base::OutOfMemory;
use jn_base::lists::put;
use jn_front::parsing::{more_workers, others_of_each};
use jn_front::{Outcome, SourceRead, outcome_of};
use jn_sharing::{Gate, Workers, share_out};
use std::alloc::Global;
use std::thread::Threads;

/// Which files have a kept tree.
///
/// # Errors
/// No memory was found.
pub fn which_are_kept(alloc: Global, trees: &[Option<KeptTree>]) -> Result<Vec<bool>, OutOfMemory>
    ensures { IfOk result (λ kept. kept.items ≡ map has_tree trees.now) }
{
    let mut kept = Vec::new(alloc);
    for tree in trees {
        put(&mut kept, tree.is_some())?;
    }
    Ok(kept)
}

/// How many files have none.
fn others(kept: &[bool]) -> usize
    ensures { result ≤ length kept.now }
{
    let mut count = 0;
    for at in 0..kept.len() {
        if !kept[at] {
            count += 1;
        }
    }
    count
}

/// What becomes of the text of a file, where it has no kept tree.
fn parse_one<R: Threads + Sync, G: Gate>(
    rt: &R,
    alloc: Global,
    reads: &[SourceRead],
    kept: &[bool],
    at: usize,
    worker: u32,
    more: u32,
    gate: &G,
) -> Result<Option<Outcome>, OutOfMemory>
    requires few { length reads.now ≤ 64 }
    requires long { length kept.now ≡ length reads.now }
    requires inside { at < length reads.now }
    ensures { IfOk result (λ fresh. IsFreshOf reads.now kept.now at fresh) }
{
    if kept[at] {
        return Ok(None);
    }
    let outcome = outcome_of(rt, alloc, &reads[at], at as u32, worker, more, gate)?;
    Ok(Some(outcome))
}

/// The outcomes of the files that have no kept tree: worker 0 and as many more as `more` says take one file after the other, and as many
/// others as `beside` says take part in each.
fn parse_by<R: Threads + Sync, G: Gate + Sync>(
    rt: &R,
    alloc: Global,
    reads: &[SourceRead],
    kept: &[bool],
    more: u32,
    beside: u32,
    gate: &G,
) -> Result<Vec<Option<Outcome>>, OutOfMemory>
    requires few { length reads.now ≤ 64 }
    requires long { length kept.now ≡ length reads.now }
    ensures { IfOk result (λ fresh. AreFresh reads.now kept.now fresh.items) }
{
    let parse = |at: usize, worker: u32| -> Result<Option<Outcome>, OutOfMemory>
        requires { IsSync R.row × (length reads.now ≤ 64) × (length kept.now ≡ length reads.now) × (at < length reads.now) }
        ensures { IfOk result (λ fresh. IsFreshOf reads.entry.now kept.entry.now at fresh) }
    {
        let fresh = parse_one(rt, alloc, reads, kept, at, worker, beside, gate)?;
        Ok(fresh)
    };
    let fresh = share_out(rt, alloc, reads.len(), more, &parse)?;
    Ok(fresh)
}

/// The outcomes of the files that have no kept tree. Such files are shared among as many workers as are asked for; where there are more
/// workers than files, the others take part in each of them. A worker that has taken a file enters the gate with its number.
///
/// # Errors
/// No memory was found.
pub fn parse_others<R: Threads + Sync, G: Gate + Sync>(
    rt: &R,
    alloc: Global,
    reads: &[SourceRead],
    kept: &[bool],
    workers: Workers,
    gate: &G,
) -> Result<Vec<Option<Outcome>>, OutOfMemory>
    requires few { length reads.now ≤ 64 }
    requires long { length kept.now ≡ length reads.now }
    ensures { IfOk result (λ fresh. AreFresh reads.now kept.now fresh.items) }
{
    let more = more_workers(others(kept), workers.count());
    let beside = others_of_each(workers.count(), more);
    parse_by(rt, alloc, reads, kept, more, beside, gate)
}
