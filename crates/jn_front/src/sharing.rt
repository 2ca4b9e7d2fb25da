//! Files shared among workers.
ghost use Rattle.std.specs.Prelude.{◌≤◌, ◌<◌, length, IfOk};
ghost use Rattle.std.specs.Thread.{IsSync};
ghost use Rattle.jn_front.specs.Files.{files_of_reads};
ghost use Rattle.jn_front.specs.Outcomes.{AreOutcomes, IsOutcomeOf};

use crate::alone::outcome_of;
use crate::outcome::Outcome;
use crate::source::SourceRead;
use jn_base::OutOfMemory;
use jn_sharing::{Gate, share_out};
use std::alloc::Global;
use std::thread::Threads;

/// The outcomes of files in their order: worker 0 and as many more as `more` says take one after the other. In each file as many
/// others take part as `others` says.
pub fn parse_by<R: Threads + Sync, G: Gate + Sync>(
    rt: &R,
    alloc: Global,
    reads: &[SourceRead],
    more: u32,
    others: u32,
    gate: &G,
) -> Result<Vec<Outcome>, OutOfMemory>
    requires few { length reads.now ≤ 64 }
    ensures { IfOk result
        (λ outcomes. AreOutcomes 0 (files_of_reads reads.now) outcomes.items) }
{
    let parse = |at: usize, worker: u32| -> Result<Outcome, OutOfMemory>
        requires { IsSync R.row × (length reads.now ≤ 64) × (at < length reads.now) }
        ensures { IfOk result (λ outcome. IsOutcomeOf reads.entry.now at outcome) }
    {
        let outcome = outcome_of(rt, alloc, &reads[at], at as u32, worker, others, gate)?;
        Ok(outcome)
    };
    let outcomes = share_out(rt, alloc, reads.len(), more, &parse)?;
    Ok(outcomes)
}
