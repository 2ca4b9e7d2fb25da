//! The least signature, by any number of workers.
ghost use Rattle.std.specs.Prelude.{◌≡◌, ◌<◌, ◌≤◌, ◌+◌, ◌^◌, IfOk, true, false};
ghost use Rattle.jn_contrib.specs.Entries.{AreOverriders};
ghost use Rattle.jn_tables_law.specs.Inferable.{IsInferable};
ghost use Rattle.jn_inference_law.specs.Solution.{IsLeastSignature};

use crate::nullness::Nullness;
use crate::signature::signature;
use jn_base::OutOfMemory;
use jn_contrib::{Overrider, overriders};
use jn_env::OwnFields;
use jn_index::indexed::IndexedProgram;
use jn_points::Program;
use jn_sharing::Workers;
use jn_sigs::{Sig, start};
use jn_workers::{Gate, solve};
use std::alloc::Global;
use std::thread::Threads;

/// Whether the tasks can be numbered.
pub fn are_few(bodies: usize, overriders: usize) -> bool
    ensures few { result ≡ true → bodies + overriders < 2 ^ 32 }
    ensures many { result ≡ false → 2 ^ 32 ≤ bodies + overriders }
{
    bodies <= u32::MAX as usize && overriders <= u32::MAX as usize - bodies
}

/// Whether there is no task.
fn is_none(bodies: usize, overriders: usize) -> bool
    ensures none { result ≡ true → bodies + overriders ≡ 0 }
    ensures some { result ≡ false → 0 < bodies + overriders }
{
    bodies == 0 && overriders == 0
}

/// The least signature of a program, as [`solve_sig`] finds it, where these are its methods that override.
///
/// # Errors
/// Those of [`solve_sig`].
pub fn solve_with<R: Threads + Sync, G: Gate + Sync>(
    rt: &R,
    alloc: Global,
    program: &Program,
    overriders: &[Overrider],
    workers: Workers,
    gate: &G,
) -> Result<Sig, OutOfMemory>
    requires inferable { IsInferable program.now }
    requires overriders { AreOverriders program.now overriders.now }
    ensures { IfOk result (λ sig. IsLeastSignature program.now sig) }
{
    let first = start(alloc, program)?;
    if !are_few(program.bodies.len(), overriders.len()) {
        return Err(OutOfMemory);
    }
    if is_none(program.bodies.len(), overriders.len()) {
        return Ok(first);
    }
    let own = OwnFields::new(alloc, program)?;
    let system = Nullness::new(program, &own, overriders);
    let words = solve(rt, alloc, system, first.words(), workers, gate)?;
    let sig = signature(alloc, program.slots.len() as u32, words.as_slice())?;
    Ok(sig)
}

/// The least signature of a program, found by the given number of workers, 1 to 16, whatever the order of their steps: it
/// has all that the bodies send under their least tables, and all that methods send which override, is not below the start, and is within
/// every signature that is both. A program has one (`jn_inference_law::law::least_signatures_are_unique`), so it doesn't depend on the
/// workers.
///
/// # Errors
/// No memory was found, or bodies and methods that override are more than four billion.
pub fn solve_sig<R: Threads + Sync, G: Gate + Sync>(
    rt: &R,
    alloc: Global,
    program: &IndexedProgram,
    workers: Workers,
    gate: &G,
) -> Result<Sig, OutOfMemory>
    requires inferable { IsInferable program.now }
    ensures { IfOk result (λ sig. IsLeastSignature program.now sig) }
{
    let list = overriders(alloc, program)?;
    solve_with(rt, alloc, program.program(), list.as_slice(), workers, gate)
}
