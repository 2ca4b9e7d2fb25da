//! Solving again.
ghost use Rattle.std.specs.Prelude.{◌≡◌, ◌<◌, IfOk, List, ℕ, length, true};
ghost use Rattle.jn_contrib.specs.Entries.{AreOverriders};
ghost use Rattle.jn_inference_law.specs.Solution.{IsLeastSignature};
ghost use Rattle.jn_recheck_law.specs.Alike.{SameDeclarations};
ghost use Rattle.jn_tables_law.specs.Inferable.{IsInferable};
ghost use Rattle.jn_tables_law.specs.Tasks.{task_count};
ghost use Rattle.jn_inference_law.specs.Inference.{inference};
ghost use Rattle.jn_again.specs.Flags.{AreSame};
ghost use Rattle.jn_again.specs.Losing.{told};
ghost use Rattle.jn_resume.specs.Keepable.{IsEditOf};
ghost use Rattle.jn_sigtable.specs.System.{least};
ghost use Rattle.jn_system.specs.Ready.{AreTasks};

use crate::changed::{changed_tasks, same_overriders};
use crate::edit::Edit;
use crate::program_reach::ProgramReach;
use crate::solving::solve_on;
use jn_base::OutOfMemory;
use jn_contrib::Overrider;
use jn_env::OwnFields;
use jn_points::Program;
use jn_sharing::{Gate, Workers};
use jn_sigs::{Sig, start};
use jn_system::signature::signature;
use jn_system::solving::are_few;
use jn_system::{Nullness, solve_with};
use jn_trees::Names;
use std::alloc::Global;
use std::thread::Threads;

/// An earlier program, the texts of its names, its least signature, and its methods that override.
#[derive(Drop)]
pub struct Earlier<'e> {
    pub names: &'e Names,
    pub program: &'e Program,
    pub sig: &'e Sig,
    pub overriders: &'e [Overrider],
}

/// What a system of inference is made of.
#[derive(Drop)]
struct Parts<'p> {
    program: &'p Program,
    own: &'p OwnFields,
    overriders: &'p [Overrider],
}

/// The least words of the new program, from those of the old one.
fn solve_words(
    alloc: Global,
    old: &Parts,
    new: &Parts,
    changed: &[bool],
    before: &[u64],
    start: &[u64],
    last: &[u64],
) -> Result<Vec<u64>, OutOfMemory>
    requires old { AreTasks old.now.program.now old.now.own.now old.now.overriders.now }
    requires new { AreTasks new.now.program.now new.now.own.now new.now.overriders.now }
    requires flags { length changed.now ≡ task_count old.now.program.now }
    requires edit { IsEditOf (inference old.now.program.now) (inference new.now.program.now)
        before.now start.now last.now (told changed.now) }
    ensures { IfOk result (λ words. words.items ≡ least (inference new.now.program.now) start.now) }
{
    let was = Nullness::new(old.program, old.own, old.overriders);
    let is = Nullness::new(new.program, new.own, new.overriders);
    let reach = ProgramReach::new(old.program, old.own, old.overriders);
    let words = solve_on(
        alloc,
        &Edit {
            old: &was,
            new: &is,
            reach: &reach,
            changed,
            before,
            start,
            last,
        },
    )?;
    Ok(words)
}

/// The least signature of a program that declares what the old one did.
fn solve_edited(
    alloc: Global,
    old: &Program,
    sig: &Sig,
    old_overriders: &[Overrider],
    new: &Program,
    overriders: &[Overrider],
    known: &[bool],
) -> Result<Sig, OutOfMemory>
    requires known { AreSame old.now new.now known.now }
    requires old { IsInferable old.now }
    requires new { IsInferable new.now }
    requires least { IsLeastSignature old.now sig.now }
    requires old_list { AreOverriders old.now old_overriders.now }
    requires list { AreOverriders new.now overriders.now }
    requires lists { old_overriders.now ≡ overriders.now }
    requires bodies { length old.now.bodies ≡ length new.now.bodies }
    requires declares { (names : List (List ℕ)) × ((more : List (List ℕ))
        × SameDeclarations names more old.now new.now) }
    ensures { IfOk result (λ found. IsLeastSignature new.now found) }
{
    if !are_few(old.bodies.len(), old_overriders.len()) {
        return Err(OutOfMemory);
    }
    let before = start(alloc, old)?;
    let first = start(alloc, new)?;
    let old_own = OwnFields::new(alloc, old)?;
    let own = OwnFields::new(alloc, new)?;
    let tasks = old.bodies.len() + old_overriders.len();
    let changed = changed_tasks(alloc, old, new, known, tasks)?;
    let words = solve_words(
        alloc,
        &Parts {
            program: old,
            own: &old_own,
            overriders: old_overriders,
        },
        &Parts {
            program: new,
            own: &own,
            overriders,
        },
        changed.as_slice(),
        before.words(),
        first.words(),
        sig.words(),
    )?;
    let found = signature(alloc, new.slots.len() as u32, words.as_slice())?;
    Ok(found)
}

/// The least signature of a program, where an earlier one has been solved, and these are its methods that override. Where both are told to declare the same
/// (`same`) and have as many bodies, it is found from the earlier one's on one thread; else anew, by so many workers, 1 to 16, each of which enters the gate
/// when it takes a body. The bodies that are flagged (`known`) are the same in both, and aren't compared.
///
/// # Errors
/// No memory was found, or bodies and methods that override are more than four billion.
pub fn solve_again<R: Threads + Sync, G: Gate + Sync>(
    rt: &R,
    alloc: Global,
    earlier: &Earlier,
    names: &Names,
    program: &Program,
    overriders: &[Overrider],
    same: bool,
    known: &[bool],
    workers: Workers,
    gate: &G,
) -> Result<Sig, OutOfMemory>
    requires same { same ≡ true → SameDeclarations earlier.now.names.now names.now
        earlier.now.program.now program.now }
    requires known { AreSame earlier.now.program.now program.now known.now }
    requires old { IsInferable earlier.now.program.now }
    requires least { IsLeastSignature earlier.now.program.now earlier.now.sig.now }
    requires old_list { AreOverriders earlier.now.program.now earlier.now.overriders.now }
    requires inferable { IsInferable program.now }
    requires list { AreOverriders program.now overriders.now }
    ensures { IfOk result (λ sig. IsLeastSignature program.now sig) }
{
    let _names = names;
    let old = earlier.program;
    if !same {
        return solve_with(rt, alloc, program, overriders, workers, gate);
    }
    if old.bodies.len() != program.bodies.len() {
        return solve_with(rt, alloc, program, overriders, workers, gate);
    }
    if !same_overriders(earlier.overriders, overriders) {
        return solve_with(rt, alloc, program, overriders, workers, gate);
    }
    solve_edited(
        alloc,
        old,
        earlier.sig,
        earlier.overriders,
        program,
        overriders,
        known,
    )
}
