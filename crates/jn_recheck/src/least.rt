//! The least signature of a session's program.
ghost use Rattle.std.specs.Prelude.{◌≡◌, IfOk, true};
ghost use Rattle.jn_again.specs.Flags.{AreSame};
ghost use Rattle.jn_contrib.specs.Entries.{AreOverriders};
ghost use Rattle.jn_inference_law.specs.Solution.{IsLeastSignature};
ghost use Rattle.jn_recheck_law.specs.Alike.{SameDeclarations};
ghost use Rattle.jn_recheck.specs.KeptRows.{TellsKnown, TellsSame};

use crate::kept::Kept;
use jn_again::{Earlier, solve_again};
use jn_base::OutOfMemory;
use jn_contrib::Overrider;
use jn_index::BaseTyped;
use jn_sharing::{Gate, Workers};
use jn_sigs::Sig;
use jn_system::solve_with;
use jn_tables_law::law::regular_programs_can_be_inferred;
use jn_trees::Names;
use std::alloc::Global;
use std::thread::Threads;

/// The least signature, from that of what is kept.
fn least_from<R: Threads + Sync, G: Gate + Sync>(
    rt: &R,
    alloc: Global,
    workers: Workers,
    kept: &Kept,
    names: &Names,
    base: &BaseTyped,
    overriders: &[Overrider],
    same: bool,
    known: &[bool],
    solving: &G,
) -> Result<Sig, OutOfMemory>
    requires overriders { AreOverriders base.now overriders.now }
    requires same { same ≡ true
        → SameDeclarations kept.now.names names.now kept.now.program base.now }
    requires known { AreSame kept.now.program base.now known.now }
    ensures { IfOk result (λ sig. IsLeastSignature base.now sig) }
{
    regular_programs_can_be_inferred();
    let earlier = Earlier {
        names: kept.names(),
        program: kept.program(),
        sig: kept.sig(),
        overriders: kept.overriders(),
    };
    let sig = solve_again(
        rt,
        alloc,
        &earlier,
        names,
        base.program(),
        overriders,
        same,
        known,
        workers,
        solving,
    )?;
    Ok(sig)
}

/// The least signature of a program: from that of the last report that came to the rules, where there was one, else anew.
pub(crate) fn least_sig<R: Threads + Sync, G: Gate + Sync>(
    rt: &R,
    alloc: Global,
    workers: Workers,
    kept: &Option<Kept>,
    names: &Names,
    base: &BaseTyped,
    overriders: &[Overrider],
    same: bool,
    known: &[bool],
    solving: &G,
) -> Result<Sig, OutOfMemory>
    requires overriders { AreOverriders base.now overriders.now }
    requires same { TellsSame kept.now names.now base.now same }
    requires known { TellsKnown kept.now base.now known.now }
    ensures { IfOk result (λ sig. IsLeastSignature base.now sig) }
{
    regular_programs_can_be_inferred();
    match kept {
        None => {
            let sig = solve_with(rt, alloc, base.program(), overriders, workers, solving)?;
            Ok(sig)
        }
        Some(kept) => least_from(
            rt, alloc, workers, kept, names, base, overriders, same, known, solving,
        ),
    }
}
