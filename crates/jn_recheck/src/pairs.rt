//! The methods that override, and their rows, once more.
ghost use Rattle.std.specs.Prelude.{◌≡◌, [], false, true, Some, IfOk};
ghost use Rattle.jn_contrib.specs.Entries.{AreOverriders};
ghost use Rattle.jn_heads_law.specs.Heads.{HeadsAlike};
ghost use Rattle.jn_recheck.specs.Found.{Tells};
ghost use Rattle.jn_recheck.specs.Standing.{StandsIn};
ghost use Rattle.jn_recheck_law.specs.Alike.{SameDeclarations};
ghost use Rattle.jn_transfer.specs.Rules.{pairs_rows};

use crate::kept::Kept;
use crate::rows::Compared;
use jn_base::{OutOfMemory, Row};
use jn_checks::override_rows;
use jn_contrib::{Overrider, overriders};
use jn_index::BaseTyped;
use jn_kept_points::Unchanged;
use jn_reuse::pairs::{copy_overriders, overriders_stay_in_alike_programs, unbroken_pairs_stay};
use jn_sigs::Sig;
use jn_trees::Names;
use std::alloc::Global;

/// The methods that override, which are looked for.
fn overriders_anew(alloc: Global, base: &BaseTyped) -> Result<Vec<Overrider>, OutOfMemory>
    ensures { IfOk result (λ list. AreOverriders base.now list.items) }
{
    let program = base.indexed();
    program.facts();
    overriders(alloc, program)
}

/// The methods that override, which are those of the kept program.
fn overriders_kept(
    alloc: Global,
    kept: &Kept,
    base: &BaseTyped,
) -> Result<Vec<Overrider>, OutOfMemory>
    requires { HeadsAlike kept.now.program base.now }
    ensures { IfOk result (λ list. AreOverriders base.now list.items) }
{
    overriders_stay_in_alike_programs();
    let _base = base;
    copy_overriders(alloc, kept.overriders())
}

/// The methods that override; where the program is told to declare what the kept one did, they aren't looked for.
pub(crate) fn overriders_again(
    alloc: Global,
    kept: &Option<Kept>,
    base: &BaseTyped,
    unchanged: &Unchanged,
) -> Result<Vec<Overrider>, OutOfMemory>
    requires unchanged { StandsIn kept.now (Some base.now) unchanged.now }
    ensures { IfOk result (λ list. AreOverriders base.now list.items) }
{
    match kept {
        None => overriders_anew(alloc, base),
        Some(kept) => {
            if unchanged.alike {
                overriders_kept(alloc, kept, base)
            } else {
                overriders_anew(alloc, base)
            }
        }
    }
}

/// The rows of the overriding pairs, which are looked for.
fn pairs_anew(alloc: Global, base: &BaseTyped, sig: &Sig) -> Result<Vec<Row>, OutOfMemory>
    ensures { IfOk result (λ rows. rows.items ≡ pairs_rows base.now sig.now) }
{
    let program = base.indexed();
    program.facts();
    override_rows(alloc, program, sig)
}

/// The rows of the overriding pairs, where those of the kept program have none.
fn pairs_kept(
    alloc: Global,
    kept: &Kept,
    names: &Names,
    base: &BaseTyped,
    sig: &Sig,
) -> Result<Vec<Row>, OutOfMemory>
    requires heads { HeadsAlike kept.now.program base.now }
    requires same { SameDeclarations kept.now.names names.now kept.now.program base.now }
    requires equal { kept.now.signature ≡ sig.now }
    requires none { pairs_rows kept.now.program kept.now.signature ≡ [] }
    ensures { IfOk result (λ rows. rows.items ≡ pairs_rows base.now sig.now) }
{
    unbroken_pairs_stay();
    let _kept = kept;
    let _names = names;
    let _base = base;
    let _sig = sig;
    Ok(Vec::new(alloc))
}

/// Whether the program declares what the kept one does, under an equal signature, and no overriding pair of that breaks a rule.
fn keeps_pairs(kept: &Kept, compared: &Compared, alike: bool) -> bool
    ensures alike { result ≡ true → alike ≡ true }
    ensures same { result ≡ true → compared.now.same ≡ true }
    ensures equal { result ≡ true → compared.now.equal ≡ true }
    ensures none { result ≡ true → pairs_rows kept.now.program kept.now.signature ≡ [] }
{
    if !alike {
        return false;
    }
    if !compared.same {
        return false;
    }
    if !compared.equal {
        return false;
    }
    !kept.has_broken_pairs()
}

/// The rows of the overriding pairs; where the program declares what the kept one does, under an equal signature, and the pairs of that have none, they aren't
/// looked for.
pub(crate) fn pairs_again(
    alloc: Global,
    kept: &Option<Kept>,
    names: &Names,
    base: &BaseTyped,
    sig: &Sig,
    compared: &Compared,
    unchanged: &Unchanged,
) -> Result<Vec<Row>, OutOfMemory>
    requires tells { Tells kept.now (record { names = names.now; program = base.now; signature = sig.now }) compared.now }
    requires unchanged { StandsIn kept.now (Some base.now) unchanged.now }
    ensures { IfOk result (λ rows. rows.items ≡ pairs_rows base.now sig.now) }
{
    match kept {
        None => pairs_anew(alloc, base, sig),
        Some(kept) => {
            if keeps_pairs(kept, compared, unchanged.alike) {
                pairs_kept(alloc, kept, names, base, sig)
            } else {
                pairs_anew(alloc, base, sig)
            }
        }
    }
}
