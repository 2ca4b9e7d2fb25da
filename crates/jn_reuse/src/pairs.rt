//! The methods that override, of a program that declares what an earlier one did.
ghost use Rattle.std.specs.Prelude.{◌≡◌, ◌++◌, ◌∷◌, [], IfOk, List, OnOk, ℕ};
ghost use Rattle.jn_contrib.specs.declared.listed.Overrider.{Overrider};
ghost use Rattle.jn_contrib.specs.Entries.{AreOverriders};
ghost use Rattle.jn_heads_law.specs.Heads.{HeadsAlike};
ghost use Rattle.jn_points.specs.declared.program.Program.{Program};
ghost use Rattle.jn_quals.specs.Qualifier.{Qualifier};
ghost use Rattle.jn_recheck_law.specs.Alike.{SameDeclarations};
ghost use Rattle.jn_transfer.specs.Rules.{pairs_rows};

use jn_base::OutOfMemory;
use jn_contrib::Overrider;
use std::alloc::{AllocError, Global};

/// The methods that override in a program are those that do in each that declares the same but for places.
pub fn overriders_stay_in_alike_programs()
    ensures { (P Q : Program) (list : List Overrider) → HeadsAlike P Q
        → AreOverriders P list → AreOverriders Q list }
{}

/// Where no overriding pair breaks a rule, none does in a program that declares the same, under the same signature.
pub fn unbroken_pairs_stay()
    ensures { (names more : List (List ℕ)) (P Q : Program) (s : List Qualifier) → HeadsAlike P Q
        → SameDeclarations names more P Q → pairs_rows P s ≡ [] → pairs_rows Q s ≡ [] }
{}

/// Adds a copy of the entry.
fn push_copy(copy: &mut Vec<Overrider>, alloc: Global, entry: &Overrider) -> Result<(), AllocError>
    ensures { OnOk result (copy.new.items ≡ copy.old.items ++ entry.now ∷ []) }
{
    copy.push(Overrider {
        method: entry.method,
        under: entry.under.copy(alloc)?,
    })?;
    Ok(())
}

/// A copy of the list.
///
/// # Errors
/// No memory was found.
pub fn copy_overriders(alloc: Global, list: &[Overrider]) -> Result<Vec<Overrider>, OutOfMemory>
    ensures { IfOk result (λ copy. copy.items ≡ list.now) }
{
    let mut copy = Vec::new(alloc);
    for entry in list {
        push_copy(&mut copy, alloc, entry)?;
    }
    Ok(copy)
}
