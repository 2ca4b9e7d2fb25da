//! Tables of what stands along the walks of the classes.
ghost use Rattle.std.specs.Prelude.{◌≡◌, ◌<◌, ◌^◌, ℕ, length, Some, true, MatchOption, IfOk, IfSome};
ghost use Rattle.jn_points.specs.Regular.{RegularClasses};
ghost use Rattle.jn_member_tables.specs.Numbers.{list_at, places_of, contains};
ghost use Rattle.jn_index.specs.Index.{owners, field_owners};
ghost use Rattle.jn_member_tables.specs.Tables.{find_in};
ghost use Rattle.jn_index.specs.Founds as spec;

use crate::entries::{all_busy, all_classes, all_fields, all_methods};
use jn_base::Seq;
use jn_member_tables::tables::{Tables, find_tables};
use jn_points::Program;
use std::alloc::{AllocError, Global};

/// The table of the classes along each walk.
#[tactic(auto, using(crate::proofs::Offers::small_classes, crate::proofs::Offers::classes_are))]
pub fn classes_table(
    alloc: Global,
    program: &Program,
    order: &[u32],
) -> Result<Option<Tables>, AllocError>
    requires few { length program.now.classes < 2 ^ 32 }
    ensures are { IfOk result (λ o. IfSome o (λ t. spec.AreClasses program.now t)) }
    ensures none { IfOk result
        (λ o. MatchOption o (RegularClasses program.now → ⊥) (λ t. Unit {0})) }
{
    let entries = all_classes(alloc, program)?;
    let table = find_tables(
        alloc,
        program,
        order,
        entries.as_slice(),
        program.classes.len(),
    )?;
    Ok(table)
}

/// The table of the methods that each class has.
#[tactic(auto, using(crate::proofs::Offers::small_methods, crate::proofs::Offers::methods_are))]
pub fn methods_table(
    alloc: Global,
    program: &Program,
    order: &[u32],
    own: &[Seq<u32>],
    named: &[Seq<u32>],
) -> Result<Option<Tables>, AllocError>
    requires few { length program.now.classes < 2 ^ 32 }
    requires methods { length program.now.methods < 2 ^ 32 }
    requires own { (d : ℕ) → list_at own.now d ≡ places_of d 0 (owners program.now.methods) }
    ensures are { IfOk result (λ o. IfSome o (λ t. spec.AreMethods program.now named.now t)) }
    ensures none { IfOk result
        (λ o. MatchOption o (RegularClasses program.now → ⊥) (λ t. Unit {0})) }
{
    let entries = all_methods(alloc, program, named, own)?;
    let table = find_tables(
        alloc,
        program,
        order,
        entries.as_slice(),
        program.methods.len(),
    )?;
    Ok(table)
}

/// The table of the fields that each class has.
#[tactic(auto, using(crate::proofs::Offers::small_fields, crate::proofs::Offers::fields_are))]
pub fn fields_table(
    alloc: Global,
    program: &Program,
    order: &[u32],
    own: &[Seq<u32>],
    named: &[Seq<u32>],
) -> Result<Option<Tables>, AllocError>
    requires few { length program.now.classes < 2 ^ 32 }
    requires fields { length program.now.fields < 2 ^ 32 }
    requires own { (d : ℕ) → list_at own.now d ≡ places_of d 0 (field_owners program.now.fields) }
    ensures are { IfOk result (λ o. IfSome o (λ t. spec.AreFields program.now named.now t)) }
    ensures none { IfOk result
        (λ o. MatchOption o (RegularClasses program.now → ⊥) (λ t. Unit {0})) }
{
    let entries = all_fields(alloc, program, named, own)?;
    let table = find_tables(
        alloc,
        program,
        order,
        entries.as_slice(),
        program.fields.len(),
    )?;
    Ok(table)
}

/// The table of the busy classes along each walk.
#[tactic(auto, using(crate::proofs::Offers::small_busy, crate::proofs::Offers::busy_are))]
pub fn busy_table(
    alloc: Global,
    program: &Program,
    order: &[u32],
    own: &[Seq<u32>],
    named: &[Seq<u32>],
) -> Result<Option<Tables>, AllocError>
    requires few { length program.now.classes < 2 ^ 32 }
    ensures are { IfOk result (λ o. IfSome o (λ t. spec.AreBusy program.now own.now named.now t)) }
    ensures none { IfOk result
        (λ o. MatchOption o (RegularClasses program.now → ⊥) (λ t. Unit {0})) }
{
    let entries = all_busy(alloc, program, own, named)?;
    let table = find_tables(
        alloc,
        program,
        order,
        entries.as_slice(),
        program.classes.len(),
    )?;
    Ok(table)
}

/// For each class the values of its table.
pub fn all_values(alloc: Global, tables: &Tables, count: usize) -> Result<Vec<Seq<u32>>, AllocError>
    requires { count < 2 ^ 32 }
    ensures long { IfOk result (λ lists. length lists.items ≡ count) }
    ensures have { IfOk result (λ lists. (c k v : ℕ) → c < count → find_in tables.now c k ≡ Some v
        → contains (list_at lists.items c) v ≡ true) }
{
    let mut lists = Vec::new(alloc);
    for place in 0..count {
        let values = tables.values(alloc, place as u32)?;
        lists.push(Seq::of_vec(values))?;
    }
    Ok(lists)
}
