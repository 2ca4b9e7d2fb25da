//! The qualifier of a new object, by its reference arguments.
ghost use Rattle.std.specs.Prelude.{◌≡◌, ◌++◌, ◌∷◌, [], cond, IfOk, OnOk, false};
ghost use Rattle.jn_points.specs.Lookup.{has_slot};
ghost use Rattle.jn_transfer.specs.Transfer.{ref_quals, new_qual};

use jn_base::{SlotNo, either, least};
use jn_env::Env;
use jn_env::bits::is_set;
use jn_points::Operand;
use jn_quals::Qual;
use std::alloc::{AllocError, Global};

/// The qualifiers of the reference arguments.
pub fn ref_quals(
    alloc: Global,
    env: &Env,
    slots: &[Option<SlotNo>],
    args: &[Operand],
) -> Result<Vec<Qual>, AllocError>
    ensures { IfOk result (λ quals. quals.items ≡ ref_quals env.now slots.now args.now) }
{
    let mut quals = Vec::new(alloc);
    for i in 0..least(slots.len(), args.len()) {
        push_reference(&mut quals, slots[i], env.qual(args[i].reg))?;
    }
    Ok(quals)
}

fn push_reference(quals: &mut Vec<Qual>, slot: Option<SlotNo>, qual: Qual) -> Result<(), AllocError>
    ensures { OnOk result
        (quals.new.items ≡ quals.old.items ++ cond (has_slot slot) (qual ∷ []) []) }
{
    if slot.is_some() {
        quals.push(qual)?;
    }
    Ok(())
}

/// The qualifier of an object whose constructor gets these reference arguments.
pub fn new_qual(quals: &[Qual]) -> Qual
    ensures { result ≡ new_qual quals.now }
{
    let mut is_empty = false;
    let mut is_free = false;
    let mut is_settled = true;
    for qual in quals {
        is_empty = either(is_empty, qual.is_none());
        is_free = either(is_free, qual.has_free());
        is_settled = is_set(is_settled, either(qual.has_committed(), qual.has_null()));
    }
    if is_empty {
        Qual::none()
    } else {
        of_parts(is_settled, is_free)
    }
}

fn of_parts(is_committed: bool, is_free: bool) -> Qual
    ensures { result ≡ record { null = false; committed = is_committed; free = is_free } }
{
    match (is_committed, is_free) {
        (false, false) => Qual::none(),
        (true, false) => Qual::committed_only(),
        (false, true) => Qual::free_only(),
        (true, true) => Qual::committed_only().join(Qual::free_only()),
    }
}
