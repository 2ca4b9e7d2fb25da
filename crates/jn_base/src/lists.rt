//! Items put after others, values in boxes, and lists of numbers, one for each number.
ghost use Rattle.std.specs.Prelude.{◌≡◌, ◌<◌, ◌++◌, ◌∷◌, [], ℕ, cond, eqb, length, slice_index_or, IfOk, OnOk};

use crate::refusal::OutOfMemory;
use crate::seq::Seq;
use std::alloc::{AllocError, Global};

/// Puts the item after the others.
pub fn put<T: Drop>(items: &mut Vec<T>, item: T) -> Result<(), AllocError>
    ensures { OnOk result (items.new.items ≡ items.old.items ++ item ∷ []) }
{
    items.push(item)?;
    Ok(())
}

/// The value in a box of its own.
pub fn boxed<T: Drop>(alloc: Global, value: T) -> Result<Box<T>, OutOfMemory>
    ensures { IfOk result (λ place. place.value ≡ value) }
{
    match Box::new(alloc, value) {
        Ok(place) => Ok(place),
        Err(_) => Err(OutOfMemory),
    }
}

/// So many lists without items.
pub fn empty_lists(alloc: Global, count: usize) -> Result<Vec<Seq<u32>>, AllocError>
    ensures long { IfOk result (λ lists. length lists.items ≡ count) }
    ensures empty { IfOk result (λ lists. (d : ℕ) → slice_index_or lists.items d [] ≡ []) }
{
    let mut lists = Vec::new(alloc);
    for _item in 0..count {
        lists.push(Seq::new(alloc))?;
    }
    Ok(lists)
}

/// Puts a number after those of a list.
pub fn push_at(lists: &mut Vec<Seq<u32>>, at: usize, item: u32) -> Result<(), AllocError>
    requires { at < length lists.old.items }
    ensures long { OnOk result (length lists.new.items ≡ length lists.old.items) }
    ensures pushed { OnOk result ((d : ℕ)
        → slice_index_or lists.new.items d []
        ≡ slice_index_or lists.old.items d [] ++ cond (eqb at d) (item ∷ []) []) }
{
    lists[at].push(item)
}
