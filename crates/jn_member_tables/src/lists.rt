//! Lists of numbers by a key.
ghost use Rattle.std.specs.Prelude.{◌≡◌, ◌<◌, ◌^◌, ℕ, length, slice_index, IfOk};
ghost use Rattle.jn_member_tables.specs.Numbers as spec;

use jn_base::Seq;
use jn_base::lists::{empty_lists, push_at};
use std::alloc::{AllocError, Global};

/// A number above all keys.
fn bound(keys: &[u32]) -> usize
    ensures { (k : ℕ) → k < length keys.now → slice_index keys.now k < result }
{
    let mut bound: u32 = 0;
    for key in keys {
        if *key > bound {
            bound = *key;
        }
    }
    bound as usize + 1
}

/// The places of each key.
pub fn lists_by(alloc: Global, keys: &[u32]) -> Result<Vec<Seq<u32>>, AllocError>
    requires { length keys.now < 2 ^ 32 }
    ensures { IfOk result
        (λ lists. (d : ℕ) → spec.list_at lists.items d ≡ spec.places_of d 0 keys.now) }
{
    let mut lists = empty_lists(alloc, bound(keys))?;
    for place in 0..keys.len() {
        push_at(&mut lists, keys[place] as usize, place as u32)?;
    }
    Ok(lists)
}
