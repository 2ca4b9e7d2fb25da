//! The words that a table begins with, and those that it ends with.
ghost use Rattle.std.specs.Prelude.{◌≡◌, ℕ, ◌+◌, ◌-◌, ◌*◌, ◌/◌, ◌<◌, ◌≤◌, ◌++◌, map, length, slice_index, IfOk};
ghost use Rattle.std.specs.List.{range_with_len};
ghost use Rattle.jn_sigtable.specs.Machine.{dirty_bits};
ghost use Rattle.std.specs.Mem.Slots.{slots_items, slots_len, IsFull};
ghost use lib.ListN.{get_elem?};
ghost use mathlib.Core.Option.{some};

use atomic_table::Closed;
use std::alloc::{AllocError, Global};

// The bits of the bodies of one dirty word.
fn dirty_word(bodies: u32, word: usize) -> u64
    requires { word * 64 < bodies }
    ensures { result ≡ dirty_bits bodies word }
{
    let left = bodies as usize - word * 64;
    if left >= 64 {
        u64::MAX
    } else {
        (1u64 << left) - 1
    }
}

// The words of the start, then a bit for each body.
#[tactic(auto, using(crate::proofs::OpenKept::length_opening))]
pub fn opening(alloc: Global, start: &[u64], bodies: u32) -> Result<Vec<u64>, AllocError>
    ensures count { IfOk result (λ all. length all.items ≡ length start.now + (bodies + 63) / 64) }
    ensures words { IfOk result (λ all.
        all.items ≡ start.now ++ map (dirty_bits bodies) (range_with_len 0 ((bodies + 63) / 64))) }
{
    let mut all = Vec::new(alloc);
    all.extend_from_slice(start)?;
    for word in 0..(bodies as usize + 63) / 64 {
        all.push(dirty_word(bodies, word))?;
    }
    Ok(all)
}

// The first words of a table that was closed.
pub fn first_words(
    alloc: Global,
    closed: &Closed<u8, Global>,
    count: usize,
) -> Result<Vec<u64>, AllocError>
    requires full { IsFull closed.now.words }
    requires count { count ≤ slots_len closed.now.words }
    ensures { IfOk result (λ words. (length words.items ≡ count)
        × ((i : ℕ) → i < count
        → get_elem? (slots_items closed.now.words) i ≡ some (slice_index words.items i))) }
{
    let mut words = Vec::new(alloc);
    for i in 0..count {
        words.push(closed.word(i))?;
    }
    Ok(words)
}
