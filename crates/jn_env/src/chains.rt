//! Chains through a list of numbers: those that may equal a wanted one are found without a walk over all others.
ghost use Rattle.std.specs.Prelude.{◌≡◌, ◌<◌, ◌+◌, ◌^◌, List, ℕ, IfOk, length, slice_index_or};
ghost use Rattle.jn_env.specs.Chained.{Chained, Avoids};

use std::alloc::{AllocError, Global};

/// Places in a list of numbers, by the remainders of the numbers. The one without places leaves out nothing: a walk along
/// it goes over all numbers.
#[derive(Drop)]
pub struct Chains {
    /// For each remainder the place of the first number that has it, or the length of the list.
    heads: Vec<usize>,
    /// For each place that of the next number with the same remainder, or the length of the list.
    nexts: Vec<usize>,
}

impl Chains {
    /// The chains without places.
    pub fn none(alloc: Global) -> Chains
        ensures { (xs : List ℕ) → Chained xs result.heads.items result.nexts.items }
    {
        Chains {
            heads: Vec::new(alloc),
            nexts: Vec::new(alloc),
        }
    }

    /// The chains through the numbers: in time that grows with their count.
    ///
    /// # Errors
    /// No memory was found.
    pub fn of(alloc: Global, numbers: &[u32]) -> Result<Chains, AllocError>
        ensures { IfOk result
            (λ chains. Chained numbers.now chains.heads.items chains.nexts.items) }
    {
        let count = numbers.len();
        let mut heads = vec![in alloc; count; count]?;
        let mut nexts = vec![in alloc; 0usize; count]?;
        let mut left = count;
        while left > 0 {
            left -= 1;
            let rest = numbers[left] as usize % count;
            nexts[left] = heads[rest];
            heads[rest] = left;
        }
        Ok(Chains { heads, nexts })
    }

    /// A place before which the wanted number doesn't stand.
    pub fn first(&self, wanted: u32) -> usize
        ensures { (xs : List ℕ)
            → Chained xs self.now.heads.items self.now.nexts.items
            → Avoids xs wanted 0 result }
    {
        let count = self.heads.len();
        if count == 0 {
            return 0;
        }
        place_in(&self.heads, wanted as usize % count)
    }

    /// A place after that of a number, where the wanted number doesn't stand between both.
    pub fn next(&self, at: usize, number: u32, wanted: u32) -> usize
        requires { at + 1 < 2 ^ 64 }
        ensures behind { at < result }
        ensures avoids { (xs : List ℕ)
            → Chained xs self.now.heads.items self.now.nexts.items
            → slice_index_or xs at 0 ≡ number
            → Avoids xs wanted (at + 1) result }
    {
        let count = self.heads.len();
        if count == 0 {
            return at + 1;
        }
        if number as usize % count != wanted as usize % count {
            return at + 1;
        }
        let next = place_in(&self.nexts, at);
        if next <= at {
            return at + 1;
        }
        next
    }
}

/// The place that a list gives; 0 where it gives none.
fn place_in(places: &[usize], at: usize) -> usize
    ensures { result ≡ slice_index_or places.now at 0 }
{
    match places.get(at) {
        None => 0,
        Some(place) => *place,
    }
}
