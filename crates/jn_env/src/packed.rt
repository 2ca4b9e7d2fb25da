//! A list of bits, packed into words.
ghost use Rattle.std.specs.Prelude.{◌≡◌, ◌<◌, ◌+◌, ◌*◌, true, false, IfOk, length, replicate, slice_index_or, slice_set};
ghost use Rattle.jn_env.specs.Packed.{qual_in, with_qual, either_bits};

use crate::words::{bit, join_words, with_bit, with_qual, words_within};
use jn_base::OutOfMemory;
use jn_quals::{Qual, unpack};
use std::alloc::Global;
use std::marker::Model;

/// How many bits a word holds: those of 21 qualifiers.
pub const PER_WORD: usize = 63;

/// How many qualifiers a word holds.
pub const QUALS_PER_WORD: usize = 21;

/// A list of bits, packed 63 to a word, the first lowest; what belongs to no bit is zero. Where bits
/// are qualifiers, three each from the front, each of them stands in one word.
#[derive(Drop)]
pub struct BitList {
    words: Vec<u64>,
    count: usize,
}

impl Model for BitList {
    ghost use Rattle.std.specs.Prelude.{List, Bool};
    ghost use Rattle.jn_env.specs.Packed.{HoldBits, bits_of};

    ghost Value = { List Bool };

    ghost view = { λ a. bits_of a.words.items a.count };

    ghost invariant = { λ a. HoldBits a.words.items a.count };
}

impl BitList {
    /// So many bits, all of them unset.
    ///
    /// # Errors
    /// No memory was found.
    pub fn unset(alloc: Global, count: usize) -> Result<BitList, OutOfMemory>
        ensures { IfOk result (λ bits. bits ≡ replicate count false) }
    {
        let words = vec![in alloc; 0u64; count / PER_WORD + 1]?;
        Ok(BitList { words, count })
    }

    /// An equal list.
    ///
    /// # Errors
    /// No memory was found.
    pub fn copy(&self, alloc: Global) -> Result<BitList, OutOfMemory>
        ensures { IfOk result (λ bits. bits ≡ self.now) }
    {
        let words = Vec::from_slice(alloc, &self.words)?;
        Ok(BitList {
            words,
            count: self.count,
        })
    }

    /// How many bits there are.
    pub fn len(&self) -> usize
        ensures { result ≡ length self.now }
    {
        self.count
    }

    /// The bit at a place; false where there is none.
    pub fn get(&self, at: usize) -> bool
        ensures { result ≡ slice_index_or self.now at false }
    {
        if at < self.count {
            bit(self.words[at / PER_WORD], (at % PER_WORD) as u32)
        } else {
            false
        }
    }

    /// Writes the bit at a place.
    pub fn set(&mut self, at: usize, wanted: bool)
        requires { at < length self.old }
        ensures { self.new ≡ slice_set self.old at wanted }
    {
        let word = self.words[at / PER_WORD];
        self.words[at / PER_WORD] = with_bit(word, (at % PER_WORD) as u32, wanted);
    }

    /// The qualifier that three bits are.
    pub fn qual(&self, index: usize) -> Qual
        requires { 3 * index + 2 < length self.now }
        ensures { result ≡ qual_in self.now index }
    {
        let word = self.words[index / QUALS_PER_WORD];
        unpack(word, (index % QUALS_PER_WORD) as u32)
    }

    /// Writes three bits, those of a qualifier.
    pub fn set_qual(&mut self, index: usize, qual: Qual)
        requires { 3 * index + 2 < length self.old }
        ensures { self.new ≡ with_qual self.old index qual }
    {
        let word = self.words[index / QUALS_PER_WORD];
        self.words[index / QUALS_PER_WORD] = with_qual(word, (index % QUALS_PER_WORD) as u32, qual);
    }

    /// Whether the other list has all bits of this one.
    pub fn within(&self, other: &BitList) -> bool
        requires { length self.now ≡ length other.now }
        ensures yes { result ≡ true → either_bits other.now self.now ≡ other.now }
        ensures no { result ≡ false → either_bits other.now self.now ≡ other.now → ⊥ }
    {
        words_within(&self.words, &other.words)
    }

    /// Sets the bits that the other list has too. Gives whether that changed this one.
    pub fn join(&mut self, other: &BitList) -> bool
        requires { length self.old ≡ length other.now }
        ensures joined { self.new ≡ either_bits self.old other.now }
        ensures same { result ≡ false → self.new ≡ self.old }
        ensures changed { result ≡ true → self.new ≡ self.old → ⊥ }
    {
        join_words(&mut self.words, &other.words)
    }
}
