//! Signatures as packed words.
ghost use Rattle.std.specs.Prelude.{◌≡◌, ◌<◌, ◌+◌, ◌/◌, length, replicate, slice_index_or, IfOk};
ghost use Rattle.jn_quals.specs.Order.{no_qual};
ghost use Rattle.jn_sigs.specs.Packed.{ArePacked, raised, unpacked};

use jn_base::{OutOfMemory, SlotNo};
use jn_quals::{Qual, pack, unpack};
use std::alloc::Global;
use std::marker::Model;

/// How many qualifiers a word holds.
pub const PER_WORD: u32 = 21;

/// A signature: a qualifier for each slot of a program, packed 21 to a word, three bits each, the first lowest; bits
/// that belong to no slot are zero.
#[derive(Drop)]
pub struct Sig {
    words: Vec<u64>,
    slots: u32,
}

impl Model for Sig {
    ghost use Rattle.std.specs.Prelude.{List};
    ghost use Rattle.jn_quals.specs.Qualifier.{Qualifier};
    ghost use Rattle.jn_sigs.specs.Packed.{ArePacked, unpacked};

    ghost Value = { List Qualifier };

    ghost view = { λ a. unpacked a.words.items a.slots };

    ghost invariant = { λ a. ArePacked a.words.items a.slots };
}

impl Sig {
    /// The signature with the empty qualifier for each of so many slots.
    ///
    /// # Errors
    ///
    /// `OutOfMemory` where the words find no memory.
    pub fn empty(alloc: Global, slots: u32) -> Result<Sig, OutOfMemory>
        ensures { IfOk result (λ sig. sig ≡ replicate slots no_qual) }
    {
        let words = vec![in alloc; 0u64; words_for(slots)]?;
        Ok(Sig { words, slots })
    }

    /// The signature that these words hold. Takes no memory.
    pub fn of_words(words: Vec<u64>, slots: u32) -> Sig
        requires { ArePacked words.items slots }
        ensures { result ≡ unpacked words.items slots }
    {
        Sig { words, slots }
    }

    /// The packed words: as many as the slots need, with zero in each bit of no slot.
    pub fn words(&self) -> &[u64]
        ensures packed { ArePacked result.now (length self.now) }
        ensures same { unpacked result.now (length self.now) ≡ self.now }
    {
        &self.words
    }

    /// How many slots there are.
    pub fn slots(&self) -> u32
        ensures { result ≡ length self.now }
    {
        self.slots
    }

    /// The qualifier of a slot; empty where there is no such slot.
    pub fn get(&self, slot: SlotNo) -> Qual
        ensures { result ≡ slice_index_or self.now slot.0 no_qual }
    {
        let SlotNo(slot) = slot;
        if slot < self.slots {
            unpack(self.words[(slot / PER_WORD) as usize], slot % PER_WORD)
        } else {
            Qual::none()
        }
    }

    /// Joins the qualifier to that of the slot. All other slots stay. Takes no memory.
    pub fn raise(&mut self, slot: SlotNo, qual: Qual)
        requires { slot.0 < length self.old }
        ensures { self.new ≡ raised self.old slot.0 qual }
    {
        let SlotNo(slot) = slot;
        let at = (slot / PER_WORD) as usize;
        self.words[at] = pack(self.words[at], slot % PER_WORD, qual);
    }
}

/// How many words so many slots need.
fn words_for(slots: u32) -> usize
    ensures { result ≡ (slots + 20) / 21 }
{
    (slots as usize + 20) / 21
}
