//! Words of bits.
ghost use Rattle.std.specs.Prelude.{◌≡◌, ◌<◌, ◌+◌, ◌*◌, ◌^◌, ℕ, not, length};
ghost use Rattle.jn_quals.specs.Word.{unpack};
ghost use Rattle.jn_env.specs.Packed.{bit, either_words, rises};

use jn_base::either;
use jn_quals::{Qual, unpack};

/// The bit at a place of a word.
pub fn bit(word: u64, at: u32) -> bool
    requires { at < 63 }
    ensures { result ≡ bit word at }
{
    word >> at & 1 == 1
}

/// The word with this bit at a place below 63. All other bits stay.
pub fn with_bit(word: u64, at: u32, wanted: bool) -> u64
    requires at { at < 63 }
    requires small { word < 2 ^ 63 }
    ensures here { bit result at ≡ wanted }
    ensures others { (j : ℕ) → (j ≡ at → ⊥) → bit result j ≡ bit word j }
    ensures small { result < 2 ^ 63 }
{
    if bit(word, at) == wanted {
        word
    } else {
        word ^ 1u64 << at
    }
}

/// The word with this qualifier at an index below 21. All other bits stay.
pub fn with_qual(word: u64, index: u32, qual: Qual) -> u64
    requires index { index < 21 }
    requires small { word < 2 ^ 63 }
    ensures here { unpack result index ≡ qual }
    ensures before { (j : ℕ) → j < 3 * index → bit result j ≡ bit word j }
    ensures behind { (j : ℕ) → 3 * index + 2 < j → bit result j ≡ bit word j }
    ensures small { result < 2 ^ 63 }
{
    let change = u64::from(unpack(word, index).bits() ^ qual.bits());
    word ^ change << (3 * index)
}

/// Joins to each word the other list's at its place. Gives whether a word changed.
pub fn join_words(left: &mut [u64], right: &[u64]) -> bool
    requires { length left.old ≡ length right.now }
    ensures joined { left.new ≡ either_words left.old right.now }
    ensures risen { result ≡ rises left.old right.now }
{
    let mut risen = false;
    for i in 0..left.len() {
        let old = left[i];
        let joined = old | right[i];
        left[i] = joined;
        risen = either(risen, joined != old);
    }
    risen
}

/// Whether the right list has all bits of the left one.
pub fn words_within(left: &[u64], right: &[u64]) -> bool
    requires { length left.now ≡ length right.now }
    ensures { result ≡ not (rises right.now left.now) }
{
    for i in 0..left.len() {
        if right[i] | left[i] != right[i] {
            return false;
        }
    }
    true
}
