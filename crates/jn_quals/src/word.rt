//! Qualifiers packed into words.
ghost use Rattle.std.specs.Prelude.{◌≡◌, ◌<◌};
ghost use Rattle.jn_quals.specs.Word.{unpack, pack};

use crate::qual::Qual;

/// The qualifier at an index of a word, below 21.
pub fn unpack(word: u64, index: u32) -> Qual
    requires { index < 21 }
    ensures { result ≡ unpack word index }
{
    Qual::of_bits((word >> (3 * index) & 7) as u8)
}

/// The word with the qualifier joined in at an index below 21. All else of the word stays.
pub fn pack(word: u64, index: u32, qual: Qual) -> u64
    requires { index < 21 }
    ensures { result ≡ pack word index qual }
{
    word | u64::from(qual.bits()) << (3 * index)
}
