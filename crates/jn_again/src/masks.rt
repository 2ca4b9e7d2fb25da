//! Masks of bits, one for each word.
ghost use Rattle.std.specs.Prelude.{◌≡◌, ◌<◌, ℕ, true, length, slice_index, bit_or, bit_xor, ◌==◌, if◌then◌else◌, IfOk};
ghost use Rattle.jn_sigtable.specs.System.{Within, bits_for};
ghost use Rattle.jn_again.specs.Losing.{AreGone, Grows};

use jn_base::WordNo;
use std::alloc::{AllocError, Global};

/// The word; zero where there is none.
fn word_at(words: &[u64], word: WordNo) -> u64
    ensures { result ≡ slice_index words.now word.0 }
{
    match words.get(word.0 as usize) {
        None => 0,
        Some(found) => *found,
    }
}

/// The bits, with those of an output of this word.
fn with_output(bits: u64, output: (WordNo, u64), word: WordNo) -> u64
    ensures { result
        ≡ (if output.0.0 == word.0 then bit_or bits output.1 else bits) }
{
    if output.0.0 == word.0 {
        bits | output.1
    } else {
        bits
    }
}

/// The bits that outputs have for a word.
fn bits_of(outputs: &[(WordNo, u64)], word: WordNo) -> u64
    ensures { Within result (bits_for outputs.now word.0) }
{
    let mut bits = 0;
    for at in 0..outputs.len() {
        bits = with_output(bits, outputs[at], word);
    }
    bits
}

/// Adds bits to the mask of a word.
fn add_bits(masks: &mut [u64], word: WordNo, bits: u64)
    ensures grows { Grows masks.old masks.new }
    ensures added { word.0 < length masks.old → Within bits (slice_index masks.new word.0) }
{
    let at = word.0 as usize;
    if at < masks.len() {
        masks[at] |= bits;
    }
}

/// Loses the bits of outputs that neither stand in the start nor are among others.
pub(crate) fn lose(lost: &mut [u64], start: &[u64], puts: &[(WordNo, u64)], again: &[(WordNo, u64)])
    ensures grows { Grows lost.old lost.new }
    ensures gone { AreGone (length lost.old) (bits_for puts.now) (slice_index start.now)
        (bits_for again.now) (slice_index lost.new) }
{
    for at in 0..puts.len() {
        let (word, bits) = puts[at];
        let stays = word_at(start, word) | bits_of(again, word);
        add_bits(lost, word, bits ^ (bits & stays));
    }
}

/// Whether the bits of one output stand in the start or may be lost.
fn is_one_gone(output: (WordNo, u64), start: &[u64], lost: &[u64]) -> bool
    ensures { result ≡ true → Within output.1
        (bit_or (slice_index start.now output.0.0) (slice_index lost.now output.0.0)) }
{
    let (word, bits) = output;
    let gone = word_at(start, word) | word_at(lost, word);
    gone | bits == gone
}

/// Whether all bits of outputs stand in the start or may be lost.
pub(crate) fn are_gone(puts: &[(WordNo, u64)], start: &[u64], lost: &[u64]) -> bool
    ensures { result ≡ true → (w : ℕ) → Within (bits_for puts.now w)
        (bit_or (slice_index start.now w) (slice_index lost.now w)) }
{
    for at in 0..puts.len() {
        if !is_one_gone(puts[at], start, lost) {
            return false;
        }
    }
    true
}

/// The bits with which the earlier solving began and the new one doesn't.
pub(crate) fn gone_from_start(
    alloc: Global,
    before: &[u64],
    start: &[u64],
) -> Result<Vec<u64>, AllocError>
    requires { length start.now ≡ length before.now }
    ensures count { IfOk result (λ lost. length lost.items ≡ length before.now) }
    ensures started { IfOk result (λ lost. (w : ℕ) → w < length before.now
        → Within (slice_index before.now w) (bit_or (slice_index start.now w) (slice_index lost.items w))) }
{
    let mut lost = Vec::new(alloc);
    for at in 0..before.len() {
        lost.push(before[at] ^ (before[at] & start[at]))?;
    }
    Ok(lost)
}

/// The bits in which two lists of words differ.
pub(crate) fn differing(
    alloc: Global,
    words: &[u64],
    others: &[u64],
) -> Result<Vec<u64>, AllocError>
    requires { length others.now ≡ length words.now }
    ensures count { IfOk result (λ bits. length bits.items ≡ length words.now) }
    ensures each { IfOk result (λ bits. (w : ℕ) → w < length words.now
        → slice_index bits.items w ≡ bit_xor (slice_index words.now w) (slice_index others.now w)) }
{
    let mut bits = Vec::new(alloc);
    for at in 0..words.len() {
        bits.push(words[at] ^ others[at])?;
    }
    Ok(bits)
}

/// Whether no mask has a bit.
#[tactic(auto, using(crate::proofs::Nothing::none_first, crate::proofs::Nothing::none_more))]
pub(crate) fn are_none(masks: &[u64]) -> bool
    ensures { result ≡ true → (w : ℕ) → w < length masks.now → slice_index masks.now w ≡ 0 }
{
    for at in 0..masks.len() {
        if masks[at] != 0 {
            return false;
        }
    }
    true
}
