//! Signatures from words.
ghost use Rattle.std.specs.Prelude.{◌≡◌, ◌<◌, [], length, slice_index, slice_set, IfOk};
ghost use Rattle.jn_sigs.specs.Packed.{unpacked};
ghost use Rattle.jn_system.specs.Cleaning.{clean, cleaned, AreSeen, IsSignatureOf};
ghost use Rattle.jn_inference_law.specs.Inference.{words_for};

use jn_base::{OutOfMemory, WordNo};
use jn_sigs::Sig;
use std::alloc::{AllocError, Global};

/// The word without the bits that belong to no slot.
fn clean_word(slots: u32, at: u32, word: u64) -> u64
    requires { at < words_for slots }
    ensures { result ≡ clean slots at word }
{
    let left = slots - 21 * at;
    let used = if left < 21 { left } else { 21 };
    word % (1u64 << (3 * used))
}

fn clean_words(alloc: Global, slots: u32, words: &[u64]) -> Result<Vec<u64>, AllocError>
    requires { length words.now ≡ words_for slots }
    ensures { IfOk result (λ list. list.items ≡ cleaned slots words.now) }
{
    let mut list = Vec::new(alloc);
    for at in 0..words.len() {
        list.push(clean_word(slots, at as u32, words[at]))?;
    }
    Ok(list)
}

/// The signature that the words hold in the bits of slots.
#[tactic(auto, using(crate::proofs::CleaningFacts::clean_packed, crate::proofs::CleaningFacts::clean_unpacked))]
pub fn signature(alloc: Global, slots: u32, words: &[u64]) -> Result<Sig, OutOfMemory>
    requires { length words.now ≡ words_for slots }
    ensures { IfOk result (λ sig. sig ≡ unpacked words.now slots) }
{
    let list = clean_words(alloc, slots, words)?;
    Ok(Sig::of_words(list, slots))
}

/// Takes over a word, clean, where it is one of them.
fn see(list: &mut Vec<u64>, slots: u32, words: &[u64], word: u32)
    requires words { length words.now ≡ words_for slots }
    requires list { length list.old.items ≡ words_for slots }
    ensures { list.new.items
        ≡ slice_set list.old.items word (clean slots word (slice_index words.now word)) }
{
    let at = word as usize;
    if at < list.len() {
        list[at] = clean_word(slots, word, words[at]);
    }
}

/// The clean words where they are listed, and zero elsewhere.
#[tactic(auto, using(crate::proofs::Seen::seen_start, crate::proofs::Seen::seen_next))]
fn seen_words(
    alloc: Global,
    slots: u32,
    words: &[u64],
    listed: &[WordNo],
) -> Result<Vec<u64>, AllocError>
    requires { length words.now ≡ words_for slots }
    ensures { IfOk result (λ list. AreSeen slots words.now listed.now [] list.items) }
{
    let mut list = vec![in alloc; 0u64; words.len()]?;
    for word in listed {
        see(&mut list, slots, words, word.0);
    }
    Ok(list)
}

/// The signature that the words hold where they are listed; in the slots of all others nothing. What a body does doesn't
/// depend on words that it doesn't read, and most bodies read few.
pub fn signature_of(
    alloc: Global,
    slots: u32,
    words: &[u64],
    listed: &[WordNo],
) -> Result<Sig, OutOfMemory>
    requires { length words.now ≡ words_for slots }
    ensures { IfOk result (λ sig. IsSignatureOf slots words.now listed.now sig) }
{
    let list = seen_words(alloc, slots, words, listed)?;
    Ok(Sig::of_words(list, slots))
}
