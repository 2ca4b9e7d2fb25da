//! Dirty bodies that are closed as the words stand.
ghost use Rattle.std.specs.Prelude.{◌≡◌, ◌<◌, ◌/◌, ℕ, true, false, length, slice_index, IfOk, OnOk};
ghost use Rattle.jn_sigtable.specs.System.{ClosedAt, Within, bits_for};
ghost use Rattle.jn_sigtable.specs.Machine.{dirty_words};
ghost use Rattle.jn_worklist.specs.Drains.{IsDirtyOrClosed};
ghost use Rattle.jn_worklist.specs.Plans.{IsDue};
ghost use Rattle.jn_resume.specs.Open.{IsLeftOpen, AreLeftOpen};

use jn_base::{BodyNo, OutOfMemory, WordNo};
use jn_sigtable::Constraints;
use std::alloc::Global;

/// The word; zero where there is none.
fn word_at(words: &[u64], word: WordNo) -> u64
    ensures { result ≡ slice_index words.now word.0 }
{
    match words.get(word.0 as usize) {
        None => 0,
        Some(found) => *found,
    }
}

/// Whether the word has all these bits.
fn has_bits(words: &[u64], output: (WordNo, u64)) -> bool
    ensures { result ≡ true → Within output.1 (slice_index words.now output.0.0) }
{
    let (word, bits) = output;
    let there = word_at(words, word);
    there | bits == there
}

/// Whether the words have all bits of outputs.
fn have_all(words: &[u64], puts: &[(WordNo, u64)]) -> bool
    ensures { result ≡ true → (w : ℕ) → Within (bits_for puts.now w) (slice_index words.now w) }
{
    for at in 0..puts.len() {
        if !has_bits(words, puts[at]) {
            return false;
        }
    }
    true
}

/// Whether all that the body outputs on the words stands in them.
fn is_closed<C: Constraints>(
    alloc: Global,
    system: &C,
    words: &[u64],
    body: BodyNo,
) -> Result<bool, OutOfMemory>
    requires inside { body.0 < (C.describe system.now).bodies }
    requires count { length words.now ≡ (C.describe system.now).words }
    ensures { IfOk result
        (λ r. r ≡ true → ClosedAt (C.describe system.now) body.0 words.now words.now) }
{
    let puts = system.output(alloc, body, words)?;
    Ok(have_all(words, puts.as_slice()))
}

/// Whether the body's bit is set.
fn is_due(dirty: &[u64], body: BodyNo) -> bool
    requires { body.0 / 64 < length dirty.now }
    ensures { result ≡ false → IsDue dirty.now body.0 → ⊥ }
{
    let bit = 1u64 << (body.0 % 64);
    dirty[(body.0 / 64) as usize] & bit != 0
}

/// Sets the body's bit.
pub fn mark(dirty: &mut [u64], body: BodyNo)
    requires { body.0 / 64 < length dirty.old }
    ensures count { length dirty.new ≡ length dirty.old }
    ensures kept { (x : ℕ) → IsDue dirty.old x → IsDue dirty.new x }
    ensures set { IsDue dirty.new body.0 }
{
    dirty[(body.0 / 64) as usize] |= 1u64 << (body.0 % 64);
}

/// Whether the body is closed under the words.
fn is_at_rest<C: Constraints>(
    alloc: Global,
    system: &C,
    words: &[u64],
    dirty: &[u64],
    body: BodyNo,
) -> Result<bool, OutOfMemory>
    requires inside { body.0 < (C.describe system.now).bodies }
    requires count { length words.now ≡ (C.describe system.now).words }
    requires room { length dirty.now ≡ dirty_words (C.describe system.now) }
    requires each { IsDirtyOrClosed (C.describe system.now) words.now dirty.now body.0 }
    ensures { IfOk result
        (λ r. r ≡ true → ClosedAt (C.describe system.now) body.0 words.now words.now) }
{
    if !is_due(dirty, body) {
        return Ok(true);
    }
    is_closed(alloc, system, words, body)
}

/// Marks the body, where it isn't closed under the words; whether it did.
fn mark_open<C: Constraints>(
    alloc: Global,
    system: &C,
    words: &[u64],
    dirty: &[u64],
    body: BodyNo,
    left: &mut [u64],
) -> Result<bool, OutOfMemory>
    requires inside { body.0 < (C.describe system.now).bodies }
    requires count { length words.now ≡ (C.describe system.now).words }
    requires room { length dirty.now ≡ dirty_words (C.describe system.now) }
    requires space { length left.old ≡ dirty_words (C.describe system.now) }
    requires each { IsDirtyOrClosed (C.describe system.now) words.now dirty.now body.0 }
    ensures count { OnOk result (length left.new ≡ length left.old) }
    ensures kept { OnOk result ((x : ℕ) → IsDue left.old x → IsDue left.new x) }
    ensures open { IfOk result
        (λ any. IsLeftOpen (C.describe system.now) words.now left.new any body.0) }
{
    if is_at_rest(alloc, system, words, dirty, body)? {
        return Ok(false);
    }
    mark(left, body);
    Ok(true)
}

/// Marks all dirty bodies that aren't closed under the words; whether there is one.
fn mark_all_open<C: Constraints>(
    alloc: Global,
    system: &C,
    words: &[u64],
    dirty: &[u64],
    left: &mut [u64],
) -> Result<bool, OutOfMemory>
    requires count { length words.now ≡ (C.describe system.now).words }
    requires room { length dirty.now ≡ dirty_words (C.describe system.now) }
    requires space { length left.old ≡ dirty_words (C.describe system.now) }
    requires each { (b : ℕ) → b < (C.describe system.now).bodies
        → IsDirtyOrClosed (C.describe system.now) words.now dirty.now b }
    ensures count { OnOk result (length left.new ≡ length left.old) }
    ensures open { IfOk result (λ any. AreLeftOpen (C.describe system.now) words.now left.new any
        (C.describe system.now).bodies) }
{
    let mut any = false;
    for body in 0..system.bodies() {
        let open = mark_open(alloc, system, words, dirty, BodyNo(body), left)?;
        any = any | open;
    }
    Ok(any)
}

/// The dirty bodies that aren't closed under the words, as bits, and whether there is one.
#[derive(Drop)]
pub(crate) struct Left {
    pub bodies: Vec<u64>,
    pub any: bool,
}

/// The dirty bodies that aren't closed under the words.
///
/// # Errors
/// No memory was found.
pub(crate) fn open_bodies<C: Constraints>(
    alloc: Global,
    system: &C,
    words: &[u64],
    dirty: &[u64],
) -> Result<Left, OutOfMemory>
    requires count { length words.now ≡ (C.describe system.now).words }
    requires room { length dirty.now ≡ dirty_words (C.describe system.now) }
    requires each { (b : ℕ) → b < (C.describe system.now).bodies
        → IsDirtyOrClosed (C.describe system.now) words.now dirty.now b }
    ensures count { IfOk result
        (λ left. length left.bodies.items ≡ dirty_words (C.describe system.now)) }
    ensures open { IfOk result (λ left. AreLeftOpen (C.describe system.now) words.now
        left.bodies.items left.any (C.describe system.now).bodies) }
{
    let mut bodies = vec![in alloc; 0u64; dirty.len()]?;
    let any = mark_all_open(alloc, system, words, dirty, &mut bodies)?;
    Ok(Left { bodies, any })
}
