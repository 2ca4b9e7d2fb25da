//! All bodies on one thread.
ghost use Rattle.std.specs.Prelude.{◌≡◌, ◌≢◌, ◌⊎◌, ◌↔◌, ℕ, ◌<◌, ◌/◌, true, false, [], length, get_or, slice_index, slice_set, bit_or, IfOk, OnOk};
ghost use Rattle.jn_sigtable.specs.System.{least, IsLeast, ones_in};
ghost use Rattle.jn_sigtable.specs.Machine.{dirty_words};
ghost use Rattle.jn_worklist.specs.Plans.{plan_of, IsDue, Lists};
ghost use Rattle.jn_worklist.specs.Drains.{IsDraining, IsDrainingBut, IsDirtyOrClosed, Moved};

use crate::bits::{add_bodies, is_new, take_body};
use crate::readers::Plan;
use jn_base::{BodyNo, OutOfMemory, WordNo};
use jn_sigtable::Constraints;
use std::alloc::Global;

// Raises bits of a word; whether one was new. Where one was, the readers of the word are dirty.
fn raise(plan: &Plan, word: WordNo, bits: u64, words: &mut [u64], dirty: &mut [u64]) -> bool
    requires word { word.0 < length words.old }
    requires plan { word.0 < length plan.now }
    requires room { (x : ℕ) → Lists (get_or plan.now word.0 []) x → x / 64 < length dirty.old }
    ensures same { result ≡ false
        → (bit_or (slice_index words.old word.0) bits ≡ slice_index words.old word.0)
        × (words.new ≡ words.old) × (dirty.new ≡ dirty.old) }
    ensures words { result ≡ true
        → words.new ≡ slice_set words.old word.0 (bit_or (slice_index words.old word.0) bits) }
    ensures more { result ≡ true → (n : ℕ) → word.0 < n
        → ones_in n words.old < ones_in n words.new }
    ensures dirty { result ≡ true → (x : ℕ)
        → IsDue dirty.new x ↔ (IsDue dirty.old x ⊎ Lists (get_or plan.now word.0 []) x) }
{
    let old = words[word.0 as usize];
    if !is_new(old, bits) {
        return false;
    }
    words[word.0 as usize] = old | bits;
    add_bodies(dirty, plan.readers(word));
    true
}

// Raises the output of a body; whether a bit was new.
fn run<C: Constraints>(
    alloc: Global,
    system: &C,
    plan: &Plan,
    body: BodyNo,
    words: &mut [u64],
    dirty: &mut [u64],
) -> Result<bool, OutOfMemory>
    requires plan { plan.now ≡ plan_of (C.describe system.now) }
    requires inside { body.0 < (C.describe system.now).bodies }
    requires count { length words.old ≡ (C.describe system.now).words }
    requires room { length dirty.old ≡ dirty_words (C.describe system.now) }
    ensures kept { OnOk result ((start : _)
        → IsDrainingBut (C.describe system.now) start body.0 words.old dirty.old
        → IsDraining (C.describe system.now) start words.new dirty.new) }
    ensures moved { IfOk result (λ raised.
        Moved raised (C.describe system.now) words.old words.new (dirty.new ≡ dirty.old)) }
{
    let output = system.output(alloc, body, words)?;
    let mut raised = false;
    for at in 0..output.len() {
        let (word, bits) = output[at];
        let new = raise(plan, word, bits, words, dirty);
        raised = raised | new;
    }
    Ok(raised)
}

// Runs a body if it is dirty; whether it raised a bit.
fn visit<C: Constraints>(
    alloc: Global,
    system: &C,
    plan: &Plan,
    body: BodyNo,
    words: &mut [u64],
    dirty: &mut [u64],
) -> Result<bool, OutOfMemory>
    requires plan { plan.now ≡ plan_of (C.describe system.now) }
    requires inside { body.0 < (C.describe system.now).bodies }
    requires count { length words.old ≡ (C.describe system.now).words }
    requires room { length dirty.old ≡ dirty_words (C.describe system.now) }
    ensures kept { OnOk result ((start : _)
        → IsDraining (C.describe system.now) start words.old dirty.old
        → IsDraining (C.describe system.now) start words.new dirty.new) }
    ensures moved { IfOk result (λ raised. Moved raised (C.describe system.now) words.old words.new
        ((x : ℕ) → IsDue dirty.new x → IsDue dirty.old x × (x ≢ body.0))) }
{
    if !take_body(dirty, body) {
        return Ok(false);
    }
    let raised = run(alloc, system, plan, body, words, dirty)?;
    Ok(raised)
}

// Visits each body once; whether one raised a bit. Where none did, none is dirty.
fn round<C: Constraints>(
    alloc: Global,
    system: &C,
    plan: &Plan,
    words: &mut [u64],
    dirty: &mut [u64],
) -> Result<bool, OutOfMemory>
    requires plan { plan.now ≡ plan_of (C.describe system.now) }
    requires count { length words.old ≡ (C.describe system.now).words }
    requires room { length dirty.old ≡ dirty_words (C.describe system.now) }
    ensures kept { OnOk result ((start : _)
        → IsDraining (C.describe system.now) start words.old dirty.old
        → IsDraining (C.describe system.now) start words.new dirty.new) }
    ensures moved { IfOk result (λ raised. Moved raised (C.describe system.now) words.old words.new
        ((x : ℕ) → x < (C.describe system.now).bodies → IsDue dirty.new x → ⊥)) }
{
    let mut raised = false;
    for body in 0..system.bodies() {
        let moved = visit(alloc, system, plan, BodyNo(body), words, dirty)?;
        raised = raised | moved;
    }
    Ok(raised)
}

// Visits all bodies in rounds until none is dirty. Each round but the last raises a bit, and there
// are 64 to a word.
fn settle<C: Constraints>(
    alloc: Global,
    system: &C,
    plan: &Plan,
    words: &mut [u64],
    dirty: &mut [u64],
) -> Result<(), OutOfMemory>
    requires plan { plan.now ≡ plan_of (C.describe system.now) }
    requires count { length words.old ≡ (C.describe system.now).words }
    requires room { length dirty.old ≡ dirty_words (C.describe system.now) }
    requires each { (b : ℕ) → b < (C.describe system.now).bodies
        → IsDirtyOrClosed (C.describe system.now) words.old dirty.old b }
    ensures words { OnOk result (words.new ≡ least (C.describe system.now) words.old) }
    ensures least { OnOk result (IsLeast (C.describe system.now) words.old words.new) }
{
    for _ in 0..64 * system.words() as u64 + 1 {
        let raised = round(alloc, system, plan, words, dirty)?;
        if !raised {
            return Ok(());
        }
    }
    Ok(())
}

/// The least words above those given, on one thread. `dirty` has one word for each 64 bodies begun,
/// and each body whose bit is not set there is closed under the words given.
pub fn drain<C: Constraints>(
    alloc: Global,
    system: &C,
    plan: &Plan,
    mut words: Vec<u64>,
    mut dirty: Vec<u64>,
) -> Result<Vec<u64>, OutOfMemory>
    requires plan { plan.now ≡ plan_of (C.describe system.now) }
    requires count { length words.items ≡ (C.describe system.now).words }
    requires room { length dirty.items ≡ dirty_words (C.describe system.now) }
    requires each { (b : ℕ) → b < (C.describe system.now).bodies
        → IsDirtyOrClosed (C.describe system.now) words.items dirty.items b }
    ensures words { IfOk result
        (λ drained. drained.items ≡ least (C.describe system.now) words.items) }
    ensures least { IfOk result
        (λ drained. IsLeast (C.describe system.now) words.items drained.items) }
{
    settle(alloc, system, plan, &mut words, &mut dirty)?;
    Ok(words)
}
