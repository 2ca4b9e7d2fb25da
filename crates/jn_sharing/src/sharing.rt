//! Pieces of work that workers steal from one deque.
ghost use Rattle.std.specs.Prelude.{◌≡◌, ◌<◌, ℕ, Ok, Some, IfOk, length, slice_get};
ghost use Rattle.std.specs.Thread.{IsSync, IsSend};
ghost use Rattle.jn_sharing.specs.Made.{AreMade, AreMadeInOrder};

use crate::room::keep_pieces;
use crossbeam_deque::{Steal, Stealer, Worker};
use jn_base::OutOfMemory;
use jn_base::lists::put;
use std::alloc::Global;
use std::thread::{Threads, join};

/// What the work gives for numbers that are stolen, each with its number, until a steal finds the deque empty, or after so many
/// steals. The worker asks for memory ahead once.
fn steal_all<X: Send + Drop, W: Fn(usize, u32) -> Result<X, OutOfMemory>>(
    alloc: Global,
    stealer: &Stealer<usize>,
    count: usize,
    worker: u32,
    limit: usize,
    work: &W,
) -> Result<Vec<(usize, X)>, OutOfMemory>
    requires { (n w : ℕ) → n < count → W.pre work.now n w }
    ensures { IfOk result (λ made. AreMade (λ n x. (w : ℕ) × W.post work.now n w (Ok x)) made.items) }
{
    keep_pieces(alloc);
    let mut made = Vec::new(alloc);
    for _ in 0..limit {
        match stealer.steal() {
            Steal::Empty => {
                break;
            }
            Steal::Retry => {}
            Steal::Success(number) => {
                if number < count {
                    let value = work(number, worker)?;
                    put(&mut made, (number, value))?;
                }
            }
        }
    }
    Ok(made)
}

/// What one worker made, and what the others did.
fn both<X: Send + Drop, W: Fn(usize, u32) -> Result<X, OutOfMemory>>(
    ours: Result<Vec<(usize, X)>, OutOfMemory>,
    theirs: Result<Vec<(usize, X)>, OutOfMemory>,
    work: &W,
) -> Result<Vec<(usize, X)>, OutOfMemory>
    requires ours { IfOk ours (λ made.
        AreMade (λ n x. (w : ℕ) × W.post work.now n w (Ok x)) made.items) }
    requires theirs { IfOk theirs (λ made.
        AreMade (λ n x. (w : ℕ) × W.post work.now n w (Ok x)) made.items) }
    ensures { IfOk result (λ made.
        AreMade (λ n x. (w : ℕ) × W.post work.now n w (Ok x)) made.items) }
{
    let _work = work;
    let mut ours = ours?;
    let mut theirs = theirs?;
    ours.append(&mut theirs)?;
    Ok(ours)
}

/// Worker 0 and as many others as `more` steal until the deque is empty.
#[cycle(steal)]
fn steal_by<R: Threads + Sync, X: Send + Drop, W: Fn(usize, u32) -> Result<X, OutOfMemory> + Sync>(
    rt: &R,
    alloc: Global,
    stealer: &Stealer<usize>,
    count: usize,
    more: u32,
    limit: usize,
    work: &W,
) -> Result<Vec<(usize, X)>, OutOfMemory>
    requires { (n w : ℕ) → n < count → W.pre work.now n w }
    ensures { IfOk result (λ made.
        AreMade (λ n x. (w : ℕ) × W.post work.now n w (Ok x)) made.items) }
{
    if more == 0 {
        return steal_all(alloc, stealer, count, 0, limit, work);
    }
    let theirs = move || -> Result<Vec<(usize, X)>, OutOfMemory>
        requires { IsSend X.row × ((n w : ℕ) → n < count → W.pre work.now n w) }
        ensures { IfOk result (λ made.
            AreMade (λ n x. (w : ℕ) × W.post work.entry.now n w (Ok x)) made.items) }
    { steal_all(alloc, stealer, count, more, limit, work) };
    let ours = move || -> Result<Vec<(usize, X)>, OutOfMemory>
        requires { IsSync R.row × IsSync W.row × IsSend X.row × (0 < more)
            × ((n w : ℕ) → n < count → W.pre work.now n w) }
        ensures { IfOk result (λ made.
            AreMade (λ n x. (w : ℕ) × W.post work.entry.now n w (Ok x)) made.items) }
    { steal_by(rt, alloc, stealer, count, more - 1, limit, work) };
    let (theirs, ours) = join(rt, theirs, ours);
    both(ours, theirs, work)
}

/// What was made, laid out by the numbers below `count`. Of a number that was made twice, one value stays.
fn laid_out<X: Send + Drop, W: Fn(usize, u32) -> Result<X, OutOfMemory>>(
    alloc: Global,
    mut made: Vec<(usize, X)>,
    count: usize,
    work: &W,
) -> Result<Vec<Option<X>>, OutOfMemory>
    requires { AreMade (λ n x. (w : ℕ) × W.post work.now n w (Ok x)) made.items }
    ensures count { IfOk result (λ laid. length laid.items ≡ count) }
    ensures each { IfOk result (λ laid. (n : ℕ) (x : X) → slice_get laid.items n ≡ Some (Some x)
        → (w : ℕ) × W.post work.now n w (Ok x)) }
{
    let _work = work;
    let mut laid: Vec<Option<X>> = Vec::new(alloc);
    for _ in 0..count {
        put(&mut laid, None)?;
    }
    while let Some((number, value)) = made.pop() {
        if number < laid.len() {
            laid[number] = Some(value);
        }
    }
    Ok(laid)
}

/// What was made of this number, or else what is made of it now.
fn value_of<X: Send + Drop, W: Fn(usize, u32) -> Result<X, OutOfMemory>>(
    slot: Option<X>,
    number: usize,
    work: &W,
) -> Result<X, OutOfMemory>
    requires work { (w : ℕ) → W.pre work.now number w }
    requires slot { (x : X) → slot ≡ Some x → (w : ℕ) × W.post work.now number w (Ok x) }
    ensures { IfOk result (λ x. (w : ℕ) × W.post work.now number w (Ok x)) }
{
    match slot {
        Some(value) => Ok(value),
        None => {
            let value = work(number, 0)?;
            Ok(value)
        }
    }
}

/// What is made of all numbers below `count`, in their order, of which these were made.
fn in_order<X: Send + Drop, W: Fn(usize, u32) -> Result<X, OutOfMemory>>(
    alloc: Global,
    made: Vec<(usize, X)>,
    count: usize,
    work: &W,
) -> Result<Vec<X>, OutOfMemory>
    requires work { (n w : ℕ) → n < count → W.pre work.now n w }
    requires made { AreMade (λ n x. (w : ℕ) × W.post work.now n w (Ok x)) made.items }
    ensures { IfOk result (λ values.
        AreMadeInOrder (λ n x. (w : ℕ) × W.post work.now n w (Ok x)) count values.items) }
{
    let mut laid = laid_out(alloc, made, count, work)?;
    let mut values = Vec::new(alloc);
    for number in 0..count {
        let slot = laid[number].take();
        let value = value_of(slot, number, work)?;
        put(&mut values, value)?;
    }
    Ok(values)
}

/// A deque of the numbers below `count`.
fn numbers(alloc: Global, count: usize) -> Result<Worker<usize>, OutOfMemory> {
    let Ok(mut deque) = Worker::new_fifo(alloc, count) else {
        return Err(OutOfMemory);
    };
    for number in 0..count {
        if deque.push(number).is_err() {
            return Err(OutOfMemory);
        }
    }
    Ok(deque)
}

/// What the work gives for each number below `count`, in their order; its second argument is the number of the worker that does it.
///
/// Worker 0 and as many others as `more` take one number after the other, so that none waits while another still has several
/// before it. Each asks the system for memory ahead once. It goes by `join`, and so may wait for its workers.
///
/// # Errors
///
/// [`OutOfMemory`] where the work answered with it, or no memory was found for what it gave.
pub fn share_out<
    R: Threads + Sync,
    X: Send + Drop,
    W: Fn(usize, u32) -> Result<X, OutOfMemory> + Sync,
>(rt: &R, alloc: Global, count: usize, more: u32, work: &W) -> Result<Vec<X>, OutOfMemory>
    requires { (n w : ℕ) → n < count → W.pre work.now n w }
    ensures { IfOk result (λ values.
        AreMadeInOrder (λ n x. (w : ℕ) × W.post work.now n w (Ok x)) count values.items) }
{
    let deque = numbers(alloc, count)?;
    let Ok(stealer) = deque.stealer() else {
        return Err(OutOfMemory);
    };
    let limit = count.saturating_mul(2).saturating_add(64);
    let made = steal_by(rt, alloc, &stealer, count, more, limit, work)?;
    in_order(alloc, made, count, work)
}
