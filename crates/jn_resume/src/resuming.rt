//! Solving on.
ghost use Rattle.std.specs.Prelude.{◌≡◌, ℕ, ◌<◌, length, IfOk};
ghost use Rattle.jn_sigtable.specs.System.{least};
ghost use Rattle.jn_sigtable.specs.Machine.{AreBetween, dirty_words};
ghost use Rattle.jn_worklist.specs.Drains.{IsDirtyOrClosed};

use crate::closing::open_bodies;
use jn_base::OutOfMemory;
use jn_sigtable::Constraints;
use jn_worklist::{drain, plan};
use std::alloc::Global;

/// The least words above the start, found on one thread from words that lie between. `dirty` has one word for each 64 bodies begun: a
/// body whose bit is not set there is not run before a word that it reads gets a new bit, so it has to be closed under the words. Who reads which word is
/// asked only where a dirty body isn't closed under the words.
///
/// # Errors
/// No memory was found.
pub fn resume<C: Constraints>(
    alloc: Global,
    system: &C,
    start: &[u64],
    words: Vec<u64>,
    dirty: Vec<u64>,
) -> Result<Vec<u64>, OutOfMemory>
    requires count { length start.now ≡ (C.describe system.now).words }
    requires between { AreBetween (C.describe system.now) start.now words.items }
    requires room { length dirty.items ≡ dirty_words (C.describe system.now) }
    requires each { (b : ℕ) → b < (C.describe system.now).bodies
        → IsDirtyOrClosed (C.describe system.now) words.items dirty.items b }
    ensures { IfOk result (λ found. found.items ≡ least (C.describe system.now) start.now) }
{
    let _start = start;
    let left = open_bodies(alloc, system, words.as_slice(), dirty.as_slice())?;
    if !left.any {
        return Ok(words);
    }
    let plan = plan(alloc, system)?;
    let drained = drain(alloc, system, &plan, words, left.bodies)?;
    Ok(drained)
}
