//! Solving on after an edit.
ghost use Rattle.std.specs.Prelude.{◌≡◌, ◌<◌, ℕ, length, slice_index, IfOk};
ghost use Rattle.jn_sigtable.specs.System.{least};
ghost use Rattle.jn_sigtable.specs.Machine.{dirty_words};
ghost use Rattle.jn_worklist.specs.Drains.{IsDirtyOrClosed};
ghost use Rattle.jn_resume.specs.Keepable.{AreKeepable};
ghost use Rattle.jn_again.specs.Losing.{told};

use crate::dirty::find_dirty;
use crate::edit::Edit;
use crate::finding::find_lost;
use crate::masks::differing;
use crate::reach::Reach;
use jn_base::OutOfMemory;
use jn_resume::{resume, standing_words};
use jn_sigtable::Constraints;
use std::alloc::Global;

/// The bodies that aren't sure to be closed under the words that stand: they have changed, or can reach a bit in which these words and the old least ones differ.
fn dirty_under<C: Constraints, R: Reach>(
    alloc: Global,
    edit: &Edit<C, R>,
    words: &[u64],
) -> Result<Vec<u64>, OutOfMemory>
    requires { length words.now ≡ length edit.now.start.now }
    ensures count { IfOk result
        (λ dirty. length dirty.items ≡ dirty_words (C.describe edit.now.new.now)) }
    ensures each { IfOk result (λ dirty. (b : ℕ) → b < (C.describe edit.now.new.now).bodies
        → IsDirtyOrClosed (C.describe edit.now.new.now) words.now dirty.items b) }
{
    let moved = differing(alloc, edit.last, words)?;
    let dirty = find_dirty(
        alloc,
        edit.reach,
        edit.old.bodies(),
        edit.changed,
        moved.as_slice(),
    )?;
    Ok(dirty)
}

/// The least words of the new system above its start, where these bits may be lost.
fn solve_without<C: Constraints, R: Reach>(
    alloc: Global,
    edit: &Edit<C, R>,
    lost: &[u64],
) -> Result<Vec<u64>, OutOfMemory>
    requires count { length lost.now ≡ (C.describe edit.now.old.now).words }
    requires lost { AreKeepable (C.describe edit.now.old.now) (C.describe edit.now.new.now)
        edit.now.before.now edit.now.start.now edit.now.last.now (told edit.now.changed.now)
        (slice_index lost.now) }
    ensures { IfOk result
        (λ words. words.items ≡ least (C.describe edit.now.new.now) edit.now.start.now) }
{
    let words = standing_words(alloc, edit.last, lost, edit.start)?;
    let dirty = dirty_under(alloc, edit, words.as_slice())?;
    let found = resume(alloc, edit.new, edit.start, words, dirty)?;
    Ok(found)
}

/// The least words of the new system above its start, found from the least words of the old one, on one thread: bits that may be lost are given up, and only
/// bodies are run that changed or can reach a word's bit that did.
///
/// # Errors
/// No memory was found.
pub fn solve_on<C: Constraints, R: Reach>(
    alloc: Global,
    edit: &Edit<C, R>,
) -> Result<Vec<u64>, OutOfMemory>
    ensures { IfOk result
        (λ words. words.items ≡ least (C.describe edit.now.new.now) edit.now.start.now) }
{
    let lost = find_lost(alloc, edit)?;
    let found = solve_without(alloc, edit, lost.as_slice())?;
    Ok(found)
}
