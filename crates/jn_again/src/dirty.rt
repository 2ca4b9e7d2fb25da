//! The bodies that aren't sure to be closed.
ghost use Rattle.std.specs.Prelude.{◌≡◌, ◌⊎◌, ◌<◌, ℕ, true, false, length, slice_index, IfOk, OnOk};
ghost use Rattle.jn_sigtable.specs.Machine.{dirty_words};
ghost use Rattle.jn_worklist.specs.Plans.{IsDue};
ghost use Rattle.jn_resume.specs.Keepable.{StandsApart};
ghost use Rattle.jn_again.specs.Losing.{told};

use crate::masks::are_none;
use crate::reach::Reach;
use jn_base::{BodyNo, OutOfMemory};
use jn_resume::mark;
use std::alloc::Global;

/// Whether the body is sure to stand apart from these bits; `none` tells that there is no bit.
fn is_off<R: Reach>(
    alloc: Global,
    reach: &R,
    bits: &[u64],
    none: bool,
    body: BodyNo,
) -> Result<bool, OutOfMemory>
    requires bits { length bits.now ≡ (R.describe reach.now).words }
    requires none { none ≡ true → (w : ℕ) → w < length bits.now → slice_index bits.now w ≡ 0 }
    requires inside { body.0 < (R.describe reach.now).bodies }
    ensures { IfOk result
        (λ r. r ≡ true → StandsApart (R.describe reach.now) (slice_index bits.now) body.0) }
{
    if none {
        return Ok(true);
    }
    reach.stands_apart(alloc, body, bits)
}

/// Whether the body hasn't changed and stands apart from these bits.
fn is_apart<R: Reach>(
    alloc: Global,
    reach: &R,
    changed: &[bool],
    bits: &[u64],
    none: bool,
    body: BodyNo,
) -> Result<bool, OutOfMemory>
    requires flags { length changed.now ≡ (R.describe reach.now).bodies }
    requires bits { length bits.now ≡ (R.describe reach.now).words }
    requires none { none ≡ true → (w : ℕ) → w < length bits.now → slice_index bits.now w ≡ 0 }
    requires inside { body.0 < (R.describe reach.now).bodies }
    ensures { IfOk result (λ r. r ≡ true → (told changed.now body.0 ≡ false)
        × StandsApart (R.describe reach.now) (slice_index bits.now) body.0) }
{
    if changed[body.0 as usize] {
        return Ok(false);
    }
    is_off(alloc, reach, bits, none, body)
}

/// Marks the body, unless it hasn't changed and stands apart from these bits.
fn mark_unless<R: Reach>(
    alloc: Global,
    reach: &R,
    changed: &[bool],
    bits: &[u64],
    none: bool,
    body: BodyNo,
    dirty: &mut [u64],
) -> Result<(), OutOfMemory>
    requires flags { length changed.now ≡ (R.describe reach.now).bodies }
    requires bits { length bits.now ≡ (R.describe reach.now).words }
    requires none { none ≡ true → (w : ℕ) → w < length bits.now → slice_index bits.now w ≡ 0 }
    requires inside { body.0 < (R.describe reach.now).bodies }
    requires room { length dirty.old ≡ dirty_words (R.describe reach.now) }
    ensures count { OnOk result (length dirty.new ≡ length dirty.old) }
    ensures kept { OnOk result ((x : ℕ) → IsDue dirty.old x → IsDue dirty.new x) }
    ensures told { OnOk result (IsDue dirty.new body.0 ⊎ ((told changed.now body.0 ≡ false)
        × StandsApart (R.describe reach.now) (slice_index bits.now) body.0)) }
{
    if !is_apart(alloc, reach, changed, bits, none, body)? {
        mark(dirty, body);
    }
    Ok(())
}

/// Marks each of the first bodies, unless it hasn't changed and stands apart from these bits.
fn mark_all<R: Reach>(
    alloc: Global,
    reach: &R,
    bodies: u32,
    changed: &[bool],
    bits: &[u64],
    none: bool,
    dirty: &mut [u64],
) -> Result<(), OutOfMemory>
    requires bodies { bodies ≡ (R.describe reach.now).bodies }
    requires flags { length changed.now ≡ (R.describe reach.now).bodies }
    requires bits { length bits.now ≡ (R.describe reach.now).words }
    requires none { none ≡ true → (w : ℕ) → w < length bits.now → slice_index bits.now w ≡ 0 }
    requires room { length dirty.old ≡ dirty_words (R.describe reach.now) }
    ensures count { OnOk result (length dirty.new ≡ length dirty.old) }
    ensures each { OnOk result ((b : ℕ) → b < bodies
        → IsDue dirty.new b ⊎ ((told changed.now b ≡ false)
        × StandsApart (R.describe reach.now) (slice_index bits.now) b)) }
{
    for body in 0..bodies {
        mark_unless(alloc, reach, changed, bits, none, BodyNo(body), dirty)?;
    }
    Ok(())
}

/// The bodies, as bits, that have changed or aren't sure to stand apart from these bits.
///
/// # Errors
/// No memory was found.
pub fn find_dirty<R: Reach>(
    alloc: Global,
    reach: &R,
    bodies: u32,
    changed: &[bool],
    bits: &[u64],
) -> Result<Vec<u64>, OutOfMemory>
    requires bodies { bodies ≡ (R.describe reach.now).bodies }
    requires flags { length changed.now ≡ (R.describe reach.now).bodies }
    requires bits { length bits.now ≡ (R.describe reach.now).words }
    ensures count { IfOk result (λ dirty. length dirty.items ≡ dirty_words (R.describe reach.now)) }
    ensures each { IfOk result (λ dirty. (b : ℕ) → b < (R.describe reach.now).bodies
        → IsDue dirty.items b ⊎ ((told changed.now b ≡ false)
        × StandsApart (R.describe reach.now) (slice_index bits.now) b)) }
{
    let mut dirty = vec![in alloc; 0u64; (bodies as usize + 63) / 64]?;
    let none = are_none(bits);
    mark_all(alloc, reach, bodies, changed, bits, none, &mut dirty)?;
    Ok(dirty)
}
