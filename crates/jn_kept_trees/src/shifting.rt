//! What leads from the numbers that names had to those that they get.
ghost use Rattle.std.specs.Prelude.{◌≡◌, ◌<◌, ◌≤◌, ℕ, length, get_or, true, false, IfOk, OnOk};
ghost use Rattle.jn_base.specs.declared.number.NameNo.{NameNo as NameNoOf};
ghost use Rattle.jn_kept_trees.specs.Shifts.{AreConsistent, LeadsFrom};

use jn_base::{NameNo, OutOfMemory};
use std::alloc::Global;

/// Whether the numbers are the same.
pub fn are_same(old: &[NameNo], new: &[NameNo]) -> bool
    ensures same { result ≡ true → old.now ≡ new.now }
    ensures apart { result ≡ false → old.now ≡ new.now → ⊥ }
{
    if old.len() != new.len() {
        return false;
    }
    for at in 0..old.len() {
        if old[at] != new[at] {
            return false;
        }
    }
    true
}

fn larger(one: usize, other: usize) -> usize
    ensures left { one ≤ result }
    ensures right { other ≤ result }
{
    if one < other { other } else { one }
}

/// A number above all of them.
#[tactic(auto, using(crate::proofs::Placing::above_more))]
fn above(numbers: &[NameNo]) -> usize
    ensures { (i : ℕ) (d : NameNoOf) → i < length numbers.now
        → (get_or numbers.now i d).0 < result }
{
    let mut size = 0;
    for at in 0..numbers.len() {
        size = larger(size, numbers[at].0 as usize + 1);
    }
    size
}

fn zeros(alloc: Global, size: usize) -> Result<Vec<NameNo>, OutOfMemory>
    ensures { IfOk result (λ zeros. length zeros.items ≡ size) }
{
    let mut zeros = Vec::new(alloc);
    for _at in 0..size {
        if zeros.push(NameNo(0)).is_err() {
            return Err(OutOfMemory);
        }
    }
    Ok(zeros)
}

/// Puts each new number at the old one.
#[tactic(auto, using(crate::proofs::Placing::put_more))]
fn put_all(shift: &mut [NameNo], old: &[NameNo], new: &[NameNo])
    requires long { length new.now ≡ length old.now }
    requires consistent { AreConsistent old.now new.now }
    requires room { (i : ℕ) (d : NameNoOf) → i < length old.now
        → (get_or old.now i d).0 < length shift.old }
    ensures { LeadsFrom old.now new.now shift.new }
{
    for at in 0..old.len() {
        shift[old[at].0 as usize] = new[at];
    }
}

/// A list that has the new number of each name at its old one.
///
/// # Errors
/// No memory was found.
pub fn shift(alloc: Global, old: &[NameNo], new: &[NameNo]) -> Result<Vec<NameNo>, OutOfMemory>
    requires long { length new.now ≡ length old.now }
    requires consistent { AreConsistent old.now new.now }
    ensures { IfOk result (λ shift. LeadsFrom old.now new.now shift.items) }
{
    let mut shift = zeros(alloc, above(old))?;
    put_all(shift.as_mut_slice(), old, new);
    Ok(shift)
}
