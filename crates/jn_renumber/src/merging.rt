//! Two lists of names made one.
ghost use Rattle.std.specs.Prelude.{◌≡◌, ◌<◌, ◌+◌, ◌-◌, ◌^◌, length, IfOk, OnOk, OnErr};
ghost use Rattle.jn_renumber.specs.Merged.{merged, merged_numbers as spec_numbers, IsMergedInPart};

use jn_base::{NameNo, OutOfMemory};
use jn_trees::Names;
use std::alloc::Global;

/// Adds the other names in their order, and gives the number that each of them has then: a known one keeps its number, and a
/// new one goes last.
///
/// Where no memory is found, `names` is the old list with the first of the others.
pub fn merge(alloc: Global, names: &mut Names, other: &Names) -> Result<Vec<NameNo>, OutOfMemory>
    requires { length names.old + length other.now < 2 ^ 32 - 1 }
    ensures numbers { IfOk result (λ numbers. numbers.items ≡ spec_numbers names.old other.now) }
    ensures names { OnOk result (names.new ≡ merged names.old other.now) }
    ensures part { OnErr result (IsMergedInPart names.old other.now names.new) }
{
    let mut numbers = Vec::new(alloc);
    for at in 0..other.len() {
        let number = names.intern(other.text(NameNo(at as u32)))?;
        if numbers.push(number).is_err() {
            return Err(OutOfMemory);
        }
    }
    Ok(numbers)
}
