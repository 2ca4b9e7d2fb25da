//! How much is declared, so that numbers of 32 bits are enough.
ghost use Rattle.std.specs.Prelude.{◌≡◌, ◌<◌, ◌≤◌, ◌+◌, ◌-◌, ◌^◌, false, IsTrue, MatchOption};
ghost use Rattle.jn_classtable.specs.Items as spec;
ghost use Rattle.jn_classtable.specs.Built.{SmallTable};

use jn_heads::head::{ClassHead, MethodHead};

/// The greatest count at which numbers of 32 bits are enough, also with what Object and String add.
const MOST: u32 = u32::MAX - 8;

/// The sum, where it is a number of 32 bits.
fn sum(total: u32, more: usize) -> Option<u32>
    ensures { MatchOption result (2 ^ 32 ≤ total + more) (λ n. n ≡ total + more) }
{
    match u32::try_from(more) {
        Err(_) => None,
        Ok(more) => total.checked_add(more),
    }
}

fn with_method(total: u32, head: &MethodHead) -> Option<u32>
    ensures { MatchOption result (2 ^ 32 ≤ total + spec.method_items head.now)
        (λ n. n ≡ total + spec.method_items head.now) }
{
    let total = sum(total, head.params.len())?;
    sum(total, 3)
}

#[tactic(auto, using(crate::proofs::Counts::methods_over))]
fn with_methods(total: u32, heads: &[MethodHead]) -> Option<u32>
    ensures { MatchOption result (2 ^ 32 ≤ total + spec.methods_items heads.now)
        (λ n. n ≡ total + spec.methods_items heads.now) }
{
    let mut total = total;
    for head in heads {
        total = with_method(total, head)?;
    }
    Some(total)
}

fn with_class(total: u32, head: &ClassHead) -> Option<u32>
    ensures { MatchOption result (2 ^ 32 ≤ total + spec.class_items head.now)
        (λ n. n ≡ total + spec.class_items head.now) }
{
    let total = sum(total, head.fields.len())?;
    let total = with_methods(total, head.methods.as_slice())?;
    sum(total, 1)
}

#[tactic(auto, using(crate::proofs::Counts::classes_over))]
fn items(heads: &[ClassHead]) -> Option<u32>
    ensures { MatchOption result (2 ^ 32 ≤ spec.items heads.now) (λ n. n ≡ spec.items heads.now) }
{
    let mut total = 0;
    for head in heads {
        total = with_class(total, head)?;
    }
    Some(total)
}

fn is_within(total: Option<u32>) -> bool
    ensures within { IsTrue result → MatchOption total ⊥ (λ n. n < 2 ^ 32 - 8) }
    ensures beyond { result ≡ false → MatchOption total (Unit {0}) (λ n. 2 ^ 32 - 9 ≤ n) }
{
    match total {
        None => false,
        Some(total) => total < MOST,
    }
}

/// Whether so little is declared that all numbers of the program have 32 bits. More than four billion fields, methods and
/// parameters have no table.
#[tactic(auto, using(crate::proofs::Small::small_table, crate::proofs::Counts::beyond))]
pub fn is_small(heads: &[ClassHead]) -> bool
    ensures small { IsTrue result → SmallTable heads.now }
    ensures large { result ≡ false → 2 ^ 32 - 9 ≤ spec.items heads.now }
{
    is_within(items(heads))
}
