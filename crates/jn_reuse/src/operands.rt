//! Operands that are the same, with their places or without.
ghost use Rattle.std.specs.Prelude.{◌≡◌, ◌↔◌, false, true};
ghost use Rattle.jn_recheck_law.specs.Alike.{AllAlike};
ghost use Rattle.jn_reuse.specs.Seen.{SameRegister, seen, seen_all, seen_maybe};

use crate::lists::equal_operands;
use jn_points::Operand;

/// Whether operands have one register, and one place where places are compared.
pub(crate) fn same_operand(placed: bool, one: &Operand, other: &Operand) -> bool
    ensures { (result ≡ true) ↔ (seen placed one.now ≡ seen placed other.now) }
{
    if placed {
        return *one == *other;
    }
    one.reg == other.reg
}

fn same_register(one: &Operand, other: &Operand, at: usize) -> bool
    ensures { (result ≡ true) ↔ SameRegister at one.now other.now }
{
    let _at = at;
    one.reg == other.reg
}

#[tactic(auto, using(crate::proofs::Turns::lengths_differ))]
fn all_registers(one: &[Operand], other: &[Operand]) -> bool
    ensures { (result ≡ true) ↔ AllAlike SameRegister 0 one.now other.now }
{
    if one.len() != other.len() {
        return false;
    }
    for at in 0..one.len() {
        if !same_register(&one[at], &other[at], at) {
            return false;
        }
    }
    true
}

fn same_registers(one: &[Operand], other: &[Operand]) -> bool
    ensures { (result ≡ true) ↔ (seen_all false one.now ≡ seen_all false other.now) }
{
    all_registers(one, other)
}

fn same_placed(one: &[Operand], other: &[Operand]) -> bool
    ensures { (result ≡ true) ↔ (seen_all true one.now ≡ seen_all true other.now) }
{
    equal_operands(one, other)
}

/// Whether lists have the same operands, in one order.
pub(crate) fn same_operands(placed: bool, one: &[Operand], other: &[Operand]) -> bool
    ensures { (result ≡ true) ↔ (seen_all placed one.now ≡ seen_all placed other.now) }
{
    if placed {
        return same_placed(one, other);
    }
    same_registers(one, other)
}

/// Whether the same operand is there, or none.
pub(crate) fn same_optional(placed: bool, one: Option<Operand>, other: Option<Operand>) -> bool
    ensures { (result ≡ true) ↔ (seen_maybe placed one ≡ seen_maybe placed other) }
{
    match one {
        None => other.is_none(),
        Some(one) => match other {
            None => false,
            Some(other) => same_operand(placed, &one, &other),
        },
    }
}
