//! The order of causes.
ghost use Rattle.std.specs.Prelude.{◌≡◌, ◌<◌, length, MatchOption, Some, true, false};
ghost use Rattle.jn_reasons_law.specs.Choice as choice;
ghost use Rattle.jn_chain.specs.Keys.{rest_of};
ghost use Rattle.jn_chain.specs.Search.{left_of, source_list, way_list, IsBetter, IsLeastAmong, IsLesser, IsUnwanted};

use crate::chains::Chains;
use jn_reasons::{Cause, Source};
use jn_reasons_law::{Bit, Item, Place};

pub(crate) fn bit_no(bit: Bit) -> u32
    ensures { result ≡ choice.bit_no bit }
{
    match bit {
        Bit::Nullable => 0,
        Bit::Committed => 1,
        Bit::Free => 2,
    }
}

fn place_numbers(place: Place) -> (u32, u32, u32)
    ensures { result ≡ choice.place_numbers place }
{
    match place {
        Place::OfSlot(slot) => (0, slot, 0),
        Place::OfMethod(method) => (1, method, 0),
        Place::OfBody(body) => (2, body, 0),
        Place::OfPoint(body, point) => (3, body, point),
    }
}

fn source_numbers(source: Source) -> [u32; 5]
    ensures { result ≡ source_list source }
{
    match source {
        None => [0, 0, 0, 0, 0],
        Some(Item::AtSlot(slot, bit)) => [0, slot, 0, 0, bit_no(bit)],
        Some(Item::AtRegister(body, point, reg, bit)) => [1, body, point, reg, bit_no(bit)],
    }
}

fn way_numbers(cause: Cause) -> [u32; 8]
    ensures { result ≡ way_list cause.place cause.source }
{
    let (kind, owner, point) = place_numbers(cause.place);
    let [a, b, c, d, e] = source_numbers(cause.source);
    [kind, owner, point, a, b, c, d, e]
}

/// Whether the first list comes before the second, in the order of words in a dictionary.
fn is_before(xs: &[u32], ys: &[u32]) -> bool
    requires { length xs.now ≡ length ys.now }
    ensures { result ≡ choice.is_before xs.now ys.now }
{
    for i in 0..xs.len() {
        if xs[i] < ys[i] {
            return true;
        }
        if xs[i] > ys[i] {
            return false;
        }
    }
    false
}

/// Whether the first cause comes before the second: the place decides, then the item.
fn comes_before(first: Cause, second: Cause) -> bool
    ensures { result
        ≡ choice.is_before (way_list first.place first.source)
        (way_list second.place second.source) }
{
    is_before(&way_numbers(first), &way_numbers(second))
}

/// The lesser of two causes.
fn lesser(best: Option<Cause>, cause: Cause) -> Cause
    ensures { MatchOption best (result ≡ cause) (λ found. IsLesser cause found result) }
{
    match best {
        None => cause,
        Some(found) => {
            if comes_before(cause, found) {
                cause
            } else {
                found
            }
        }
    }
}

/// Whether it is known that so many steps are left from the source.
fn is_wanted(chains: &Chains, left: usize, source: Source) -> bool
    ensures there { result ≡ true → left_of (rest_of chains.now) source ≡ Some left }
    ensures none { result ≡ false → left_of (rest_of chains.now) source ≡ Some left → ⊥ }
{
    match chains.left(source) {
        None => false,
        Some(known) => known == left,
    }
}

/// The lesser of two, where the second is wanted.
fn better(best: Option<Cause>, cause: Cause, chains: &Chains, left: usize) -> Option<Cause>
    ensures { IsBetter best cause (λ z. left_of (rest_of chains.now) z ≡ Some left) result }
{
    if !is_wanted(chains, left, cause.source) {
        return best;
    }
    Some(lesser(best, cause))
}

/// The least of the causes from whose sources so many steps are known to be left; None where there is none.
pub(crate) fn least(causes: &[Cause], chains: &Chains, left: usize) -> Option<Cause>
    ensures { MatchOption result
        (IsUnwanted causes.now (λ z. left_of (rest_of chains.now) z ≡ Some left))
        (λ c. IsLeastAmong causes.now (λ z. left_of (rest_of chains.now) z ≡ Some left) c) }
{
    let mut best = None;
    for cause in causes {
        best = better(best, *cause, chains, left);
    }
    best
}
