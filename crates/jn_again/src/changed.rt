//! Which tasks may do something else than they did.
ghost use Rattle.std.specs.Prelude.{◌≡◌, ◌↔◌, ◌<◌, None, Some, MatchOption, false, true, get_or, length, IfOk};
ghost use Rattle.jn_again.specs.Flags.{AreChangedBelow, AreSame};
ghost use Rattle.jn_points.specs.Lookup.{body_at};
ghost use Rattle.jn_recheck_law.specs.Reusable.{ActAlike};

use jn_contrib::Overrider;
use jn_points::{Body, Program};
use jn_reuse::acts_alike;
use std::alloc::{AllocError, Global};

/// Whether the methods are the same, with the same ones under each.
fn same_overrider(one: &Overrider, other: &Overrider) -> bool
    ensures { result ≡ true → one.now ≡ other.now }
{
    one.method == other.method && one.under.as_slice() == other.under.as_slice()
}

/// Whether the lists are equal.
#[tactic(auto, using(crate::proofs::Turns::equal_none, crate::proofs::Turns::equal_more, crate::proofs::Turns::all_equal))]
pub(crate) fn same_overriders(one: &[Overrider], other: &[Overrider]) -> bool
    ensures { result ≡ true → one.now ≡ other.now }
{
    if one.len() != other.len() {
        return false;
    }
    for at in 0..one.len() {
        if !same_overrider(&one[at], &other[at]) {
            return false;
        }
    }
    true
}

fn body_at(program: &Program, body: usize) -> Option<&Body>
    ensures { MatchOption result (body_at program.now body ≡ None)
        (λ found. body_at program.now body ≡ Some found.now) }
{
    program.bodies.as_slice().get(body)
}

/// Whether the flag at this place is set; past the last one none is.
fn is_told(flags: &[bool], at: usize) -> bool
    ensures { result ≡ get_or flags.now at false }
{
    match flags.get(at) {
        None => false,
        Some(told) => *told,
    }
}

/// Whether the body of this number, where there is one, doesn't act as it did.
#[tactic(auto, using(crate::proofs::Turns::no_body, crate::proofs::Turns::one_body, crate::proofs::Turns::both_bodies))]
fn acts_otherwise(old: &Program, new: &Program, body: usize) -> bool
    ensures { body < length old.now.bodies → (result ≡ false)
        ↔ ActAlike (body_at old.now body) (body_at new.now body) }
{
    match body_at(old, body) {
        None => false,
        Some(one) => match body_at(new, body) {
            None => true,
            Some(other) => !acts_alike(one, other),
        },
    }
}

/// Whether the body of this number, where there is one, doesn't act as it did. `known` tells that it is the same.
fn is_changed(old: &Program, new: &Program, known: bool, body: usize) -> bool
    requires { known ≡ true → body_at old.now body ≡ body_at new.now body }
    ensures { body < length old.now.bodies → (result ≡ false)
        ↔ ActAlike (body_at old.now body) (body_at new.now body) }
{
    if known {
        return false;
    }
    acts_otherwise(old, new, body)
}

/// For each task of the new program whether it may do something else: a body that doesn't act as it did. Methods that override are told not to, and bodies that are
/// known to be the same aren't compared.
#[tactic(auto, using(crate::proofs::Turns::flags_none, crate::proofs::Turns::flags_more))]
pub(crate) fn changed_tasks(
    alloc: Global,
    old: &Program,
    new: &Program,
    known: &[bool],
    tasks: usize,
) -> Result<Vec<bool>, AllocError>
    requires { AreSame old.now new.now known.now }
    ensures count { IfOk result (λ flags. length flags.items ≡ tasks) }
    ensures told { IfOk result (λ flags. AreChangedBelow tasks old.now new.now flags.items) }
{
    let mut flags = Vec::new(alloc);
    for at in 0..tasks {
        flags.push(is_changed(old, new, is_told(known, at), at))?;
    }
    Ok(flags)
}
