//! The bodies of files whose trees stayed.
ghost use Rattle.std.specs.Prelude.{◌≡◌, ◌<◌, suc, false, get_or, length, true, IfOk, OnOk};
ghost use Rattle.jn_lowering.specs.Bodies as bodies;
ghost use Rattle.jn_kept_points.specs.Stays.{AllStay, StandsStill, Stays};

use jn_base::OutOfMemory;
use jn_base::lists::put;
use jn_index::indexed::IndexedProgram;
use jn_points::Body;
use jn_program::sources::Start;
use jn_scopes::heads::name_span;
use std::alloc::Global;

fn same_start(one: &Start, other: &Start) -> bool
    ensures { result ≡ true → one.now ≡ other.now }
{
    one == other
}

/// Whether the files begin at the same numbers.
#[tactic(auto, using(crate::proofs::Lists::none_seen, crate::proofs::Lists::one_seen, crate::proofs::Lists::all_seen))]
pub fn same_starts(one: &[Start], other: &[Start]) -> bool
    ensures { result ≡ true → one.now ≡ other.now }
{
    if one.len() != other.len() {
        return false;
    }
    for at in 0..one.len() {
        if !same_start(&one[at], &other[at]) {
            return false;
        }
    }
    true
}

/// Whether the flag at this place is set; past the last one none is.
pub fn is_told(flags: &[bool], at: usize) -> bool
    ensures { result ≡ get_or flags.now at false }
{
    match flags.get(at) {
        None => false,
        Some(told) => *told,
    }
}

/// Whether the name of the body's method stands at the same place.
fn same_place(old: &IndexedProgram, new: &IndexedProgram, body: &Body) -> bool
    ensures { result ≡ true
        → bodies.name_span old.now body.now.method.0 ≡ bodies.name_span new.now body.now.method.0 }
{
    name_span(old, body.method) == name_span(new, body.method)
}

fn stands_still(old: &IndexedProgram, new: &IndexedProgram, body: usize) -> bool
    ensures { result ≡ true → StandsStill old.now new.now body }
{
    match old.program().bodies.as_slice().get(body) {
        None => false,
        Some(found) => same_place(old, new, found),
    }
}

/// Whether the body is one of the file, which is told to have the tree that it had, and its method's name stands where it stood.
fn stays(
    old: &IndexedProgram,
    new: &IndexedProgram,
    same: &[bool],
    starts: &[Start],
    file: usize,
    body: usize,
) -> bool
    requires { suc file < length starts.now }
    ensures { result ≡ true → Stays old.now new.now same.now starts.now body }
{
    is_told(same, file)
        && starts[file].body <= body
        && body < starts[file + 1].body
        && stands_still(old, new, body)
}

/// Puts flags for the bodies up to the end of a file, those before it as not known.
#[tactic(auto, using(crate::proofs::Flags::one_flagged))]
fn put_file(
    known: &mut Vec<bool>,
    old: &IndexedProgram,
    new: &IndexedProgram,
    same: &[bool],
    starts: &[Start],
    file: usize,
) -> Result<(), OutOfMemory>
    requires inside { suc file < length starts.now }
    requires known { AllStay old.now new.now same.now starts.now known.old.items }
    ensures { OnOk result (AllStay old.now new.now same.now starts.now known.new.items) }
{
    let first = known.len();
    for body in first..starts[file + 1].body {
        put(known, stays(old, new, same, starts, file, body))?;
    }
    Ok(())
}

/// For each body of the old program whether its file is told to have the tree that it had, and its method's name stands where it stood.
///
/// # Errors
/// No memory was found.
#[tactic(auto, using(crate::proofs::Flags::none_flagged))]
pub fn known_bodies(
    alloc: Global,
    old: &IndexedProgram,
    new: &IndexedProgram,
    same: &[bool],
    starts: &[Start],
) -> Result<Vec<bool>, OutOfMemory>
    ensures { IfOk result (λ known. AllStay old.now new.now same.now starts.now known.items) }
{
    let mut known = Vec::new(alloc);
    for end in 1..starts.len() {
        put_file(&mut known, old, new, same, starts, end - 1)?;
    }
    Ok(known)
}
