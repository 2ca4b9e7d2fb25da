//! The least source for each point at which a fact turned.
ghost use Rattle.std.specs.Prelude.{◌≡◌, ◌<◌, ◌^◌, ℕ, IfOk, length};
ghost use Rattle.jn_voided.specs.Courses.{is_in, is_there, passed_in};
ghost use Rattle.jn_voided.specs.Turning.{TellsTurns, turn_at, turn_in};

use crate::analysis::Turning;
use crate::course::Passed;
use jn_base::OutOfMemory;
use jn_base::lists::put;
use jn_dataflow::solve;
use std::alloc::{AllocError, Global};
use std::marker::Model;

/// For each point of a body the least source that is the last on a way there, and since which the fact is as wanted; None where there is none.
#[derive(Drop)]
pub struct Turns {
    slots: Vec<Option<Option<u32>>>,
}

impl Model for Turns {
    ghost use Rattle.std.specs.Prelude.{List, Option, ℕ};

    ghost Value = { List (Option (Option ℕ)) };

    ghost view = { λ t. t.slots.items };
}

impl Turns {
    /// The least source for a point; None where there is none, and for a point that isn't there.
    pub(crate) fn at(&self, point: usize) -> Option<u32>
        ensures { result ≡ turn_at self.now point }
    {
        turn_at(&self.slots, point)
    }

    /// The points for which there is one.
    ///
    /// # Errors
    /// No memory was found.
    pub(crate) fn there(&self, alloc: Global) -> Result<Vec<bool>, AllocError>
        ensures { IfOk result (λ marks. (p : ℕ)
            → is_in marks.items p ≡ is_there (turn_at self.now p)) }
    {
        marks_of(alloc, &self.slots)
    }
}

/// The least source for a point; None where there is none, and for a point that isn't there.
fn turn_at(slots: &[Option<Option<u32>>], point: usize) -> Option<u32>
    ensures { result ≡ turn_at slots.now point }
{
    match slots.get(point) {
        None => None,
        Some(slot) => flat(slot),
    }
}

fn is_there(from: Option<u32>) -> bool
    ensures { result ≡ is_there from }
{
    match from {
        None => false,
        Some(_) => true,
    }
}

/// The points for which there is a source.
fn marks_of(alloc: Global, slots: &[Option<Option<u32>>]) -> Result<Vec<bool>, AllocError>
    ensures { IfOk result (λ marks. (p : ℕ)
        → is_in marks.items p ≡ is_there (turn_at slots.now p)) }
{
    let mut marks = Vec::new(alloc);
    for at in 0..slots.len() {
        put(&mut marks, is_there(turn_at(slots, at)))?;
    }
    Ok(marks)
}

fn flat(slot: &Option<Option<u32>>) -> Option<u32>
    ensures { result ≡ turn_in slot.now }
{
    match slot {
        None => None,
        Some(from) => *from,
    }
}

/// For each point the least of the sources that are the last on a way there, and since which the fact is as wanted.
///
/// # Errors
/// No memory was found.
pub(crate) fn find_turns(
    alloc: Global,
    course: &[Passed],
    sources: &[bool],
    wanted: bool,
) -> Result<Turns, OutOfMemory>
    requires some { 0 < length course.now }
    requires few { length course.now < 2 ^ 32 }
    ensures { IfOk result (λ turns. TellsTurns (passed_in course.now) (is_in sources.now) wanted turns) }
{
    let analysis = Turning::new(course, sources, wanted);
    let slots = solve(alloc, &analysis)?;
    Ok(Turns {
        slots: slots.into_vec(),
    })
}
