//! Facts that something made void.
ghost use Rattle.std.specs.Prelude.{◌≡◌, ◌<◌, ◌^◌, ℕ, IfOk, length, true};
ghost use Rattle.jn_points.specs.Lookup.{body_at, points_of};
ghost use Rattle.jn_env.specs.Sized.{Sized};
ghost use Rattle.jn_voided.specs.Courses.{is_in, passed_in};
ghost use Rattle.jn_voided.specs.Searched.{IsFoundBy, IsTurned, pair, voided_before};

use crate::course::{Passed, find_course, find_makers};
use crate::turns::{Turns, find_turns};
use jn_base::{OutOfMemory, PointNo};
use jn_env::{Env, FieldKey};
use jn_points::Point;
use jn_transfer::Analysis;
use std::alloc::Global;

/// A test of a field, or an assignment to it, and the point after it that ended what it made known.
#[derive(Clone, Copy, Debug, PartialEq, Eq)]
pub struct Voided {
    pub made: PointNo,
    pub ended: PointNo,
}

/// The pair of two points, where both are there.
fn pair(made: Option<u32>, ended: u32) -> Option<Voided>
    ensures { result ≡ pair made ended }
{
    match made {
        None => None,
        Some(made) => Some(Voided {
            made: PointNo(made),
            ended: PointNo(ended),
        }),
    }
}

/// Of a fact on a field in a body: for each point the least since which the fact isn't known, and for that the least that made it as the last before it.
#[derive(Drop)]
pub struct Turned {
    known: Turns,
    unknown: Turns,
}

impl Turned {
    /// The first pair of a point that made it known that the field isn't null, and one that ended that before the read; None where there is none.
    pub fn before(&self, read: PointNo) -> Option<Voided>
        ensures { result ≡ voided_before self.now read.0 }
    {
        match self.unknown.at(read.0 as usize) {
            None => None,
            Some(ended) => pair(self.known.at(ended as usize), ended),
        }
    }
}

/// The turns in a course.
fn search(alloc: Global, course: &[Passed], makers: &[bool]) -> Result<Turned, OutOfMemory>
    requires some { 0 < length course.now }
    requires few { length course.now < 2 ^ 32 }
    ensures { IfOk result (λ turned. (read : ℕ)
        → IsFoundBy (passed_in course.now) (is_in makers.now) read (voided_before turned read)) }
{
    let known = find_turns(alloc, course, makers, true)?;
    let ends = known.there(alloc)?;
    let unknown = find_turns(alloc, course, &ends, false)?;
    Ok(Turned { known, unknown })
}

/// The turns in a body whose points are at hand.
fn turned_in(
    alloc: Global,
    analysis: &Analysis,
    points: &[Point],
    table: &[Option<Env>],
    key: FieldKey,
) -> Result<Turned, OutOfMemory>
    requires points { points.now ≡ points_of (body_at analysis.now.program analysis.now.body) }
    requires some { 0 < length points.now }
    requires short { length points.now < 2 ^ 32 }
    requires sized { Sized analysis.now.program analysis.now.body table.now }
    ensures { IfOk result (λ turned. IsTurned analysis.now.program analysis.now.sig
        analysis.now.body table.now key turned) }
{
    let makers = find_makers(alloc, points, key)?;
    let course = find_course(alloc, analysis, key, points, table)?;
    search(alloc, &course, &makers)
}

/// The turns of the fact that the field of the object in the register isn't null, through the analysed body, whose table this is: by them the first pair
/// before each read. What made the fact known last counts. The first pair is that of the least point that ended it, and of that the least that made it, by
/// the numbers of points.
///
/// # Errors
/// No memory was found.
pub fn find_turned(
    alloc: Global,
    analysis: &Analysis,
    table: &[Option<Env>],
    key: FieldKey,
) -> Result<Turned, OutOfMemory>
    requires inside { analysis.now.body < length analysis.now.program.bodies }
    requires some { 0 < length (points_of (body_at analysis.now.program analysis.now.body)) }
    requires short { length (points_of (body_at analysis.now.program analysis.now.body)) < 2 ^ 32 }
    requires sized { Sized analysis.now.program analysis.now.body table.now }
    ensures { IfOk result (λ turned. IsTurned analysis.now.program analysis.now.sig
        analysis.now.body table.now key turned) }
{
    let body = analysis.body();
    let info = &analysis.program().bodies.as_slice()[body.0 as usize];
    turned_in(alloc, analysis, info.points.as_slice(), table, key)
}
