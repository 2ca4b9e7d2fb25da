//! Where a fact turned, as an analysis of dataflow.
ghost use Rattle.std.specs.Prelude.{◌≡◌, ◌<◌, ◌^◌, ◌∷◌, ◌++◌, [], ℕ, IfOk, OnOk, None, Some, flat_map, length, true, false};
ghost use Rattle.jn_voided.specs.Courses.{is_in, passed_in};
ghost use Rattle.jn_voided.specs.Turning as spec;

use crate::course::{Passed, Way};
use jn_base::OutOfMemory;
use jn_dataflow::Dataflow;
use std::alloc::{AllocError, Global};

/// What is handed along an edge: its target, and the least source since which the fact is as wanted, if it is.
type Handed = (u32, Option<u32>);

/// The least source that is the last on a way to a point, and since which the fact is as wanted, known or not.
#[derive(Drop)]
pub(crate) struct Turning<'a> {
    course: &'a [Passed],
    sources: &'a [bool],
    wanted: bool,
    ghost few: { length course.now < 2 ^ 32 },
}

impl<'a> Turning<'a> {
    /// The analysis of a course with the points that are marked as sources.
    pub(crate) fn new(course: &'a [Passed], sources: &'a [bool], wanted: bool) -> Self
        requires few { length course.now < 2 ^ 32 }
        ensures course { result.course.now ≡ course.now }
        ensures sources { result.sources.now ≡ sources.now }
        ensures wanted { result.wanted ≡ wanted }
    {
        Turning {
            course,
            sources,
            wanted,
        }
    }
}

fn as_wanted(wanted: bool, known: bool) -> bool
    ensures { result ≡ spec.as_wanted wanted known }
{
    if wanted { known } else { !known }
}

/// Whether the fact is known before a point; None where the point is unreached or not there.
fn known_at(course: &[Passed], at: usize) -> Option<bool>
    ensures { result ≡ (passed_in course.now at).known }
{
    match course.get(at) {
        None => None,
        Some(passed) => passed.known,
    }
}

fn is_source(sources: &[bool], at: usize) -> bool
    ensures { result ≡ is_in sources.now at }
{
    match sources.get(at) {
        None => false,
        Some(marked) => *marked,
    }
}

/// What a point hands on: itself, where it is a source.
fn handed(sources: &[bool], at: u32, from: Option<u32>) -> Option<u32>
    ensures { result ≡ spec.handed (is_in sources.now) at from }
{
    if is_source(sources, at as usize) {
        Some(at)
    } else {
        from
    }
}

/// What comes along an edge.
fn arriving(wanted: bool, known: bool, there: Option<bool>, from: Option<u32>) -> Option<u32>
    ensures { result ≡ spec.arriving wanted known there from }
{
    match there {
        None => None,
        Some(there) => {
            if as_wanted(wanted, known) && as_wanted(wanted, there) {
                from
            } else {
                None
            }
        }
    }
}

/// Puts what is handed to a point after the others, where the point is there.
fn push_handed(
    list: &mut Vec<Handed>,
    count: usize,
    to: u32,
    from: Option<u32>,
) -> Result<(), AllocError>
    ensures { OnOk result (list.new.items ≡ list.old.items ++ spec.handed_to count to from) }
{
    if (to as usize) < count {
        list.push((to, from))?;
    }
    Ok(())
}

/// Puts what comes along an edge after the others.
fn push_along(
    list: &mut Vec<Handed>,
    course: &[Passed],
    wanted: bool,
    from: Option<u32>,
    way: Way,
) -> Result<(), AllocError>
    ensures { OnOk result (list.new.items ≡ list.old.items ++ spec.along (length course.now) (passed_in course.now) wanted from way) }
{
    let there = known_at(course, way.to as usize);
    let arriving = arriving(wanted, way.known, there, from);
    push_handed(list, course.len(), way.to, arriving)
}

fn push_ways(
    list: &mut Vec<Handed>,
    course: &[Passed],
    wanted: bool,
    from: Option<u32>,
    ways: &[Way],
) -> Result<(), AllocError>
    ensures { OnOk result (list.new.items ≡ list.old.items ++ flat_map (spec.along (length course.now) (passed_in course.now) wanted from) ways.now) }
{
    for way in ways {
        push_along(list, course, wanted, from, *way)?;
    }
    Ok(())
}

/// What a point hands on along its edges.
fn edges_of(
    alloc: Global,
    course: &[Passed],
    sources: &[bool],
    wanted: bool,
    at: usize,
    from: Option<u32>,
) -> Result<Vec<Handed>, AllocError>
    requires few { length course.now < 2 ^ 32 }
    requires there { at < length course.now }
    ensures { IfOk result (λ list. list.items ≡ spec.turning_edges (length course.now) (passed_in course.now) (is_in sources.now) wanted at from) }
{
    let passed = &course[at];
    let mut list = Vec::new(alloc);
    if at + 1 < course.len() {
        push_handed(&mut list, course.len(), (at + 1) as u32, None)?;
    }
    let handed = handed(sources, at as u32, from);
    push_ways(&mut list, course, wanted, handed, passed.ways.as_slice())?;
    Ok(list)
}

/// The lesser of two numbers, where there are two.
fn least(left: Option<u32>, right: Option<u32>) -> Option<u32>
    ensures { result ≡ spec.least left right }
{
    match left {
        None => right,
        Some(left) => match right {
            None => Some(left),
            Some(right) => Some(if right < left { right } else { left }),
        },
    }
}

fn is_same(left: Option<u32>, right: Option<u32>) -> bool
    ensures same { result ≡ true → left ≡ right }
    ensures other { result ≡ false → left ≡ right → ⊥ }
{
    left == right
}

impl<'a> Dataflow for Turning<'a> {
    ghost use Rattle.std.specs.Prelude.{length};
    ghost use Rattle.jn_voided.specs.Courses.{is_in, passed_in};
    ghost use Rattle.jn_voided.specs.Turning.{turning};
    ghost use Rattle.jn_voided.specs.TurningLaws.{turning_lawful};

    type Env = Option<u32>;

    ghost describe = { λ it. turning (length it.course.now) (passed_in it.course.now) (is_in it.sources.now) it.wanted };

    fn points(&self) -> usize {
        self.course.len()
    }

    fn entry(&self, _alloc: Global) -> Result<Option<u32>, OutOfMemory> {
        Ok(None)
    }

    fn copy(&self, _alloc: Global, from: &Option<u32>) -> Result<Option<u32>, OutOfMemory> {
        Ok(*from)
    }

    fn edges(
        &self,
        alloc: Global,
        at: usize,
        from: &Option<u32>,
    ) -> Result<Vec<Handed>, OutOfMemory> {
        Ok(edges_of(alloc, self.course, self.sources, self.wanted, at, *from)?)
    }

    fn join(&self, from: &mut Option<u32>, other: &Option<u32>) -> bool {
        let joined = least(*from, *other);
        let same = is_same(joined, *from);
        *from = joined;
        !same
    }

    ghost laws = { λ it. turning_lawful (length it.course.now) (passed_in it.course.now) (is_in it.sources.now) it.wanted };
}
