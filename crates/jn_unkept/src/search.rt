//! The last test before of what is made alike.
ghost use Rattle.std.specs.Prelude.{◌≡◌, IfOk, None, Some};
ghost use Rattle.jn_unkept.specs.Making.{point_of};
ghost use Rattle.jn_unkept.specs.Unkept as spec;

use crate::alike::{Held, alike};
use crate::making::{is_local, maker, point_of};
use crate::stored::{Test, result_branches, stored_in, test_of};
use jn_base::OutOfMemory;
use jn_points::{Body, PointKind, Program};
use std::alloc::{AllocError, Global};

/// How a value is read of which no test is kept.
#[derive(Clone, Copy, Debug, PartialEq, Eq)]
pub enum Reading {
    /// As a field of what is in no local, parameter or `this`.
    OfField,
    /// As an element of an array.
    OfElement,
    /// As a method's result.
    OfResult,
    /// As a local, a parameter, `this` or a field of these: a test is kept, unless its result goes to a local.
    Stored,
}

/// A test that isn't kept, by its point, and how the value is read.
#[derive(Clone, Copy, Debug, PartialEq, Eq)]
pub struct Unkept {
    pub reading: Reading,
    pub tested: u32,
}

fn field_of(local: bool) -> Reading
    ensures { result ≡ spec.field_of local }
{
    if local {
        Reading::Stored
    } else {
        Reading::OfField
    }
}

fn reading_by(body: &Body, kind: &PointKind) -> Option<Reading>
    ensures { result ≡ spec.reading_by body.now kind.now }
{
    match kind {
        PointKind::FieldRead { object, .. } => Some(field_of(is_local(body, object.reg.0))),
        PointKind::ElemRead { .. } => Some(Reading::OfElement),
        PointKind::Call { .. } => Some(Reading::OfResult),
        _ => None,
    }
}

fn reading_of(body: &Body, point: u32) -> Option<Reading>
    ensures { result ≡ spec.reading_of body.now (point_of body.now point) }
{
    match point_of(body, point as usize) {
        None => None,
        Some(info) => reading_by(body, &info.kind),
    }
}

fn reading_at(body: &Body, point: Option<u32>) -> Option<Reading>
    ensures { result ≡ spec.reading_at body.now point }
{
    match point {
        None => None,
        Some(point) => reading_of(body, point),
    }
}

/// How a value is read.
fn how_read(body: &Body, value: Held) -> Option<Reading>
    ensures { result ≡ spec.how_read body.now value }
{
    if is_local(body, value.reg) {
        Some(Reading::Stored)
    } else {
        reading_at(body, maker(body, value.point, value.reg))
    }
}

/// Whether a test counts: where it would be kept, its result is in a local.
fn counts(reading: Reading, local: Option<u32>) -> bool
    ensures { result ≡ spec.counts reading local }
{
    match reading {
        Reading::Stored => local.is_some(),
        _ => true,
    }
}

/// Whether a test at a point is one of what is made alike.
fn is_test(
    alloc: Global,
    body: &Body,
    reading: Reading,
    value: Held,
    point: u32,
    test: Test,
) -> Result<bool, AllocError>
    ensures { IfOk result
        (λ r. r ≡ spec.tests_alike body.now reading value point (Some test)) }
{
    if counts(reading, stored_in(body, test)) {
        let tested = Held {
            point,
            reg: test.reg,
        };
        alike(alloc, body, value, tested)
    } else {
        Ok(false)
    }
}

fn tests_alike(
    alloc: Global,
    body: &Body,
    reading: Reading,
    value: Held,
    point: u32,
) -> Result<bool, AllocError>
    ensures { IfOk result (λ r. r
        ≡ spec.tests_alike body.now reading value point (spec.test_of (point_of body.now point))) }
{
    match test_of(body, point) {
        None => Ok(false),
        Some(test) => is_test(alloc, body, reading, value, point, test),
    }
}

/// The last point before that tests what is made alike.
fn last_test(
    alloc: Global,
    body: &Body,
    reading: Reading,
    value: Held,
) -> Result<Option<u32>, AllocError>
    ensures { IfOk result (λ found. found ≡ spec.last_test body.now reading value) }
{
    let mut at = value.point;
    while at > 0 {
        at -= 1;
        if tests_alike(alloc, body, reading, value, at)? {
            return Ok(Some(at));
        }
    }
    Ok(None)
}

fn matters(body: &Body, reading: Reading, value: Held, point: u32) -> bool
    ensures { result ≡ spec.matters body.now reading value point }
{
    match reading {
        Reading::Stored => result_branches(body, value, point),
        _ => true,
    }
}

/// The test at a point, where it matters.
fn found_at(body: &Body, reading: Reading, value: Held, point: Option<u32>) -> Option<Unkept>
    ensures { result ≡ spec.found_at body.now reading value point }
{
    match point {
        None => None,
        Some(tested) => {
            if matters(body, reading, value, tested) {
                Some(Unkept { reading, tested })
            } else {
                None
            }
        }
    }
}

fn found_by(
    alloc: Global,
    body: &Body,
    value: Held,
    reading: Reading,
) -> Result<Option<Unkept>, AllocError>
    ensures { IfOk result
        (λ found. found ≡ spec.found_by body.now value (Some reading)) }
{
    let point = last_test(alloc, body, reading, value)?;
    Ok(found_at(body, reading, value, point))
}

fn found_of(alloc: Global, body: &Body, value: Held) -> Result<Option<Unkept>, AllocError>
    ensures { IfOk result (λ found. found ≡ spec.found_of body.now value) }
{
    match how_read(body, value) {
        None => Ok(None),
        Some(reading) => found_by(alloc, body, value, reading),
    }
}

/// The test that isn't kept of a value of the body: the last before of what is made alike.
///
/// # Errors
/// No memory was found.
pub fn find_unkept(
    alloc: Global,
    program: &Program,
    body: u32,
    value: Held,
) -> Result<Option<Unkept>, OutOfMemory>
    ensures { IfOk result (λ found. found ≡ spec.unkept program.now body value) }
{
    match program.bodies.as_slice().get(body as usize) {
        None => Ok(None),
        Some(info) => Ok(found_of(alloc, info, value)?),
    }
}
