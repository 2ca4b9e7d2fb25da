//! Tests, and locals in which the results of tests are stored.
ghost use Rattle.std.specs.Prelude.{◌≡◌, ◌+◌, None, Some};
ghost use Rattle.jn_unkept.specs.Making.{last_below, point_of};
ghost use Rattle.jn_unkept.specs.declared.search.Reading.TheVariants.{Stored};
ghost use Rattle.jn_unkept.specs.Unkept as spec;

use crate::alike::Held;
use crate::making::{is_local, point_of};
use jn_points::{Body, Literal, PointKind};

/// A test: the register whose value is tested, and the points to which it goes.
#[derive(Clone, Copy, Debug, PartialEq, Eq)]
pub struct Test {
    pub reg: u32,
    pub first: u32,
    pub second: u32,
}

fn test_by(kind: &PointKind) -> Option<Test>
    ensures { result ≡ spec.test_by kind.now }
{
    match kind {
        PointKind::TestInst { of, yes, no, .. } => Some(Test {
            reg: of.reg.0,
            first: yes.0,
            second: no.0,
        }),
        PointKind::TestNull {
            of,
            null,
            non_null,
            ..
        } => Some(Test {
            reg: of.reg.0,
            first: null.0,
            second: non_null.0,
        }),
        _ => None,
    }
}

/// What a point tests.
pub(crate) fn test_of(body: &Body, point: u32) -> Option<Test>
    ensures { result ≡ spec.test_of (point_of body.now point) }
{
    match point_of(body, point as usize) {
        None => None,
        Some(info) => test_by(&info.kind),
    }
}

/// The register to which `true` or `false` is written.
fn truth_by(kind: &PointKind) -> Option<u32>
    ensures { result ≡ spec.truth_by kind.now }
{
    match kind {
        PointKind::Const {
            dst,
            value: Literal::Truth(_),
        } => Some(dst.0),
        _ => None,
    }
}

fn truth_of(body: &Body, point: u32) -> Option<u32>
    ensures { result ≡ spec.truth_of (point_of body.now point) }
{
    match point_of(body, point as usize) {
        None => None,
        Some(info) => truth_by(&info.kind),
    }
}

fn goes_on(point: usize, kind: &PointKind) -> usize
    ensures { result ≡ spec.goes_on point kind.now }
{
    match kind {
        PointKind::Goto { to } => to.0 as usize,
        _ => point,
    }
}

/// Where a run goes on from the point: a jump goes elsewhere.
fn over_jump(body: &Body, point: usize) -> usize
    ensures { result ≡ spec.over_jump point (point_of body.now point) }
{
    match point_of(body, point) {
        None => point,
        Some(info) => goes_on(point, &info.kind),
    }
}

fn copy_by(reg: u32, kind: &PointKind) -> Option<u32>
    ensures { result ≡ spec.copy_by reg kind.now }
{
    match kind {
        PointKind::Move { dst, from, .. } => { if from.reg.0 == reg { Some(dst.0) } else { None } }
        _ => None,
    }
}

/// The register to which the point copies this one.
fn copy_of(body: &Body, reg: u32, point: usize) -> Option<u32>
    ensures { result ≡ spec.copy_of reg (point_of body.now point) }
{
    match point_of(body, point) {
        None => None,
        Some(info) => copy_by(reg, &info.kind),
    }
}

fn local_of(body: &Body, reg: Option<u32>) -> Option<u32>
    ensures { result ≡ spec.local_of body.now reg }
{
    match reg {
        None => None,
        Some(reg) => { if is_local(body, reg) { Some(reg) } else { None } }
    }
}

/// The local to which the register goes from the point on.
fn copied_at(body: &Body, reg: u32, point: usize) -> Option<u32>
    ensures { result ≡ spec.local_of body.now
        (spec.copy_of reg (point_of body.now (spec.over_jump point (point_of body.now point)))) }
{
    local_of(body, copy_of(body, reg, over_jump(body, point)))
}

/// The local to which goes, after the point, what that writes.
fn copied_after(body: &Body, point: u32, reg: Option<u32>) -> Option<u32>
    ensures { result ≡ spec.copied_after body.now point reg }
{
    match reg {
        None => None,
        Some(reg) => copied_at(body, reg, point as usize + 1),
    }
}

/// The local to which the point sends `true` or `false`.
fn truth_goes(body: &Body, point: u32) -> Option<u32>
    ensures { result ≡ spec.truth_goes body.now point }
{
    copied_after(body, point, truth_of(body, point))
}

fn or_reg(first: Option<u32>, second: Option<u32>) -> Option<u32>
    ensures { result ≡ spec.or_reg first second }
{
    match first {
        None => second,
        Some(reg) => Some(reg),
    }
}

/// The local in which the result of a test is stored.
pub(crate) fn stored_in(body: &Body, test: Test) -> Option<u32>
    ensures { result ≡ spec.stored_in body.now test }
{
    or_reg(truth_goes(body, test.first), truth_goes(body, test.second))
}

/// The same of a point.
fn stored_at(body: &Body, point: u32) -> Option<u32>
    ensures { result ≡ spec.stored_at body.now (spec.test_of (point_of body.now point)) }
{
    match test_of(body, point) {
        None => None,
        Some(test) => stored_in(body, test),
    }
}

fn asks(reg: u32, kind: &PointKind) -> bool
    ensures { result ≡ spec.asks reg kind.now }
{
    match kind {
        PointKind::Branch { of, .. } => of.reg.0 == reg,
        _ => false,
    }
}

/// Whether the point goes one way or the other by what the register has.
fn is_asked(body: &Body, reg: u32, point: u32) -> bool
    ensures { result ≡ spec.is_asked reg (point_of body.now point) }
{
    match point_of(body, point as usize) {
        None => false,
        Some(info) => asks(reg, &info.kind),
    }
}

/// The last point before that goes by what the register has.
fn last_asked(body: &Body, reg: u32, before: u32) -> Option<u32>
    ensures { result ≡ last_below (λ k. spec.is_asked reg (point_of body.now k)) before }
{
    let mut at = before;
    while at > 0 {
        at -= 1;
        if is_asked(body, reg, at) {
            return Some(at);
        }
    }
    None
}

fn is_after(point: u32, other: Option<u32>) -> bool
    ensures { result ≡ spec.is_after point other }
{
    match other {
        None => false,
        Some(other) => point < other,
    }
}

/// Whether between the point and the value the way goes by what the local has.
fn branches(body: &Body, value: Held, point: u32, local: Option<u32>) -> bool
    ensures { result ≡ spec.branches body.now value point local }
{
    match local {
        None => false,
        Some(local) => is_after(point, last_asked(body, local, value.point)),
    }
}

/// Whether between the test at a point and the value the way goes by its result.
pub(crate) fn result_branches(body: &Body, value: Held, point: u32) -> bool
    ensures { result ≡ spec.matters body.now Stored value point }
{
    branches(body, value, point, stored_at(body, point))
}
