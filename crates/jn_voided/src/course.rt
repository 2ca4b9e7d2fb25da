//! The course of a fact through a body: where it is known that a field isn't null.
ghost use Rattle.std.specs.Prelude.{◌≡◌, ◌<◌, ◌^◌, ◌+◌, ◌++◌, ◌∷◌, [], ℕ, IfOk, OnOk, Some, None, length, map};
ghost use Rattle.jn_points.specs.Lookup.{body_at, points_of};
ghost use Rattle.jn_env.specs.Environment.{Env as EnvOf};
ghost use Rattle.jn_env.specs.Keys.{is_key};
ghost use Rattle.jn_env.specs.Order.{env_in};
ghost use Rattle.jn_env.specs.Sized.{EnvSized, Sized};
ghost use Rattle.jn_voided.specs.Courses.{AreMakers, IsCourse};
ghost use Rattle.jn_voided.specs.Voided as spec;

use jn_base::lists::put;
use jn_base::{FieldNo, OutOfMemory, RegNo, Seq};
use jn_env::{Env, FieldKey, env_at};
use jn_points::{Origin, Point, PointKind};
use jn_transfer::{Analysis, Edge};
use std::alloc::{AllocError, Global};

/// An edge: the number of the point that it leads to, and whether the fact is known after the point that it leaves.
#[derive(Clone, Copy, Debug, PartialEq, Eq)]
pub struct Way {
    pub to: u32,
    pub known: bool,
}

/// A point: whether the fact is known before it, None where the point is unreached, and its edges.
#[derive(Drop)]
pub struct Passed {
    pub known: Option<bool>,
    pub ways: Seq<Way>,
}

/// Whether the field of the object in the register is this one.
fn is_key(key: FieldKey, object: RegNo, field: FieldNo) -> bool
    ensures { result ≡ is_key key.reg key.field (record { reg = object.0; field = field.0 }) }
{
    object.0 == key.reg() && field.0 == key.field()
}

/// Whether the origin is the field of the object in the register.
fn is_of(key: FieldKey, origin: Option<Origin>) -> bool
    ensures { result ≡ spec.is_of key origin }
{
    match origin {
        None => false,
        Some(origin) => is_key(key, origin.reg, origin.field),
    }
}

/// Whether the point tests the field of the object in the register, or writes it.
fn makes(key: FieldKey, point: &Point) -> bool
    ensures { result ≡ spec.makes key (Some point.now) }
{
    match &point.kind {
        PointKind::FieldWrite { object, field, .. } => is_key(key, object.reg, *field),
        PointKind::TestInst { origin, .. } => is_of(key, *origin),
        PointKind::TestNull { origin, .. } => is_of(key, *origin),
        _ => false,
    }
}

/// The points that test the field of the object in the register, or write it.
///
/// # Errors
/// No memory was found.
pub(crate) fn find_makers(
    alloc: Global,
    points: &[Point],
    key: FieldKey,
) -> Result<Vec<bool>, AllocError>
    ensures { IfOk result (λ found. AreMakers key points.now found.items) }
{
    let mut found = Vec::new(alloc);
    for at in 0..points.len() {
        put(&mut found, makes(key, &points[at]))?;
    }
    Ok(found)
}

/// Whether the fact is known.
fn knows(analysis: &Analysis, key: FieldKey, env: &Env) -> bool
    ensures { result ≡ spec.knows analysis.now.program analysis.now.sig analysis.now.body key env.now }
{
    env.has_fact(analysis.keys(), RegNo(key.reg()), FieldNo(key.field()))
}

/// The edges, each with whether the fact is known after it.
fn ways_of(
    alloc: Global,
    analysis: &Analysis,
    key: FieldKey,
    edges: &[Edge],
) -> Result<Vec<Way>, AllocError>
    ensures { IfOk result (λ ways. ways.items
        ≡ map (spec.way analysis.now.program analysis.now.sig analysis.now.body key) edges.now) }
{
    let mut ways = Vec::new(alloc);
    for edge in edges {
        let known = knows(analysis, key, &edge.1);
        put(&mut ways, Way { to: edge.0, known })?;
    }
    Ok(ways)
}

/// A point that is reached.
fn reached(
    alloc: Global,
    analysis: &Analysis,
    key: FieldKey,
    point: &Point,
    at: u32,
    env: &Env,
) -> Result<Passed, OutOfMemory>
    requires small { at + 1 < 2 ^ 32 }
    requires sized { EnvSized analysis.now.program analysis.now.body env.now }
    ensures { IfOk result (λ passed. passed ≡ spec.passed_at analysis.now.program analysis.now.sig analysis.now.body key at (Some point.now) (Some env.now)) }
{
    let edges = analysis.edges_after(alloc, &point.kind, at, env)?;
    let ways = ways_of(alloc, analysis, key, &edges)?;
    Ok(Passed {
        known: Some(knows(analysis, key, env)),
        ways: Seq::of_vec(ways),
    })
}

/// A point that is unreached.
fn unreached(alloc: Global) -> Passed
    ensures { result ≡ record { known = None; ways = [] } }
{
    Passed {
        known: None,
        ways: Seq::new(alloc),
    }
}

/// A point.
fn passed_at(
    alloc: Global,
    analysis: &Analysis,
    key: FieldKey,
    point: &Point,
    at: u32,
    slots: &[Option<Env>],
) -> Result<Passed, OutOfMemory>
    requires small { at + 1 < 2 ^ 32 }
    requires sized { Sized analysis.now.program analysis.now.body slots.now }
    ensures { IfOk result (λ passed. passed ≡ spec.passed_at analysis.now.program analysis.now.sig analysis.now.body key at (Some point.now) (env_in slots.now at)) }
{
    match env_at(slots, at as usize) {
        None => Ok(unreached(alloc)),
        Some(env) => reached(alloc, analysis, key, point, at, env),
    }
}

/// The course of the fact on the field of the object in the register, through the points of the analysed body.
///
/// # Errors
/// No memory was found.
pub(crate) fn find_course(
    alloc: Global,
    analysis: &Analysis,
    key: FieldKey,
    points: &[Point],
    slots: &[Option<Env>],
) -> Result<Vec<Passed>, OutOfMemory>
    requires points { points.now ≡ points_of (body_at analysis.now.program analysis.now.body) }
    requires short { length points.now < 2 ^ 32 }
    requires sized { Sized analysis.now.program analysis.now.body slots.now }
    ensures long { IfOk result (λ course. length course.items ≡ length points.now) }
    ensures course { IfOk result (λ course. IsCourse analysis.now.program analysis.now.sig
        analysis.now.body slots.now key course.items) }
{
    let mut course = Vec::new(alloc);
    for at in 0..points.len() {
        let passed = passed_at(alloc, analysis, key, &points[at], at as u32, slots)?;
        put(&mut course, passed)?;
    }
    Ok(course)
}
