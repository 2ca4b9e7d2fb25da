//! Fields that a constructor leaves unassigned, each with the place of a return.
ghost use Rattle.std.specs.Prelude.{◌≡◌, ◌<◌, ◌++◌, OnOk, flat_map, length};
ghost use Rattle.jn_points.specs.Lookup.{method_in};
ghost use Rattle.jn_points.specs.Members.{below};
ghost use Rattle.jn_env.specs.Order.{env_in};
ghost use Rattle.jn_notes.specs.Asked.{stands_at};
ghost use Rattle.jn_notes.specs.Spoken as spec;

use crate::reads::same_span;
use crate::topics::Topic;
use jn_base::lists::put;
use jn_base::{BodyNo, Code, FieldNo, OutOfMemory, Span};
use jn_env::bits::is_assigned_by;
use jn_env::{Env, FieldNumbers, env_at, find_keys};
use jn_origins::Basis;
use jn_origins::slots::table_of;
use jn_points::lookup::method_in;
use jn_points::{Point, PointKind, Program};
use jn_sigs::Sig;
use jn_transfer::lookup::field_qual;
use std::alloc::{AllocError, Global};

/// Whether the point is a return at which the field isn't assigned.
fn leaves(kind: &PointKind, own: &FieldNumbers, env: &Env, field: u32) -> bool
    ensures { result ≡ spec.leaves_of own.now field kind.now env.now }
{
    match kind {
        PointKind::Return { .. } => !is_assigned_by(own, env, FieldNo(field)),
        _ => false,
    }
}

/// The same, where the point is reached.
fn leaves_at(
    kind: &PointKind,
    own: &FieldNumbers,
    slots: &[Option<Env>],
    at: usize,
    field: u32,
) -> bool
    ensures { result ≡ spec.leaves own.now field kind.now (env_in slots.now at) }
{
    match env_at(slots, at) {
        None => false,
        Some(env) => leaves(kind, own, env, field),
    }
}

/// The place of the first return at which the field isn't assigned.
fn left_from(
    points: &[Point],
    own: &FieldNumbers,
    slots: &[Option<Env>],
    field: u32,
) -> Option<Span>
    ensures { result ≡ spec.left_from own.now slots.now field points.now 0 }
{
    for at in 0..points.len() {
        let point = &points[at];
        if leaves_at(&point.kind, own, slots, at, field) {
            return Some(point.span);
        }
    }
    None
}

/// The field with the place of a return, where there is such.
fn put_by(topics: &mut Vec<Topic>, field: u32, end: Option<Span>) -> Result<(), AllocError>
    ensures { OnOk result (topics.new.items ≡ topics.old.items ++ spec.left_by field end) }
{
    match end {
        None => Ok(()),
        Some(end) => put(topics, Topic::Unassigned(field, end)),
    }
}

/// The field, where its slot takes no null and it is left.
fn put_field(
    topics: &mut Vec<Topic>,
    program: &Program,
    sig: &Sig,
    points: &[Point],
    own: &FieldNumbers,
    slots: &[Option<Env>],
    field: u32,
) -> Result<(), AllocError>
    ensures { OnOk result (topics.new.items
        ≡ topics.old.items
        ++ spec.left_of program.now sig.now points.now own.now slots.now field) }
{
    if field_qual(program, sig, field).has_null() {
        Ok(())
    } else {
        put_by(topics, field, left_from(points, own, slots, field))
    }
}

/// Those of these fields that are left.
fn put_fields(
    topics: &mut Vec<Topic>,
    program: &Program,
    sig: &Sig,
    points: &[Point],
    own: &FieldNumbers,
    slots: &[Option<Env>],
) -> Result<(), AllocError>
    ensures { OnOk result (topics.new.items
        ≡ topics.old.items
        ++ flat_map (spec.left_of program.now sig.now points.now own.now slots.now) own.now) }
{
    for field in own.as_slice() {
        put_field(topics, program, sig, points, own, slots, *field)?;
    }
    Ok(())
}

/// The fields of the constructor's class that are left.
fn put_all(
    topics: &mut Vec<Topic>,
    alloc: Global,
    basis: &Basis,
    body: BodyNo,
    slots: &[Option<Env>],
) -> Result<(), OutOfMemory>
    requires inside { body.0 < length basis.now.program.now.bodies }
    ensures { OnOk result (topics.new.items
        ≡ topics.old.items
        ++ spec.all_left basis.now.program.now basis.now.sig.now body.0 slots.now) }
{
    let keys = find_keys(alloc, basis.program, body)?;
    let info = &basis.program.bodies.as_slice()[body.0 as usize];
    let points = info.points.as_slice();
    put_fields(topics, basis.program, basis.sig, points, &keys.own, slots)?;
    Ok(())
}

/// Whether the body is of what is declared at the span.
fn stands_at(program: &Program, span: Span, body: BodyNo) -> bool
    ensures { result ≡ stands_at span (method_in program.now body.0) }
{
    match method_in(program, body.0 as usize) {
        None => false,
        Some(info) => same_span(info.span, span),
    }
}

fn put_in(
    topics: &mut Vec<Topic>,
    alloc: Global,
    basis: &Basis,
    span: Span,
    body: BodyNo,
) -> Result<(), OutOfMemory>
    requires inside { body.0 < length basis.now.program.now.bodies }
    ensures { OnOk result (topics.new.items
        ≡ topics.old.items
        ++ spec.left_in basis.now.program.now basis.now.sig.now span basis.now.tables.now body.0) }
{
    if stands_at(basis.program, span, body) {
        put_all(topics, alloc, basis, body, table_of(basis.tables, body))
    } else {
        Ok(())
    }
}

fn put_bodies(
    topics: &mut Vec<Topic>,
    alloc: Global,
    basis: &Basis,
    span: Span,
) -> Result<(), OutOfMemory>
    ensures { OnOk result (topics.new.items
        ≡ topics.old.items
        ++ flat_map
        (spec.left_in basis.now.program.now basis.now.sig.now span basis.now.tables.now)
        (below (length basis.now.program.now.bodies))) }
{
    for body in 0..basis.program.bodies.len() {
        put_in(topics, alloc, basis, span, BodyNo(body as u32))?;
    }
    Ok(())
}

/// Puts the fields of which a constructor's row speaks after what is there.
///
/// # Errors
/// No memory was found.
pub(crate) fn put_lefts(
    topics: &mut Vec<Topic>,
    alloc: Global,
    basis: &Basis,
    span: Span,
    code: Code,
) -> Result<(), OutOfMemory>
    ensures { OnOk result (topics.new.items
        ≡ topics.old.items
        ++ spec.left_for basis.now.program.now basis.now.sig.now span code basis.now.tables.now) }
{
    match code {
        Code::CtorFields => put_bodies(topics, alloc, basis, span),
        _ => Ok(()),
    }
}
