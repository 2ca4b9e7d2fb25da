//! The points at which values stand that a rule may ask something of, by the places of the text.
ghost use Rattle.std.specs.Prelude.{◌≡◌, ◌<◌, ◌^◌, ◌++◌, ◌∷◌, length, IfOk, OnOk};
ghost use Rattle.jn_points.specs.Lookup.{body_at, points_of};
ghost use Rattle.jn_points.specs.Operands.{operand_if};
ghost use Rattle.jn_reasons.specs.declared.sources.Spot.{Spot as SpotOf};
ghost use Rattle.jn_tables_law.specs.Inferable.{IsInferable};
ghost use Rattle.jn_sites.specs.Marks.{AreSites, asked, body_marks, marks};
ghost use Rattle.jn_sites.specs.Sites.{Adds};

use crate::sites::Sites;
use jn_base::lists::put;
use jn_base::{BodyNo, OutOfMemory, PointNo, Row, Span};
use jn_points::{Operand, Point, PointKind, Program};
use jn_reasons::Spot;
use std::alloc::{AllocError, Global};

/// Keeps the point for the places of these values.
fn mark_each(sites: &mut Sites<Spot>, spot: Spot, values: &[Operand]) -> Result<(), AllocError>
    ensures { OnOk result (Adds SpotOf (marks spot values.now) sites.old sites.new) }
{
    for value in values {
        sites.put(value.span, spot)?;
    }
    Ok(())
}

fn mark_maybe(sites: &mut Sites<Spot>, spot: Spot, value: Option<Operand>) -> Result<(), AllocError>
    ensures { OnOk result (Adds SpotOf (marks spot (operand_if value)) sites.old sites.new) }
{
    match value {
        None => Ok(()),
        Some(value) => mark_each(sites, spot, &[value]),
    }
}

/// A value that may be absent, and others.
fn mark_call(
    sites: &mut Sites<Spot>,
    spot: Spot,
    receiver: Option<Operand>,
    args: &[Operand],
) -> Result<(), AllocError>
    ensures { OnOk result
        (Adds SpotOf (marks spot (operand_if receiver ++ args.now)) sites.old sites.new) }
{
    mark_maybe(sites, spot, receiver)?;
    mark_each(sites, spot, args)?;
    Ok(())
}

/// A value, and one that may be absent.
fn mark_string(
    sites: &mut Sites<Spot>,
    spot: Spot,
    of: Operand,
    other: Option<Operand>,
) -> Result<(), AllocError>
    ensures { OnOk result
        (Adds SpotOf (marks spot (of ∷ operand_if other)) sites.old sites.new) }
{
    mark_each(sites, spot, &[of])?;
    mark_maybe(sites, spot, other)?;
    Ok(())
}

/// Keeps the point for the places of the values that a rule may ask something of.
fn mark_kind(sites: &mut Sites<Spot>, spot: Spot, kind: &PointKind) -> Result<(), AllocError>
    ensures { OnOk result (Adds SpotOf (marks spot (asked kind.now)) sites.old sites.new) }
{
    match kind {
        PointKind::Move { from, .. } => mark_each(sites, spot, &[*from]),
        PointKind::FieldRead { object, .. } => mark_each(sites, spot, &[*object]),
        PointKind::FieldWrite { object, value, .. } => mark_each(sites, spot, &[*object, *value]),
        PointKind::ElemRead { array, .. } => mark_each(sites, spot, &[*array]),
        PointKind::ElemWrite { array, value, .. } => mark_each(sites, spot, &[*array, *value]),
        PointKind::ArrayLen { array, .. } => mark_each(sites, spot, &[*array]),
        PointKind::ArrayOf { values, .. } => mark_each(sites, spot, values.as_slice()),
        PointKind::New { args, .. } => mark_each(sites, spot, args.as_slice()),
        PointKind::CtorCall { args, .. } => mark_each(sites, spot, args.as_slice()),
        PointKind::Call { receiver, args, .. } => {
            mark_call(sites, spot, *receiver, args.as_slice())
        }
        PointKind::StrOp { of, other, .. } => mark_string(sites, spot, *of, *other),
        PointKind::Return { value } => mark_maybe(sites, spot, *value),
        _ => Ok(()),
    }
}

/// Keeps the points of a body.
fn mark_points(
    sites: &mut Sites<Spot>,
    program: &Program,
    body: BodyNo,
    points: &[Point],
) -> Result<(), AllocError>
    requires points { points.now ≡ points_of (body_at program.now body.0) }
    requires short { length points.now < 2 ^ 32 }
    ensures { OnOk result (Adds SpotOf (body_marks program.now body.0) sites.old sites.new) }
{
    let _program = program;
    for at in 0..points.len() {
        let point = PointNo(at as u32);
        mark_kind(sites, Spot { body, point }, &points[at].kind)?;
    }
    Ok(())
}

fn mark_body(sites: &mut Sites<Spot>, program: &Program, body: BodyNo) -> Result<(), AllocError>
    requires inside { body.0 < length program.now.bodies }
    requires short { length (points_of (body_at program.now body.0)) < 2 ^ 32 }
    ensures { OnOk result (Adds SpotOf (body_marks program.now body.0) sites.old sites.new) }
{
    let info = &program.bodies.as_slice()[body.0 as usize];
    mark_points(sites, program, body, info.points.as_slice())
}

/// The places of rows.
///
/// # Errors
/// No memory was found.
pub fn spans_of(alloc: Global, rows: &[Row]) -> Result<Vec<Span>, AllocError> {
    let mut spans = Vec::new(alloc);
    for row in rows {
        put(&mut spans, row.span)?;
    }
    Ok(spans)
}

/// The points at which values stand that a rule may ask something of, for each of these places of the text.
///
/// # Errors
/// No memory was found.
pub fn find_sites(
    alloc: Global,
    program: &Program,
    spans: &[Span],
) -> Result<Sites<Spot>, OutOfMemory>
    requires inferable { IsInferable program.now }
    ensures { IfOk result (λ sites. AreSites program.now sites) }
{
    let mut sites = Sites::of(alloc, spans)?;
    for body in 0..program.bodies.len() {
        mark_body(&mut sites, program, BodyNo(body as u32))?;
    }
    Ok(sites)
}
