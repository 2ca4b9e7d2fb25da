//! What values may be.
ghost use Rattle.std.specs.Prelude.{◌≡◌, ◌+◌, ◌<◌, ◌^◌, [], IfOk, MatchOption, None, Some, length, slice_index_or};
ghost use Rattle.jn_env.specs.Order.{env_in};
ghost use Rattle.jn_env.specs.Sized.{EnvSized};
ghost use Rattle.jn_origins.specs.Standing.{AreSized};
ghost use Rattle.jn_points.specs.Lookup.{point_at};
ghost use Rattle.jn_tables_law.specs.Inferable.{IsInferable};
ghost use Rattle.jn_transfer.specs.Transfer.{transfer};
ghost use Rattle.jn_lsp_hover.specs.Values as spec;

use crate::spot::Spot;
use jn_base::{BodyNo, OutOfMemory, RegNo};
use jn_env::{Env, FlowTable, env_at, find_keys};
use jn_points::lookup::{is_reference, reg_base};
use jn_points::{Point, PointKind, Program};
use jn_quals::Qual;
use jn_sigs::Sig;
use jn_transfer::{Analysis, Edge};
use std::alloc::Global;

/// Along the edges of a point.
fn qual_along(edges: &[Edge], reg: RegNo) -> Option<Qual>
    ensures { result ≡ spec.qual_along reg.0 edges.now }
{
    match edges {
        [] => None,
        [edge, ..] => Some(edge.1.qual(reg)),
    }
}

/// After a point of the analysed body.
fn qual_behind(
    alloc: Global,
    analysis: &Analysis,
    kind: &PointKind,
    at: u32,
    reg: RegNo,
    env: &Env,
) -> Result<Option<Qual>, OutOfMemory>
    requires sized { EnvSized analysis.now.program analysis.now.body env.now }
    requires small { at + 1 < 2 ^ 32 }
    ensures { IfOk result (λ qual. qual
        ≡ spec.qual_along reg.0
        (transfer analysis.now.program analysis.now.sig analysis.now.body kind.now at env.now)) }
{
    let edges = analysis.edges_after(alloc, kind, at, env)?;
    Ok(qual_along(&edges, reg))
}

/// After the point that makes the value.
fn made_qual(
    alloc: Global,
    program: &Program,
    sig: &Sig,
    spot: Spot,
    point: &Point,
    env: &Env,
) -> Result<Option<Qual>, OutOfMemory>
    requires inferable { IsInferable program.now }
    requires inside { spot.body < length program.now.bodies }
    requires small { spot.point + 1 < 2 ^ 32 }
    requires sized { EnvSized program.now spot.body env.now }
    ensures { IfOk result (λ qual. qual
        ≡ spec.qual_after program.now sig.now spot.body spot.point spot.reg env.now
        (Some point.now)) }
{
    let body = BodyNo(spot.body);
    let keys = find_keys(alloc, program, body)?;
    let analysis = Analysis::new(program, sig, body, &keys);
    let qual = qual_behind(
        alloc,
        &analysis,
        &point.kind,
        spot.point,
        RegNo(spot.reg),
        env,
    )?;
    Ok(qual)
}

/// The point of the value, where it is there.
fn point_of(program: &Program, spot: Spot) -> Option<&Point>
    ensures { MatchOption result (point_at program.now spot.body spot.point ≡ None)
        (λ p. point_at program.now spot.body spot.point ≡ Some p.now) }
{
    match program.bodies.as_slice().get(spot.body as usize) {
        None => None,
        Some(info) => info.points.as_slice().get(spot.point as usize),
    }
}

#[tactic(auto, using(crate::proofs::Inside::body_inside, crate::proofs::Inside::point_small))]
fn qual_after(
    alloc: Global,
    program: &Program,
    sig: &Sig,
    spot: Spot,
    env: &Env,
) -> Result<Option<Qual>, OutOfMemory>
    requires inferable { IsInferable program.now }
    requires sized { EnvSized program.now spot.body env.now }
    ensures { IfOk result (λ qual. qual
        ≡ spec.qual_after program.now sig.now spot.body spot.point spot.reg env.now
        (point_at program.now spot.body spot.point)) }
{
    match point_of(program, spot) {
        None => Ok(None),
        Some(point) => made_qual(alloc, program, sig, spot, point, env),
    }
}

/// Before the point where the value is read, after it where it is made.
fn qual_by(
    alloc: Global,
    program: &Program,
    sig: &Sig,
    spot: Spot,
    env: &Env,
) -> Result<Option<Qual>, OutOfMemory>
    requires inferable { IsInferable program.now }
    requires sized { EnvSized program.now spot.body env.now }
    ensures { IfOk result (λ qual. qual ≡ spec.qual_by program.now sig.now spot env.now) }
{
    if spot.is_made {
        qual_after(alloc, program, sig, spot, env)
    } else {
        Ok(Some(env.qual(RegNo(spot.reg))))
    }
}

/// The table of a body; empty where it isn't there.
fn table_of(tables: &[FlowTable], body: u32) -> &[Option<Env>]
    ensures { result.now ≡ slice_index_or tables.now body [] }
{
    match tables.get(body as usize) {
        None => &[],
        Some(table) => table.slots(),
    }
}

fn qual_where(
    alloc: Global,
    program: &Program,
    sig: &Sig,
    tables: &[FlowTable],
    spot: Spot,
) -> Result<Option<Qual>, OutOfMemory>
    requires inside { spot.body < length program.now.bodies }
    requires inferable { IsInferable program.now }
    requires sized { AreSized program.now tables.now }
    ensures { IfOk result (λ qual. qual
        ≡ spec.qual_where program.now sig.now spot
        (env_in (slice_index_or tables.now spot.body []) spot.point)) }
{
    match env_at(table_of(tables, spot.body), spot.point as usize) {
        None => Ok(None),
        Some(env) => qual_by(alloc, program, sig, spot, env),
    }
}

/// What a value may be, by the tables of all bodies: before the point that reads it, or after the one that makes it. None of a value that is no
/// reference, or whose point isn't reached.
///
/// # Errors
/// No memory was found.
#[tactic(auto, using(crate::proofs::Inside::ref_inside))]
pub fn qual_of(
    alloc: Global,
    program: &Program,
    sig: &Sig,
    tables: &[FlowTable],
    spot: Spot,
) -> Result<Option<Qual>, OutOfMemory>
    requires inferable { IsInferable program.now }
    requires sized { AreSized program.now tables.now }
    ensures { IfOk result (λ qual. qual ≡ spec.qual_of program.now sig.now tables.now spot) }
{
    if is_reference(reg_base(program, spot.body as usize, RegNo(spot.reg))) {
        qual_where(alloc, program, sig, tables, spot)
    } else {
        Ok(None)
    }
}
