//! The causes of a register's bit before a point.
ghost use Rattle.std.specs.Prelude.{◌≡◌, ◌<◌, ◌+◌, ◌^◌, ◌++◌, ◌&&◌, IfOk, OnOk, Some, eqb, length};
ghost use Rattle.jn_points.specs.Lookup.{method_in};
ghost use Rattle.jn_env.specs.Order.{env_in, qual_at};
ghost use Rattle.jn_env.specs.Sized.{EnvSized};
ghost use Rattle.jn_reasons_law.specs.declared.item.Item.TheVariants.{AtRegister};
ghost use Rattle.jn_reasons_law.specs.declared.item.Place.TheVariants.{OfBody, OfPoint};
ghost use Rattle.jn_reasons_law.specs.Items.{on};
ghost use Rattle.jn_reasons_law.specs.Sources.{at_entry, behind};
ghost use Rattle.jn_reasons.specs.Listed.{placed, over_edge, over_edges, over_point, entered, carried, causes};
ghost use Rattle.jn_reasons.specs.Listed as spec;
ghost use Rattle.jn_origins.specs.Leading.{leads, previous};
ghost use Rattle.jn_origins.specs.Targets.{AreSame, over};

use crate::adding::{add_placed, is_on};
use crate::origins::LeastOrigins;
use crate::tabled::Tabled;
use jn_base::{BodyNo, OutOfMemory, PointNo, RegNo};
use jn_env::Env;
use jn_points::{Point, PointKind, Program};
use jn_reasons::{Asked, Cause, Spot, add_behind, add_entry};
use jn_reasons_law::{Bit, Place};
use jn_transfer::Edge;
use std::alloc::{AllocError, Global};

/// What is asked: where the bit of a register before the point comes from.
#[derive(Clone, Copy)]
pub(crate) struct Wanted {
    pub point: PointNo,
    pub reg: RegNo,
    pub bit: Bit,
}

/// Whether the edge goes to the point, and the register has the bit after it.
fn is_wanted(edge: &Edge, wanted: Wanted) -> bool
    ensures { result
        ≡ (eqb edge.now.0 wanted.point.0 && on wanted.bit (qual_at edge.now.1 wanted.reg.0)) }
{
    if edge.0 == wanted.point.0 {
        is_on(edge.1.qual(wanted.reg), wanted.bit)
    } else {
        false
    }
}

/// What the register has the bit from, after a point.
fn add_sources(
    alloc: Global,
    program: &Program,
    list: &mut Vec<Cause>,
    kind: &PointKind,
    env: &Env,
    asked: Asked,
) -> Result<(), AllocError>
    ensures { OnOk result (list.new.items
        ≡ list.old.items
        ++ placed (OfPoint asked.spot.body.0 asked.spot.point.0)
        (behind asked.spot.body.0 asked.spot.point.0 program.now env.now kind.now asked.reg.0
        asked.bit)) }
{
    let mut sources = Vec::new(alloc);
    add_behind(program, &mut sources, env, kind, asked)?;
    add_placed(
        list,
        Place::OfPoint(asked.spot.body.0, asked.spot.point.0),
        &sources,
    )
}

/// Over an edge of a point.
fn add_edge(
    alloc: Global,
    program: &Program,
    list: &mut Vec<Cause>,
    kind: &PointKind,
    env: &Env,
    spot: Spot,
    edge: &Edge,
    wanted: Wanted,
) -> Result<(), AllocError>
    ensures { OnOk result (list.new.items
        ≡ list.old.items
        ++ over_edge program.now spot.body.0 wanted.point.0 wanted.reg.0 wanted.bit spot.point.0
        kind.now env.now edge.now) }
{
    let asked = Asked {
        spot,
        reg: wanted.reg,
        bit: wanted.bit,
    };
    if is_wanted(edge, wanted) {
        add_sources(alloc, program, list, kind, env, asked)
    } else {
        Ok(())
    }
}

/// Over the edges of a point.
fn add_edges(
    alloc: Global,
    program: &Program,
    list: &mut Vec<Cause>,
    kind: &PointKind,
    env: &Env,
    spot: Spot,
    edges: &[Edge],
    wanted: Wanted,
) -> Result<(), AllocError>
    ensures { OnOk result (list.new.items
        ≡ list.old.items
        ++ over_edges program.now spot.body.0 wanted.point.0 wanted.reg.0 wanted.bit spot.point.0
        kind.now env.now edges.now) }
{
    for edge in edges {
        add_edge(alloc, program, list, kind, env, spot, edge, wanted)?;
    }
    Ok(())
}

/// Whether a point leads to another, whatever is known there.
fn leads(kind: &PointKind, from: PointNo, to: PointNo) -> bool
    requires small { from.0 + 1 < 2 ^ 32 }
    ensures { result ≡ leads kind.now from.0 to.0 }
{
    match kind {
        PointKind::TestInst { yes, no, .. } => yes.0 == to.0 || no.0 == to.0,
        PointKind::TestNull { null, non_null, .. } => null.0 == to.0 || non_null.0 == to.0,
        PointKind::Branch { yes, no, .. } => yes.0 == to.0 || no.0 == to.0,
        PointKind::Goto { to: next } => next.0 == to.0,
        PointKind::Return { .. } => false,
        _ => from.0 + 1 == to.0,
    }
}

/// Over a point, where it leads there and is reached.
fn add_point(
    alloc: Global,
    of: &Tabled,
    list: &mut Vec<Cause>,
    point: &Point,
    at: PointNo,
    wanted: Wanted,
) -> Result<(), OutOfMemory>
    requires small { at.0 + 1 < 2 ^ 32 }
    ensures { OnOk result (list.new.items
        ≡ list.old.items
        ++ over_point of.now.program of.now.sig of.now.body wanted.point.0 wanted.reg.0 wanted.bit
        at.0 (Some point.now) (env_in of.now.table at.0)) }
{
    if !leads(&point.kind, at, wanted.point) {
        return Ok(());
    }
    match of.env(at) {
        None => Ok(()),
        Some(env) => add_reached(alloc, of, list, point, at, env, wanted),
    }
}

/// Over a reached point.
fn add_reached(
    alloc: Global,
    of: &Tabled,
    list: &mut Vec<Cause>,
    point: &Point,
    at: PointNo,
    env: &Env,
    wanted: Wanted,
) -> Result<(), OutOfMemory>
    requires small { at.0 + 1 < 2 ^ 32 }
    requires sized { EnvSized of.now.program of.now.body env.now }
    ensures { OnOk result (list.new.items
        ≡ list.old.items
        ++ over_point of.now.program of.now.sig of.now.body wanted.point.0 wanted.reg.0 wanted.bit
        at.0 (Some point.now) (Some env.now)) }
{
    let edges = of.edges(alloc, &point.kind, at, env)?;
    let spot = Spot {
        body: of.body(),
        point: at,
    };
    let program = of.program();
    add_edges(alloc, program, list, &point.kind, env, spot, &edges, wanted)?;
    Ok(())
}

/// Over a point of a body, where it is there.
#[tactic(auto, using(crate::proofs::Leads::carried_at, crate::proofs::Leads::carried_past))]
fn add_at(
    alloc: Global,
    of: &Tabled,
    list: &mut Vec<Cause>,
    at: u32,
    wanted: Wanted,
) -> Result<(), OutOfMemory>
    ensures { OnOk result (list.new.items
        ≡ list.old.items
        ++ carried of.now.program of.now.sig of.now.body of.now.table wanted.point.0 wanted.reg.0
        wanted.bit at) }
{
    let points = of.points();
    let place = at as usize;
    if place < points.len() {
        add_point(alloc, of, list, &points[place], PointNo(at), wanted)
    } else {
        Ok(())
    }
}

/// Over the point that stands right before.
#[tactic(auto, using(crate::proofs::Leads::previous_none, crate::proofs::Leads::previous_some))]
fn add_previous(
    alloc: Global,
    of: &Tabled,
    list: &mut Vec<Cause>,
    wanted: Wanted,
) -> Result<(), OutOfMemory>
    ensures { OnOk result (list.new.items
        ≡ list.old.items
        ++ previous (carried of.now.program of.now.sig of.now.body of.now.table wanted.point.0
        wanted.reg.0 wanted.bit) wanted.point.0) }
{
    if wanted.point.0 == 0 {
        return Ok(());
    }
    let at = wanted.point.0 - 1;
    add_at(alloc, of, list, at, wanted)
}

/// Over these points.
fn add_jumps(
    alloc: Global,
    of: &Tabled,
    list: &mut Vec<Cause>,
    jumps: &[u32],
    wanted: Wanted,
) -> Result<(), OutOfMemory>
    ensures { OnOk result (list.new.items
        ≡ list.old.items
        ++ over (carried of.now.program of.now.sig of.now.body of.now.table wanted.point.0
        wanted.reg.0 wanted.bit) jumps.now) }
{
    for from in jumps {
        add_at(alloc, of, list, *from, wanted)?;
    }
    Ok(())
}

/// The sources at the entry.
fn add_entry_sources(
    alloc: Global,
    program: &Program,
    list: &mut Vec<Cause>,
    body: BodyNo,
    wanted: Wanted,
) -> Result<(), AllocError>
    ensures { OnOk result (list.new.items
        ≡ list.old.items
        ++ placed (OfBody body.0) (at_entry (method_in program.now body.0) wanted.reg.0 wanted.bit)) }
{
    let mut sources = Vec::new(alloc);
    add_entry(program, &mut sources, body, wanted.reg, wanted.bit)?;
    add_placed(list, Place::OfBody(body.0), &sources)
}

/// At the entry, where the register has the bit there.
fn add_first(
    alloc: Global,
    of: &Tabled,
    list: &mut Vec<Cause>,
    wanted: Wanted,
) -> Result<(), OutOfMemory>
    ensures { OnOk result (list.new.items
        ≡ list.old.items
        ++ entered of.now.program of.now.sig of.now.body 0 wanted.reg.0 wanted.bit) }
{
    let env = of.entry(alloc)?;
    if is_on(env.qual(wanted.reg), wanted.bit) {
        add_entry_sources(alloc, of.program(), list, of.body(), wanted)?;
    }
    Ok(())
}

/// At the entry, where the point is the first.
fn add_entered(
    alloc: Global,
    of: &Tabled,
    list: &mut Vec<Cause>,
    wanted: Wanted,
) -> Result<(), OutOfMemory>
    ensures { OnOk result (list.new.items
        ≡ list.old.items
        ++ entered of.now.program of.now.sig of.now.body wanted.point.0 wanted.reg.0 wanted.bit) }
{
    if wanted.point.0 == 0 {
        add_first(alloc, of, list, wanted)
    } else {
        Ok(())
    }
}

/// Of a body with its table.
fn causes_by(alloc: Global, of: &Tabled, wanted: Wanted) -> Result<Vec<Cause>, OutOfMemory>
    ensures { IfOk result (λ list. AreSame list.items
        (spec.register_causes of.now.program of.now.sig of.now.body of.now.table wanted.point.0
        wanted.reg.0 wanted.bit)) }
{
    of.facts();
    let mut list = Vec::new(alloc);
    add_entered(alloc, of, &mut list, wanted)?;
    add_previous(alloc, of, &mut list, wanted)?;
    let there = of.jumps_to(wanted.point);
    add_jumps(alloc, of, &mut list, there, wanted)?;
    Ok(list)
}

/// Of a body that is there.
#[tactic(auto, using(crate::proofs::OfBody::causes_for))]
fn causes_of_body(
    alloc: Global,
    origins: &LeastOrigins,
    body: BodyNo,
    wanted: Wanted,
) -> Result<Vec<Cause>, OutOfMemory>
    requires inside { body.0 < length origins.now.program.bodies }
    ensures { IfOk result (λ list. AreSame list.items
        (causes origins.now.program origins.now.sig origins.now.tables
        (AtRegister body.0 wanted.point.0 wanted.reg.0 wanted.bit))) }
{
    let of = origins.of_body(body);
    let list = causes_by(alloc, &of, wanted)?;
    Ok(list)
}

/// The causes of a register's bit before a point, whether their sources stand or not.
#[tactic(auto, using(crate::proofs::Leads::no_body_same))]
pub(crate) fn register_causes(
    alloc: Global,
    origins: &LeastOrigins,
    body: BodyNo,
    wanted: Wanted,
) -> Result<Vec<Cause>, OutOfMemory>
    ensures { IfOk result (λ list. AreSame list.items
        (causes origins.now.program origins.now.sig origins.now.tables
        (AtRegister body.0 wanted.point.0 wanted.reg.0 wanted.bit))) }
{
    if (body.0 as usize) < origins.program().bodies.len() {
        causes_of_body(alloc, origins, body, wanted)
    } else {
        Ok(Vec::new(alloc))
    }
}
