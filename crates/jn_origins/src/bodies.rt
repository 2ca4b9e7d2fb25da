//! What is found once of each body: its keys, and which points lead to which.
ghost use Rattle.std.specs.Prelude.{◌≡◌, ◌<◌, ◌+◌, ◌^◌, ◌∷◌, [], IfOk, OnOk, length, slice_index_or};
ghost use Rattle.jn_env.specs.ClassFields.{AreOwnFields};
ghost use Rattle.jn_env.specs.Code.{AreKeys};
ghost use Rattle.jn_tables_law.specs.Inferable.{IsInferable};
ghost use Rattle.jn_origins.specs.Leading.{AreJumps, AreKnown, AreLed, IsKnown, edge_list, point_list};

use jn_base::lists::{empty_lists, push_at, put};
use jn_base::{BodyNo, OutOfMemory, PointNo, Seq};
use jn_env::{Keys, OwnFields, find_keys_by};
use jn_points::{Body, Edges, Program, edges};
use std::alloc::{AllocError, Global};

/// The keys of a body, and for each point those that lead to it and don't stand right before it.
#[derive(Drop)]
pub struct KnownBody {
    pub keys: Keys,
    pub jumps: Seq<Seq<u32>>,
}

/// Adds the point to the list at a place.
fn add_at(lists: &mut Vec<Seq<u32>>, at: usize, from: PointNo) -> Result<(), AllocError>
    requires inside { at < length lists.old.items }
    ensures { OnOk result (AreLed from.0 (at ∷ []) lists.old.items lists.new.items) }
{
    push_at(lists, at, from.0)?;
    Ok(())
}

/// Adds the point to the list of the one that an edge goes to, where that one doesn't stand right after it.
fn add_to(lists: &mut Vec<Seq<u32>>, from: PointNo, to: PointNo) -> Result<(), AllocError>
    requires small { from.0 + 1 < 2 ^ 32 }
    ensures { OnOk result (AreLed from.0 (to.0 ∷ []) lists.old.items lists.new.items) }
{
    if to.0 == from.0 + 1 {
        return Ok(());
    }
    let at = to.0 as usize;
    if at < lists.len() {
        add_at(lists, at, from)
    } else {
        Ok(())
    }
}

fn add_edge(lists: &mut Vec<Seq<u32>>, from: PointNo, to: Option<PointNo>) -> Result<(), AllocError>
    requires small { from.0 + 1 < 2 ^ 32 }
    ensures { OnOk result (AreLed from.0 (point_list to) lists.old.items lists.new.items) }
{
    match to {
        None => Ok(()),
        Some(to) => add_to(lists, from, to),
    }
}

fn add_edges(lists: &mut Vec<Seq<u32>>, from: PointNo, edges: Edges) -> Result<(), AllocError>
    requires small { from.0 + 1 < 2 ^ 32 }
    ensures { OnOk result (AreLed from.0 (edge_list edges) lists.old.items lists.new.items) }
{
    add_edge(lists, from, edges.first)?;
    add_edge(lists, from, edges.second)?;
    Ok(())
}

/// For each point of a body those that lead to it and don't stand right before it.
fn find_jumps(alloc: Global, body: &Body) -> Result<Vec<Seq<u32>>, AllocError>
    requires short { length body.now.points < 2 ^ 32 }
    ensures { IfOk result (λ lists. AreJumps body.now.points lists.items) }
{
    let count = body.points.len();
    let mut lists = empty_lists(alloc, count)?;
    for at in 0..count {
        let from = PointNo(at as u32);
        let leads = edges(body, from);
        add_edges(&mut lists, from, leads)?;
    }
    Ok(lists)
}

fn known_body(
    alloc: Global,
    program: &Program,
    fields: &OwnFields,
    body: BodyNo,
) -> Result<KnownBody, OutOfMemory>
    requires inside { body.0 < length program.now.bodies }
    requires inferable { IsInferable program.now }
    requires fields { AreOwnFields program.now fields.now }
    ensures { IfOk result (λ known. IsKnown program.now body.0 known) }
{
    let keys = find_keys_by(alloc, program, fields, body)?;
    let info = &program.bodies.as_slice()[body.0 as usize];
    let jumps = find_jumps(alloc, info)?;
    Ok(KnownBody {
        keys,
        jumps: Seq::of_vec(jumps),
    })
}

/// Of each body, in the order of bodies.
///
/// # Errors
/// No memory was found.
pub(crate) fn find_known(
    alloc: Global,
    program: &Program,
    fields: &OwnFields,
) -> Result<Vec<KnownBody>, OutOfMemory>
    requires inferable { IsInferable program.now }
    requires fields { AreOwnFields program.now fields.now }
    ensures { IfOk result (λ bodies. AreKnown program.now bodies.items) }
{
    let mut bodies = Vec::new(alloc);
    for body in 0..program.bodies.len() {
        let known = known_body(alloc, program, fields, BodyNo(body as u32))?;
        put(&mut bodies, known)?;
    }
    Ok(bodies)
}

/// What is known of a body.
pub(crate) fn known_of<'a>(
    program: &Program,
    bodies: &'a [KnownBody],
    body: BodyNo,
) -> &'a KnownBody
    requires inside { body.0 < length program.now.bodies }
    requires known { AreKnown program.now bodies.now }
    ensures known { IsKnown program.now body.0 result.now }
    ensures keys { AreKeys program.now body.0 result.now.keys }
{
    let _program = program;
    &bodies[body.0 as usize]
}

/// The points that lead to this one and don't stand right before it.
pub(crate) fn jumps_to(jumps: &[Seq<u32>], point: PointNo) -> &[u32]
    ensures { result.now ≡ slice_index_or jumps.now point.0 [] }
{
    match jumps.get(point.0 as usize) {
        None => &[],
        Some(list) => list.as_slice(),
    }
}
