//! What a body sends into inferred slots, point by point.
ghost use Rattle.std.specs.Prelude.{◌≡◌, ◌<◌, ◌++◌, ◌^◌, IfOk, OnOk, length};
ghost use Rattle.jn_env.specs.Order.{env_in};
ghost use Rattle.jn_env.specs.Keys.{own_keys};
ghost use Rattle.jn_env.specs.Code.{AreKeys};
ghost use Rattle.jn_contrib.specs.Sends.{slot_numbers, point_sends, sends_from, body_sends};

use crate::sends::{Send, send_kind};
use jn_base::{BodyNo, OutOfMemory, SlotNo};
use jn_env::{Env, FieldNumbers, FlowTable, Keys, env_at, find_keys};
use jn_points::{Point, Program};
use jn_quals::Qual;
use jn_sigs::Sig;
use std::alloc::{AllocError, Global};

/// What the body sends into inferred slots under the table: point by point each slot with the
/// qualifier that is sent to it. One pair may stand several times.
///
/// # Errors
/// No memory was found.
pub fn contrib(
    alloc: Global,
    program: &Program,
    _sig: &Sig,
    body: BodyNo,
    table: &FlowTable,
) -> Result<Vec<(SlotNo, Qual)>, OutOfMemory>
    requires inside { body.0 < length program.now.bodies }
    requires few { length program.now.fields < 2 ^ 32 }
    ensures { IfOk result
        (λ sends. slot_numbers sends.items ≡ body_sends program.now body.0 table.now) }
{
    let keys = find_keys(alloc, program, body)?;
    contrib_by(alloc, program, &keys, body, table)
}

/// What a body whose keys are at hand sends; see `contrib`.
///
/// # Errors
/// No memory was found.
pub fn contrib_by(
    alloc: Global,
    program: &Program,
    keys: &Keys,
    body: BodyNo,
    table: &FlowTable,
) -> Result<Vec<(SlotNo, Qual)>, OutOfMemory>
    requires inside { body.0 < length program.now.bodies }
    requires keys { AreKeys program.now body.0 keys.now }
    ensures { IfOk result
        (λ sends. slot_numbers sends.items ≡ body_sends program.now body.0 table.now) }
{
    let info = &program.bodies.as_slice()[body.0 as usize];
    let points = info.points.as_slice();
    let list = all_sends(alloc, program, body, &keys.own, points, table.slots())?;
    Ok(with_slots(alloc, list)?)
}

fn all_sends(
    alloc: Global,
    program: &Program,
    body: BodyNo,
    own: &FieldNumbers,
    points: &[Point],
    slots: &[Option<Env>],
) -> Result<Vec<Send>, AllocError>
    requires { own.now ≡ own_keys program.now body.0 }
    ensures { IfOk result
        (λ list. list.items ≡ sends_from program.now body.0 points.now 0 slots.now) }
{
    let mut list = Vec::new(alloc);
    for at in 0..points.len() {
        send_point(program, &mut list, body, own, &points[at], slots, at)?;
    }
    Ok(list)
}

/// A point's, where it is reached.
fn send_point(
    program: &Program,
    list: &mut Vec<Send>,
    body: BodyNo,
    own: &FieldNumbers,
    point: &Point,
    slots: &[Option<Env>],
    at: usize,
) -> Result<(), AllocError>
    requires { own.now ≡ own_keys program.now body.0 }
    ensures { OnOk result (list.new.items
        ≡ list.old.items ++ point_sends program.now body.0 point.now (env_in slots.now at)) }
{
    match env_at(slots, at) {
        None => Ok(()),
        Some(env) => send_kind(program, list, env, body, own, &point.kind),
    }
}

/// The same with typed numbers of slots.
pub(crate) fn with_slots(alloc: Global, list: Vec<Send>) -> Result<Vec<(SlotNo, Qual)>, AllocError>
    ensures { IfOk result (λ xs. slot_numbers xs.items ≡ list.items) }
{
    let mut numbered = Vec::new(alloc);
    for (slot, qual) in list {
        numbered.push((SlotNo(slot), qual))?;
    }
    Ok(numbered)
}
