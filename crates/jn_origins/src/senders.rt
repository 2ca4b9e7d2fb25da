//! Which bodies can send to which slots.
ghost use Rattle.std.specs.Prelude.{◌≡◌, ◌<◌, ◌^◌, ◌++◌, ◌∷◌, [], IfOk, OnOk, length, slice_get, slice_index_or, true};
ghost use Rattle.jn_points.specs.Lookup.{body_at, method_at, method_in, points_of, slots_of};
ghost use Rattle.jn_env.specs.Keys.{own_keys};
ghost use Rattle.jn_transfer.specs.Contributions.{is_inferred, receiver_slot_of, result_slot_of};
ghost use Rattle.jn_origins.specs.Leading.{AreKnown};
ghost use Rattle.jn_origins.specs.Targets.{Added, AreSenders, IsOf, all_targets, fields_list, slot_list, slots_list, targets};

use crate::bodies::{KnownBody, known_of};
use jn_base::lists::{empty_lists, push_at};
use jn_base::{BodyNo, FieldNo, MethodNo, OutOfMemory, Seq, SlotNo};
use jn_points::lookup::{method_at, method_in};
use jn_points::{Point, PointKind, Program};
use jn_transfer::lookup::field_slot;
use std::alloc::{AllocError, Global};

/// Whether the slot is there and inferred.
fn is_inferred(program: &Program, slot: SlotNo) -> bool
    ensures { result ≡ is_inferred (slice_get program.now.slots slot.0) }
{
    match program.slots.as_slice().get(slot.0 as usize) {
        None => false,
        Some(info) => info.inferred,
    }
}

/// Whether the number at the place is this one.
fn is_at(list: &[u32], at: usize, body: u32) -> bool
    requires inside { at < length list.now }
    ensures { result ≡ true → IsOf body list.now }
{
    list[at] == body
}

/// Whether the last number of the list is this one.
fn ends_in(list: &[u32], body: u32) -> bool
    ensures { result ≡ true → IsOf body list.now }
{
    if list.len() == 0 {
        return false;
    }
    is_at(list, list.len() - 1, body)
}

/// Adds the body to the list at a place, where it isn't the last there.
fn add_at(
    program: &Program,
    lists: &mut Vec<Seq<u32>>,
    at: usize,
    body: BodyNo,
) -> Result<(), AllocError>
    requires inside { at < length lists.old.items }
    ensures { OnOk result (Added program.now body.0 (at ∷ []) lists.old.items lists.new.items) }
{
    let _program = program;
    if ends_in(lists[at].as_slice(), body.0) {
        return Ok(());
    }
    push_at(lists, at, body.0)?;
    Ok(())
}

/// Adds the body to the list of an inferred slot.
fn add_slot(
    program: &Program,
    lists: &mut Vec<Seq<u32>>,
    slot: Option<SlotNo>,
    body: BodyNo,
) -> Result<(), AllocError>
    ensures { OnOk result
        (Added program.now body.0 (slot_list slot) lists.old.items lists.new.items) }
{
    let Some(slot) = slot else {
        return Ok(());
    };
    if !is_inferred(program, slot) {
        return Ok(());
    }
    let at = slot.0 as usize;
    if at < lists.len() {
        add_at(program, lists, at, body)
    } else {
        Ok(())
    }
}

/// To each of the slots.
fn add_slots(
    program: &Program,
    lists: &mut Vec<Seq<u32>>,
    slots: &[Option<SlotNo>],
    body: BodyNo,
) -> Result<(), AllocError>
    ensures { OnOk result
        (Added program.now body.0 (slots_list slots.now) lists.old.items lists.new.items) }
{
    for slot in slots {
        add_slot(program, lists, *slot, body)?;
    }
    Ok(())
}

/// To the slots of each of the fields.
fn add_fields(
    program: &Program,
    lists: &mut Vec<Seq<u32>>,
    fields: &[u32],
    body: BodyNo,
) -> Result<(), AllocError>
    ensures { OnOk result
        (Added program.now body.0 (fields_list program.now fields.now) lists.old.items
        lists.new.items) }
{
    for field in fields {
        add_slot(program, lists, field_slot(program, FieldNo(*field)), body)?;
    }
    Ok(())
}

/// The slots of the method's parameters.
fn param_slots(program: &Program, method: MethodNo) -> &[Option<SlotNo>]
    ensures { result.now ≡ slots_of (method_at program.now method.0) }
{
    match method_at(program, method.0 as usize) {
        None => &[],
        Some(info) => info.param_slots.as_slice(),
    }
}

fn receiver_slot(program: &Program, method: MethodNo) -> Option<SlotNo>
    ensures { result ≡ receiver_slot_of (method_at program.now method.0) }
{
    match method_at(program, method.0 as usize) {
        None => None,
        Some(info) => info.receiver,
    }
}

fn body_result(program: &Program, body: BodyNo) -> Option<SlotNo>
    ensures { result ≡ result_slot_of (method_in program.now body.0) }
{
    match method_in(program, body.0 as usize) {
        None => None,
        Some(info) => info.result_slot,
    }
}

fn add_call(
    program: &Program,
    lists: &mut Vec<Seq<u32>>,
    method: MethodNo,
    body: BodyNo,
) -> Result<(), AllocError>
    ensures { OnOk result
        (Added program.now body.0
        (slots_list (slots_of (method_at program.now method.0))
        ++ slot_list (receiver_slot_of (method_at program.now method.0))) lists.old.items
        lists.new.items) }
{
    add_slots(program, lists, param_slots(program, method), body)?;
    add_slot(program, lists, receiver_slot(program, method), body)?;
    Ok(())
}

fn add_return(
    program: &Program,
    lists: &mut Vec<Seq<u32>>,
    own: &[u32],
    body: BodyNo,
) -> Result<(), AllocError>
    requires own { own.now ≡ own_keys program.now body.0 }
    ensures { OnOk result
        (Added program.now body.0
        (slot_list (result_slot_of (method_in program.now body.0))
        ++ fields_list program.now (own_keys program.now body.0)) lists.old.items
        lists.new.items) }
{
    add_slot(program, lists, body_result(program, body), body)?;
    add_fields(program, lists, own, body)?;
    Ok(())
}

/// To the slots to which a point can send.
fn add_kind(
    program: &Program,
    lists: &mut Vec<Seq<u32>>,
    own: &[u32],
    kind: &PointKind,
    body: BodyNo,
) -> Result<(), AllocError>
    requires own { own.now ≡ own_keys program.now body.0 }
    ensures { OnOk result
        (Added program.now body.0 (targets program.now body.0 kind.now) lists.old.items
        lists.new.items) }
{
    match kind {
        PointKind::FieldWrite { field, .. } => {
            add_slot(program, lists, field_slot(program, *field), body)
        }
        PointKind::New { ctor, .. } => {
            add_slots(program, lists, param_slots(program, *ctor), body)
        }
        PointKind::CtorCall { ctor, .. } => {
            add_slots(program, lists, param_slots(program, *ctor), body)
        }
        PointKind::Call { method, .. } => add_call(program, lists, *method, body),
        PointKind::Return { .. } => add_return(program, lists, own, body),
        _ => Ok(()),
    }
}

fn add_points(
    program: &Program,
    lists: &mut Vec<Seq<u32>>,
    own: &[u32],
    points: &[Point],
    body: BodyNo,
) -> Result<(), AllocError>
    requires own { own.now ≡ own_keys program.now body.0 }
    ensures { OnOk result
        (Added program.now body.0 (all_targets program.now body.0 points.now) lists.old.items
        lists.new.items) }
{
    for point in points {
        add_kind(program, lists, own, &point.kind, body)?;
    }
    Ok(())
}

fn add_body(
    program: &Program,
    bodies: &[KnownBody],
    lists: &mut Vec<Seq<u32>>,
    body: BodyNo,
) -> Result<(), AllocError>
    requires inside { body.0 < length program.now.bodies }
    requires known { AreKnown program.now bodies.now }
    ensures { OnOk result
        (Added program.now body.0
        (all_targets program.now body.0 (points_of (body_at program.now body.0)))
        lists.old.items lists.new.items) }
{
    let known = known_of(program, bodies, body);
    let info = &program.bodies.as_slice()[body.0 as usize];
    let points = info.points.as_slice();
    add_points(program, lists, known.keys.own.as_slice(), points, body)
}

/// For each slot the bodies that can send to it, where it is inferred.
///
/// # Errors
/// No memory was found.
pub(crate) fn find_senders(
    alloc: Global,
    program: &Program,
    bodies: &[KnownBody],
) -> Result<Vec<Seq<u32>>, OutOfMemory>
    requires few { length program.now.bodies < 2 ^ 32 }
    requires known { AreKnown program.now bodies.now }
    ensures { IfOk result (λ lists. AreSenders program.now lists.items) }
{
    let mut lists = empty_lists(alloc, program.slots.len())?;
    for body in 0..program.bodies.len() {
        add_body(program, bodies, &mut lists, BodyNo(body as u32))?;
    }
    Ok(lists)
}

/// The bodies that can send to a slot.
pub(crate) fn senders_of(lists: &[Seq<u32>], slot: SlotNo) -> &[u32]
    ensures { result.now ≡ slice_index_or lists.now slot.0 [] }
{
    match lists.get(slot.0 as usize) {
        None => &[],
        Some(list) => list.as_slice(),
    }
}
