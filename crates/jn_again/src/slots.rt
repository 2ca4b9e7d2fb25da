//! Masks that have no bit of a task's slots.
ghost use Rattle.std.specs.Prelude.{◌≡◌, ◌↔◌, ◌<◌, ◌^◌, ◌*◌, ◌/◌, ◌%◌, ◌&&◌, IfOk, Some, length, slice_index, true};
ghost use Rattle.jn_recheck_law.specs.Unread.{AreUnlost, methods_slots, pair_slots};
ghost use Rattle.jn_env.specs.Keys.{own_keys};
ghost use Rattle.jn_env.specs.ClassFields.{AreOwnFields};
ghost use Rattle.jn_points.specs.Lookup.{body_at, method_at, method_in, points_of};
ghost use Rattle.jn_recheck_law.specs.RuleReads.{field_slots, fields_slots, kind_slots, method_slots, points_slots, rule_reads};
ghost use Rattle.jn_recheck_law.specs.Slots.{slot_list, slot_lists};
ghost use Rattle.jn_transfer.specs.Pairs.{under};

use jn_base::{BodyNo, FieldNo, MethodNo, OutOfMemory, SlotNo};
use jn_env::{OwnFields, find_keys_by};
use jn_points::lookup::{field_info, method_at, method_in};
use jn_points::{Method, Point, PointKind, Program};
use jn_transfer::lookup::is_ctor;
use std::alloc::Global;

/// The mask of a word; zero where there is none.
fn mask_at(bits: &[u64], word: u32) -> u64
    ensures { result ≡ slice_index bits.now word }
{
    match bits.get(word as usize) {
        None => 0,
        Some(found) => *found,
    }
}

/// Whether the masks have none of the three bits of a slot.
fn is_clear(bits: &[u64], slot: u32) -> bool
    ensures { (result ≡ true)
        ↔ (slice_index bits.now (slot / 21) / 2 ^ (3 * (slot % 21)) % 8 ≡ 0) }
{
    (mask_at(bits, slot / 21) >> (3 * (slot % 21))) % 8 == 0
}

fn off_slot(bits: &[u64], slot: Option<SlotNo>) -> bool
    ensures { (result ≡ true) ↔ AreUnlost (slice_index bits.now) (slot_list slot) }
{
    match slot {
        None => true,
        Some(slot) => is_clear(bits, slot.0),
    }
}

fn off_slots(bits: &[u64], slots: &[Option<SlotNo>]) -> bool
    ensures { (result ≡ true) ↔ AreUnlost (slice_index bits.now) (slot_lists slots.now) }
{
    for at in 0..slots.len() {
        if !off_slot(bits, slots[at]) {
            return false;
        }
    }
    true
}

fn all_of(one: bool, two: bool, three: bool) -> bool
    ensures { result ≡ (one && two && three) }
{
    one && two && three
}

/// Whether they have none of a method's slots.
fn off_info(bits: &[u64], method: &Method) -> bool
    ensures { (result ≡ true) ↔ AreUnlost (slice_index bits.now) (method_slots (Some method.now)) }
{
    let receiver = off_slot(bits, method.receiver);
    let params = off_slots(bits, method.param_slots.as_slice());
    let result = off_slot(bits, method.result_slot);
    all_of(receiver, params, result)
}

fn off_method(bits: &[u64], program: &Program, method: MethodNo) -> bool
    ensures { (result ≡ true)
        ↔ AreUnlost (slice_index bits.now) (method_slots (method_at program.now method.0)) }
{
    match method_at(program, method.0 as usize) {
        None => true,
        Some(info) => off_info(bits, info),
    }
}

fn off_own_method(bits: &[u64], program: &Program, body: BodyNo) -> bool
    ensures { (result ≡ true)
        ↔ AreUnlost (slice_index bits.now) (method_slots (method_in program.now body.0)) }
{
    match method_in(program, body.0 as usize) {
        None => true,
        Some(info) => off_info(bits, info),
    }
}

fn off_field(bits: &[u64], program: &Program, field: u32) -> bool
    ensures { (result ≡ true) ↔ AreUnlost (slice_index bits.now) (field_slots program.now field) }
{
    match field_info(program, FieldNo(field)) {
        None => true,
        Some(info) => off_slot(bits, info.slot),
    }
}

/// Whether they have none of the slots that a point names.
fn off_point(bits: &[u64], program: &Program, kind: &PointKind) -> bool
    ensures { (result ≡ true)
        ↔ AreUnlost (slice_index bits.now) (kind_slots program.now kind.now) }
{
    match kind {
        PointKind::FieldRead { field, .. } => off_field(bits, program, field.0),
        PointKind::FieldWrite { field, .. } => off_field(bits, program, field.0),
        PointKind::New { ctor, .. } => off_method(bits, program, *ctor),
        PointKind::CtorCall { ctor, .. } => off_method(bits, program, *ctor),
        PointKind::Call { method, .. } => off_method(bits, program, *method),
        _ => true,
    }
}

fn off_points(bits: &[u64], program: &Program, points: &[Point]) -> bool
    ensures { (result ≡ true)
        ↔ AreUnlost (slice_index bits.now) (points_slots program.now points.now) }
{
    for at in 0..points.len() {
        if !off_point(bits, program, &points[at].kind) {
            return false;
        }
    }
    true
}

fn off_fields(bits: &[u64], program: &Program, fields: &[u32]) -> bool
    ensures { (result ≡ true)
        ↔ AreUnlost (slice_index bits.now) (fields_slots program.now fields.now) }
{
    for at in 0..fields.len() {
        if !off_field(bits, program, fields[at]) {
            return false;
        }
    }
    true
}

/// Whether they have none of the fields that a constructor has to assign.
#[tactic(auto, using(jn_reuse::proofs::Agreeing::no_own_keys))]
fn off_own_fields(
    alloc: Global,
    bits: &[u64],
    program: &Program,
    own: &OwnFields,
    body: BodyNo,
) -> Result<bool, OutOfMemory>
    requires inside { body.0 < length program.now.bodies }
    requires few { length program.now.fields < 2 ^ 32 }
    requires own { AreOwnFields program.now own.now }
    ensures { IfOk result (λ r. (r ≡ true)
        ↔ AreUnlost (slice_index bits.now) (fields_slots program.now (own_keys program.now body.0))) }
{
    if !is_ctor(program, body) {
        return Ok(true);
    }
    let keys = find_keys_by(alloc, program, own, body)?;
    Ok(off_fields(bits, program, keys.own.as_slice()))
}

fn off_all_points(bits: &[u64], program: &Program, body: BodyNo) -> bool
    requires inside { body.0 < length program.now.bodies }
    ensures { (result ≡ true) ↔ AreUnlost (slice_index bits.now)
        (points_slots program.now (points_of (body_at program.now body.0))) }
{
    let info = &program.bodies.as_slice()[body.0 as usize];
    off_points(bits, program, info.points.as_slice())
}

/// Whether the masks have none of the slots that a body reads or sends to.
///
/// # Errors
/// No memory was found.
pub fn off_body(
    alloc: Global,
    bits: &[u64],
    program: &Program,
    own: &OwnFields,
    body: BodyNo,
) -> Result<bool, OutOfMemory>
    requires inside { body.0 < length program.now.bodies }
    requires few { length program.now.fields < 2 ^ 32 }
    requires own { AreOwnFields program.now own.now }
    ensures { IfOk result
        (λ r. (r ≡ true) ↔ AreUnlost (slice_index bits.now) (rule_reads program.now body.0)) }
{
    let method = off_own_method(bits, program, body);
    let points = off_all_points(bits, program, body);
    let fields = off_own_fields(alloc, bits, program, own, body)?;
    Ok(all_of(method, points, fields))
}

fn off_methods(bits: &[u64], program: &Program, methods: &[u32]) -> bool
    ensures { (result ≡ true)
        ↔ AreUnlost (slice_index bits.now) (methods_slots program.now methods.now) }
{
    for at in 0..methods.len() {
        if !off_method(bits, program, MethodNo(methods[at])) {
            return false;
        }
    }
    true
}

fn both_of(one: bool, two: bool) -> bool
    ensures { result ≡ (one && two) }
{
    one && two
}

/// Whether the masks have none of the slots of an overriding method, and of those that it overrides.
pub fn off_pair(bits: &[u64], program: &Program, method: MethodNo, overridden: &[u32]) -> bool
    requires under { overridden.now ≡ under program.now method.0 }
    ensures { (result ≡ true)
        ↔ AreUnlost (slice_index bits.now) (pair_slots program.now method.0) }
{
    let own = off_method(bits, program, method);
    let others = off_methods(bits, program, overridden);
    both_of(own, others)
}
