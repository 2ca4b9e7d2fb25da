//! What a reached point sends into inferred slots.
ghost use Rattle.std.specs.Prelude.{◌≡◌, ◌++◌, ◌∷◌, [], OnOk, cond, slice_get, slice_index_or, None};
ghost use Rattle.jn_points.specs.Lookup.{slots_of, method_at, method_in};
ghost use Rattle.jn_quals.specs.Order.{null_only};
ghost use Rattle.jn_transfer.specs.Contributions.{is_inferred, receiver_slot_of, result_slot_of, sends, arg_sends, receiver_sends, return_sends, unset_sends, kind_sends};
ghost use Rattle.jn_env.specs.Keys.{own_keys};

use jn_base::{BodyNo, FieldNo, MethodNo, SlotNo};
use jn_env::bits::is_assigned_by;
use jn_env::{Env, FieldNumbers};
use jn_points::{Operand, PointKind, Program};
use jn_quals::Qual;
use jn_transfer::lookup::field_slot;
use std::alloc::AllocError;

/// The number of a slot, and the qualifier that is sent to it.
pub type Send = (u32, Qual);

/// Whether the slot is there and inferred.
fn is_inferred(program: &Program, slot: SlotNo) -> bool
    ensures { result ≡ is_inferred (slice_get program.now.slots slot.0) }
{
    match program.slots.as_slice().get(slot.0 as usize) {
        None => false,
        Some(info) => info.inferred,
    }
}

fn push_if(list: &mut Vec<Send>, wanted: bool, item: Send) -> Result<(), AllocError>
    ensures { OnOk result (list.new.items ≡ list.old.items ++ cond wanted (item ∷ []) []) }
{
    if wanted {
        list.push(item)?;
    }
    Ok(())
}

/// To an inferred slot alone.
pub(crate) fn send(
    program: &Program,
    list: &mut Vec<Send>,
    slot: Option<SlotNo>,
    qual: Qual,
) -> Result<(), AllocError>
    ensures { OnOk result (list.new.items ≡ list.old.items ++ sends program.now slot qual) }
{
    match slot {
        None => Ok(()),
        Some(slot) => push_if(list, is_inferred(program, slot), (slot.0, qual)),
    }
}

/// The slot at a place; None where there is none.
pub(crate) fn slot_at(slots: &[Option<SlotNo>], i: usize) -> Option<SlotNo>
    ensures { result ≡ slice_index_or slots.now i None }
{
    match slots.get(i) {
        None => None,
        Some(slot) => *slot,
    }
}

/// Each argument's qualifier, to its parameter.
fn send_args(
    program: &Program,
    list: &mut Vec<Send>,
    env: &Env,
    slots: &[Option<SlotNo>],
    args: &[Operand],
) -> Result<(), AllocError>
    ensures { OnOk result
        (list.new.items ≡ list.old.items ++ arg_sends program.now env.now slots.now args.now) }
{
    for i in 0..args.len() {
        send(program, list, slot_at(slots, i), env.qual(args[i].reg))?;
    }
    Ok(())
}

/// The slots of the method's parameters.
pub fn param_slots(program: &Program, method: MethodNo) -> &[Option<SlotNo>]
    ensures { result.now ≡ slots_of (method_at program.now method.0) }
{
    match program.methods.as_slice().get(method.0 as usize) {
        None => &[],
        Some(info) => info.param_slots.as_slice(),
    }
}

/// The arguments of a call of the method.
fn send_call(
    program: &Program,
    list: &mut Vec<Send>,
    env: &Env,
    method: MethodNo,
    args: &[Operand],
) -> Result<(), AllocError>
    ensures { OnOk result (list.new.items
        ≡ list.old.items
        ++ arg_sends program.now env.now (slots_of (method_at program.now method.0)) args.now) }
{
    send_args(program, list, env, param_slots(program, method), args)
}

/// The slot of a method's receiver.
pub fn receiver_slot(program: &Program, method: MethodNo) -> Option<SlotNo>
    ensures { result ≡ receiver_slot_of (method_at program.now method.0) }
{
    match program.methods.as_slice().get(method.0 as usize) {
        None => None,
        Some(info) => info.receiver,
    }
}

/// The slot of the result of the body's method.
pub fn result_slot(program: &Program, body: BodyNo) -> Option<SlotNo>
    ensures { result ≡ result_slot_of (method_in program.now body.0) }
{
    match program.bodies.as_slice().get(body.0 as usize) {
        None => None,
        Some(info) => match program.methods.as_slice().get(info.method.0 as usize) {
            None => None,
            Some(method) => method.result_slot,
        },
    }
}

/// A receiver's qualifier without null.
fn send_receiver(
    program: &Program,
    list: &mut Vec<Send>,
    env: &Env,
    slot: Option<SlotNo>,
    receiver: Option<Operand>,
) -> Result<(), AllocError>
    ensures { OnOk result
        (list.new.items ≡ list.old.items ++ receiver_sends program.now env.now slot receiver) }
{
    match receiver {
        None => Ok(()),
        Some(object) => send(program, list, slot, env.qual(object.reg).without_null()),
    }
}

/// The qualifier of the value that is returned.
fn send_value(
    program: &Program,
    list: &mut Vec<Send>,
    env: &Env,
    slot: Option<SlotNo>,
    value: Option<Operand>,
) -> Result<(), AllocError>
    ensures { OnOk result
        (list.new.items ≡ list.old.items ++ return_sends program.now env.now slot value) }
{
    match value {
        None => Ok(()),
        Some(value) => send(program, list, slot, env.qual(value.reg)),
    }
}

fn send_unless(
    program: &Program,
    list: &mut Vec<Send>,
    assigned: bool,
    slot: Option<SlotNo>,
) -> Result<(), AllocError>
    ensures { OnOk result
        (list.new.items ≡ list.old.items ++ cond assigned [] (sends program.now slot null_only)) }
{
    if assigned {
        Ok(())
    } else {
        send(program, list, slot, Qual::null_only())
    }
}

/// Null, to each of a constructor's own fields that isn't assigned.
fn send_unset(
    program: &Program,
    list: &mut Vec<Send>,
    env: &Env,
    own: &FieldNumbers,
) -> Result<(), AllocError>
    ensures { OnOk result (list.new.items
        ≡ list.old.items ++ unset_sends program.now own.now own.now env.now.assigned) }
{
    for field in own.as_slice() {
        let assigned = is_assigned_by(own, env, FieldNo(*field));
        send_unless(
            program,
            list,
            assigned,
            field_slot(program, FieldNo(*field)),
        )?;
    }
    Ok(())
}

fn send_method(
    program: &Program,
    list: &mut Vec<Send>,
    env: &Env,
    method: MethodNo,
    receiver: Option<Operand>,
    args: &[Operand],
) -> Result<(), AllocError>
    ensures { OnOk result (list.new.items
        ≡ list.old.items
        ++ (arg_sends program.now env.now (slots_of (method_at program.now method.0)) args.now
        ++ receiver_sends program.now env.now
        (receiver_slot_of (method_at program.now method.0)) receiver)) }
{
    send_call(program, list, env, method, args)?;
    send_receiver(program, list, env, receiver_slot(program, method), receiver)
}

fn send_return(
    program: &Program,
    list: &mut Vec<Send>,
    env: &Env,
    body: BodyNo,
    own: &FieldNumbers,
    value: Option<Operand>,
) -> Result<(), AllocError>
    requires { own.now ≡ own_keys program.now body.0 }
    ensures { OnOk result (list.new.items
        ≡ list.old.items
        ++ (return_sends program.now env.now (result_slot_of (method_in program.now body.0))
        value
        ++ unset_sends program.now (own_keys program.now body.0)
        (own_keys program.now body.0) env.now.assigned)) }
{
    send_value(program, list, env, result_slot(program, body), value)?;
    send_unset(program, list, env, own)
}

/// What a reached point of the body sends.
pub fn send_kind(
    program: &Program,
    list: &mut Vec<Send>,
    env: &Env,
    body: BodyNo,
    own: &FieldNumbers,
    kind: &PointKind,
) -> Result<(), AllocError>
    requires { own.now ≡ own_keys program.now body.0 }
    ensures { OnOk result
        (list.new.items ≡ list.old.items ++ kind_sends program.now body.0 env.now kind.now) }
{
    match kind {
        PointKind::FieldWrite { field, value, .. } => {
            let qual = env.qual(value.reg).settle();
            send(program, list, field_slot(program, *field), qual)
        }
        PointKind::New { ctor, args, .. } => send_call(program, list, env, *ctor, args.as_slice()),
        PointKind::CtorCall { ctor, args, .. } => {
            send_call(program, list, env, *ctor, args.as_slice())
        }
        PointKind::Call {
            method,
            receiver,
            args,
            ..
        } => send_method(program, list, env, *method, *receiver, args.as_slice()),
        PointKind::Return { value } => send_return(program, list, env, body, own, *value),
        _ => Ok(()),
    }
}
