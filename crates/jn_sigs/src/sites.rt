//! Methods that bodies call.
ghost use Rattle.std.specs.Prelude.{◌≡◌, ℕ, ◌&&◌, ◌||◌, not, eqb, length, IfOk};
ghost use Rattle.jn_points.specs.Lookup.{class_of, private_of, method_at};
ghost use Rattle.jn_points.specs.Members.{some_of};
ghost use Rattle.jn_sigs.specs.Marks.{AreFlags, Marked};
ghost use Rattle.jn_sigs.specs.Signature.{calls_method, is_method, is_slot, method_has_slot};
ghost use Rattle.jn_sigs.specs.Signature.{calls_from, is_called, uncalled_from};

use jn_base::{MethodNo, SlotNo};
use jn_points::lookup::{class_of, method_at};
use jn_points::{Body, Method, PointKind, Program};
use std::alloc::{AllocError, Global};

/// For each slot, whether it is of a method without a call site that counts.
pub fn uncalled_slots(alloc: Global, program: &Program) -> Result<Vec<bool>, AllocError>
    ensures slots { IfOk result (λ flags. length flags.items ≡ length program.now.slots) }
    ensures flags { IfOk result
        (λ flags. AreFlags flags.items (λ i. uncalled_from program.now i 0 program.now.methods)) }
{
    let called = called_methods(alloc, program)?;
    let mut flags = vec![in alloc; false; program.slots.len()]?;
    mark_uncalled(program, &called, &mut flags);
    Ok(flags)
}

/// For each method, whether a body calls it, of a private one whether a body of its class does.
fn called_methods(alloc: Global, program: &Program) -> Result<Vec<bool>, AllocError>
    ensures methods { IfOk result (λ flags. length flags.items ≡ length program.now.methods) }
    ensures flags { IfOk result (λ flags. AreFlags flags.items (is_called program.now)) }
{
    let mut flags = vec![in alloc; false; program.methods.len()]?;
    mark_called(program, &mut flags);
    Ok(flags)
}

fn mark_called(program: &Program, flags: &mut [bool])
    ensures { Marked flags.old flags.new (is_called program.now) }
{
    for body in program.bodies.as_slice() {
        mark_calls(program, body, flags);
    }
}

fn mark_calls(program: &Program, body: &Body, flags: &mut [bool])
    ensures { Marked flags.old flags.new
        (λ m. calls_from program.now m (private_of (method_at program.now m))
        (class_of (method_at program.now m)) body.now) }
{
    let class = class_of(program, body.method).0;
    for point in body.points.as_slice() {
        mark_call(program, class, &point.kind, flags);
    }
}

fn mark_call(program: &Program, class: u32, kind: &PointKind, flags: &mut [bool])
    ensures { Marked flags.old flags.new
        (λ m. (not (private_of (method_at program.now m))
        || eqb class (class_of (method_at program.now m))) && calls_method m kind.now) }
{
    if let Some(method) = called_by(kind) {
        if counts(program, class, method) {
            mark(flags, method.0);
        }
    }
}

/// Whether a call in a class's body counts for the method.
fn counts(program: &Program, class: u32, method: MethodNo) -> bool
    ensures { result
        ≡ (not (private_of (method_at program.now method.0))
        || eqb class (class_of (method_at program.now method.0))) }
{
    !is_private(program, method) || class == class_of(program, method).0
}

/// Whether the method is private.
fn is_private(program: &Program, method: MethodNo) -> bool
    ensures { result ≡ private_of (method_at program.now method.0) }
{
    match method_at(program, method.0 as usize) {
        None => false,
        Some(info) => info.is_private,
    }
}

/// The method that a point calls by name.
fn called_by(kind: &PointKind) -> Option<MethodNo>
    ensures { (m : ℕ) → calls_method m kind.now ≡ is_method m result }
{
    match kind {
        PointKind::New { ctor, .. } => Some(*ctor),
        PointKind::CtorCall { ctor, .. } => Some(*ctor),
        PointKind::Call { method, .. } => Some(*method),
        _ => None,
    }
}

fn mark_uncalled(program: &Program, called: &[bool], flags: &mut [bool])
    requires methods { length called.now ≡ length program.now.methods }
    requires called { AreFlags called.now (is_called program.now) }
    ensures { Marked flags.old flags.new (λ i. uncalled_from program.now i 0 program.now.methods) }
{
    for (i, method) in program.methods.as_slice().iter().enumerate() {
        if !called[i] {
            mark_slots(method, flags);
        }
    }
}

/// Marks the slots of the method's receiver, result and parameters.
fn mark_slots(method: &Method, flags: &mut [bool])
    ensures { Marked flags.old flags.new (λ i. method_has_slot i method.now) }
{
    mark_slot(method.receiver, flags);
    mark_slot(method.result_slot, flags);
    mark_each(method.param_slots.as_slice(), flags);
}

fn mark_each(slots: &[Option<SlotNo>], flags: &mut [bool])
    ensures { Marked flags.old flags.new (λ i. some_of (is_slot i) slots.now) }
{
    for slot in slots {
        mark_slot(*slot, flags);
    }
}

fn mark_slot(slot: Option<SlotNo>, flags: &mut [bool])
    ensures { Marked flags.old flags.new (λ i. is_slot i slot) }
{
    if let Some(slot) = slot {
        mark(flags, slot.0);
    }
}

/// Sets the flag, where there is one.
fn mark(flags: &mut [bool], at: u32)
    ensures { Marked flags.old flags.new (λ i. eqb at i) }
{
    let at = at as usize;
    if at < flags.len() {
        flags[at] = true;
    }
}
