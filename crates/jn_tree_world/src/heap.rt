//! Fields and static fields (JLS 8.3, 15.11.1 and 15.26.1).
ghost use Rattle.std.specs.Prelude.{◌≡◌, slice_get};
ghost use Rattle.jn_heap.specs.State.{got_plain, got_prim, object_of, prim_of};
ghost use Rattle.jn_heap.specs.Steps as steps;
ghost use Rattle.jn_meaning.specs.Operations as ops;
ghost use Rattle.jn_meaning.specs.Worlds as spec;
ghost use Rattle.jn_tree_world.specs.Outcomes.{Means, Puts};
ghost use Rattle.jn_tree_world.specs.Worlds.{world_of};

use crate::halt::Halt;
use crate::values::{got, prim};
use crate::world::World;
use jn_base::{FieldNo, Span};
use jn_machine::lists::put;
use jn_machine::{Got, Value, members};
use jn_points::Program;

/// The place on the heap that a value refers to.
pub fn object(value: &Option<Value>) -> Option<usize>
    ensures { result ≡ object_of value.now }
{
    match value {
        None => None,
        Some(given) => given.object(),
    }
}

/// The value of a static field.
pub fn read_static(w: &World, field: FieldNo, span: Span) -> Result<Option<Value>, Halt>
    ensures { Means
        (spec.got span (got_plain (got_prim (slice_get w.now.statics.items field.0)))
        (world_of w.now))
        result (world_of w.now) }
{
    got(members::read_static(&w.statics, field), span)
}

/// The value of an object's field.
pub fn read_field(
    program: &Program,
    w: &World,
    of: &Option<Value>,
    field: FieldNo,
    span: Span,
) -> Result<Option<Value>, Halt>
    ensures { Means
        (spec.got span (steps.read_field program.now w.now.heap.items (object_of of.now) field.0)
        (world_of w.now))
        result (world_of w.now) }
{
    match members::read_field(program, &w.heap, object(of), field) {
        Err(_) => Err(Halt::OutOfMemory),
        Ok(given) => got(given, span),
    }
}

/// An int or boolean into a static field; it is then given.
pub fn write_static(
    w: &mut World,
    field: FieldNo,
    value: Option<Value>,
) -> Result<Option<Value>, Halt>
    ensures { Means (ops.write_static_of (world_of w.old) field.0 value (prim_of value)) result
        (world_of w.new) }
{
    match prim(&value) {
        None => Err(Halt::Senseless),
        Some(prim) => {
            put(&mut w.statics, field.0 as usize, prim);
            Ok(value)
        }
    }
}

/// Puts a value into a field of the thing at a place.
fn set_field(
    program: &Program,
    w: &mut World,
    place: usize,
    field: FieldNo,
    value: Value,
) -> Got<()>
    ensures put { Puts
        (steps.write_in program.now (slice_get w.old.heap.items place) field.0 value) result place
        w.old.heap.items w.new.heap.items }
    ensures statics { w.new.statics ≡ w.old.statics }
    ensures out { w.new.out ≡ w.old.out }
    ensures locals { w.new.locals ≡ w.old.locals }
    ensures fuel { w.new.fuel ≡ w.old.fuel }
{
    if place >= w.heap.len() {
        return Got::Lacks;
    }
    let thing = &mut w.heap[place];
    thing.set_field(program, field, value)
}

/// A value into an object's field; it is then given.
pub fn write_field(
    program: &Program,
    w: &mut World,
    span: Span,
    object: Option<usize>,
    field: FieldNo,
    value: Option<Value>,
) -> Result<Option<Value>, Halt>
    ensures { Means (ops.write_field_of program.now (world_of w.old) span object field.0 value)
        result (world_of w.new) }
{
    let Some(place) = object else {
        return Err(Halt::Senseless);
    };
    let Some(given) = value else {
        return Err(Halt::Senseless);
    };
    let Ok(copy) = given.copy() else {
        return Err(Halt::OutOfMemory);
    };
    match set_field(program, w, place, field, copy) {
        Got::Gives(()) => Ok(Some(given)),
        Got::Fails(end) => Err(Halt::Faulted(end, span)),
        Got::Lacks => Err(Halt::Senseless),
    }
}
