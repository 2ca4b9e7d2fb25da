//! Arrays (JLS 10, 15.10 and 15.26.1).
ghost use Rattle.std.specs.Prelude.{◌≡◌, slice_get};
ghost use Rattle.jn_heap.specs.State.{int_of, object_of, prim_of};
ghost use Rattle.jn_heap.specs.Steps as steps;
ghost use Rattle.jn_heap.specs.Values.{usual_limits};
ghost use Rattle.jn_machine.specs.Ends.{answer_of};
ghost use Rattle.jn_meaning.specs.Operations as ops;
ghost use Rattle.jn_meaning.specs.Worlds as spec;
ghost use Rattle.jn_tree_world.specs.Outcomes.{Means, Puts};
ghost use Rattle.jn_tree_world.specs.Worlds.{items_in, world_of};

use crate::halt::Halt;
use crate::heap::object;
use crate::values::{got, int};
use crate::world::World;
use jn_base::Span;
use jn_machine::members::{array_len, count, may_store, read_elem, repeated};
use jn_machine::thing::index;
use jn_machine::{Got, Thing, Value};
use jn_points::lookup::elem_base;
use jn_points::{BaseType, Program};
use std::alloc::Global;

/// An array's length (JLS 10.7).
pub fn read_length(w: &World, of: &Option<Value>, span: Span) -> Result<Option<Value>, Halt>
    ensures { Means
        (spec.got span (steps.array_len w.now.heap.items (object_of of.now)) (world_of w.now))
        result (world_of w.now) }
{
    got(array_len(&w.heap, object(of)), span)
}

/// An array's element (JLS 15.10.4).
pub fn read_element(
    w: &World,
    of: &Option<Value>,
    at: &Option<Value>,
    span: Span,
) -> Result<Option<Value>, Halt>
    ensures { Means
        (spec.got span
        (steps.read_elem w.now.heap.items (object_of of.now) (int_of (prim_of at.now)))
        (world_of w.now))
        result (world_of w.now) }
{
    match read_elem(&w.heap, object(of), int(at)) {
        Err(_) => Err(Halt::OutOfMemory),
        Ok(given) => got(given, span),
    }
}

/// Makes a value an element of the thing at a place.
#[tactic(auto, using(jn_machine::proofs::Pieces::store_is))]
fn set_element(
    program: &Program,
    w: &mut World,
    place: usize,
    at: Option<usize>,
    value: Value,
) -> Got<()>
    ensures put { Puts
        (steps.store_in program.now w.old.heap.items (slice_get w.old.heap.items place) at value)
        result place w.old.heap.items w.new.heap.items }
    ensures statics { w.new.statics ≡ w.old.statics }
    ensures out { w.new.out ≡ w.old.out }
    ensures locals { w.new.locals ≡ w.old.locals }
    ensures fuel { w.new.fuel ≡ w.old.fuel }
{
    let may = may_store(program, &w.heap, place, &value);
    if place >= w.heap.len() {
        return Got::Lacks;
    }
    let thing = &mut w.heap[place];
    thing.set_element(at, value, may)
}

/// A value into an array's element; it is then given (JLS 15.26.1).
pub fn write_element(
    program: &Program,
    w: &mut World,
    span: Span,
    object: Option<usize>,
    at: Option<i32>,
    value: Option<Value>,
) -> Result<Option<Value>, Halt>
    ensures { Means (ops.write_elem_of program.now (world_of w.old) span object at value) result
        (world_of w.new) }
{
    let Some(place) = object else {
        return Err(Halt::Senseless);
    };
    let Some(number) = at else {
        return Err(Halt::Senseless);
    };
    let Some(given) = value else {
        return Err(Halt::Senseless);
    };
    let Ok(copy) = given.copy() else {
        return Err(Halt::OutOfMemory);
    };
    match set_element(program, w, place, index(number), copy) {
        Got::Gives(()) => Ok(Some(given)),
        Got::Fails(end) => Err(Halt::Faulted(end, span)),
        Got::Lacks => Err(Halt::Senseless),
    }
}

/// Puts a thing after the heap, and gives a reference to it.
pub fn allocate(w: &mut World, thing: Thing) -> Result<Option<Value>, Halt>
    ensures { Means (ops.allocated (world_of w.old) thing) result (world_of w.new) }
{
    let place = w.heap.len();
    match w.heap.push(thing) {
        Err(_) => Err(Halt::OutOfMemory),
        Ok(()) => Ok(Some(Value::at(place))),
    }
}

/// How many elements a new array has.
fn count_of(length: &Option<Value>) -> Got<usize>
    ensures { answer_of result
        ≡ steps.count_of usual_limits.longest (int_of (prim_of length.now)) }
{
    match int(length) {
        None => Got::Lacks,
        Some(number) => count(number),
    }
}

/// A new array of so many elements (JLS 15.10.2).
pub fn make_array(
    alloc: Global,
    w: &mut World,
    span: Span,
    base: BaseType,
    length: &Option<Value>,
) -> Result<Option<Value>, Halt>
    ensures { Means
        (ops.array_made (world_of w.old) span base
        (steps.count_of usual_limits.longest (int_of (prim_of length.now))))
        result (world_of w.new) }
{
    match count_of(length) {
        Got::Lacks => Err(Halt::Senseless),
        Got::Fails(end) => Err(Halt::Faulted(end, span)),
        Got::Gives(number) => match repeated(alloc, number, elem_base(base)) {
            Err(_) => Err(Halt::OutOfMemory),
            Ok(items) => allocate(w, Thing::array(base, items)),
        },
    }
}

/// A new array of the elements, where all are there (JLS 10.6).
pub fn list_array(
    w: &mut World,
    base: BaseType,
    elements: Option<Vec<Value>>,
) -> Result<Option<Value>, Halt>
    ensures { Means (ops.array_listed (world_of w.old) base (items_in elements)) result
        (world_of w.new) }
{
    match elements {
        None => Err(Halt::Senseless),
        Some(items) => allocate(w, Thing::array(base, items)),
    }
}
