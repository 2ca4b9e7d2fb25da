//! The points of fields, static fields, arrays, casts and tests of classes.
ghost use Rattle.std.specs.Prelude.{◌≡◌, ◌<◌, ◌-◌, ◌^◌, ℕ, List, IfOk, replicate, slice_get};
ghost use Rattle.jn_points.specs.Lookup.{elem_base};
ghost use Rattle.jn_heap.specs.Values.{count, default_of, usual_limits};
ghost use Rattle.jn_heap.specs.State.{State, got_plain, got_prim, int_of, object_of, prim_of, value_at};
ghost use Rattle.jn_heap.specs.Steps as spec;
ghost use Rattle.jn_machine.specs.Ends.{answer_of};
ghost use Rattle.jn_machine.specs.Parts.{goes_to, may_hold_in, put_next, store_as};
ghost use Rattle.jn_machine.specs.StateView.{state_of, acted_next};

use crate::lists::put;
use crate::prim::{End, Got, Primitive};
use crate::state::{Acted, MachineState};
use crate::straight::{LONGEST, copied};
use crate::thing::{Thing, index};
use crate::value::Value;
use jn_base::{ClassNo, FieldNo, PointNo, RegNo};
use jn_points::lookup::elem_base;
use jn_points::{BaseType, Program};
use std::alloc::{AllocError, Global};

/// A field of the object at a place.
pub fn read_field(
    program: &Program,
    heap: &[Thing],
    object: Option<usize>,
    field: FieldNo,
) -> Result<Got<Value>, AllocError>
    ensures { IfOk result (λ g. answer_of g
        ≡ spec.read_field program.now heap.now object field.0) }
{
    let Some(place) = object else {
        return Ok(Got::Lacks);
    };
    let Some(thing) = heap.get(place) else {
        return Ok(Got::Lacks);
    };
    match thing.field(program, field) {
        None => Ok(Got::Lacks),
        Some(value) => {
            let copy = value.copy()?;
            Ok(Got::Gives(copy))
        }
    }
}

/// Puts a value into a field of the thing at a place, and goes to the next point.
fn store_field(
    program: &Program,
    state: &mut MachineState,
    place: usize,
    field: FieldNo,
    value: Value,
) -> Acted
    requires { state.old.top.at < 2 ^ 64 - 1 }
    ensures { (out : List ℕ)
        → spec.put_thing (state_of state.old out) place
        (spec.write_in program.now (slice_get state.old.heap.items place) field.0 value)
        ≡ acted_next result state.new out }
{
    if place >= state.heap.len() {
        return Acted::Stuck;
    }
    let thing = &mut state.heap[place];
    match thing.set_field(program, field, value) {
        Got::Gives(()) => {
            state.top.advance();
            Acted::Goes
        }
        Got::Fails(end) => Acted::Ends(end),
        Got::Lacks => Acted::Stuck,
    }
}

pub(crate) fn write_field(
    program: &Program,
    state: &mut MachineState,
    object: RegNo,
    field: FieldNo,
    from: RegNo,
) -> Result<Acted, AllocError>
    requires { state.old.top.at < 2 ^ 64 - 1 }
    ensures { IfOk result (λ acted. (out : List ℕ)
        → spec.write_field program.now (state_of state.old out)
        (object_of (value_at state.old.top.regs object.0)) field.0
        (value_at state.old.top.regs from.0)
        ≡ acted_next acted state.new out) }
{
    let Some(place) = state.top.object(object) else {
        return Ok(Acted::Stuck);
    };
    let Some(value) = copied(&state.top, from)? else {
        return Ok(Acted::Stuck);
    };
    Ok(store_field(program, state, place, field, value))
}

/// The value of a static field.
pub fn read_static(statics: &[Primitive], field: FieldNo) -> Got<Value>
    ensures { answer_of result ≡ got_plain (got_prim (slice_get statics.now field.0)) }
{
    match statics.get(field.0 as usize) {
        None => Got::Lacks,
        Some(prim) => Got::Gives(Value::plain(prim.copy())),
    }
}

pub(crate) fn write_static(state: &mut MachineState, field: FieldNo, from: RegNo) -> Acted
    requires { state.old.top.at < 2 ^ 64 - 1 }
    ensures { (out : List ℕ)
        → spec.write_static (state_of state.old out) field.0
        (prim_of (value_at state.old.top.regs from.0))
        ≡ acted_next result state.new out }
{
    match state.top.prim(from) {
        None => Acted::Stuck,
        Some(prim) => {
            put(&mut state.statics, field.0 as usize, prim);
            state.top.advance();
            Acted::Goes
        }
    }
}

/// An element of the array at a place.
pub fn read_elem(
    heap: &[Thing],
    array: Option<usize>,
    at: Option<i32>,
) -> Result<Got<Value>, AllocError>
    ensures { IfOk result (λ g. answer_of g ≡ spec.read_elem heap.now array at) }
{
    let Some(place) = array else {
        return Ok(Got::Lacks);
    };
    let Some(number) = at else {
        return Ok(Got::Lacks);
    };
    match heap.get(place) {
        None => Ok(Got::Lacks),
        Some(thing) => thing.element(number),
    }
}

/// Whether the thing at a place is an array that may hold the value.
pub fn may_store(program: &Program, heap: &[Thing], place: usize, value: &Value) -> bool
    ensures { result ≡ may_hold_in program.now heap.now (slice_get heap.now place) value.now }
{
    match heap.get(place) {
        None => false,
        Some(thing) => thing.may_hold(program, heap, value),
    }
}

/// Makes a value an element of the thing at a place, where it may hold it.
fn set_at(heap: &mut [Thing], place: usize, at: Option<usize>, value: Value, may: bool) -> Got<()>
    ensures { (st : State) → st.heap ≡ heap.old
        → spec.put_thing st place (store_as (slice_get heap.old place) at value may)
        ≡ put_next result st heap.new }
{
    if place >= heap.len() {
        return Got::Lacks;
    }
    let thing = &mut heap[place];
    thing.set_element(at, value, may)
}

/// Makes a value an element of the thing at a place, and goes to the next point.
#[tactic(auto, using(crate::proofs::Pieces::store_is))]
fn store_elem(
    program: &Program,
    state: &mut MachineState,
    place: usize,
    at: Option<usize>,
    value: Value,
) -> Acted
    requires { state.old.top.at < 2 ^ 64 - 1 }
    ensures { (out : List ℕ)
        → spec.put_thing (state_of state.old out) place (spec.store_in program.now
        state.old.heap.items (slice_get state.old.heap.items place) at value)
        ≡ acted_next result state.new out }
{
    let may = may_store(program, &state.heap, place, &value);
    match set_at(&mut state.heap, place, at, value, may) {
        Got::Gives(()) => {
            state.top.advance();
            Acted::Goes
        }
        Got::Fails(end) => Acted::Ends(end),
        Got::Lacks => Acted::Stuck,
    }
}

pub(crate) fn write_elem(
    program: &Program,
    state: &mut MachineState,
    array: RegNo,
    at: RegNo,
    from: RegNo,
) -> Result<Acted, AllocError>
    requires { state.old.top.at < 2 ^ 64 - 1 }
    ensures { IfOk result (λ acted. (out : List ℕ)
        → spec.write_elem program.now (state_of state.old out)
        (object_of (value_at state.old.top.regs array.0))
        (int_of (prim_of (value_at state.old.top.regs at.0)))
        (value_at state.old.top.regs from.0)
        ≡ acted_next acted state.new out) }
{
    let Some(place) = state.top.object(array) else {
        return Ok(Acted::Stuck);
    };
    let Some(number) = state.top.int(at) else {
        return Ok(Acted::Stuck);
    };
    let Some(value) = copied(&state.top, from)? else {
        return Ok(Acted::Stuck);
    };
    Ok(store_elem(program, state, place, index(number), value))
}

/// The length of the array at a place.
pub fn array_len(heap: &[Thing], array: Option<usize>) -> Got<Value>
    ensures { answer_of result ≡ spec.array_len heap.now array }
{
    match array {
        None => Got::Lacks,
        Some(place) => match heap.get(place) {
            None => Got::Lacks,
            Some(thing) => thing.length(),
        },
    }
}

/// The length of a new array (JLS 15.10.2).
pub fn count(length: i32) -> Got<usize>
    ensures { answer_of result ≡ count usual_limits.longest length }
{
    if length < 0 {
        return Got::Fails(End::NegativeSize);
    }
    let number = length.unsigned_abs() as usize;
    if number > LONGEST {
        Got::Fails(End::Long)
    } else {
        Got::Gives(number)
    }
}

/// So many values that a type has first.
pub fn repeated(alloc: Global, number: usize, base: BaseType) -> Result<Vec<Value>, AllocError>
    ensures { IfOk result (λ v. v.items ≡ replicate number (default_of base)) }
{
    let mut items = Vec::with_capacity(alloc, number)?;
    for _ in 0..number {
        items.push(Value::default_of(base))?;
    }
    Ok(items)
}

/// Puts a thing after the heap and its place into a register.
pub(crate) fn allocate(
    state: &mut MachineState,
    dst: RegNo,
    thing: Thing,
) -> Result<Acted, AllocError>
    requires { state.old.top.at < 2 ^ 64 - 1 }
    ensures { IfOk result (λ acted. (out : List ℕ)
        → spec.allocates (state_of state.old out) dst.0 thing ≡ acted_next acted state.new out) }
{
    let place = state.heap.len();
    state.heap.push(thing)?;
    state.top.hold(dst, Value::at(place));
    Ok(Acted::Goes)
}

pub(crate) fn new_array(
    alloc: Global,
    state: &mut MachineState,
    dst: RegNo,
    base: BaseType,
    length: RegNo,
) -> Result<Acted, AllocError>
    requires { state.old.top.at < 2 ^ 64 - 1 }
    ensures { IfOk result (λ acted. (out : List ℕ)
        → spec.new_array (state_of state.old out) dst.0 base (spec.count_of usual_limits.longest
        (int_of (prim_of (value_at state.old.top.regs length.0))))
        ≡ acted_next acted state.new out) }
{
    let Some(number) = state.top.int(length) else {
        return Ok(Acted::Stuck);
    };
    match count(number) {
        Got::Gives(size) => {
            let items = repeated(alloc, size, elem_base(base))?;
            allocate(state, dst, Thing::array(base, items))
        }
        Got::Fails(end) => Ok(Acted::Ends(end)),
        Got::Lacks => Ok(Acted::Stuck),
    }
}

/// A register's value, where it is null or of the class.
pub(crate) fn cast(
    program: &Program,
    state: &MachineState,
    of: RegNo,
    class: ClassNo,
) -> Result<Got<Value>, AllocError>
    ensures { IfOk result (λ g. answer_of g
        ≡ spec.cast_of program.now state.now.heap.items (value_at state.now.top.regs of.0)
        class.0) }
{
    match state.top.value(of) {
        None => Ok(Got::Lacks),
        Some(value) => value.cast(program, &state.heap, class),
    }
}

/// Which point a test of a class goes to.
pub(crate) fn test_inst(
    program: &Program,
    state: &MachineState,
    of: RegNo,
    class: ClassNo,
    yes: PointNo,
    no: PointNo,
) -> Option<PointNo>
    ensures { (out : List ℕ)
        → spec.test_inst program.now (state_of state.now out) class.0 yes.0 no.0
        (value_at state.now.top.regs of.0)
        ≡ goes_to (state_of state.now out) result }
{
    match state.top.value(of) {
        None => None,
        Some(value) => value.inst_side(program, &state.heap, class, yes, no),
    }
}
