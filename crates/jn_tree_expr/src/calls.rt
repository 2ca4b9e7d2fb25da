//! Calls of methods and constructors after their operands (JLS 15.9.4 and 15.12.4).
ghost use Rattle.std.specs.Prelude.{◌≡◌, ◌++◌, ◌∷◌, [], ℕ, List, OnOk};
ghost use Rattle.jn_heap.specs.Steps.{str_op};
ghost use Rattle.jn_heap.specs.State.{value_at};
ghost use Rattle.jn_heap.specs.Values as value;
ghost use Rattle.jn_meaning.specs.Expressions as spec;
ghost use Rattle.jn_meaning.specs.Expressions.{Caller};
ghost use Rattle.jn_meaning.specs.Operations as ops;
ghost use Rattle.jn_meaning.specs.Worlds as worlds;
ghost use Rattle.jn_points.specs.BaseRows.{is_void};
ghost use Rattle.jn_points.specs.Lookup.{class_of, method_at, result_base_of};
ghost use Rattle.jn_points.specs.declared.program.Program as program;
ghost use Rattle.jn_tree_world.specs.Outcomes.{Found, Means};
ghost use Rattle.jn_tree_world.specs.Worlds.{items_in, world_of};
ghost use Rattle.jn_scopes.specs.Views.{callee_of};
ghost use Rattle.jn_tree_expr.specs.Meaning.{called_behind, number_of};

use crate::calling::{Calling, Enters};
use jn_base::{MethodNo, RegNo, Span};
use jn_index::indexed::IndexedProgram;
use jn_machine::{Thing, Value, selected};
use jn_points::lookup::{class_of, is_void};
use jn_points::{BaseType, StrOperation};
use jn_scopes::members::{is_private, is_static, result_base};
use jn_scopes::{Callee, Context};
use jn_tree_world::arrays::list_array;
use jn_tree_world::frames::{all_there, defaults};
use jn_tree_world::heap::object;
use jn_tree_world::operators::string;
use jn_tree_world::values::{not_null, present};
use jn_tree_world::{Halt, World};
use std::alloc::{AllocError, Global};

/// The result of a void method is nothing, that of another one must be there.
fn given(
    program: &IndexedProgram,
    method: MethodNo,
    value: Option<Value>,
    span: Span,
) -> Result<Option<Value>, Halt>
    ensures { (names : List (List ℕ)) (longest : ℕ) (m : Caller) (w : worlds.World)
        → Means (spec.result program.now names longest m
        (is_void (result_base_of (method_at program.now method.0))) span value w) result w }
{
    if is_void(result_base(program, method)) {
        return Ok(None);
    }
    present(value, span)
}

/// A method's body, where there is one and the values are there (JLS 15.12.4.5).
fn enter<F: Enters>(
    method: Option<usize>,
    values: Option<Vec<Value>>,
    call: &Calling<F>,
    w: &mut World,
) -> Result<Option<Value>, Halt>
    ensures { (P : program.Program) (names : List (List ℕ)) (longest : ℕ) (m : Caller)
        → F.keeps call.now m
        → Means (spec.entered P names longest m method (items_in values) (world_of w.old)) result
        (world_of w.new) }
{
    let Some(number) = method else {
        return Err(Halt::Senseless);
    };
    let Some(all) = values else {
        return Err(Halt::Senseless);
    };
    call.enter(number, all, w)
}

/// A list of one value, which is a reference to the thing at a place.
fn this_at(alloc: Global, place: usize) -> Result<Vec<Value>, Halt>
    ensures { Found (λ r. r.items ≡ value.At place ∷ []) result }
{
    let mut values = Vec::new(alloc);
    match values.push(Value::at(place)) {
        Err(_) => Err(Halt::OutOfMemory),
        Ok(()) => Ok(values),
    }
}

/// A call of a static method (JLS 15.12.4.1).
pub fn call_static<F: Enters>(
    method: MethodNo,
    arguments: &[Option<Value>],
    span: Span,
    c: &Context,
    call: &Calling<F>,
    w: &mut World,
) -> Result<Option<Value>, Halt>
    ensures { (names : List (List ℕ)) (longest : ℕ) (m : Caller) → F.keeps call.now m
        → Means (spec.called_static c.now.program.now names longest m span method.0 arguments.now
        (world_of w.old)) result (world_of w.new) }
{
    let values = all_there(Vec::new(c.alloc), arguments)?;
    let value = enter(Some(method.0 as usize), values, call, w)?;
    given(c.program, method, value, span)
}

/// A call of the method that the object at a place has, or of the one named.
fn enter_on<F: Enters>(
    method: MethodNo,
    direct: bool,
    of: Option<usize>,
    arguments: &[Option<Value>],
    c: &Context,
    call: &Calling<F>,
    w: &mut World,
) -> Result<Option<Value>, Halt>
    ensures { (names : List (List ℕ)) (longest : ℕ) (m : Caller) → F.keeps call.now m
        → Means (spec.entered_on c.now.program.now names longest m of method.0 direct
        (ops.all_there arguments.now) (world_of w.old)) result (world_of w.new) }
{
    let Some(place) = of else {
        return Err(Halt::Senseless);
    };
    let this = this_at(c.alloc, place)?;
    let values = all_there(this, arguments)?;
    let own = selected(c.program.program(), &w.heap, place, method, direct);
    enter(own, values, call, w)
}

/// A call on a receiver, which is dereferenced after the arguments (JLS 15.12.4).
pub fn call_on<F: Enters>(
    method: MethodNo,
    direct: bool,
    receiver: &Option<Value>,
    at: Span,
    arguments: &[Option<Value>],
    span: Span,
    c: &Context,
    call: &Calling<F>,
    w: &mut World,
) -> Result<Option<Value>, Halt>
    ensures { (names : List (List ℕ)) (longest : ℕ) (m : Caller) → F.keeps call.now m
        → Means (spec.called_on c.now.program.now names longest m span method.0 direct receiver.now
        at arguments.now (world_of w.old)) result (world_of w.new) }
{
    not_null(receiver, at)?;
    let value = enter_on(method, direct, object(receiver), arguments, c, call, w)?;
    given(c.program, method, value, span)
}

/// A call on `this`.
fn call_on_this<F: Enters>(
    method: MethodNo,
    direct: bool,
    at: Span,
    arguments: &[Option<Value>],
    span: Span,
    c: &Context,
    call: &Calling<F>,
    w: &mut World,
) -> Result<Option<Value>, Halt>
    ensures { (names : List (List ℕ)) (longest : ℕ) (m : Caller) → F.keeps call.now m
        → Means (spec.called_on c.now.program.now names longest m span method.0 direct
        (value_at w.old.locals.items 0) at arguments.now (world_of w.old)) result
        (world_of w.new) }
{
    let this = w.local(RegNo(0))?;
    call_on(method, direct, &this, at, arguments, span, c, call, w)
}

/// A call of a method that the class has by its name alone: on `this`, unless it is static (JLS 15.12.4.1).
pub fn own_call<F: Enters>(
    method: Option<MethodNo>,
    at: Span,
    arguments: &[Option<Value>],
    span: Span,
    c: &Context,
    call: &Calling<F>,
    w: &mut World,
) -> Result<Option<Value>, Halt>
    ensures { (names : List (List ℕ)) (longest : ℕ) (m : Caller) → F.keeps call.now m
        → Means (spec.own_call c.now.program.now names longest m (number_of method) span at
        arguments.now (world_of w.old)) result (world_of w.new) }
{
    let Some(own) = method else {
        return Ok(None);
    };
    if is_static(c.program, own) {
        return call_static(own, arguments, span, c, call, w);
    }
    let direct = is_private(c.program, own);
    call_on_this(own, direct, at, arguments, span, c, call, w)
}

/// `super.m(..)` (JLS 15.12.4.4).
pub fn super_call<F: Enters>(
    method: Option<MethodNo>,
    at: Span,
    arguments: &[Option<Value>],
    span: Span,
    c: &Context,
    call: &Calling<F>,
    w: &mut World,
) -> Result<Option<Value>, Halt>
    ensures { (names : List (List ℕ)) (longest : ℕ) (m : Caller) → F.keeps call.now m
        → Means (spec.super_call c.now.program.now names longest m (number_of method) span at
        arguments.now (world_of w.old)) result (world_of w.new) }
{
    match method {
        None => Ok(None),
        Some(own) => call_on_this(own, true, at, arguments, span, c, call, w),
    }
}

/// An operation of class String on a receiver, which is dereferenced after the argument.
pub fn text_call(
    operation: StrOperation,
    receiver: &Option<Value>,
    at: Span,
    arguments: &[Option<Value>],
    span: Span,
) -> Result<Option<Value>, Halt>
    ensures { (P : program.Program) (names : List (List ℕ)) (longest : ℕ) (m : Caller)
        (w : worlds.World) → Means (worlds.derefs receiver.now at w (worlds.got span
        (str_op operation receiver.now (spec.first_value P names longest m arguments.now)) w))
        result w }
{
    not_null(receiver, at)?;
    string(operation, receiver, arguments, span)
}

/// Puts an object with default fields after the heap.
fn make(c: &Context, ctor: MethodNo, w: &mut World) -> Result<(), AllocError>
    ensures { OnOk result (world_of w.new
        ≡ worlds.with_heap (world_of w.old) (w.old.heap.items
        ++ value.Object (class_of (method_at c.now.program.now ctor.0))
        (value.defaults c.now.program.now.fields)
        ∷ [])) }
{
    let program = c.program.program();
    let fields = defaults(c.alloc, program.fields.as_slice())?;
    w.heap.push(Thing::object(class_of(program, ctor), fields))?;
    Ok(())
}

/// The object with default fields, then its constructor; the object is given (JLS 15.9.4).
fn construct<F: Enters>(
    ctor: MethodNo,
    arguments: &[Option<Value>],
    c: &Context,
    call: &Calling<F>,
    w: &mut World,
) -> Result<Option<Value>, Halt>
    ensures { (names : List (List ℕ)) (longest : ℕ) (m : Caller) → F.keeps call.now m
        → Means (spec.constructed c.now.program.now names longest m ctor.0
        (ops.all_there arguments.now) (world_of w.old)) result (world_of w.new) }
{
    let place = w.heap.len();
    let this = this_at(c.alloc, place)?;
    let Some(values) = all_there(this, arguments)? else {
        return Err(Halt::Senseless);
    };
    let Ok(()) = make(c, ctor, w) else {
        return Err(Halt::OutOfMemory);
    };
    call.enter(ctor.0 as usize, values, w)?;
    Ok(Some(Value::at(place)))
}

/// `new` (JLS 15.9.4).
pub fn create<F: Enters>(
    ctor: Option<MethodNo>,
    arguments: &[Option<Value>],
    c: &Context,
    call: &Calling<F>,
    w: &mut World,
) -> Result<Option<Value>, Halt>
    ensures { (names : List (List ℕ)) (longest : ℕ) (m : Caller) → F.keeps call.now m
        → Means (spec.created c.now.program.now names longest m (number_of ctor) arguments.now
        (world_of w.old)) result (world_of w.new) }
{
    match ctor {
        None => Ok(None),
        Some(found) => construct(found, arguments, c, call, w),
    }
}

/// A call with a dot after its receiver and arguments: a method of an object, or an operation of class String (JLS 15.12).
pub fn call_behind<F: Enters>(
    named: Callee,
    receiver: &Option<Value>,
    at: Span,
    arguments: &[Option<Value>],
    span: Span,
    c: &Context,
    call: &Calling<F>,
    w: &mut World,
) -> Result<Option<Value>, Halt>
    ensures { (names : List (List ℕ)) (m : Caller) → F.keeps call.now m
        → Means (called_behind c.now.program.now names m (callee_of named) span at receiver.now
        arguments.now (world_of w.old)) result (world_of w.new) }
{
    match named {
        Callee::Text(operation) => text_call(operation, receiver, at, arguments, span),
        Callee::Object(method) => {
            let direct = is_private(c.program, method);
            call_on(method, direct, receiver, at, arguments, span, c, call, w)
        }
        Callee::Println | Callee::Class(_) | Callee::Nothing => Ok(None),
    }
}

/// A new array of the elements, where all are there (JLS 10.6).
pub fn list_values(
    alloc: Global,
    w: &mut World,
    base: BaseType,
    values: &[Option<Value>],
) -> Result<Option<Value>, Halt>
    ensures { Means (ops.array_listed (world_of w.old) base (ops.all_there values.now)) result
        (world_of w.new) }
{
    let elements = all_there(Vec::new(alloc), values)?;
    list_array(w, base, elements)
}
