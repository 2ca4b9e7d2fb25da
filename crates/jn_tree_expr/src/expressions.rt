//! Expressions: their values, whether they hold as conditions, and the places that they name (JLS 15).
ghost use Rattle.std.specs.Prelude.{◌≡◌, Some, true};
ghost use Rattle.jn_heap.specs.State.{prim_of};
ghost use Rattle.jn_heap.specs.Steps.{cast_of, unary_of};
ghost use Rattle.jn_heap.specs.Values.{Plain, Truth, usual_limits};
ghost use Rattle.jn_lower_expr.specs.Lowering.{is_connective};
ghost use Rattle.jn_lowering.specs.Bases.{array_type};
ghost use Rattle.jn_lowering.specs.Scopes.{class_named, count, or_zero};
ghost use Rattle.jn_meaning.specs.Expressions as spec;
ghost use Rattle.jn_meaning.specs.Expressions.{Caller};
ghost use Rattle.jn_meaning.specs.Operations.{all_there, array_listed};
ghost use Rattle.jn_meaning.specs.Worlds.{Has, got, then_do};
ghost use Rattle.jn_places.specs.Placed.{PlacedNewArray, PlacedOwnCall, PlacedPostfix, PlacedPrefix, PlacedSuperCall};
ghost use Rattle.jn_places.specs.PlacedView.{placed_view, placed_views};
ghost use Rattle.jn_points.specs.Members.{constructor_of};
ghost use Rattle.jn_tree_world.specs.Outcomes.{Means, MeansAs};
ghost use Rattle.jn_tree_world.specs.Worlds.{items_of, place_of, world_of};
ghost use Rattle.jn_tree_expr.specs.Forms.{assigns_by, assigns_simply, calculates, chooses, is_dotted};
ghost use Rattle.jn_tree_expr.specs.Meaning.{all_in, meant_in, read_at};

use crate::calling::{Calling, Enters};
use crate::calls::{call_behind, call_static, create, list_values, own_call, super_call};
use crate::forms::{is_not, null_holds, operand_span};
use crate::names::{place_meant, place_of_object};
use crate::steps::{combine, steps_before, steps_behind};
use jn_base::{NameNo, RegNo, Span};
use jn_lower_expr::forms::{is_and, is_connective, is_minus, is_tested, is_true};
use jn_machine::{Primitive, Value};
use jn_scopes::forms::{count, is_null, span_of};
use jn_scopes::lookup::{access, callee, meaning};
use jn_scopes::members::{class_or_object, constructor_of, method_of, super_method};
use jn_scopes::types::{array_type, compound_of, is_equality, is_simple, operator_of, type_of};
use jn_scopes::{Access, Callee, Context};
use jn_tree_world::arrays::make_array;
use jn_tree_world::operators::{cast, literal, operated, unary};
use jn_tree_world::place::{read_place, write_place};
use jn_tree_world::texts::print_first;
use jn_tree_world::values::{is_instance, present, truth};
use jn_tree_world::{Halt, Place, World};
use jn_trees::{ElementType, Expr, Identifier, Names, Step};

/// An expression's value; none of a void call (JLS 15).
#[cycle(evaluating)]
pub fn value<F: Enters>(
    tree: &Expr,
    c: &Context,
    names: &Names,
    call: &Calling<F>,
    w: &mut World,
) -> Result<Option<Value>, Halt>
    ensures { (m : Caller) → F.keeps call.now m
        → Means ((meant_in c.now names.now m (placed_view tree.now)).value (world_of w.old)) result (world_of w.new) }
{
    match tree {
        Expr::Literal {
            literal: constant,
            ..
        } => literal(c.alloc, names, *constant),
        Expr::Name { .. } => read(tree, c, names, call, w),
        Expr::This { .. } => w.local(RegNo(0)),
        Expr::Paren { inner, .. } => value(inner, c, names, call, w),
        Expr::Field { .. } => read(tree, c, names, call, w),
        Expr::Call { .. } => dotted_call(tree, c, names, call, w),
        Expr::OwnCall {
            name,
            arguments,
            span,
        } => call_own(arguments, *name, *span, c, names, call, w),
        Expr::SuperCall {
            name,
            arguments,
            span,
        } => call_super(arguments, *name, *span, c, names, call, w),
        Expr::Index { .. } => read(tree, c, names, call, w),
        Expr::New {
            class,
            arguments,
            ..
        } => make(arguments, class.name, c, names, call, w),
        Expr::NewArray {
            element,
            length,
            span,
        } => make_array_of(length, element, *span, c, names, call, w),
        Expr::ArrayOf {
            element,
            elements,
            ..
        } => list(elements, element, c, names, call, w),
        Expr::Postfix { target, step, span } => step_behind(
            target, *step, *span, c, names, call, w,
        ),
        Expr::Prefix { step, target, span } => step_before(target, *step, *span, c, names, call, w),
        Expr::Unary {
            operator,
            operand,
            span,
        } => {
            if is_not(*operator) {
                decided(tree, c, names, call, w)
            } else {
                sign(operand, is_minus(*operator), *span, c, names, call, w)
            }
        }
        Expr::Cast {
            class,
            operand,
            span,
        } => cast_to(operand, class.name, *span, c, names, call, w),
        Expr::Binary { .. } => {
            if is_connective(tree) {
                decided(tree, c, names, call, w)
            } else {
                operate(tree, c, names, call, w)
            }
        }
        Expr::InstanceOf { .. } => decided(tree, c, names, call, w),
        Expr::Conditional { .. } => choose(tree, c, names, call, w),
        Expr::Assign { operator, .. } => {
            if is_simple(*operator) {
                assign(tree, c, names, call, w)
            } else {
                assign_by(tree, c, names, call, w)
            }
        }
    }
}

/// Operands from left to right (JLS 15.7.4).
#[cycle(evaluating)]
pub fn evaluated<F: Enters>(
    trees: &[Expr],
    c: &Context,
    names: &Names,
    call: &Calling<F>,
    w: &mut World,
) -> Result<Vec<Option<Value>>, Halt>
    ensures { (m : Caller) → F.keeps call.now m
        → MeansAs items_of (all_in c.now names.now m (placed_views trees.now) (world_of w.old)) result
        (world_of w.new) }
{
    let mut values = Vec::new(c.alloc);
    for tree in trees {
        let given = value(tree, c, names, call, w)?;
        match values.push(given) {
            Ok(()) => {}
            Err(_) => return Err(Halt::OutOfMemory),
        }
    }
    Ok(values)
}

/// What stands at the place that the tree names: an identifier, a field or an element.
#[cycle(evaluating)]
fn read<F: Enters>(
    tree: &Expr,
    c: &Context,
    names: &Names,
    call: &Calling<F>,
    w: &mut World,
) -> Result<Option<Value>, Halt>
    ensures { (m : Caller) → F.keeps call.now m
        → Means (read_at c.now names.now m (placed_view tree.now) (world_of w.old)) result
        (world_of w.new) }
{
    let from = place(tree, c, names, call, w)?;
    read_place(c.program.program(), w, &from, span_of(tree))
}

/// The place that an expression names, with its object, array and index evaluated; what can't be assigned has none.
#[cycle(evaluating)]
fn place<F: Enters>(
    tree: &Expr,
    c: &Context,
    names: &Names,
    call: &Calling<F>,
    w: &mut World,
) -> Result<Place, Halt>
    ensures { (m : Caller) → F.keeps call.now m
        → MeansAs place_of ((meant_in c.now names.now m (placed_view tree.now)).place (world_of w.old)) result (world_of w.new) }
{
    match tree {
        Expr::Name { name } => place_meant(c, w, meaning(c, name.name), name.span),
        Expr::Paren { inner, .. } => place(inner, c, names, call, w),
        Expr::Field { target, name, .. } => {
            let base = type_of(target, c);
            let named = access(c, target, base, name.name);
            if let Access::Class(field) = named {
                return Ok(Place::Static(field));
            }
            let object = value(target, c, names, call, w)?;
            Ok(place_of_object(named, operand_span(target), object))
        }
        Expr::Index { array, index, .. } => {
            let of = value(array, c, names, call, w)?;
            let at = value(index, c, names, call, w)?;
            Ok(Place::Element(of, operand_span(array), at))
        }
        _ => Ok(Place::Nothing),
    }
}

/// A call with a dot (JLS 15.12).
#[cycle(evaluating)]
fn dotted_call<F: Enters>(
    tree: &Expr,
    c: &Context,
    names: &Names,
    call: &Calling<F>,
    w: &mut World,
) -> Result<Option<Value>, Halt>
    requires dotted { is_dotted (placed_view tree.now) ≡ true }
    ensures { (m : Caller) → F.keeps call.now m
        → Means ((meant_in c.now names.now m (placed_view tree.now)).value (world_of w.old)) result (world_of w.new) }
{
    match tree {
        Expr::Call {
            target,
            name,
            arguments,
            span,
        } => {
            let base = type_of(target, c);
            let named = callee(c, target, base, name.name, count(arguments));
            if let Callee::Println = named {
                let values = evaluated(arguments, c, names, call, w)?;
                return print_first(c.alloc, w, &values);
            }
            if let Callee::Class(method) = named {
                let values = evaluated(arguments, c, names, call, w)?;
                return call_static(method, &values, *span, c, call, w);
            }
            let receiver = value(target, c, names, call, w)?;
            let values = evaluated(arguments, c, names, call, w)?;
            call_behind(
                named,
                &receiver,
                operand_span(target),
                &values,
                *span,
                c,
                call,
                w,
            )
        }
        _ => unreachable!(),
    }
}

/// A call by a method's name alone (JLS 15.12).
#[cycle(evaluating)]
fn call_own<F: Enters>(
    arguments: &[Expr],
    name: Identifier,
    span: Span,
    c: &Context,
    names: &Names,
    call: &Calling<F>,
    w: &mut World,
) -> Result<Option<Value>, Halt>
    ensures { (m : Caller) → F.keeps call.now m
        → Means ((meant_in c.now names.now m (PlacedOwnCall name (placed_views arguments.now) span)).value (world_of w.old)) result (world_of w.new) }
{
    let values = evaluated(arguments, c, names, call, w)?;
    let method = method_of(c.program, c.class, name.name, count(arguments));
    own_call(method, name.span, &values, span, c, call, w)
}

/// `super.m(..)` (JLS 15.12).
#[cycle(evaluating)]
fn call_super<F: Enters>(
    arguments: &[Expr],
    name: Identifier,
    span: Span,
    c: &Context,
    names: &Names,
    call: &Calling<F>,
    w: &mut World,
) -> Result<Option<Value>, Halt>
    ensures { (m : Caller) → F.keeps call.now m
        → Means ((meant_in c.now names.now m (PlacedSuperCall name (placed_views arguments.now) span)).value (world_of w.old)) result (world_of w.new) }
{
    let values = evaluated(arguments, c, names, call, w)?;
    let method = super_method(c.program, c.class, name.name, count(arguments));
    super_call(method, name.span, &values, span, c, call, w)
}

/// A new object (JLS 15.9.4).
#[cycle(evaluating)]
fn make<F: Enters>(
    arguments: &[Expr],
    class: NameNo,
    c: &Context,
    names: &Names,
    call: &Calling<F>,
    w: &mut World,
) -> Result<Option<Value>, Halt>
    ensures { (m : Caller) → F.keeps call.now m
        → Means (then_do (all_in c.now names.now m (placed_views arguments.now) (world_of w.old)) (spec.created c.now.program.now names.now usual_limits.longest m (constructor_of c.now.program.now (or_zero (class_named c.now.program.now class.0)) (count (placed_views arguments.now))))) result (world_of w.new) }
{
    let values = evaluated(arguments, c, names, call, w)?;
    let own = class_or_object(c.program, class);
    create(
        constructor_of(c.program, own, count(arguments)),
        &values,
        c,
        call,
        w,
    )
}

/// A new array of a length (JLS 15.10.2).
#[cycle(evaluating)]
fn make_array_of<F: Enters>(
    length: &Expr,
    element: &ElementType,
    span: Span,
    c: &Context,
    names: &Names,
    call: &Calling<F>,
    w: &mut World,
) -> Result<Option<Value>, Halt>
    ensures { (m : Caller) → F.keeps call.now m
        → Means ((meant_in c.now names.now m (PlacedNewArray element.now.annotations.items element.now.base (placed_view length.now) span)).value (world_of w.old)) result (world_of w.new) }
{
    let size = value(length, c, names, call, w)?;
    let base = array_type(c.program, element.base, &element.annotations);
    make_array(c.alloc, w, span, base, &size)
}

/// A new array of elements (JLS 10.6).
#[cycle(evaluating)]
fn list<F: Enters>(
    elements: &[Expr],
    element: &ElementType,
    c: &Context,
    names: &Names,
    call: &Calling<F>,
    w: &mut World,
) -> Result<Option<Value>, Halt>
    ensures { (m : Caller) → F.keeps call.now m
        → Means (then_do (all_in c.now names.now m (placed_views elements.now) (world_of w.old)) (λ xs w. array_listed w (array_type c.now.program.now element.now.base element.now.annotations.items) (all_there xs))) result (world_of w.new) }
{
    let values = evaluated(elements, c, names, call, w)?;
    let base = array_type(c.program, element.base, &element.annotations);
    list_values(c.alloc, w, base, &values)
}

/// `++` and `--` after (JLS 15.14.2 and 15.14.3).
#[cycle(evaluating)]
fn step_behind<F: Enters>(
    target: &Expr,
    step: Step,
    span: Span,
    c: &Context,
    names: &Names,
    call: &Calling<F>,
    w: &mut World,
) -> Result<Option<Value>, Halt>
    ensures { (m : Caller) → F.keeps call.now m
        → Means ((meant_in c.now names.now m (PlacedPostfix (placed_view target.now) step span)).value (world_of w.old)) result (world_of w.new) }
{
    let to = place(target, c, names, call, w)?;
    steps_behind(names, c, w, &to, span_of(target), step, span)
}

/// `++` and `--` in front (JLS 15.15.1 and 15.15.2).
#[cycle(evaluating)]
fn step_before<F: Enters>(
    target: &Expr,
    step: Step,
    span: Span,
    c: &Context,
    names: &Names,
    call: &Calling<F>,
    w: &mut World,
) -> Result<Option<Value>, Halt>
    ensures { (m : Caller) → F.keeps call.now m
        → Means ((meant_in c.now names.now m (PlacedPrefix step (placed_view target.now) span)).value (world_of w.old)) result (world_of w.new) }
{
    let to = place(target, c, names, call, w)?;
    steps_before(names, c, w, &to, span_of(target), step, span)
}

/// `+` and `-` of an operand (JLS 15.15.3 and 15.15.4).
#[cycle(evaluating)]
fn sign<F: Enters>(
    operand: &Expr,
    negate: bool,
    span: Span,
    c: &Context,
    names: &Names,
    call: &Calling<F>,
    w: &mut World,
) -> Result<Option<Value>, Halt>
    ensures { (m : Caller) → F.keeps call.now m
        → Means (then_do ((meant_in c.now names.now m (placed_view operand.now)).value (world_of w.old)) (λ x w. got span (unary_of negate (prim_of x)) w)) result (world_of w.new) }
{
    let given = value(operand, c, names, call, w)?;
    unary(negate, &given, span)
}

/// A cast (JLS 15.16).
#[cycle(evaluating)]
fn cast_to<F: Enters>(
    operand: &Expr,
    class: NameNo,
    span: Span,
    c: &Context,
    names: &Names,
    call: &Calling<F>,
    w: &mut World,
) -> Result<Option<Value>, Halt>
    ensures { (m : Caller) → F.keeps call.now m
        → Means (then_do ((meant_in c.now names.now m (placed_view operand.now)).value (world_of w.old)) (λ x w. got span (cast_of c.now.program.now w.heap x (or_zero (class_named c.now.program.now class.0))) w)) result (world_of w.new) }
{
    let given = value(operand, c, names, call, w)?;
    cast(
        c.program.program(),
        w,
        &given,
        class_or_object(c.program, class),
        span,
    )
}

/// A condition as a value.
#[cycle(evaluating)]
fn decided<F: Enters>(
    tree: &Expr,
    c: &Context,
    names: &Names,
    call: &Calling<F>,
    w: &mut World,
) -> Result<Option<Value>, Halt>
    requires connective { is_connective (placed_view tree.now) ≡ true }
    ensures { (m : Caller) → F.keeps call.now m
        → Means (then_do ((meant_in c.now names.now m (placed_view tree.now)).condition (world_of w.old)) (λ b w. Has (Some (Plain (Truth b))) w)) result (world_of w.new) }
{
    let holds = connect(tree, c, names, call, w)?;
    Ok(Some(Value::plain(Primitive::bool(holds))))
}

/// Both sides, and what the operator makes of them (JLS 15.17 to 15.21).
#[cycle(evaluating)]
fn operate<F: Enters>(
    tree: &Expr,
    c: &Context,
    names: &Names,
    call: &Calling<F>,
    w: &mut World,
) -> Result<Option<Value>, Halt>
    requires calculates { calculates (placed_view tree.now) ≡ true }
    ensures { (m : Caller) → F.keeps call.now m
        → Means ((meant_in c.now names.now m (placed_view tree.now)).value (world_of w.old)) result (world_of w.new) }
{
    match tree {
        Expr::Binary {
            left,
            operator,
            right,
            span,
        } => {
            let first = value(left, c, names, call, w)?;
            let second = value(right, c, names, call, w)?;
            let bases = (type_of(left, c), type_of(right, c));
            operated(
                c.alloc,
                operator_of(*operator),
                bases,
                &first,
                &second,
                *span,
            )
        }
        _ => unreachable!(),
    }
}

/// `?:` (JLS 15.25).
#[cycle(evaluating)]
fn choose<F: Enters>(
    tree: &Expr,
    c: &Context,
    names: &Names,
    call: &Calling<F>,
    w: &mut World,
) -> Result<Option<Value>, Halt>
    requires chooses { chooses (placed_view tree.now) ≡ true }
    ensures { (m : Caller) → F.keeps call.now m
        → Means ((meant_in c.now names.now m (placed_view tree.now)).value (world_of w.old)) result (world_of w.new) }
{
    match tree {
        Expr::Conditional {
            condition: test,
            then,
            otherwise,
            ..
        } => {
            if condition(test, c, names, call, w)? {
                let given = value(then, c, names, call, w)?;
                present(given, operand_span(then))
            } else {
                let given = value(otherwise, c, names, call, w)?;
                present(given, operand_span(otherwise))
            }
        }
        _ => unreachable!(),
    }
}

/// `=`: the place, the right side, the write (JLS 15.26.1).
#[cycle(evaluating)]
fn assign<F: Enters>(
    tree: &Expr,
    c: &Context,
    names: &Names,
    call: &Calling<F>,
    w: &mut World,
) -> Result<Option<Value>, Halt>
    requires assigns { assigns_simply (placed_view tree.now) ≡ true }
    ensures { (m : Caller) → F.keeps call.now m
        → Means ((meant_in c.now names.now m (placed_view tree.now)).value (world_of w.old)) result (world_of w.new) }
{
    match tree {
        Expr::Assign {
            target,
            value: right,
            span,
            ..
        } => {
            let to = place(target, c, names, call, w)?;
            let given = value(right, c, names, call, w)?;
            write_place(c.program.program(), w, &to, *span, given)
        }
        _ => unreachable!(),
    }
}

/// A compound assignment: the place, the old value, the right side, the write of what they give (JLS 15.26.2).
#[cycle(evaluating)]
fn assign_by<F: Enters>(
    tree: &Expr,
    c: &Context,
    names: &Names,
    call: &Calling<F>,
    w: &mut World,
) -> Result<Option<Value>, Halt>
    requires assigns { assigns_by (placed_view tree.now) ≡ true }
    ensures { (m : Caller) → F.keeps call.now m
        → Means ((meant_in c.now names.now m (placed_view tree.now)).value (world_of w.old)) result (world_of w.new) }
{
    match tree {
        Expr::Assign {
            target,
            operator,
            value: right,
            span,
        } => {
            let to = place(target, c, names, call, w)?;
            let old = read_place(c.program.program(), w, &to, span_of(target))?;
            let given = value(right, c, names, call, w)?;
            let bases = (type_of(target, c), type_of(right, c));
            combine(
                c,
                w,
                &to,
                compound_of(*operator),
                bases,
                &old,
                &given,
                *span,
            )
        }
        _ => unreachable!(),
    }
}

/// Whether an expression holds as a condition.
#[cycle(evaluating)]
pub fn condition<F: Enters>(
    tree: &Expr,
    c: &Context,
    names: &Names,
    call: &Calling<F>,
    w: &mut World,
) -> Result<bool, Halt>
    ensures { (m : Caller) → F.keeps call.now m
        → Means ((meant_in c.now names.now m (placed_view tree.now)).condition (world_of w.old)) result (world_of w.new) }
{
    if is_tested(tree) {
        let given = value(tree, c, names, call, w)?;
        return truth(&given);
    }
    match tree {
        Expr::Literal { literal, .. } => Ok(is_true(*literal)),
        Expr::Paren { inner, .. } => condition(inner, c, names, call, w),
        _ => connect(tree, c, names, call, w),
    }
}

/// Conditions of other conditions (JLS 15.15.6, 15.23 and 15.24), tests for null (JLS 15.21.3) and `instanceof` (JLS 15.20.2).
#[cycle(evaluating)]
fn connect<F: Enters>(
    tree: &Expr,
    c: &Context,
    names: &Names,
    call: &Calling<F>,
    w: &mut World,
) -> Result<bool, Halt>
    requires connective { is_connective (placed_view tree.now) ≡ true }
    ensures { (m : Caller) → F.keeps call.now m
        → Means ((meant_in c.now names.now m (placed_view tree.now)).condition (world_of w.old)) result (world_of w.new) }
{
    match tree {
        Expr::Unary { operand, .. } => {
            let holds = condition(operand, c, names, call, w)?;
            Ok(!holds)
        }
        Expr::Binary {
            left,
            operator,
            right,
            ..
        } => {
            if is_equality(*operator) {
                if is_null(right) {
                    let tested = value(left, c, names, call, w)?;
                    return null_holds(*operator, &tested);
                }
                let tested = value(right, c, names, call, w)?;
                return null_holds(*operator, &tested);
            }
            let holds = condition(left, c, names, call, w)?;
            if is_and(*operator) {
                if holds {
                    condition(right, c, names, call, w)
                } else {
                    Ok(false)
                }
            } else if holds {
                Ok(true)
            } else {
                condition(right, c, names, call, w)
            }
        }
        Expr::InstanceOf { operand, class, .. } => {
            let given = value(operand, c, names, call, w)?;
            is_instance(
                c.program.program(),
                w,
                class_or_object(c.program, class.name),
                &given,
            )
        }
        _ => unreachable!(),
    }
}
