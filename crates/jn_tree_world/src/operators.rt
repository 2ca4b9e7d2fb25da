//! Literals, operators, casts and the operations of class String.
ghost use Rattle.std.specs.Prelude.{◌≡◌, ℕ, List, Some, IfOk};
ghost use Rattle.jn_heap.specs.State.{got_plain, prim_of, text_in};
ghost use Rattle.jn_heap.specs.Steps as steps;
ghost use Rattle.jn_heap.specs.Values.{text_equals, usual_limits};
ghost use Rattle.jn_lowering.specs.Forms as form;
ghost use Rattle.jn_machine.specs.Ends.{answer_of};
ghost use Rattle.jn_meaning.specs.Expressions.{Caller, first_value};
ghost use Rattle.jn_meaning.specs.Operations as ops;
ghost use Rattle.jn_meaning.specs.Worlds as spec;
ghost use Rattle.jn_points.specs.declared.program.Program as program;
ghost use Rattle.jn_meaning.specs.Worlds.{Has};
ghost use Rattle.jn_tree_world.specs.Outcomes.{Means};
ghost use Rattle.jn_tree_world.specs.Worlds.{world_of};

use crate::halt::Halt;
use crate::values::{got, prim, shown};
use crate::world::World;
use jn_base::{ClassNo, Span};
use jn_lower_expr::operators::{is_equal, references};
use jn_machine::{Got, Primitive, Value, prim as numbers, straight, text};
use jn_points::lookup::is_reference;
use jn_points::{BaseType, Operator, Program, StrOperation};
use jn_scopes::types::joins;
use jn_trees::{Literal, Names, Step};
use std::alloc::{AllocError, Global};

/// The number of a literal; that of 2,147,483,648, which stands after a minus, wraps (JLS 3.10.1).
fn number_of(number: u32) -> i32
    ensures { result ≡ form.int_of number }
{
    if number < 2_147_483_648 {
        number as i32
    } else {
        -2_147_483_648
    }
}

/// A literal's value (JLS 15.8.1).
fn literal_value(alloc: Global, names: &Names, literal: Literal) -> Result<Value, AllocError>
    ensures { IfOk result (λ v. v ≡ steps.literal_value names.now (form.constant literal)) }
{
    match literal {
        Literal::Number(number) => Ok(Value::plain(Primitive::int(number_of(number)))),
        Literal::Str(name) => straight::text_of(alloc, names, name),
        Literal::True => Ok(Value::plain(Primitive::bool(true))),
        Literal::False => Ok(Value::plain(Primitive::bool(false))),
        Literal::Null => Ok(Value::null()),
    }
}

/// A literal's value (JLS 15.8.1).
pub fn literal(alloc: Global, names: &Names, literal: Literal) -> Result<Option<Value>, Halt>
    ensures { (w : spec.World)
        → Means (Has (Some (steps.literal_value names.now (form.constant literal))) w) result w }
{
    match literal_value(alloc, names, literal) {
        Err(_) => Err(Halt::OutOfMemory),
        Ok(value) => Ok(Some(value)),
    }
}

/// `-`, or `+`, of an int (JLS 15.15.3 and 15.15.4).
pub fn unary(negate: bool, value: &Option<Value>, span: Span) -> Result<Option<Value>, Halt>
    ensures { (w : spec.World)
        → Means (spec.got span (steps.unary_of negate (prim_of value.now)) w) result w }
{
    got(straight::unary(negate, prim(value)), span)
}

fn binary_of(operator: Operator, left: &Option<Value>, right: &Option<Value>) -> Got<Value>
    ensures { answer_of result
        ≡ steps.binary_of operator (prim_of left.now) (prim_of right.now) }
{
    straight::binary(operator, prim(left), prim(right))
}

/// An operator on two ints, or two booleans (JLS 15.17 to 15.21).
pub fn binary(
    operator: Operator,
    left: &Option<Value>,
    right: &Option<Value>,
    span: Span,
) -> Result<Option<Value>, Halt>
    ensures { (w : spec.World)
        → Means (spec.got span (steps.binary_of operator (prim_of left.now) (prim_of right.now)) w)
        result w }
{
    got(binary_of(operator, left, right), span)
}

fn concat_of(
    alloc: Global,
    left: &Option<Value>,
    right: &Option<Value>,
) -> Result<Got<Value>, AllocError>
    ensures { IfOk result (λ g. answer_of g
        ≡ steps.concat_of usual_limits.longest (text_in left.now) (text_in right.now)) }
{
    let front = shown(alloc, left)?;
    let rest = shown(alloc, right)?;
    straight::concat(alloc, front, rest)
}

fn same_of(equal: bool, left: &Option<Value>, right: &Option<Value>) -> Got<Value>
    ensures { answer_of result ≡ steps.same_of equal left.now right.now }
{
    match left {
        None => Got::Lacks,
        Some(a) => match right {
            None => Got::Lacks,
            Some(b) => {
                let same = a.same(b);
                Got::Gives(Value::plain(Primitive::bool(if equal { same } else { !same })))
            }
        },
    }
}

/// What an operator makes of its sides, by the types of these.
fn operated_of(
    alloc: Global,
    operator: Operator,
    bases: (BaseType, BaseType),
    left: &Option<Value>,
    right: &Option<Value>,
) -> Result<Got<Value>, AllocError>
    ensures { IfOk result (λ g. (P : program.Program) → answer_of g
        ≡ ops.operated P usual_limits.longest operator bases.0 bases.1 left.now right.now) }
{
    let (left_base, right_base) = bases;
    if joins(operator, left_base, right_base) {
        return concat_of(alloc, left, right);
    }
    if references(operator, left_base, right_base) {
        return Ok(same_of(is_equal(operator), left, right));
    }
    Ok(binary_of(operator, left, right))
}

/// A binary operator other than `&&` and `||`, by the types of its sides (JLS 15.17 to 15.21).
pub fn operated(
    alloc: Global,
    operator: Operator,
    bases: (BaseType, BaseType),
    left: &Option<Value>,
    right: &Option<Value>,
    span: Span,
) -> Result<Option<Value>, Halt>
    ensures { (P : program.Program) (w : spec.World) → Means (spec.got span
        (ops.operated P usual_limits.longest operator bases.0 bases.1 left.now right.now) w)
        result w }
{
    match operated_of(alloc, operator, bases, left, right) {
        Err(_) => Err(Halt::OutOfMemory),
        Ok(given) => got(given, span),
    }
}

/// The operator of `++` and of `--`.
pub fn step_operator(step: Step) -> Operator
    ensures { result ≡ form.step_operator step }
{
    match step {
        Step::Increment => Operator::Add,
        Step::Decrement => Operator::Sub,
    }
}

/// Whether the operand's value is the text.
fn equals(text: &str, other: &[Option<Value>]) -> Got<Value>
    ensures { (P : program.Program) (names : List (List ℕ)) (longest : ℕ) (m : Caller)
        → answer_of result
        ≡ got_plain (text_equals text.now (first_value P names longest m other.now)) }
{
    match other {
        [] => Got::Lacks,
        [first, ..] => match first {
            None => Got::Lacks,
            Some(value) => Got::Gives(Value::plain(Primitive::bool(value.is_text(text)))),
        },
    }
}

fn string_of(operation: StrOperation, of: &Option<Value>, other: &[Option<Value>]) -> Got<Value>
    ensures { (P : program.Program) (names : List (List ℕ)) (longest : ℕ) (m : Caller)
        → answer_of result
        ≡ steps.str_op operation of.now (first_value P names longest m other.now) }
{
    match of {
        None => Got::Lacks,
        Some(value) => match value.as_text() {
            None => Got::Lacks,
            Some(text) => match operation {
                StrOperation::Length => {
                    Got::Gives(Value::plain(numbers::number_of(text::units(text))))
                }
                StrOperation::IsEmpty => Got::Gives(Value::plain(Primitive::bool(text.is_empty()))),
                StrOperation::Equals => equals(text, other),
            },
        },
    }
}

/// An operation of class String (java.lang.String).
pub fn string(
    operation: StrOperation,
    of: &Option<Value>,
    other: &[Option<Value>],
    span: Span,
) -> Result<Option<Value>, Halt>
    ensures { (P : program.Program) (names : List (List ℕ)) (longest : ℕ) (m : Caller)
        (w : spec.World) → Means (spec.got span
        (steps.str_op operation of.now (first_value P names longest m other.now)) w) result w }
{
    got(string_of(operation, of, other), span)
}

fn cast_of(
    program: &Program,
    w: &World,
    value: &Option<Value>,
    class: ClassNo,
) -> Result<Got<Value>, AllocError>
    ensures { IfOk result (λ g. answer_of g
        ≡ steps.cast_of program.now w.now.heap.items value.now class.0) }
{
    match value {
        None => Ok(Got::Lacks),
        Some(given) => given.cast(program, &w.heap, class),
    }
}

/// A cast of a reference (JLS 15.16).
pub fn cast(
    program: &Program,
    w: &World,
    value: &Option<Value>,
    class: ClassNo,
    span: Span,
) -> Result<Option<Value>, Halt>
    ensures { Means
        (spec.got span (steps.cast_of program.now w.now.heap.items value.now class.0)
        (world_of w.now))
        result (world_of w.now) }
{
    match cast_of(program, w, value, class) {
        Err(_) => Err(Halt::OutOfMemory),
        Ok(given) => got(given, span),
    }
}
