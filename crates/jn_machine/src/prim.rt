//! Ints and booleans, ends of runs, and arithmetic.
ghost use Rattle.std.specs.Prelude.{◌≡◌};
ghost use Rattle.jn_heap.specs.Values as spec;
ghost use Rattle.jn_machine.specs.Ends.{answer_of};

use jn_points::Operator;
use std::marker::Model;

/// How a run ends: `main` returned, an exception of Java by name, or a limit.
#[derive(Clone, Copy, Debug, PartialEq, Eq)]
pub enum End {
    /// `main` returned.
    Done,
    /// ArithmeticException: a division by zero.
    Arithmetic,
    /// ArrayIndexOutOfBoundsException.
    Index,
    /// NegativeArraySizeException.
    NegativeSize,
    /// ClassCastException.
    ClassCast,
    /// ArrayStoreException.
    ArrayStore,
    /// More than 4,096 frames.
    Deep,
    /// More than 16,777,216 elements of an array or UTF-16 units of a text.
    Long,
}

/// What an operation gives.
#[derive(Drop)]
pub enum Got<T> {
    Gives(T),
    /// The run ends.
    Fails(End),
    /// A value that it needs isn't there, or isn't of the kind that it needs.
    Lacks,
}

#[derive(Clone, Copy, Debug, PartialEq, Eq)]
pub enum Plain {
    Int(i32),
    Bool(bool),
}

/// An int or a boolean; contracts see the definition's.
#[derive(Debug, Drop)]
pub struct Primitive {
    plain: Plain,
}

impl Model for Primitive {
    ghost use Rattle.jn_machine.specs.PrimView.{plain_view};
    ghost use Rattle.jn_heap.specs.Values.{Prim as Defined};

    ghost Value = { Defined };

    ghost view = { λ p. plain_view p.plain };
}

impl Primitive {
    ghost use Rattle.jn_machine.specs.PrimView.{plain_view};

    pub fn int(number: i32) -> Primitive
        ensures { result ≡ spec.Number number }
    {
        Primitive {
            plain: Plain::Int(number),
        }
    }

    pub fn bool(truth: bool) -> Primitive
        ensures { result ≡ spec.Truth truth }
    {
        Primitive {
            plain: Plain::Bool(truth),
        }
    }

    pub fn plain(&self) -> Plain
        ensures { plain_view result ≡ self.now }
    {
        self.plain
    }

    pub fn copy(&self) -> Primitive
        ensures { result ≡ self.now }
    {
        Primitive { plain: self.plain }
    }
}

/// The value negated, or as it is; a boolean lacks.
pub fn unary(negate: bool, of: &Primitive) -> Got<Primitive>
    ensures { answer_of result ≡ spec.unary negate of.now }
{
    match of.plain() {
        Plain::Int(n) if negate => Got::Gives(Primitive::int(n.wrapping_neg())),
        Plain::Int(n) => Got::Gives(Primitive::int(n)),
        Plain::Bool(_) => Got::Lacks,
    }
}

/// The quotient, truncated toward zero; the least int by -1 is the least int.
fn quotient(a: i32, b: i32) -> Got<Primitive>
    ensures { answer_of result ≡ spec.of_numbers Operator.Div a b }
{
    if b == 0 {
        Got::Fails(End::Arithmetic)
    } else {
        Got::Gives(Primitive::int(a.wrapping_div(b)))
    }
}

/// The remainder, with the sign of `a`.
fn remainder(a: i32, b: i32) -> Got<Primitive>
    ensures { answer_of result ≡ spec.of_numbers Operator.Rem a b }
{
    if b == 0 {
        Got::Fails(End::Arithmetic)
    } else {
        Got::Gives(Primitive::int(a.wrapping_rem(b)))
    }
}

fn of_ints(operator: Operator, a: i32, b: i32) -> Got<Primitive>
    ensures { answer_of result ≡ spec.of_numbers operator a b }
{
    let prim = match operator {
        Operator::Div => return quotient(a, b),
        Operator::Rem => return remainder(a, b),
        Operator::Add => Primitive::int(a.wrapping_add(b)),
        Operator::Sub => Primitive::int(a.wrapping_sub(b)),
        Operator::Mul => Primitive::int(a.wrapping_mul(b)),
        Operator::Less => Primitive::bool(a < b),
        Operator::LessEqual => Primitive::bool(a <= b),
        Operator::Greater => Primitive::bool(a > b),
        Operator::GreaterEqual => Primitive::bool(a >= b),
        Operator::Equal => Primitive::bool(a <= b && b <= a),
        Operator::NotEqual => Primitive::bool(!(a <= b && b <= a)),
    };
    Got::Gives(prim)
}

fn of_bools(operator: Operator, a: bool, b: bool) -> Got<Primitive>
    ensures { answer_of result ≡ spec.of_truths operator a b }
{
    match operator {
        Operator::Equal => Got::Gives(Primitive::bool(if a { b } else { !b })),
        Operator::NotEqual => Got::Gives(Primitive::bool(if a { !b } else { b })),
        _ => Got::Lacks,
    }
}

/// The operator on two ints, or `==` and `!=` on two booleans.
pub fn binary(operator: Operator, left: &Primitive, right: &Primitive) -> Got<Primitive>
    ensures { answer_of result ≡ spec.binary operator left.now right.now }
{
    match (left.plain(), right.plain()) {
        (Plain::Int(a), Plain::Int(b)) => of_ints(operator, a, b),
        (Plain::Bool(a), Plain::Bool(b)) => of_bools(operator, a, b),
        _ => Got::Lacks,
    }
}

/// A count as an int, which wraps.
pub fn number_of(count: usize) -> Primitive
    ensures { result ≡ spec.number_of count }
{
    Primitive::int(((count % 4_294_967_296) as u32).cast_signed())
}
