//! The points of straight code: constants, moves, operators, texts, tests of null, branches.
ghost use Rattle.std.specs.Prelude.{◌≡◌, ◌<◌, ◌-◌, ◌^◌, [], ℕ, List, IfOk, ltb, slice_index_or};
ghost use Rattle.jn_heap.specs.Values.{Text as TextValue, units, text_equals, usual_limits};
ghost use Rattle.jn_heap.specs.State.{State, got_of, got_plain, prim_of, text_in, truth_of, value_at, value_of};
ghost use Rattle.jn_heap.specs.Steps as spec;
ghost use Rattle.jn_machine.specs.Ends.{answer_of};
ghost use Rattle.jn_machine.specs.Parts.{goes_to};
ghost use Rattle.jn_machine.specs.StateView.{state_of, acted_next};

use crate::frame::Frame;
use crate::prim::{self, End, Got, Plain, Primitive};
use crate::state::{Acted, MachineState};
use crate::text;
use crate::value::Value;
use jn_base::{NameNo, PointNo, RegNo, Text};
use jn_points::{Literal, Operand, Operator, StrOperation};
use jn_trees::Names;
use std::alloc::{AllocError, Global};

/// The greatest number of elements of an array, or of UTF-16 units of a text.
pub const LONGEST: usize = 16_777_216;

/// The text of a name; an empty one where there is none.
fn name_at(alloc: Global, names: &Names, name: NameNo) -> Result<Text, AllocError>
    ensures { IfOk result (λ t. t ≡ slice_index_or names.now name.0 []) }
{
    if (name.0 as usize) < names.len() {
        Text::of_str(alloc, names.text(name))
    } else {
        Text::of_str(alloc, "")
    }
}

/// The String of a name.
#[inline(never)]
pub fn text_of(alloc: Global, names: &Names, name: NameNo) -> Result<Value, AllocError>
    ensures { IfOk result (λ v. v ≡ TextValue (slice_index_or names.now name.0 [])) }
{
    let text = name_at(alloc, names, name)?;
    Value::text(alloc, text)
}

pub(crate) fn literal(alloc: Global, names: &Names, value: Literal) -> Result<Value, AllocError>
    ensures { IfOk result (λ v. v ≡ spec.literal_value names.now value) }
{
    match value {
        Literal::Int(number) => Ok(Value::plain(Primitive::int(number))),
        Literal::Truth(truth) => Ok(Value::plain(Primitive::bool(truth))),
        Literal::Str(name) => text_of(alloc, names, name),
        Literal::Null => Ok(Value::null()),
    }
}

/// The value of a register, copied; None where it holds none.
pub(crate) fn copied(frame: &Frame, reg: RegNo) -> Result<Option<Value>, AllocError>
    ensures { IfOk result (λ v. v ≡ value_at frame.now.regs reg.0) }
{
    match frame.value(reg) {
        None => Ok(None),
        Some(value) => {
            let copy = value.copy()?;
            Ok(Some(copy))
        }
    }
}

pub(crate) fn moved(frame: &Frame, from: RegNo) -> Result<Got<Value>, AllocError>
    ensures { IfOk result (λ g. answer_of g ≡ got_of (value_at frame.now.regs from.0)) }
{
    match copied(frame, from)? {
        None => Ok(Got::Lacks),
        Some(value) => Ok(Got::Gives(value)),
    }
}

/// An int or boolean as a value.
fn plain(got: Got<Primitive>) -> Got<Value>
    ensures { answer_of result ≡ got_plain (answer_of got) }
{
    match got {
        Got::Gives(prim) => Got::Gives(Value::plain(prim)),
        Got::Fails(end) => Got::Fails(end),
        Got::Lacks => Got::Lacks,
    }
}

/// `-`, or `+`, of an int.
pub fn unary(negate: bool, of: Option<Primitive>) -> Got<Value>
    ensures { answer_of result ≡ spec.unary_of negate of }
{
    match of {
        None => Got::Lacks,
        Some(prim) => plain(prim::unary(negate, &prim)),
    }
}

/// An operator on two ints, or two booleans.
pub fn binary(operator: Operator, left: Option<Primitive>, right: Option<Primitive>) -> Got<Value>
    ensures { answer_of result ≡ spec.binary_of operator left right }
{
    match left {
        None => Got::Lacks,
        Some(a) => match right {
            None => Got::Lacks,
            Some(b) => plain(prim::binary(operator, &a, &b)),
        },
    }
}

/// The text that joins and prints of a register's value.
pub(crate) fn shown(alloc: Global, frame: &Frame, of: RegNo) -> Result<Option<Text>, AllocError>
    ensures { IfOk result (λ t. t ≡ text_in (value_at frame.now.regs of.0)) }
{
    match frame.value(of) {
        None => Ok(None),
        Some(value) => value.shown(alloc),
    }
}

/// The text as a String; one that is too long ends the run.
fn within_length(alloc: Global, text: Text) -> Result<Got<Value>, AllocError>
    ensures { IfOk result (λ g. answer_of g
        ≡ spec.text_or_long text (ltb usual_limits.longest (units text))) }
{
    if text::units(text.as_str()) > LONGEST {
        Ok(Got::Fails(End::Long))
    } else {
        let value = Value::text(alloc, text)?;
        Ok(Got::Gives(value))
    }
}

/// Two texts as one String, where both are there.
pub fn concat(
    alloc: Global,
    left: Option<Text>,
    right: Option<Text>,
) -> Result<Got<Value>, AllocError>
    ensures { IfOk result (λ g. answer_of g
        ≡ spec.concat_of usual_limits.longest left right) }
{
    let Some(front) = left else {
        return Ok(Got::Lacks);
    };
    let Some(rest) = right else {
        return Ok(Got::Lacks);
    };
    let both = text::joined(alloc, front.as_str(), rest.as_str())?;
    within_length(alloc, both)
}

pub(crate) fn same_ref(frame: &Frame, equal: bool, left: RegNo, right: RegNo) -> Got<Value>
    ensures { answer_of result
        ≡ spec.same_of equal (value_at frame.now.regs left.0) (value_at frame.now.regs right.0) }
{
    match frame.value(left) {
        None => Got::Lacks,
        Some(a) => match frame.value(right) {
            None => Got::Lacks,
            Some(b) => {
                let same = a.same(b);
                Got::Gives(Value::plain(Primitive::bool(if equal { same } else { !same })))
            }
        },
    }
}

/// Whether the operand's value is the text.
fn text_equals(frame: &Frame, text: &str, other: Option<Operand>) -> Got<Value>
    ensures { answer_of result ≡ got_plain (text_equals text.now (value_of frame.now.regs other)) }
{
    match other {
        None => Got::Lacks,
        Some(operand) => match frame.value(operand.reg) {
            None => Got::Lacks,
            Some(value) => Got::Gives(Value::plain(Primitive::bool(value.is_text(text)))),
        },
    }
}

pub(crate) fn str_op(
    frame: &Frame,
    op: StrOperation,
    of: RegNo,
    other: Option<Operand>,
) -> Got<Value>
    ensures { answer_of result
        ≡ spec.str_op op (value_at frame.now.regs of.0) (value_of frame.now.regs other) }
{
    match frame.value(of) {
        None => Got::Lacks,
        Some(value) => match value.as_text() {
            None => Got::Lacks,
            Some(text) => match op {
                StrOperation::Length => {
                    Got::Gives(Value::plain(prim::number_of(text::units(text))))
                }
                StrOperation::IsEmpty => Got::Gives(Value::plain(Primitive::bool(text.is_empty()))),
                StrOperation::Equals => text_equals(frame, text, other),
            },
        },
    }
}

/// The text of a register's value and a line feed are printed.
pub(crate) fn print(alloc: Global, state: &mut MachineState, of: RegNo) -> Result<Acted, AllocError>
    requires { state.old.top.at < 2 ^ 64 - 1 }
    ensures { IfOk result (λ acted. (out : List ℕ)
        → spec.print (state_of state.old out) (text_in (value_at state.old.top.regs of.0))
        ≡ acted_next acted state.new out) }
{
    let Some(text) = shown(alloc, &state.top, of)? else {
        return Ok(Acted::Stuck);
    };
    let line = text::joined(alloc, text.as_str(), "\n")?;
    state.top.advance();
    match Box::new(alloc, line) {
        Ok(boxed) => Ok(Acted::Prints(boxed)),
        Err(_) => Err(AllocError),
    }
}

/// Which point a test of null goes to.
pub(crate) fn test_null(
    frame: &Frame,
    of: RegNo,
    null: PointNo,
    non_null: PointNo,
) -> Option<PointNo>
    ensures { (st : State)
        → spec.test_null st null.0 non_null.0 (value_at frame.now.regs of.0) ≡ goes_to st result }
{
    match frame.value(of) {
        None => None,
        Some(value) => value.null_side(null, non_null),
    }
}

/// Which point a branch goes to.
pub(crate) fn branch(frame: &Frame, of: RegNo, yes: PointNo, no: PointNo) -> Option<PointNo>
    ensures { (st : State)
        → spec.branch st yes.0 no.0 (truth_of (prim_of (value_at frame.now.regs of.0)))
        ≡ goes_to st result }
{
    match frame.prim(of) {
        None => None,
        Some(prim) => match prim.plain() {
            Plain::Bool(true) => Some(yes),
            Plain::Bool(false) => Some(no),
            Plain::Int(_) => None,
        },
    }
}
