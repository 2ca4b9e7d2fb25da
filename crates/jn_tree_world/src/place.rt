//! What can be read and assigned.
ghost use Rattle.jn_meaning.specs.Operations as ops;
ghost use Rattle.jn_meaning.specs.Expressions as expressions;
ghost use Rattle.jn_meaning.specs.Worlds as spec;
ghost use Rattle.jn_tree_world.specs.Outcomes.{Means};
ghost use Rattle.jn_tree_world.specs.Worlds.{place_of, world_of};

use crate::arrays::{read_element, read_length, write_element};
use crate::halt::Halt;
use crate::heap::{object, read_field, read_static, write_field, write_static};
use crate::values::{int, not_null, present};
use crate::world::World;
use jn_base::{FieldNo, RegNo, Span};
use jn_machine::Value;
use jn_points::Program;

/// What can be read and assigned, with its object, array and index evaluated, and where the operand stands that is dereferenced.
#[derive(Drop)]
pub enum Place {
    Local(RegNo),
    Static(FieldNo),
    Field(Option<Value>, Span, FieldNo),
    Element(Option<Value>, Span, Option<Value>),
    /// The length of an array, which nothing assigns.
    Length(Option<Value>, Span),
    Nothing,
}

fn checked_field(
    program: &Program,
    w: &World,
    of: &Option<Value>,
    at: Span,
    field: FieldNo,
    span: Span,
) -> Result<Option<Value>, Halt>
    ensures { Means
        (ops.read_place program.now (ops.FieldPlace of.now at field.0) span (world_of w.now)) result
        (world_of w.now) }
{
    not_null(of, at)?;
    read_field(program, w, of, field, span)
}

fn checked_element(
    program: &Program,
    w: &World,
    of: &Option<Value>,
    at: Span,
    index: &Option<Value>,
    span: Span,
) -> Result<Option<Value>, Halt>
    ensures { Means
        (ops.read_place program.now (ops.ElementPlace of.now at index.now) span (world_of w.now))
        result (world_of w.now) }
{
    not_null(of, at)?;
    let _lists = program;
    read_element(w, of, index, span)
}

fn checked_length(
    program: &Program,
    w: &World,
    of: &Option<Value>,
    at: Span,
    span: Span,
) -> Result<Option<Value>, Halt>
    ensures { Means
        (ops.read_place program.now (ops.LengthPlace of.now at) span (world_of w.now)) result
        (world_of w.now) }
{
    not_null(of, at)?;
    let _lists = program;
    read_length(w, of, span)
}

/// What stands there is read (JLS 15.11.1, 15.10.4 and 10.7).
pub fn read_place(
    program: &Program,
    w: &World,
    place: &Place,
    span: Span,
) -> Result<Option<Value>, Halt>
    ensures { Means (ops.read_place program.now (place_of place.now) span (world_of w.now)) result
        (world_of w.now) }
{
    match place {
        Place::Local(local) => w.local(*local),
        Place::Static(field) => read_static(w, *field, span),
        Place::Field(of, at, field) => checked_field(program, w, of, *at, *field, span),
        Place::Element(of, at, index) => checked_element(program, w, of, *at, index, span),
        Place::Length(of, at) => checked_length(program, w, of, *at, span),
        Place::Nothing => Ok(None),
    }
}

fn set_field(
    program: &Program,
    w: &mut World,
    of: &Option<Value>,
    at: Span,
    field: FieldNo,
    span: Span,
    value: Option<Value>,
) -> Result<Option<Value>, Halt>
    ensures { Means
        (ops.write_place program.now (ops.FieldPlace of.now at field.0) span value (world_of w.old))
        result (world_of w.new) }
{
    not_null(of, at)?;
    write_field(program, w, span, object(of), field, value)
}

fn set_element(
    program: &Program,
    w: &mut World,
    of: &Option<Value>,
    at: Span,
    index: &Option<Value>,
    span: Span,
    value: Option<Value>,
) -> Result<Option<Value>, Halt>
    ensures { Means
        (ops.write_place program.now (ops.ElementPlace of.now at index.now) span value
        (world_of w.old))
        result (world_of w.new) }
{
    not_null(of, at)?;
    write_element(program, w, span, object(of), int(index), value)
}

/// A value is written there, and is then given (JLS 15.26.1).
pub fn write_place(
    program: &Program,
    w: &mut World,
    place: &Place,
    span: Span,
    value: Option<Value>,
) -> Result<Option<Value>, Halt>
    ensures { Means (ops.write_place program.now (place_of place.now) span value (world_of w.old))
        result (world_of w.new) }
{
    match place {
        Place::Local(local) => w.set_local(*local, value),
        Place::Static(field) => write_static(w, *field, value),
        Place::Field(of, at, field) => set_field(program, w, of, *at, *field, span, value),
        Place::Element(of, at, index) => set_element(program, w, of, *at, index, span, value),
        Place::Length(..) => Ok(value),
        Place::Nothing => Ok(value),
    }
}

/// What `++` and `--` after give: the old value, which must be there where it is a local's (JLS 15.14.2).
pub fn old_value(place: &Place, span: Span, value: Option<Value>) -> Result<Option<Value>, Halt>
    ensures { (w : spec.World)
        → Means (expressions.old_value (place_of place.now) span value w) result w }
{
    match place {
        Place::Local(_) => present(value, span),
        _ => Ok(value),
    }
}
