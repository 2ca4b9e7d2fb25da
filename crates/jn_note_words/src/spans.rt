//! Where steps stand in the text.
ghost use Rattle.std.specs.Prelude.{◌≡◌, MatchOption, None, Some, slice_get, slice_index_or};
ghost use Rattle.jn_points.specs.Lookup.{field_info, method_at, method_in, point_at};
ghost use Rattle.jn_note_words.specs.Worded as spec;

use crate::owners::{OwnedProgram, Owner};
use jn_base::{FieldNo, FileNo, Span};
use jn_points::lookup::{field_info, method_at, method_in};
use jn_points::{Operand, Point, PointKind, Program};
use jn_reasons_law::{Item, Place, Step};

/// A place for what is nowhere in the text.
const NOWHERE: Span = Span {
    file: FileNo(0),
    from: 0,
    to: 0,
};

fn field_span(program: &Program, field: u32) -> Span
    ensures { result ≡ spec.field_span (field_info program.now field) }
{
    match field_info(program, FieldNo(field)) {
        None => NOWHERE,
        Some(info) => info.span,
    }
}

fn method_span(program: &Program, method: u32) -> Span
    ensures { result ≡ spec.method_span (method_at program.now method) }
{
    match method_at(program, method as usize) {
        None => NOWHERE,
        Some(info) => info.span,
    }
}

/// Where a span of this number stands, or else this one.
fn span_at(spans: &[Span], number: usize, span: Span) -> Span
    ensures { result ≡ slice_index_or spans.now number span }
{
    match spans.get(number) {
        None => span,
        Some(found) => *found,
    }
}

/// Where the name of a parameter stands, by its number from 0.
fn parameter_span(program: &Program, method: u32, number: usize) -> Span
    ensures { result ≡ spec.parameter_span number (method_at program.now method) }
{
    match method_at(program, method as usize) {
        None => NOWHERE,
        Some(info) => span_at(info.param_spans.as_slice(), number, info.span),
    }
}

fn head_span(program: &Program, body: u32) -> Span
    ensures { result ≡ spec.method_span (method_in program.now body) }
{
    match method_in(program, body as usize) {
        None => NOWHERE,
        Some(info) => info.span,
    }
}

/// The point of a body, where there is one.
pub fn point_at(program: &Program, body: u32, point: u32) -> Option<&Point>
    ensures { MatchOption result (point_at program.now body point ≡ None)
        (λ p. point_at program.now body point ≡ Some p.now) }
{
    match program.bodies.as_slice().get(body as usize) {
        None => None,
        Some(info) => info.points.as_slice().get(point as usize),
    }
}

pub fn point_span(program: &Program, body: u32, point: u32) -> Span
    ensures { result ≡ spec.point_span (point_at program.now body point) }
{
    match point_at(program, body, point) {
        None => NOWHERE,
        Some(info) => info.span,
    }
}

/// The arguments of a point that calls.
fn arguments(kind: &PointKind) -> &[Operand]
    ensures { result.now ≡ spec.arguments kind.now }
{
    match kind {
        PointKind::New { args, .. } => args.as_slice(),
        PointKind::CtorCall { args, .. } => args.as_slice(),
        PointKind::Call { args, .. } => args.as_slice(),
        _ => &[],
    }
}

/// Where the value of this number stands, or else another place.
fn operand_span(operands: &[Operand], number: usize, span: Span) -> Span
    ensures { result ≡ spec.operand_span (slice_get operands.now number) span }
{
    match operands.get(number) {
        None => span,
        Some(value) => value.span,
    }
}

/// Where a point passes the argument of this number.
fn argument_span(program: &Program, body: u32, point: u32, number: usize) -> Span
    ensures { result ≡ spec.argument_span number (point_at program.now body point) }
{
    match point_at(program, body, point) {
        None => NOWHERE,
        Some(info) => operand_span(arguments(&info.kind), number, info.span),
    }
}

/// Where a slot has its bit from a point.
fn sent_span(program: &Program, owner: Option<Owner>, body: u32, point: u32) -> Span
    ensures { result ≡ spec.sent_span owner (point_at program.now body point) }
{
    match owner {
        None => point_span(program, body, point),
        Some(Owner::OfField(_)) => point_span(program, body, point),
        Some(Owner::OfParameter(_, number)) => argument_span(program, body, point, number),
        Some(Owner::OfReceiver(_)) => point_span(program, body, point),
        Some(Owner::OfResult(_)) => point_span(program, body, point),
    }
}

/// Where a slot is declared.
pub fn owner_span(program: &Program, owner: Option<Owner>) -> Span
    ensures { result ≡ spec.owner_span program.now owner }
{
    match owner {
        None => NOWHERE,
        Some(Owner::OfField(field)) => field_span(program, field),
        Some(Owner::OfParameter(method, number)) => parameter_span(program, method, number),
        Some(Owner::OfReceiver(method)) => method_span(program, method),
        Some(Owner::OfResult(method)) => method_span(program, method),
    }
}

/// Where a place stands in the text from which a slot of this owner, or else a register, has its bit.
fn place_span(program: &OwnedProgram, owner: Option<Owner>, place: Place) -> Span
    ensures { result ≡ spec.place_span program.now owner place }
{
    match place {
        Place::OfSlot(slot) => owner_span(program.program(), program.owner_at(slot)),
        Place::OfMethod(method) => method_span(program.program(), method),
        Place::OfBody(body) => head_span(program.program(), body),
        Place::OfPoint(body, point) => sent_span(program.program(), owner, body, point),
    }
}

fn item_owner(program: &OwnedProgram, item: Item) -> Option<Owner>
    ensures { result ≡ spec.item_owner program.now item }
{
    match item {
        Item::AtSlot(slot, _) => program.owner_at(slot),
        Item::AtRegister(_, _, _, _) => None,
    }
}

/// Where the place of a step stands in the text: for a parameter's slot the argument that is passed to it, else the declaration or the point itself.
pub fn step_span(program: &OwnedProgram, step: Step) -> Span
    ensures { result ≡ spec.step_span program.now step }
{
    let owner = item_owner(program, step.item);
    place_span(program, owner, step.place)
}
