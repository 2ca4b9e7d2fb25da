//! The rows J9 of a body: a Return without value in a method with result, and one with value in a
//! void method, where they are reached (JLS 8, 8.4.7 and 14.17).
ghost use Rattle.std.specs.Prelude.{◌≡◌, ◌<◌, ◌++◌, ◌∷◌, [], true, length, OnOk};
ghost use Rattle.jn_base.specs.declared.code.Code.TheVariants.{J9};
ghost use Rattle.jn_points.specs.Lookup as spec;
ghost use Rattle.jn_points.specs.BaseRows as rules;
ghost use Rattle.jn_points.specs.Paths.{Reached};
ghost use Rattle.jn_assigned.specs.Lacking.{TellsLacking};
ghost use Rattle.jn_basecheck.specs.Rows as rows_of;

use crate::lookup::{body_of, point_of, result_base};
use jn_assigned::Unwritten;
use jn_base::{Code, Row, Span};
use jn_points::lookup::{is_void, method_in};
use jn_points::{Operand, PointKind, Program};
use std::alloc::AllocError;

fn push_missing(rows: &mut Vec<Row>, span: Span) -> Result<(), AllocError>
    ensures { OnOk result
        (rows.new.items ≡ rows.old.items ++ (record { span = span; code = J9 } ∷ [])) }
{
    rows.push(Row {
        span,
        code: Code::J9,
    })?;
    Ok(())
}

/// The row at the name of the body's method.
fn push_name(rows: &mut Vec<Row>, program: &Program, body: usize) -> Result<(), AllocError>
    ensures { OnOk result (rows.new.items
        ≡ rows.old.items
        ++ rules.rows_with program.now J9
        (rules.name_of program.now (spec.method_in program.now body))) }
{
    match method_in(program, body) {
        None => Ok(()),
        Some(method) => push_missing(rows, method.span),
    }
}

fn push_value(
    rows: &mut Vec<Row>,
    program: &Program,
    body: usize,
    value: Option<Operand>,
) -> Result<(), AllocError>
    ensures { OnOk result (rows.new.items
        ≡ rows.old.items ++ rules.result_rows program.now body (PointKind.Return value)) }
{
    let without = is_void(result_base(program, body));
    match value {
        None => {
            if without {
                Ok(())
            } else {
                push_name(rows, program, body)
            }
        }
        Some(value) => {
            if without {
                push_missing(rows, value.span)
            } else {
                Ok(())
            }
        }
    }
}

fn push_result(
    rows: &mut Vec<Row>,
    program: &Program,
    body: usize,
    kind: &PointKind,
) -> Result<(), AllocError>
    ensures { OnOk result
        (rows.new.items ≡ rows.old.items ++ rules.result_rows program.now body kind.now) }
{
    match kind {
        PointKind::Return { value } => push_value(rows, program, body, *value),
        _ => Ok(()),
    }
}

/// The row J9 of the point at a place, where a path comes to it.
fn push_result_at(
    rows: &mut Vec<Row>,
    program: &Program,
    body: usize,
    at: usize,
    is_reached: bool,
) -> Result<(), AllocError>
    requires reached { is_reached ≡ true → Reached program.now body at }
    requires missed { Reached program.now body at
        → at < length (spec.points_of (spec.body_at program.now body)) → is_reached ≡ true }
    ensures { OnOk result
        (rows_of.Adds (rows_of.ResultRowAt program.now body at) rows.old.items rows.new.items) }
{
    if !is_reached {
        return Ok(());
    }
    match point_of(program, body, at) {
        None => Ok(()),
        Some(point) => push_result(rows, program, body, &point.kind),
    }
}

/// The rows J9 of the body at a place: a reached Return without value in a method with result, at the method's name, and
/// one with value in a void method, at the value.
///
/// # Errors
/// No memory was found.
pub fn push_results(
    rows: &mut Vec<Row>,
    program: &Program,
    body: usize,
    unwritten: &Unwritten,
) -> Result<(), AllocError>
    requires inside { body < length program.now.bodies }
    requires tells { TellsLacking program.now body unwritten.now }
    ensures { OnOk result
        (rows_of.Adds (rows_of.ResultRows program.now body) rows.old.items rows.new.items) }
{
    for at in 0..body_of(program, body).points.len() {
        push_result_at(rows, program, body, at, unwritten.is_reached(at))?;
    }
    Ok(())
}
