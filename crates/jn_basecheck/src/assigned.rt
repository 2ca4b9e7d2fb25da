//! The rows J8 of a body: a register read where some path comes without a write of it (JLS 8, 16).
ghost use Rattle.std.specs.Prelude.{◌≡◌, ◌<◌, ◌++◌, ◌∷◌, ◌&&◌, [], ltb, length, OnOk};
ghost use Rattle.jn_assigned.specs.Lacking.{TellsLacking};
ghost use Rattle.jn_dataflow.specs.Problem.{slot_at};
ghost use Rattle.jn_points.specs.BaseRows as rules;
ghost use Rattle.jn_points.specs.Operands.{operand_if};
ghost use Rattle.jn_basecheck.specs.Listed.{listed};
ghost use Rattle.jn_basecheck.specs.Rows as rows_of;

use crate::lookup::{body_of, point_of};
use crate::operands::{Operands, operands_of};
use jn_assigned::Unwritten;
use jn_base::{Code, RegNo, Row};
use jn_points::lookup::{is_void, method_in, reg_base};
use jn_points::{Operand, Program};
use std::alloc::AllocError;

/// Whether the entry writes the register: `this`, or a parameter.
fn is_given(program: &Program, body: usize, reg: RegNo) -> bool
    ensures { result ≡ ltb reg.0 (rules.given program.now body) }
{
    match method_in(program, body) {
        None => false,
        Some(method) => {
            if method.is_static {
                (reg.0 as usize) < method.params.len()
            } else {
                (reg.0 as usize) <= method.params.len()
            }
        }
    }
}

/// Whether a register has a value that only a write gives it.
fn needs_write(program: &Program, body: usize, reg: RegNo) -> bool
    ensures { result ≡ rows_of.needs_write program.now body reg.0 }
{
    !is_given(program, body, reg) && !is_void(reg_base(program, body, reg))
}

/// Whether some path comes to the point at a place without a write of a register that needs one.
fn is_unassigned(
    program: &Program,
    body: usize,
    unwritten: &Unwritten,
    at: usize,
    reg: RegNo,
) -> bool
    ensures { result ≡ rows_of.is_unassigned program.now body (slot_at unwritten.now at) reg.0 }
{
    unwritten.may_lack(at, reg.0 as usize) && needs_write(program, body, reg)
}

fn push_reading(
    rows: &mut Vec<Row>,
    program: &Program,
    body: usize,
    unwritten: &Unwritten,
    at: usize,
    operand: Operand,
) -> Result<(), AllocError>
    ensures { OnOk result (rows.new.items
        ≡ rows.old.items
        ++ rows_of.readings program.now body (slot_at unwritten.now at) (operand ∷ [])) }
{
    if is_unassigned(program, body, unwritten, at, operand.reg) {
        rows.push(Row {
            span: operand.span,
            code: Code::J8,
        })?;
    }
    Ok(())
}

fn push_optional_reading(
    rows: &mut Vec<Row>,
    program: &Program,
    body: usize,
    unwritten: &Unwritten,
    at: usize,
    operand: Option<Operand>,
) -> Result<(), AllocError>
    ensures { OnOk result (rows.new.items
        ≡ rows.old.items
        ++ rows_of.readings program.now body (slot_at unwritten.now at) (operand_if operand)) }
{
    match operand {
        None => Ok(()),
        Some(operand) => push_reading(rows, program, body, unwritten, at, operand),
    }
}

fn push_list_readings(
    rows: &mut Vec<Row>,
    program: &Program,
    body: usize,
    unwritten: &Unwritten,
    at: usize,
    operands: &[Operand],
) -> Result<(), AllocError>
    ensures { OnOk result (rows.new.items
        ≡ rows.old.items
        ++ rows_of.readings program.now body (slot_at unwritten.now at) operands.now) }
{
    for operand in operands {
        push_reading(rows, program, body, unwritten, at, *operand)?;
    }
    Ok(())
}

/// A row for each operand whose register is unassigned at the point at a place.
fn push_readings(
    rows: &mut Vec<Row>,
    program: &Program,
    body: usize,
    unwritten: &Unwritten,
    at: usize,
    operands: &Operands,
) -> Result<(), AllocError>
    ensures { OnOk result (rows.new.items
        ≡ rows.old.items
        ++ rows_of.readings program.now body (slot_at unwritten.now at) (listed operands.now)) }
{
    push_optional_reading(rows, program, body, unwritten, at, operands.first)?;
    push_optional_reading(rows, program, body, unwritten, at, operands.second)?;
    push_optional_reading(rows, program, body, unwritten, at, operands.third)?;
    push_list_readings(rows, program, body, unwritten, at, operands.rest)
}

/// The rows J8 of the point at a place.
fn push_readings_at(
    rows: &mut Vec<Row>,
    program: &Program,
    body: usize,
    unwritten: &Unwritten,
    at: usize,
) -> Result<(), AllocError>
    requires { TellsLacking program.now body unwritten.now }
    ensures { OnOk result
        (rows_of.Adds (rows_of.UnassignedAt program.now body at) rows.old.items rows.new.items) }
{
    match point_of(program, body, at) {
        None => Ok(()),
        Some(point) => {
            let operands = operands_of(&point.kind);
            push_readings(rows, program, body, unwritten, at, &operands)
        }
    }
}

/// The rows J8 of the body at a place: a register, and neither `this` nor a parameter, read where some path from the entry
/// comes without a write of it.
///
/// # Errors
/// No memory was found.
pub fn push_unassigned(
    rows: &mut Vec<Row>,
    program: &Program,
    body: usize,
    unwritten: &Unwritten,
) -> Result<(), AllocError>
    requires inside { body < length program.now.bodies }
    requires tells { TellsLacking program.now body unwritten.now }
    ensures { OnOk result
        (rows_of.Adds (rows_of.UnassignedRows program.now body) rows.old.items rows.new.items) }
{
    for at in 0..body_of(program, body).points.len() {
        push_readings_at(rows, program, body, unwritten, at)?;
    }
    Ok(())
}
