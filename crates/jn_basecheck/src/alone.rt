//! The rows of one body.
ghost use Rattle.std.specs.Prelude.{◌<◌, ◌^◌, length, OnOk};
ghost use Rattle.jn_points.specs.Lookup.{body_at, points_of};
ghost use Rattle.jn_assigned.specs.Lacking.{TellsLacking};
ghost use Rattle.jn_basecheck.specs.Rows as rows_of;

use crate::assigned::push_unassigned;
use crate::points::push_body_types;
use crate::results::push_results;
use jn_assigned::{Unwritten, unassigned};
use jn_base::{OutOfMemory, Row};
use jn_index::indexed::IndexedProgram;
use jn_points::Program;
use std::alloc::{AllocError, Global};

/// Puts the rows J8 and J9 of the body at a place after others.
fn push_on_paths(
    rows: &mut Vec<Row>,
    program: &Program,
    body: usize,
    unwritten: &Unwritten,
) -> Result<(), AllocError>
    requires inside { body < length program.now.bodies }
    requires tells { TellsLacking program.now body unwritten.now }
    ensures { OnOk result
        (rows_of.Adds (rows_of.PathRow program.now body) rows.old.items rows.new.items) }
{
    push_unassigned(rows, program, body, unwritten)?;
    push_results(rows, program, body, unwritten)
}

/// Puts the rows J7 to J10 of the body at a place after others: each row of the body is there, and no other is new.
pub fn push_body(
    alloc: Global,
    rows: &mut Vec<Row>,
    program: &IndexedProgram,
    body: usize,
) -> Result<(), OutOfMemory>
    requires inside { body < length program.now.bodies }
    requires some { 0 < length (points_of (body_at program.now body)) }
    requires few { length (points_of (body_at program.now body)) < 2 ^ 32 }
    ensures { OnOk result
        (rows_of.Adds (rows_of.BodyRow program.now body) rows.old.items rows.new.items) }
{
    push_body_types(rows, program, body)?;
    let lists = program.program();
    let unwritten = unassigned(alloc, lists, body)?;
    push_on_paths(rows, lists, body, &unwritten)?;
    Ok(())
}
