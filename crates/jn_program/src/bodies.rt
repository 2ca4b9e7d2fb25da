//! Bodies, and their rows J1 to J6.
ghost use Rattle.std.specs.Prelude.{◌≡◌, flat_map, map, IfOk};
ghost use Rattle.jn_lowering.specs.Bodies.{body_of_source};
ghost use Rattle.jn_lowering.specs.BodyRows.{rows_of_body};
ghost use Rattle.jn_lower_stmt.specs.Sources.{source_of};
ghost use Rattle.jn_program.specs.Ranges.{IsLoweredBody, body_of, rows_in};

use crate::rows::{is_empty, push_all};
use jn_base::{OutOfMemory, Row, Seq};
use jn_index::indexed::IndexedProgram;
use jn_limits::limit_rows;
use jn_lower_rows::bodies::body_rows;
use jn_lower_stmt::body::Source;
use jn_lower_stmt::lower::lower_body;
use jn_points::Body;
use std::alloc::Global;

/// A body, and its rows J1 to J6.
#[derive(Drop)]
pub struct LoweredBody {
    pub body: Body,
    pub rows: Seq<Row>,
}

/// Bodies, and rows J1 to J6.
#[derive(Drop)]
pub struct LoweredFiles {
    pub bodies: Seq<Body>,
    pub rows: Seq<Row>,
}

/// The rows of a body, where this is what it is lowered to.
fn rows_of(
    alloc: Global,
    program: &IndexedProgram,
    source: &Source,
    body: &Body,
) -> Result<Seq<Row>, OutOfMemory>
    requires lowered { body.now ≡ body_of_source program.now (source_of source.now) }
    ensures { IfOk result (λ rows. rows ≡ rows_of_body program.now (source_of source.now)) }
{
    let mut rows = Seq::new(alloc);
    body_rows(
        alloc,
        program,
        source.method,
        source.parameters,
        source.body,
        source.members,
        &mut rows,
    )?;
    if is_empty(&rows) {
        limit_rows(alloc, program, body, &mut rows)?;
    }
    Ok(rows)
}

/// What a source is lowered to, and its rows.
pub fn lower_one(
    alloc: Global,
    program: &IndexedProgram,
    source: &Source,
) -> Result<LoweredBody, OutOfMemory>
    ensures { IfOk result (λ lowered. IsLoweredBody program.now (source_of source.now) lowered) }
{
    let body = lower_body(alloc, program, source)?;
    let rows = rows_of(alloc, program, source, &body)?;
    Ok(LoweredBody { body, rows })
}

/// The bodies in their order, and their rows.
pub fn put_together(alloc: Global, lowered: Vec<LoweredBody>) -> Result<LoweredFiles, OutOfMemory>
    ensures bodies { IfOk result (λ all. all.bodies ≡ map body_of lowered.items) }
    ensures rows { IfOk result (λ all. all.rows ≡ flat_map rows_in lowered.items) }
{
    let mut bodies = Seq::new(alloc);
    let mut rows = Seq::new(alloc);
    for one in lowered {
        push_all(&mut rows, one.rows.as_slice())?;
        let LoweredBody { body, .. } = one;
        bodies.push(body)?;
    }
    Ok(LoweredFiles { bodies, rows })
}
