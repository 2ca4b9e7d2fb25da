//! Rows of broken rules.
ghost use Rattle.std.specs.Prelude.{◌≡◌, ◌<◌, ◌^◌, ◌++◌, IfOk, OnOk, length};
ghost use Rattle.jn_points.specs.Lookup.{points_of, body_at};
ghost use Rattle.jn_transfer.specs.Rules.{body_rows, rows_from};

use crate::ctor::push_ctor;
use crate::kinds::push_rows;
use jn_base::{BodyNo, OutOfMemory, Row};
use jn_env::{Env, FlowTable, find_keys};
use jn_points::{Point, Program};
use jn_sigs::Sig;
use jn_transfer::Analysis;
use std::alloc::{AllocError, Global};

/// The rows of the broken rules of a body under a table: point by point, then the constructor's.
///
/// # Errors
/// No memory was found.
pub fn checks(
    alloc: Global,
    program: &Program,
    sig: &Sig,
    body: BodyNo,
    table: &FlowTable,
) -> Result<Vec<Row>, OutOfMemory>
    requires inside { body.0 < length program.now.bodies }
    requires few { length program.now.fields < 2 ^ 32 }
    requires long { length table.now ≡ length (points_of (body_at program.now body.0)) }
    ensures { IfOk result (λ rows. rows.items ≡ body_rows program.now sig.now body.0 table.now) }
{
    let keys = find_keys(alloc, program, body)?;
    let analysis = Analysis::new(program, sig, body, &keys);
    checks_by(alloc, &analysis, table)
}

/// The rows of a body whose keys are at hand; see `checks`.
///
/// # Errors
/// No memory was found.
pub fn checks_by(
    alloc: Global,
    analysis: &Analysis,
    table: &FlowTable,
) -> Result<Vec<Row>, OutOfMemory>
    requires inside { analysis.now.body < length analysis.now.program.bodies }
    requires long { length table.now
        ≡ length (points_of (body_at analysis.now.program analysis.now.body)) }
    ensures { IfOk result (λ rows.
        rows.items ≡ body_rows analysis.now.program analysis.now.sig analysis.now.body table.now) }
{
    let info = &analysis.program().bodies.as_slice()[analysis.body().0 as usize];
    let mut rows = Vec::new(alloc);
    push_points(
        &mut rows,
        analysis.program(),
        analysis.sig(),
        analysis.body(),
        info.points.as_slice(),
        table.slots(),
    )?;
    push_ctor(&mut rows, analysis, info, table.slots())?;
    Ok(rows)
}

fn push_points(
    rows: &mut Vec<Row>,
    program: &Program,
    sig: &Sig,
    body: BodyNo,
    points: &[Point],
    slots: &[Option<Env>],
) -> Result<(), AllocError>
    requires { length slots.now ≡ length points.now }
    ensures { OnOk result (rows.new.items
        ≡ rows.old.items ++ rows_from program.now sig.now body.0 points.now 0 slots.now) }
{
    for at in 0..points.len() {
        push_rows(rows, program, sig, body, &points[at], &slots[at])?;
    }
    Ok(())
}
