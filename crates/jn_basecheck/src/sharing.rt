//! Bodies shared among workers.
ghost use Rattle.std.specs.Prelude.{◌≡◌, ◌↔◌, ◌<◌, ◌+◌, ℕ, false, get_or, length, slice_index_or, Contains, IfOk, Vec as ListOf};
ghost use Rattle.std.proofs.Common.{Global};
ghost use Rattle.jn_base.specs.declared.place.Row.{Row as RowOf};
ghost use Rattle.jn_points.specs.BaseRows.{IsBaseRow};
ghost use Rattle.jn_points.specs.Regular.{Regular};
ghost use Rattle.jn_basecheck.specs.Rows.{AreRowsOf, AreTyped};

use crate::alone::push_body;
use jn_base::{OutOfMemory, Row};
use jn_index::indexed::IndexedProgram;
use jn_sharing::share_out;
use std::alloc::Global;
use std::thread::Threads;

/// The rows of a body.
#[tactic(auto, using(crate::proofs::Few::few_points, crate::proofs::Few::some_points))]
fn rows_of(alloc: Global, program: &IndexedProgram, body: usize) -> Result<Vec<Row>, OutOfMemory>
    requires regular { Regular program.now }
    requires inside { body < length program.now.bodies }
    ensures { IfOk result (λ rows. AreRowsOf program.now body (body + 1) rows.items) }
{
    let mut rows = Vec::new(alloc);
    push_body(alloc, &mut rows, program, body)?;
    Ok(rows)
}

/// The rows of all bodies, of which each has these.
fn put_together(
    alloc: Global,
    program: &IndexedProgram,
    found: &[Vec<Row>],
) -> Result<Vec<Row>, OutOfMemory>
    requires { (body : ℕ) (d : ListOf RowOf Global) → body < length found.now
        → AreRowsOf program.now body (body + 1) (slice_index_or found.now body d).items }
    ensures { IfOk result (λ rows. AreRowsOf program.now 0 (length found.now) rows.items) }
{
    let _program = program;
    let mut rows = Vec::new(alloc);
    for body in 0..found.len() {
        rows.extend_from_slice(found[body].as_slice())?;
    }
    Ok(rows)
}

/// Whether the body is told to have no row.
fn is_told(typed: &[bool], body: usize) -> bool
    ensures { result ≡ get_or typed.now body false }
{
    match typed.get(body) {
        None => false,
        Some(told) => *told,
    }
}

/// The rows of a body; none where it is told to have none.
fn rows_unless_told(
    alloc: Global,
    program: &IndexedProgram,
    typed: &[bool],
    body: usize,
) -> Result<Vec<Row>, OutOfMemory>
    requires regular { Regular program.now }
    requires typed { AreTyped program.now typed.now }
    requires inside { body < length program.now.bodies }
    ensures { IfOk result (λ rows. AreRowsOf program.now body (body + 1) rows.items) }
{
    if is_told(typed, body) {
        return Ok(Vec::new(alloc));
    }
    rows_of(alloc, program, body)
}

/// All rows of base typing, by workers, of which there are no more than there are bodies. Bodies that are told to have none aren't looked at.
pub fn all_rows<R: Threads + Sync>(
    rt: &R,
    alloc: Global,
    program: &IndexedProgram,
    typed: &[bool],
    workers: u32,
) -> Result<Vec<Row>, OutOfMemory>
    requires regular { Regular program.now }
    requires typed { AreTyped program.now typed.now }
    ensures { IfOk result
        (λ rows. (row : RowOf) → Contains rows.items row ↔ IsBaseRow program.now row) }
{
    let bodies = program.program().bodies.len();
    let more = bodies.min(workers as usize).saturating_sub(1) as u32;
    let check = |body: usize, _worker: u32| -> Result<Vec<Row>, OutOfMemory>
        requires { Regular program.now × AreTyped program.now typed.now × (body < length program.now.bodies) }
        ensures { IfOk result (λ rows. AreRowsOf program.entry.now body (body + 1) rows.items) }
    { rows_unless_told(alloc, program, typed, body) };
    let found = share_out(rt, alloc, bodies, more, &check)?;
    let rows = put_together(alloc, program, &found)?;
    Ok(rows)
}
