//! Base typing of a program.
ghost use Rattle.std.specs.Prelude.{◌≡◌, ◌↔◌, Contains, IfOk, IfErr};
ghost use Rattle.jn_base.specs.declared.place.Row.{Row as RowOf};
ghost use Rattle.jn_points.specs.BaseRows.{IsBaseRow, NoBaseRows};
ghost use Rattle.jn_points.specs.Regular.{Regular};
ghost use Rattle.jn_basecheck.specs.Refusal.{IsRefusedFor};
ghost use Rattle.jn_basecheck.specs.Rows.{AreTyped};

use crate::sharing::all_rows;
use jn_base::{Fail, Row};
use jn_index::BaseTyped;
use jn_index::indexed::IndexedProgram;
use jn_sharing::Workers;
use std::alloc::Global;
use std::thread::Threads;

/// The program, where there are no rows.
fn judged(program: IndexedProgram, rows: Vec<Row>) -> Result<BaseTyped, Fail<Vec<Row>>>
    requires regular { Regular program }
    requires rows { (row : RowOf) → Contains rows.items row ↔ IsBaseRow program row }
    ensures program { IfOk result (λ typed. typed ≡ program) }
    ensures typed { IfOk result (λ typed. NoBaseRows program) }
    ensures refused { IfErr result (λ fail. IsRefusedFor program fail) }
{
    if rows.is_empty() {
        return Ok(BaseTyped::of(program));
    }
    drop(program);
    Err(Fail::Refused(rows))
}

/// Gives the program back where it is base-typed: no operand has a type that does not fit (J7), or
/// of which only element nullity does not (J10), no register is read where some path comes without a
/// write of it (J8), and each reached Return gives a value exactly where its method has a result
/// (J9).
///
/// The bodies are shared among as many workers as are asked for, at most one for a body, each of
/// which takes one after the other. It goes by `join`, and so may wait for its workers.
///
/// # Errors
/// `Refused` with all of the program's rows J7 to J10, each at its place once or more, in no order;
/// `OutOfMemory` where no memory was found.
pub fn base_check<R: Threads + Sync>(
    rt: &R,
    alloc: Global,
    program: IndexedProgram,
    workers: Workers,
) -> Result<BaseTyped, Fail<Vec<Row>>>
    requires regular { Regular program }
    ensures program { IfOk result (λ typed. typed ≡ program) }
    ensures typed { IfOk result (λ typed. NoBaseRows program) }
    ensures refused { IfErr result (λ fail. IsRefusedFor program fail) }
{
    base_check_others(rt, alloc, program, &[], workers)
}

/// Does what [`base_check`] does, where bodies are told to have no row (`typed`, by their numbers): those aren't looked at.
///
/// # Errors
/// Those of [`base_check`].
pub fn base_check_others<R: Threads + Sync>(
    rt: &R,
    alloc: Global,
    program: IndexedProgram,
    typed: &[bool],
    workers: Workers,
) -> Result<BaseTyped, Fail<Vec<Row>>>
    requires regular { Regular program }
    requires typed { AreTyped program typed.now }
    ensures program { IfOk result (λ typed. typed ≡ program) }
    ensures typed { IfOk result (λ typed. NoBaseRows program) }
    ensures refused { IfErr result (λ fail. IsRefusedFor program fail) }
{
    match all_rows(rt, alloc, &program, typed, workers.count()) {
        Err(_) => {
            drop(program);
            Err(Fail::OutOfMemory)
        }
        Ok(rows) => judged(program, rows),
    }
}
