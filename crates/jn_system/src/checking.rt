//! The rows of all bodies and overriding pairs, by any number of workers.
ghost use Rattle.std.specs.Prelude.{◌≡◌, ℕ, ◌++◌, ◌<◌, length, flat_map, slice_index_or, IfOk, OnOk, Vec};
ghost use Rattle.std.proofs.Common.{Global};
ghost use Rattle.jn_base.specs.declared.place.Row.{Row as RowOf};
ghost use Rattle.jn_points.specs.Members.{below};
ghost use Rattle.jn_env.specs.Code.{AreKeys};
ghost use Rattle.jn_transfer.specs.Rules.{pairs_rows};
ghost use Rattle.jn_tables_law.specs.Inferable.{IsInferable};
ghost use Rattle.jn_system.specs.Ready.{AreReady};
ghost use Rattle.jn_system.specs.Rows.{least_rows, AreBroken};

use crate::bodies::Bodies;
use jn_base::{BodyNo, OutOfMemory, Row};
use jn_checks::{checks_by, override_rows};
use jn_diag::order;
use jn_env::{Keys, OwnFields, find_keys_by};
use jn_flow::flow_by;
use jn_index::indexed::IndexedProgram;
use jn_points::Program;
use jn_sharing::{Workers, share_out};
use jn_sigs::Sig;
use jn_transfer::Analysis;
use jn_workers::Gate;
use std::alloc::{AllocError, Global};
use std::thread::Threads;

/// A body's rows under its least table.
#[tactic(auto, using(crate::proofs::Gathering::table_long, crate::proofs::Gathering::rows_are))]
fn rows_by(
    alloc: Global,
    program: &Program,
    sig: &Sig,
    body: BodyNo,
    keys: &Keys,
) -> Result<Vec<Row>, OutOfMemory>
    requires inferable { IsInferable program.now }
    requires inside { body.0 < length program.now.bodies }
    requires keys { AreKeys program.now body.0 keys.now }
    ensures { IfOk result (λ rows. rows.items ≡ least_rows program.now sig.now body.0) }
{
    let analysis = Analysis::new(program, sig, body, keys);
    let table = flow_by(alloc, &analysis)?;
    let rows = checks_by(alloc, &analysis, &table)?;
    Ok(rows)
}

/// One body's rows under its least table. The worker enters the gate with the body's number first.
pub fn rows_of<G: Gate>(
    alloc: Global,
    bodies: &Bodies,
    body: u32,
    worker: u32,
    gate: &G,
) -> Result<Vec<Row>, OutOfMemory>
    requires ready { AreReady bodies.now.program.now bodies.now.own.now }
    requires inside { body < length bodies.now.program.now.bodies }
    ensures { IfOk result
        (λ rows. rows.items ≡ least_rows bodies.now.program.now bodies.now.sig.now body) }
{
    let Bodies { program, sig, own } = *bodies;
    gate.enter(worker, BodyNo(body));
    let keys = find_keys_by(alloc, program, own, BodyNo(body))?;
    rows_by(alloc, program, sig, BodyNo(body), &keys)
}

fn append(all: &mut Vec<Row>, rows: &[Row]) -> Result<(), AllocError>
    ensures { OnOk result (all.new.items ≡ all.old.items ++ rows.now) }
{
    all.extend_from_slice(rows)?;
    Ok(())
}

/// The rows of all bodies in their order, of which each has these.
fn in_order(alloc: Global, bodies: &Bodies, found: &[Vec<Row>]) -> Result<Vec<Row>, OutOfMemory>
    requires { (b : ℕ) (d : Vec RowOf Global) → b < length found.now
        → (slice_index_or found.now b d).items
        ≡ least_rows bodies.now.program.now bodies.now.sig.now b }
    ensures { IfOk result (λ all. all.items
        ≡ flat_map (least_rows bodies.now.program.now bodies.now.sig.now)
        (below (length found.now))) }
{
    let _bodies = bodies;
    let mut all = Vec::new(alloc);
    for body in 0..found.len() {
        append(&mut all, found[body].as_slice())?;
    }
    Ok(all)
}

/// The rows of all bodies: workers take one after the other.
fn bodies_rows<R: Threads + Sync, G: Gate + Sync>(
    rt: &R,
    alloc: Global,
    bodies: &Bodies,
    workers: Workers,
    gate: &G,
) -> Result<Vec<Row>, OutOfMemory>
    requires ready { AreReady bodies.now.program.now bodies.now.own.now }
    ensures { IfOk result (λ all. all.items
        ≡ flat_map (least_rows bodies.now.program.now bodies.now.sig.now)
        (below (length bodies.now.program.now.bodies))) }
{
    let count = bodies.program.bodies.len();
    let rows = |body: usize, worker: u32| -> Result<Vec<Row>, OutOfMemory>
        requires { AreReady bodies.now.program.now bodies.now.own.now
            × (body < length bodies.now.program.now.bodies) }
        ensures { IfOk result (λ rows. rows.items
            ≡ least_rows bodies.entry.now.program.now bodies.entry.now.sig.now body) }
    { rows_of(alloc, bodies, body as u32, worker, gate) };
    let found = share_out(rt, alloc, count, workers.count() - 1, &rows)?;
    let all = in_order(alloc, bodies, &found)?;
    Ok(all)
}

/// Exactly the rows of the broken rules, where these are the rows of overriding pairs.
#[tactic(auto, using(crate::proofs::Gathering::all_broken))]
fn rows_with<R: Threads + Sync, G: Gate + Sync>(
    rt: &R,
    alloc: Global,
    program: &Program,
    sig: &Sig,
    pairs: &[Row],
    workers: Workers,
    gate: &G,
) -> Result<Vec<Row>, OutOfMemory>
    requires inferable { IsInferable program.now }
    requires pairs { pairs.now ≡ pairs_rows program.now sig.now }
    ensures { IfOk result (λ rows. AreBroken program.now sig.now rows.items) }
{
    let own = OwnFields::new(alloc, program)?;
    let bodies = Bodies {
        program,
        sig,
        own: &own,
    };
    let mut all = bodies_rows(rt, alloc, &bodies, workers, gate)?;
    append(&mut all, pairs)?;
    order(&mut all)?;
    Ok(all)
}

/// Exactly the rows of the broken rules of a program under the least tables of the signature, in order, found
/// by the given number of workers, 1 to 16.
///
/// # Errors
/// No memory was found.
pub fn check_all<R: Threads + Sync, G: Gate + Sync>(
    rt: &R,
    alloc: Global,
    program: &IndexedProgram,
    sig: &Sig,
    workers: Workers,
    gate: &G,
) -> Result<Vec<Row>, OutOfMemory>
    requires inferable { IsInferable program.now }
    ensures { IfOk result (λ rows. AreBroken program.now sig.now rows.items) }
{
    let pairs = override_rows(alloc, program, sig)?;
    rows_with(rt, alloc, program.program(), sig, &pairs, workers, gate)
}
