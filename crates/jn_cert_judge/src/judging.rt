//! The whole claim.
ghost use Rattle.std.specs.Prelude.{◌≡◌, ◌<◌, ◌^◌, ℕ, IfOk, None, length};
ghost use Rattle.jn_points.specs.Lookup.{body_at, points_of};
ghost use Rattle.jn_points.specs.Regular.{FewItems};
ghost use Rattle.jn_transfer.specs.Rules.{pairs_rows};
ghost use Rattle.jn_diag.specs.Order.{IsOrderOf};
ghost use Rattle.jn_cert_form.specs.Form.{AreParts};
ghost use Rattle.jn_cert_judge.specs.Judging as spec;

use crate::bodies::bodies_fault;
use crate::fault::CertFault;
use crate::overriding::note_overriding;
use crate::points::first_broken;
use crate::slots::slots_fault;
use jn_base::{OutOfMemory, Row, SlotNo};
use jn_checks::override_rows;
use jn_diag::order;
use jn_env::FlowTable;
use jn_index::indexed::IndexedProgram;
use jn_sigs::{Sig, start};
use std::alloc::Global;

/// All but the rows of pairs.
#[tactic(auto, using(crate::proofs::Noting::note_append))]
fn first_fault(
    alloc: Global,
    indexed: &IndexedProgram,
    sig: &Sig,
    tables: &[FlowTable],
) -> Result<Option<CertFault>, OutOfMemory>
    requires parts { AreParts indexed.now sig.now tables.now }
    requires few { FewItems indexed.now }
    requires short { (b : ℕ) → b < length indexed.now.bodies
        → length (points_of (body_at indexed.now b)) < 2 ^ 32 }
    ensures { IfOk result (λ found. found ≡ spec.first_fault indexed.now sig.now tables.now) }
{
    let program = indexed.program();
    let first = start(alloc, program)?;
    let found = slots_fault(program, &first, sig);
    if found.is_some() {
        return Ok(found);
    }
    let mut least = None;
    let found = bodies_fault(alloc, program, sig, tables, &mut least)?;
    if found.is_some() {
        return Ok(found);
    }
    let noted = note_overriding(alloc, indexed, sig, least)?;
    Ok(open_fault(noted))
}

fn open_fault(least: Option<u32>) -> Option<CertFault>
    ensures { result ≡ spec.open_fault least }
{
    match least {
        None => None,
        Some(slot) => Some(CertFault::Open(SlotNo(slot))),
    }
}

/// The rows of overriding pairs in their order.
fn ordered_pairs(
    alloc: Global,
    program: &IndexedProgram,
    sig: &Sig,
) -> Result<Vec<Row>, OutOfMemory>
    requires few { FewItems program.now }
    ensures { IfOk result (λ rows. IsOrderOf (pairs_rows program.now sig.now) rows.items) }
{
    let mut rows = override_rows(alloc, program, sig)?;
    order(&mut rows)?;
    Ok(rows)
}

/// The first that fails of a signature and tables, in the order in which it is told; None where nothing does.
///
/// # Errors
/// No memory was found.
pub fn judge(
    alloc: Global,
    program: &IndexedProgram,
    sig: &Sig,
    tables: &[FlowTable],
) -> Result<Option<CertFault>, OutOfMemory>
    requires parts { AreParts program.now sig.now tables.now }
    requires few { FewItems program.now }
    requires short { (b : ℕ) → b < length program.now.bodies
        → length (points_of (body_at program.now b)) < 2 ^ 32 }
    ensures { IfOk result (λ found. spec.IsFirstFault program.now sig.now tables.now found) }
{
    let found = first_fault(alloc, program, sig, tables)?;
    if found.is_some() {
        return Ok(found);
    }
    let pairs = ordered_pairs(alloc, program, sig)?;
    Ok(first_broken(&pairs))
}
