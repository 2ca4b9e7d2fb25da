//! The rules at overriding pairs: parameters and receivers may widen, results may narrow (JLS 8, 8.4.8.3; the Checker Framework manual on
//! overriding).
ghost use Rattle.std.specs.Prelude.{◌≡◌, ◌<◌, ◌^◌, ◌++◌, ℕ, true, Some, flat_map, slice_index, IfOk, OnOk, length, not};
ghost use Rattle.jn_points.specs.Lookup.{method_at};
ghost use Rattle.jn_points.specs.Members.{below, is_pair};
ghost use Rattle.jn_quals.specs.Order.{within};
ghost use Rattle.jn_sigs.specs.Signature.{slot_quals};
ghost use Rattle.jn_transfer.specs.Rules as spec;

use crate::rules::push_if;
use jn_base::{Code, MethodNo, OutOfMemory, Row, SlotNo, either, least};
use jn_index::indexed::{Indexed, IndexedProgram};
use jn_index::overridden::overridden;
use jn_points::lookup::method_at;
use jn_points::{Method, Program, is_pair};
use jn_quals::Qual;
use jn_sigs::Sig;
use jn_transfer::lookup::slot_qual;
use std::alloc::{AllocError, Global};

/// Whether a qualifier isn't within the other.
fn is_outside(low: Qual, high: Qual) -> bool
    ensures { result ≡ not (within low high) }
{
    !low.within(high)
}

/// Whether a parameter of the overridden method takes what the overrider's doesn't.
fn some_outside(sig: &Sig, under: &[Option<SlotNo>], over: &[Option<SlotNo>]) -> bool
    ensures { result
        ≡ spec.some_outside (slot_quals sig.now under.now) (slot_quals sig.now over.now) }
{
    let mut some = false;
    for i in 0..least(under.len(), over.len()) {
        some = either(
            some,
            is_outside(slot_qual(sig, under[i]), slot_qual(sig, over[i])),
        );
    }
    some
}

/// The rows of a method that overrides another one.
fn push_override(
    rows: &mut Vec<Row>,
    sig: &Sig,
    over: &Method,
    under: &Method,
) -> Result<(), AllocError>
    ensures { OnOk result (rows.new.items
        ≡ rows.old.items ++ spec.override_rows sig.now (Some over.now) (Some under.now)) }
{
    let params = some_outside(
        sig,
        under.param_slots.as_slice(),
        over.param_slots.as_slice(),
    );
    let receiver = is_outside(
        slot_qual(sig, under.receiver),
        slot_qual(sig, over.receiver),
    );
    let result = is_outside(
        slot_qual(sig, over.result_slot),
        slot_qual(sig, under.result_slot),
    );
    push_if(rows, params, over.span, Code::OvrParam)?;
    push_if(rows, receiver, over.span, Code::OvrReceiver)?;
    push_if(rows, result, over.span, Code::OvrResult)
}

/// The rows of two methods, where the first overrides the second.
#[tactic(auto, using(crate::proofs::Pairs::none_over, crate::proofs::Pairs::none_under, crate::proofs::Pairs::no_pair, crate::proofs::Pairs::pair_there))]
fn push_pair(
    rows: &mut Vec<Row>,
    program: &Program,
    sig: &Sig,
    m: MethodNo,
    k: MethodNo,
) -> Result<(), AllocError>
    requires few { length program.now.classes < 2 ^ 32 }
    ensures { OnOk result
        (rows.new.items ≡ rows.old.items ++ spec.pair_rows program.now sig.now m.0 k.0) }
{
    match method_at(program, m.0 as usize) {
        None => Ok(()),
        Some(over) => match method_at(program, k.0 as usize) {
            None => Ok(()),
            Some(under) => {
                if is_pair(program, m, k) {
                    push_override(rows, sig, over, under)
                } else {
                    Ok(())
                }
            }
        },
    }
}

/// The rows of a method with all methods that it overrides.
#[tactic(auto, using(crate::proofs::Pairs::rows_more))]
fn push_overrider(
    rows: &mut Vec<Row>,
    program: &Program,
    sig: &Sig,
    m: MethodNo,
) -> Result<(), AllocError>
    requires few { length program.now.classes < 2 ^ 32 }
    requires methods { length program.now.methods < 2 ^ 32 }
    ensures { OnOk result (rows.new.items
        ≡ rows.old.items
        ++ flat_map (spec.pair_rows program.now sig.now m.0)
        (below (length program.now.methods))) }
{
    for k in 0..program.methods.len() {
        push_pair(rows, program, sig, m, MethodNo(k as u32))?;
    }
    Ok(())
}

/// The rows of a method and one that it overrides.
#[tactic(auto, using(crate::proofs::Pairs::none_under, crate::proofs::Pairs::pair_there))]
fn push_found(
    rows: &mut Vec<Row>,
    program: &Program,
    sig: &Sig,
    m: u32,
    over: &Method,
    k: u32,
) -> Result<(), AllocError>
    requires there { method_at program.now m ≡ Some over.now }
    requires pair { is_pair program.now m k ≡ true }
    ensures { OnOk result
        (rows.new.items ≡ rows.old.items ++ spec.pair_rows program.now sig.now m k) }
{
    match method_at(program, k as usize) {
        None => Ok(()),
        Some(under) => push_override(rows, sig, over, under),
    }
}

/// The rows of a method with some methods that it overrides.
fn push_some(
    rows: &mut Vec<Row>,
    program: &Program,
    sig: &Sig,
    m: u32,
    over: &Method,
    ks: &[u32],
) -> Result<(), AllocError>
    requires there { method_at program.now m ≡ Some over.now }
    requires pairs { (i : ℕ) → i < length ks.now
        → is_pair program.now m (slice_index ks.now i) ≡ true }
    ensures { OnOk result (rows.new.items
        ≡ rows.old.items ++ flat_map (spec.pair_rows program.now sig.now m) ks.now) }
{
    for k in ks {
        push_found(rows, program, sig, m, over, *k)?;
    }
    Ok(())
}

/// The rows of a method with all methods that it overrides.
#[tactic(auto, using(crate::proofs::Pairs::pairs_at, crate::proofs::Pairs::pairs_rows))]
fn push_all_found(
    rows: &mut Vec<Row>,
    alloc: Global,
    program: &Indexed,
    sig: &Sig,
    m: u32,
    over: &Method,
) -> Result<(), AllocError>
    requires there { method_at program.now m ≡ Some over.now }
    ensures { OnOk result (rows.new.items
        ≡ rows.old.items
        ++ flat_map (spec.pair_rows program.now sig.now m)
        (below (length program.now.methods))) }
{
    let pairs = overridden(alloc, program, m, over)?;
    push_some(rows, program.program(), sig, m, over, pairs.as_slice())
}

/// The rows of all overriding pairs of the program, by its index.
///
/// # Errors
/// No memory was found.
#[tactic(auto, using(crate::proofs::Pairs::rows_more))]
pub fn indexed_override_rows(
    alloc: Global,
    program: &Indexed,
    sig: &Sig,
) -> Result<Vec<Row>, AllocError>
    ensures { IfOk result (λ rows. rows.items ≡ spec.pairs_rows program.now sig.now) }
{
    program.facts();
    let mut rows = Vec::new(alloc);
    let methods = program.program().methods.as_slice();
    for (m, over) in methods.iter().enumerate() {
        push_all_found(&mut rows, alloc, program, sig, m as u32, over)?;
    }
    Ok(rows)
}

/// The rows of all overriding pairs, where there is no index.
#[tactic(auto, using(crate::proofs::Pairs::rows_more))]
fn all_rows(alloc: Global, program: &Program, sig: &Sig) -> Result<Vec<Row>, AllocError>
    requires few { length program.now.classes < 2 ^ 32 }
    requires methods { length program.now.methods < 2 ^ 32 }
    ensures { IfOk result (λ rows. rows.items ≡ spec.pairs_rows program.now sig.now) }
{
    let mut rows = Vec::new(alloc);
    for m in 0..program.methods.len() {
        push_overrider(&mut rows, program, sig, MethodNo(m as u32))?;
    }
    Ok(rows)
}

/// The rows of all overriding pairs of the program.
///
/// # Errors
/// No memory was found.
pub fn override_rows(
    alloc: Global,
    program: &IndexedProgram,
    sig: &Sig,
) -> Result<Vec<Row>, OutOfMemory>
    requires few { length program.now.classes < 2 ^ 32 }
    requires methods { length program.now.methods < 2 ^ 32 }
    ensures { IfOk result (λ rows. rows.items ≡ spec.pairs_rows program.now sig.now) }
{
    match program.indexed() {
        None => Ok(all_rows(alloc, program.program(), sig)?),
        Some(indexed) => Ok(indexed_override_rows(alloc, &indexed, sig)?),
    }
}
