//! The slots at which rows want null.
ghost use Rattle.std.specs.Prelude.{◌≡◌, ◌++◌, flat_map, IfOk, OnOk, None, slice_index_or};
ghost use Rattle.jn_contrib.specs.Entries.{AreOverriders};
ghost use Rattle.jn_points.specs.Lookup.{method_at, slots_of};
ghost use Rattle.jn_tables_law.specs.Inferable.{IsInferable};
ghost use Rattle.jn_transfer.specs.Rules.{lacks_null};
ghost use Rattle.jn_lsp_actions.specs.Own as spec;

use jn_base::lists::put;
use jn_base::{FieldNo, MethodNo, OutOfMemory, Row, Seq, SlotNo, Span};
use jn_contrib::Overrider;
use jn_env::FlowTable;
use jn_lsp_solved::Traced;
use jn_note_words::owners::Owner;
use jn_notes::pairs::{Part, part_of};
use jn_notes::reads::{Sought, same_span, sought_of};
use jn_notes::takers::taker;
use jn_points::lookup::method_at;
use jn_points::{Method, Program};
use jn_quals::Qual;
use jn_reasons_law::Bit;
use jn_sigs::Sig;
use jn_transfer::lookup::{field_slot, result_slot, slot_qual};
use std::alloc::{AllocError, Global};

/// Puts the number of the slot after the others, where there is one.
fn put_number(slots: &mut Vec<u32>, slot: Option<SlotNo>) -> Result<(), AllocError>
    ensures { OnOk result (slots.new.items ≡ slots.old.items ++ spec.number_of slot) }
{
    match slot {
        None => Ok(()),
        Some(slot) => put(slots, slot.0),
    }
}

fn is_null(bit: Bit) -> bool
    ensures { result ≡ spec.is_null bit }
{
    match bit {
        Bit::Nullable => true,
        Bit::Committed => false,
        Bit::Free => false,
    }
}

/// The slot at a place; none past the end.
fn slot_at(slots: &[Option<SlotNo>], at: usize) -> Option<SlotNo>
    ensures { result ≡ slice_index_or slots.now at None }
{
    match slots.get(at) {
        None => None,
        Some(slot) => *slot,
    }
}

fn parameter_slot(program: &Program, method: u32, at: usize) -> Option<SlotNo>
    ensures { result ≡ slice_index_or (slots_of (method_at program.now method)) at None }
{
    match method_at(program, method as usize) {
        None => None,
        Some(info) => slot_at(info.param_slots.as_slice(), at),
    }
}

/// The slot of what is declared.
fn slot_of_owner(program: &Program, owner: Owner) -> Option<SlotNo>
    ensures { result ≡ spec.slot_of_owner program.now owner }
{
    match owner {
        Owner::OfField(field) => field_slot(program, FieldNo(field)),
        Owner::OfParameter(method, at) => parameter_slot(program, method, at),
        Owner::OfReceiver(_) => None,
        Owner::OfResult(method) => result_slot(program, MethodNo(method)),
    }
}

fn put_taker(
    slots: &mut Vec<u32>,
    program: &Program,
    owner: Option<Owner>,
) -> Result<(), AllocError>
    ensures { OnOk result (slots.new.items ≡ slots.old.items ++ spec.taker_wants program.now owner) }
{
    match owner {
        None => Ok(()),
        Some(owner) => put_number(slots, slot_of_owner(program, owner)),
    }
}

/// Puts the slot of what takes a value, where the value may be null.
fn put_value(
    slots: &mut Vec<u32>,
    program: &Program,
    sig: &Sig,
    tables: &[FlowTable],
    sought: Option<Sought>,
) -> Result<(), AllocError>
    requires inferable { IsInferable program.now }
    ensures { OnOk result (slots.new.items
        ≡ slots.old.items ++ spec.value_wants program.now sig.now tables.now sought) }
{
    match sought {
        None => Ok(()),
        Some(sought) => {
            if is_null(sought.bit) {
                put_taker(slots, program, taker(sought, program, sig, tables))
            } else {
                Ok(())
            }
        }
    }
}

fn lacks_null(from: Qual, to: Qual) -> bool
    ensures { result ≡ lacks_null from to }
{
    from.has_null() && !to.has_null()
}

/// Puts the second slot, where the first has null and the second lacks it.
fn put_slot(
    slots: &mut Vec<u32>,
    sig: &Sig,
    from: Option<SlotNo>,
    to: Option<SlotNo>,
) -> Result<(), AllocError>
    ensures { OnOk result (slots.new.items ≡ slots.old.items ++ spec.slot_wants sig.now from to) }
{
    if lacks_null(slot_qual(sig, from), slot_qual(sig, to)) {
        put_number(slots, to)
    } else {
        Ok(())
    }
}

/// Slot by slot.
#[tactic(auto, using(crate::proofs::Wanting::next_slots))]
fn put_slots(
    slots: &mut Vec<u32>,
    sig: &Sig,
    from: &[Option<SlotNo>],
    to: &[Option<SlotNo>],
) -> Result<(), AllocError>
    ensures { OnOk result (slots.new.items
        ≡ slots.old.items ++ spec.slots_want sig.now from.now to.now) }
{
    let mut rest = from;
    let mut left = to;
    while let [one, more @ ..] = rest {
        match left {
            [] => return Ok(()),
            [other, others @ ..] => {
                put_slot(slots, sig, *one, *other)?;
                rest = more;
                left = others;
            }
        }
    }
    Ok(())
}

/// Of a method and one that it overrides.
fn put_part(
    slots: &mut Vec<u32>,
    sig: &Sig,
    part: Part,
    over: &Method,
    lower: &Method,
) -> Result<(), AllocError>
    ensures { OnOk result (slots.new.items
        ≡ slots.old.items ++ spec.part_wants sig.now part over.now lower.now) }
{
    match part {
        Part::OverParameters => put_slots(
            slots,
            sig,
            lower.param_slots.as_slice(),
            over.param_slots.as_slice(),
        ),
        Part::OverReceiver => Ok(()),
        Part::OverResult => put_slot(slots, sig, over.result_slot, lower.result_slot),
    }
}

/// The same of a method that is overridden, where there is such.
fn put_lower(
    slots: &mut Vec<u32>,
    sig: &Sig,
    program: &Program,
    part: Part,
    over: &Method,
    lower: u32,
) -> Result<(), AllocError>
    ensures { OnOk result (slots.new.items
        ≡ slots.old.items ++ spec.lower_wants sig.now part over.now (method_at program.now lower)) }
{
    match method_at(program, lower as usize) {
        None => Ok(()),
        Some(info) => put_part(slots, sig, part, over, info),
    }
}

fn put_lowers(
    slots: &mut Vec<u32>,
    sig: &Sig,
    program: &Program,
    part: Part,
    over: &Method,
    under: &[u32],
) -> Result<(), AllocError>
    ensures { OnOk result (slots.new.items
        ≡ slots.old.items
        ++ flat_map (λ k. spec.lower_wants sig.now part over.now (method_at program.now k))
        under.now) }
{
    for lower in under {
        put_lower(slots, sig, program, part, over, *lower)?;
    }
    Ok(())
}

/// Of a method with those that it overrides, where it stands at the span.
fn put_method(
    slots: &mut Vec<u32>,
    sig: &Sig,
    program: &Program,
    span: Span,
    part: Part,
    overrider: &Overrider,
) -> Result<(), AllocError>
    ensures { OnOk result (slots.new.items
        ≡ slots.old.items
        ++ spec.method_wants sig.now program.now span part
        (method_at program.now overrider.now.method) overrider.now.under) }
{
    match method_at(program, overrider.method as usize) {
        None => Ok(()),
        Some(over) => {
            if same_span(over.span, span) {
                put_lowers(slots, sig, program, part, over, overrider.under.as_slice())
            } else {
                Ok(())
            }
        }
    }
}

fn put_overriders(
    slots: &mut Vec<u32>,
    sig: &Sig,
    program: &Program,
    span: Span,
    part: Part,
    overriders: &[Overrider],
) -> Result<(), AllocError>
    ensures { OnOk result (slots.new.items
        ≡ slots.old.items
        ++ flat_map (spec.listed_wants sig.now program.now span part) overriders.now) }
{
    for overrider in overriders {
        put_method(slots, sig, program, span, part, overrider)?;
    }
    Ok(())
}

/// Of a row of an overriding pair.
fn put_pair(
    slots: &mut Vec<u32>,
    sig: &Sig,
    program: &Program,
    overriders: &[Overrider],
    span: Span,
    part: Option<Part>,
) -> Result<(), AllocError>
    requires overriders { AreOverriders program.now overriders.now }
    ensures { OnOk result (slots.new.items
        ≡ slots.old.items ++ spec.pair_wants sig.now program.now span part) }
{
    match part {
        None => Ok(()),
        Some(part) => {
            put_overriders(slots, sig, program, span, part, overriders)?;
            Ok(())
        }
    }
}

/// Where a row wants null.
#[tactic(auto, using(crate::proofs::Wanting::both_want))]
fn put_row(
    slots: &mut Vec<u32>,
    program: &Program,
    sig: &Sig,
    tables: &[FlowTable],
    overriders: &[Overrider],
    row: Row,
) -> Result<(), AllocError>
    requires inferable { IsInferable program.now }
    requires overriders { AreOverriders program.now overriders.now }
    ensures { OnOk result (slots.new.items
        ≡ slots.old.items ++ spec.row_wants program.now sig.now tables.now row) }
{
    put_value(slots, program, sig, tables, sought_of(row))?;
    put_pair(slots, sig, program, overriders, row.span, part_of(row.code))
}

/// The slots at which a row wants null.
fn wants_of(alloc: Global, traced: &Traced, row: Row) -> Result<Seq<u32>, OutOfMemory>
    ensures { IfOk result (λ slots. slots
        ≡ spec.row_wants traced.now.program traced.now.sig traced.now.tables row) }
{
    let parts = traced.parts();
    let mut slots = Vec::new(alloc);
    put_row(
        &mut slots,
        parts.program,
        parts.sig,
        parts.tables,
        parts.overriders,
        row,
    )?;
    Ok(Seq::of_vec(slots))
}

/// The slots at which each row wants null.
///
/// # Errors
/// No memory was found.
pub fn rows_want(alloc: Global, traced: &Traced, rows: &[Row]) -> Result<Vec<Seq<u32>>, OutOfMemory>
    ensures { IfOk result (λ wants. wants.items
        ≡ spec.rows_want traced.now.program traced.now.sig traced.now.tables rows.now) }
{
    let mut wants = Vec::new(alloc);
    for row in rows {
        let slots = wants_of(alloc, traced, *row)?;
        put(&mut wants, slots)?;
    }
    Ok(wants)
}
