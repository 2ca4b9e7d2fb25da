//! The causes of a slot's bit.
ghost use Rattle.std.specs.Prelude.{◌≡◌, ◌<◌, ◌++◌, [], OnOk, Some, cond, length, slice_index_or};
ghost use Rattle.jn_quals.specs.Order.{no_qual};
ghost use Rattle.jn_env.specs.Order.{env_in};
ghost use Rattle.jn_transfer.specs.Contributions.{kind_sends};
ghost use Rattle.jn_transfer.specs.Pairs as pairs;
ghost use Rattle.jn_contrib.specs.Entries.{AreOverriders};
ghost use Rattle.jn_reasons_law.specs.declared.item.Place.TheVariants.{OfSlot, OfMethod, OfPoint};
ghost use Rattle.jn_reasons_law.specs.Items.{on};
ghost use Rattle.jn_reasons_law.specs.Sources.{the_text, sent_from, from_pairs};
ghost use Rattle.jn_origins.specs.Targets.{over};
ghost use Rattle.jn_reasons.specs.Listed.{placed, firsts, is_sent, sent_at, body_causes, pair_causes};

use crate::adding::{add_cause, add_placed, is_on, is_sent, is_sent_to};
use crate::origins::LeastOrigins;
use crate::tabled::Tabled;
use jn_base::{BodyNo, MethodNo, OutOfMemory, PointNo, SlotNo};
use jn_contrib::sends::send_kind;
use jn_contrib::{Overrider, pair_contrib_by};
use jn_env::{Env, FlowTable};
use jn_points::{Point, PointKind, Program};
use jn_reasons::{AskedSlot, Cause, Spot, add_pairs, add_sent};
use jn_reasons_law::{Bit, Place};
use jn_sigs::Sig;
use std::alloc::{AllocError, Global};

/// The declaration, or the start.
pub(crate) fn add_started(
    list: &mut Vec<Cause>,
    start: &Sig,
    slot: SlotNo,
    bit: Bit,
) -> Result<(), AllocError>
    ensures { OnOk result (list.new.items
        ≡ list.old.items
        ++ cond (on bit (slice_index_or start.now slot.0 no_qual)) (placed (OfSlot slot.0) the_text)
        []) }
{
    if is_on(start.get(slot), bit) {
        add_cause(list, Place::OfSlot(slot.0), None)
    } else {
        Ok(())
    }
}

/// The sources of what a point sends.
fn add_sources(
    alloc: Global,
    of: &Tabled,
    list: &mut Vec<Cause>,
    kind: &PointKind,
    env: &Env,
    point: PointNo,
    slot: SlotNo,
    bit: Bit,
) -> Result<(), AllocError>
    ensures { OnOk result (list.new.items
        ≡ list.old.items
        ++ placed (OfPoint of.now.body point.0)
        (sent_from of.now.body point.0 of.now.program env.now slot.0 kind.now bit)) }
{
    let body = of.body();
    let spot = Spot { body, point };
    let asked = AskedSlot { spot, slot, bit };
    let own = of.own().as_slice();
    let mut sources = Vec::new(alloc);
    add_sent(of.program(), &mut sources, env, own, kind, asked)?;
    add_placed(list, Place::OfPoint(body.0, point.0), &sources)
}

/// What a point sends, where it sends the bit.
fn add_reached(
    alloc: Global,
    of: &Tabled,
    list: &mut Vec<Cause>,
    kind: &PointKind,
    env: &Env,
    point: PointNo,
    slot: SlotNo,
    bit: Bit,
) -> Result<(), AllocError>
    ensures { OnOk result (list.new.items
        ≡ list.old.items
        ++ cond (is_sent slot.0 bit (kind_sends of.now.program of.now.body env.now kind.now))
        (placed (OfPoint of.now.body point.0)
        (sent_from of.now.body point.0 of.now.program env.now slot.0 kind.now bit)) []) }
{
    let mut sends = Vec::new(alloc);
    send_kind(of.program(), &mut sends, env, of.body(), of.own(), kind)?;
    if is_sent(&sends, slot, bit) {
        add_sources(alloc, of, list, kind, env, point, slot, bit)
    } else {
        Ok(())
    }
}

/// What a point sends, where it is reached.
fn add_point(
    alloc: Global,
    of: &Tabled,
    list: &mut Vec<Cause>,
    info: &Point,
    point: PointNo,
    slot: SlotNo,
    bit: Bit,
) -> Result<(), AllocError>
    ensures { OnOk result (list.new.items
        ≡ list.old.items
        ++ sent_at of.now.program of.now.body slot.0 bit point.0 (Some info.now)
        (env_in of.now.table point.0)) }
{
    match of.env(point) {
        None => Ok(()),
        Some(env) => add_reached(alloc, of, list, &info.kind, env, point, slot, bit),
    }
}

/// What the points of a body send.
fn add_points(
    alloc: Global,
    of: &Tabled,
    list: &mut Vec<Cause>,
    slot: SlotNo,
    bit: Bit,
) -> Result<(), AllocError>
    ensures { OnOk result (list.new.items
        ≡ list.old.items ++ body_causes of.now.program of.now.body of.now.table slot.0 bit) }
{
    let points = of.points();
    for at in 0..points.len() {
        let point = PointNo(at as u32);
        add_point(alloc, of, list, &points[at], point, slot, bit)?;
    }
    Ok(())
}

/// The table of a body; empty where it isn't there.
pub fn table_of(tables: &[FlowTable], body: BodyNo) -> &[Option<Env>]
    ensures { result.now ≡ slice_index_or tables.now body.0 [] }
{
    match tables.get(body.0 as usize) {
        None => &[],
        Some(table) => table.slots(),
    }
}

/// What a body sends.
#[tactic(auto, using(crate::proofs::OfBody::sent_for))]
fn add_body(
    alloc: Global,
    origins: &LeastOrigins,
    list: &mut Vec<Cause>,
    body: BodyNo,
    slot: SlotNo,
    bit: Bit,
) -> Result<(), OutOfMemory>
    requires inside { body.0 < length origins.now.program.bodies }
    ensures { OnOk result (list.new.items
        ≡ list.old.items
        ++ body_causes origins.now.program body.0 (slice_index_or origins.now.tables body.0 [])
        slot.0 bit) }
{
    let of = origins.of_body(body);
    add_points(alloc, &of, list, slot, bit)?;
    Ok(())
}

/// What a body sends, where it is there.
fn add_any_body(
    alloc: Global,
    origins: &LeastOrigins,
    list: &mut Vec<Cause>,
    body: BodyNo,
    slot: SlotNo,
    bit: Bit,
) -> Result<(), OutOfMemory>
    ensures { OnOk result (list.new.items
        ≡ list.old.items
        ++ body_causes origins.now.program body.0 (slice_index_or origins.now.tables body.0 [])
        slot.0 bit) }
{
    if (body.0 as usize) < origins.program().bodies.len() {
        add_body(alloc, origins, list, body, slot, bit)
    } else {
        Ok(())
    }
}

/// What these bodies send.
pub(crate) fn add_bodies(
    alloc: Global,
    origins: &LeastOrigins,
    list: &mut Vec<Cause>,
    senders: &[u32],
    slot: SlotNo,
    bit: Bit,
) -> Result<(), OutOfMemory>
    ensures { OnOk result (list.new.items
        ≡ list.old.items
        ++ over (λ b. body_causes origins.now.program b
        (slice_index_or origins.now.tables b []) slot.0 bit) senders.now) }
{
    for sender in senders {
        let body = BodyNo(*sender);
        add_any_body(alloc, origins, list, body, slot, bit)?;
    }
    Ok(())
}

/// The sources of what an overriding method sends.
fn add_pair_sources(
    alloc: Global,
    program: &Program,
    list: &mut Vec<Cause>,
    overrider: &Overrider,
    slot: SlotNo,
    bit: Bit,
) -> Result<(), AllocError>
    requires inside { overrider.now.method < length program.now.methods }
    requires under { overrider.now.under ≡ pairs.under program.now overrider.now.method }
    ensures { OnOk result (list.new.items
        ≡ list.old.items
        ++ placed (OfMethod overrider.now.method)
        (from_pairs program.now overrider.now.method slot.0 bit)) }
{
    let mut sources = Vec::new(alloc);
    add_pairs(
        program,
        &mut sources,
        MethodNo(overrider.method),
        overrider.under.as_slice(),
        slot,
        bit,
    )?;
    add_placed(list, Place::OfMethod(overrider.method), &sources)
}

/// What an overriding method sends, where it sends the bit.
fn add_overrider(
    alloc: Global,
    program: &Program,
    sig: &Sig,
    list: &mut Vec<Cause>,
    overrider: &Overrider,
    slot: SlotNo,
    bit: Bit,
) -> Result<(), OutOfMemory>
    requires inside { overrider.now.method < length program.now.methods }
    requires under { overrider.now.under ≡ pairs.under program.now overrider.now.method }
    ensures { OnOk result (list.new.items
        ≡ list.old.items ++ pair_causes program.now sig.now slot.0 bit overrider.now.method) }
{
    let method = MethodNo(overrider.method);
    let sends = pair_contrib_by(alloc, program, sig, method, overrider.under.as_slice())?;
    if is_sent_to(&sends, slot, bit) {
        add_pair_sources(alloc, program, list, overrider, slot, bit)?;
    }
    Ok(())
}

/// What all overriding methods send.
pub(crate) fn add_overriders(
    alloc: Global,
    program: &Program,
    sig: &Sig,
    list: &mut Vec<Cause>,
    overriders: &[Overrider],
    slot: SlotNo,
    bit: Bit,
) -> Result<(), OutOfMemory>
    requires overriders { AreOverriders program.now overriders.now }
    ensures { OnOk result (list.new.items
        ≡ list.old.items
        ++ firsts (λ j. pair_causes program.now sig.now slot.0 bit
        (slice_index_or (pairs.overriders program.now) j 0)) (length overriders.now)) }
{
    for j in 0..overriders.len() {
        add_overrider(alloc, program, sig, list, &overriders[j], slot, bit)?;
    }
    Ok(())
}
