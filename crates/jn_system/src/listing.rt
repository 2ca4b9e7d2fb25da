//! The words that a task reads, each once.
ghost use Rattle.std.specs.Prelude.{◌≡◌, ◌<◌, ◌==◌, [], ◌∷◌, length, true, IfOk, OnOk, Some};
ghost use Rattle.jn_points.specs.Lookup.{method_at, method_in};
ghost use Rattle.jn_sigtable.specs.System.{lists_word};
ghost use Rattle.jn_transfer.specs.Pairs.{under};
ghost use Rattle.jn_inference_law.specs.Reading.{slot_list, slot_lists, given_reads, methods_reads, kind_reads, points_reads, body_reads, pair_reads};
ghost use Rattle.jn_system.specs.ReadLists.{Adds};

use jn_base::{BodyNo, MethodNo, SlotNo, WordNo, either};
use jn_contrib::Overrider;
use jn_points::lookup::method_at;
use jn_points::{Method, Point, PointKind, Program};
use jn_transfer::lookup::{field_slot, result_slot};
use std::alloc::{AllocError, Global};

#[tactic(auto, using(crate::proofs::ListSteps::listed_more))]
fn lists(words: &[WordNo], word: u32) -> bool
    ensures { result ≡ lists_word words.now word }
{
    let mut found = false;
    for one in words {
        found = either(found, one.0 == word);
    }
    found
}

/// Whether the last word is this one: slots that are read one after another mostly stand in one word.
#[tactic(auto, using(crate::proofs::ListSteps::at_listed))]
fn ends_in(words: &[WordNo], word: u32) -> bool
    ensures { result ≡ true → lists_word words.now word ≡ true }
{
    let count = words.len();
    if count == 0 {
        return false;
    }
    words[count - 1].0 == word
}

/// Adds the slot's word, where it is below the count and isn't listed yet.
#[tactic(auto, using(crate::proofs::ListSteps::adds_past, crate::proofs::ListSteps::adds_listed, crate::proofs::ListSteps::adds_pushed))]
fn add_word(list: &mut Vec<WordNo>, count: u32, slot: u32) -> Result<(), AllocError>
    ensures { OnOk result (Adds count (slot ∷ []) list.old.items list.new.items) }
{
    let word = slot / 21;
    if word >= count {
        return Ok(());
    }
    if ends_in(list.as_slice(), word) {
        return Ok(());
    }
    if lists(list.as_slice(), word) {
        return Ok(());
    }
    list.push(WordNo(word))?;
    Ok(())
}

#[tactic(auto, using(crate::proofs::ListSteps::adds_none))]
fn add_slot(list: &mut Vec<WordNo>, count: u32, slot: Option<SlotNo>) -> Result<(), AllocError>
    ensures { OnOk result (Adds count (slot_list slot) list.old.items list.new.items) }
{
    match slot {
        None => Ok(()),
        Some(slot) => add_word(list, count, slot.0),
    }
}

#[tactic(auto, using(crate::proofs::ListSteps::adds_slots, crate::proofs::ListSteps::adds_none))]
fn add_slots(list: &mut Vec<WordNo>, count: u32, slots: &[Option<SlotNo>]) -> Result<(), AllocError>
    ensures { OnOk result (Adds count (slot_lists slots.now) list.old.items list.new.items) }
{
    for slot in slots {
        add_slot(list, count, *slot)?;
    }
    Ok(())
}

#[tactic(auto, using(crate::proofs::ListSteps::adds_none))]
fn add_kind(
    list: &mut Vec<WordNo>,
    count: u32,
    program: &Program,
    kind: &PointKind,
) -> Result<(), AllocError>
    ensures { OnOk result
        (Adds count (kind_reads program.now kind.now) list.old.items list.new.items) }
{
    match kind {
        PointKind::FieldRead { field, .. } => add_slot(list, count, field_slot(program, *field)),
        PointKind::Call { method, .. } => add_slot(list, count, result_slot(program, *method)),
        _ => Ok(()),
    }
}

#[tactic(auto, using(crate::proofs::ListSteps::adds_points, crate::proofs::ListSteps::adds_none))]
fn add_points(
    list: &mut Vec<WordNo>,
    count: u32,
    program: &Program,
    points: &[Point],
) -> Result<(), AllocError>
    ensures { OnOk result
        (Adds count (points_reads program.now points.now) list.old.items list.new.items) }
{
    for point in points {
        add_kind(list, count, program, &point.kind)?;
    }
    Ok(())
}

#[tactic(auto, using(crate::proofs::ListSteps::adds_both))]
fn add_given(list: &mut Vec<WordNo>, count: u32, method: &Method) -> Result<(), AllocError>
    ensures { OnOk result
        (Adds count (given_reads (Some method.now)) list.old.items list.new.items) }
{
    add_slot(list, count, method.receiver)?;
    add_slots(list, count, method.param_slots.as_slice())
}

#[tactic(auto, using(crate::proofs::ListSteps::adds_none))]
fn add_method(
    list: &mut Vec<WordNo>,
    count: u32,
    program: &Program,
    body: BodyNo,
) -> Result<(), AllocError>
    ensures { OnOk result
        (Adds count (given_reads (method_in program.now body.0)) list.old.items list.new.items) }
{
    match program.bodies.as_slice().get(body.0 as usize) {
        None => Ok(()),
        Some(info) => match program.methods.as_slice().get(info.method.0 as usize) {
            None => Ok(()),
            Some(method) => add_given(list, count, method),
        },
    }
}

/// The words that the body reads, each once.
pub fn words_read(
    alloc: Global,
    program: &Program,
    count: u32,
    body: BodyNo,
) -> Result<Vec<WordNo>, AllocError>
    requires inside { body.0 < length program.now.bodies }
    ensures { IfOk result (λ words. Adds count (body_reads program.now body.0) [] words.items) }
{
    let mut list = Vec::new(alloc);
    let info = &program.bodies.as_slice()[body.0 as usize];
    add_method(&mut list, count, program, body)?;
    add_points(&mut list, count, program, info.points.as_slice())?;
    Ok(list)
}

#[tactic(auto, using(crate::proofs::ListSteps::adds_none))]
fn add_number(
    list: &mut Vec<WordNo>,
    count: u32,
    program: &Program,
    method: u32,
) -> Result<(), AllocError>
    ensures { OnOk result
        (Adds count (given_reads (method_at program.now method)) list.old.items list.new.items) }
{
    match method_at(program, method as usize) {
        None => Ok(()),
        Some(info) => add_given(list, count, info),
    }
}

#[tactic(auto, using(crate::proofs::ListSteps::adds_methods, crate::proofs::ListSteps::adds_none))]
fn add_methods(
    list: &mut Vec<WordNo>,
    count: u32,
    program: &Program,
    methods: &[u32],
) -> Result<(), AllocError>
    ensures { OnOk result (Adds count
        (methods_reads program.now methods.now) list.old.items
        list.new.items) }
{
    for method in methods {
        add_number(list, count, program, *method)?;
    }
    Ok(())
}

/// The words that an overriding method reads, each once.
pub fn pair_words(
    alloc: Global,
    program: &Program,
    count: u32,
    overrider: &Overrider,
) -> Result<Vec<WordNo>, AllocError>
    requires under { overrider.now.under ≡ under program.now overrider.now.method }
    ensures { IfOk result
        (λ words. Adds count (pair_reads program.now overrider.now.method) [] words.items) }
{
    let mut list = Vec::new(alloc);
    let slot = result_slot(program, MethodNo(overrider.method));
    add_slot(&mut list, count, slot)?;
    add_methods(&mut list, count, program, overrider.under.as_slice())?;
    Ok(list)
}
