//! Which words a task reads.
ghost use Rattle.std.specs.Prelude.{◌≡◌, Some};
ghost use Rattle.jn_points.specs.Lookup.{method_at, method_in, body_at, points_of};
ghost use Rattle.jn_transfer.specs.Pairs.{under};
ghost use Rattle.jn_inference_law.specs.Reading.{slot_list, slot_lists, given_reads, methods_reads, has_word, kind_reads, points_reads, body_reads, pair_reads};

use jn_base::{BodyNo, MethodNo, SlotNo, either};
use jn_contrib::Overrider;
use jn_points::lookup::method_at;
use jn_points::{Method, Point, PointKind, Program};
use jn_transfer::lookup::{field_slot, result_slot};

/// Whether the slot stands in the word.
fn is_in(slot: Option<SlotNo>, word: u32) -> bool
    ensures { result ≡ has_word word (slot_list slot) }
{
    match slot {
        None => false,
        Some(slot) => slot.0 / 21 == word,
    }
}

/// Whether one of the slots stands in the word.
#[tactic(auto, using(crate::proofs::ReadSteps::slots_more))]
fn some_in(slots: &[Option<SlotNo>], word: u32) -> bool
    ensures { result ≡ has_word word (slot_lists slots.now) }
{
    let mut some = false;
    for slot in slots {
        some = either(some, is_in(*slot, word));
    }
    some
}

/// Whether the point reads a slot of the word.
fn kind_reads(program: &Program, kind: &PointKind, word: u32) -> bool
    ensures { result ≡ has_word word (kind_reads program.now kind.now) }
{
    match kind {
        PointKind::FieldRead { field, .. } => is_in(field_slot(program, *field), word),
        PointKind::Call { method, .. } => is_in(result_slot(program, *method), word),
        _ => false,
    }
}

fn points_read(program: &Program, points: &[Point], word: u32) -> bool
    ensures { result ≡ has_word word (points_reads program.now points.now) }
{
    let mut some = false;
    for point in points {
        some = either(some, kind_reads(program, &point.kind, word));
    }
    some
}

/// Whether the method is given a slot of the word.
fn given_in(method: &Method, word: u32) -> bool
    ensures { result ≡ has_word word (given_reads (Some method.now)) }
{
    either(
        is_in(method.receiver, word),
        some_in(method.param_slots.as_slice(), word),
    )
}

fn method_reads(program: &Program, body: BodyNo, word: u32) -> bool
    ensures { result ≡ has_word word (given_reads (method_in program.now body.0)) }
{
    match program.bodies.as_slice().get(body.0 as usize) {
        None => false,
        Some(info) => match program.methods.as_slice().get(info.method.0 as usize) {
            None => false,
            Some(method) => given_in(method, word),
        },
    }
}

fn all_points_read(program: &Program, body: BodyNo, word: u32) -> bool
    ensures { result
        ≡ has_word word (points_reads program.now (points_of (body_at program.now body.0))) }
{
    match program.bodies.as_slice().get(body.0 as usize) {
        None => false,
        Some(info) => points_read(program, info.points.as_slice(), word),
    }
}

/// Whether the body reads a slot of the word.
pub fn body_reads(program: &Program, body: BodyNo, word: u32) -> bool
    ensures { result ≡ has_word word (body_reads program.now body.0) }
{
    let given = method_reads(program, body, word);
    let points = all_points_read(program, body, word);
    either(given, points)
}

/// Whether a method is given a slot of the word.
fn method_given(program: &Program, method: u32, word: u32) -> bool
    ensures { result ≡ has_word word (given_reads (method_at program.now method)) }
{
    match method_at(program, method as usize) {
        None => false,
        Some(info) => given_in(info, word),
    }
}

/// Whether one of some methods is given a slot of the word.
#[tactic(auto, using(crate::proofs::ReadSteps::methods_more))]
fn some_given(program: &Program, methods: &[u32], word: u32) -> bool
    ensures { result
        ≡ has_word word (methods_reads program.now methods.now) }
{
    let mut some = false;
    for method in methods {
        some = either(some, method_given(program, *method, word));
    }
    some
}

/// Whether an overriding method reads a slot of the word.
pub fn pair_reads(program: &Program, overrider: &Overrider, word: u32) -> bool
    requires under { overrider.now.under ≡ under program.now overrider.now.method }
    ensures { result ≡ has_word word (pair_reads program.now overrider.now.method) }
{
    let result = is_in(result_slot(program, MethodNo(overrider.method)), word);
    let given = some_given(program, overrider.under.as_slice(), word);
    either(result, given)
}
