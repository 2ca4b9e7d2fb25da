//! Steps in words.
ghost use Rattle.std.specs.Prelude.{◌≡◌, ◌++◌, codes, IfOk, OnOk, None, Some};
ghost use Rattle.jn_points.specs.Lookup.{field_info, method_at, point_at};
ghost use Rattle.jn_note_words.specs.Worded as spec;

use crate::owners::{OwnedProgram, Owner};
use crate::spans::point_at;
use jn_base::{FieldNo, NameNo};
use jn_points::lookup::{field_info, method_at};
use jn_points::{PointKind, Program};
use jn_reasons_law::{Bit, Item, Place, Step};
use jn_trees::Names;
use std::alloc::{AllocError, Global};

/// The text of a name; empty where there is no such name.
pub fn text_at(names: &Names, name: NameNo) -> &str
    ensures { result.now ≡ spec.text_at names.now name.0 }
{
    if (name.0 as usize) < names.len() {
        names.text(name)
    } else {
        ""
    }
}

pub fn field_name<'a>(program: &Program, names: &'a Names, field: u32) -> &'a str
    ensures { result.now ≡ spec.field_name names.entry.now (field_info program.entry.now field) }
{
    match field_info(program, FieldNo(field)) {
        None => "",
        Some(info) => text_at(names, info.name),
    }
}

fn method_name<'a>(program: &Program, names: &'a Names, method: u32) -> &'a str
    ensures { result.now ≡ spec.method_name names.entry.now (method_at program.entry.now method) }
{
    match method_at(program, method as usize) {
        None => "",
        Some(info) => text_at(names, info.name),
    }
}

fn parameter_words(place: usize) -> &'static str
    ensures { result.now ≡ spec.parameter_words place }
{
    if place == 0 {
        "the first parameter of `"
    } else if place == 1 {
        "the second parameter of `"
    } else if place == 2 {
        "the third parameter of `"
    } else {
        "a later parameter of `"
    }
}

/// Puts a text after the words.
pub fn add(words: &mut Vec<u8>, text: &str) -> Result<(), AllocError>
    ensures { OnOk result (words.new.items ≡ words.old.items ++ text.now) }
{
    words.extend_from_slice(text.as_bytes())?;
    Ok(())
}

/// A text, a name and a closing mark.
fn named(alloc: Global, front: &str, name: &str) -> Result<Vec<u8>, AllocError>
    ensures { IfOk result (λ words. words.items ≡ front.now ++ name.now ++ codes "`") }
{
    let mut words = Vec::from_slice(alloc, front.as_bytes())?;
    add(&mut words, name)?;
    add(&mut words, "`")?;
    Ok(words)
}

/// What has a slot, in words.
///
/// # Errors
/// No memory was found.
pub fn owner_words(
    alloc: Global,
    program: &Program,
    names: &Names,
    owner: Option<Owner>,
) -> Result<Vec<u8>, AllocError>
    ensures { IfOk result (λ words. words.items ≡ spec.owner_words program.now names.now owner) }
{
    match owner {
        None => Vec::from_slice(alloc, b"this"),
        Some(Owner::OfField(field)) => {
            named(alloc, "the field `", field_name(program, names, field))
        }
        Some(Owner::OfParameter(method, place)) => named(
            alloc,
            parameter_words(place),
            method_name(program, names, method),
        ),
        Some(Owner::OfReceiver(method)) => {
            named(alloc, "`this` of `", method_name(program, names, method))
        }
        Some(Owner::OfResult(method)) => named(
            alloc,
            "the result of `",
            method_name(program, names, method),
        ),
    }
}

fn bit_words(bit: Bit) -> &'static str
    ensures { result.now ≡ spec.bit_words bit }
{
    match bit {
        Bit::Nullable => " may be null",
        Bit::Committed => " may be whole",
        Bit::Free => " may be under construction",
    }
}

fn ends_body(kind: &PointKind) -> bool
    ensures { result ≡ spec.ends_body kind.now }
{
    match kind {
        PointKind::Return { .. } => true,
        _ => false,
    }
}

fn is_return(program: &Program, body: u32, point: u32) -> bool
    ensures { result ≡ spec.is_return (point_at program.now body point) }
{
    match point_at(program, body, point) {
        None => false,
        Some(info) => ends_body(&info.kind),
    }
}

/// How the slot of an owner has its bit from a point.
fn owner_sent(owner: Owner, unset: bool) -> &'static str
    ensures { result.now ≡ spec.sent_words (Some owner) unset }
{
    match owner {
        Owner::OfField(_) => {
            if unset {
                ": left unassigned by the constructor that ends at"
            } else {
                ": written at"
            }
        }
        Owner::OfParameter(_, _) => ": passed at",
        Owner::OfReceiver(_) => ": called at",
        Owner::OfResult(_) => ": returned at",
    }
}

/// How a slot has its bit from a point.
fn sent_words(owner: Option<Owner>, unset: bool) -> &'static str
    ensures { result.now ≡ spec.sent_words owner unset }
{
    match owner {
        None => ": at",
        Some(owner) => owner_sent(owner, unset),
    }
}

/// How a slot has its bit.
fn how_words(program: &Program, owner: Option<Owner>, place: Place) -> &'static str
    ensures { result.now ≡ spec.how_words program.now owner place }
{
    match place {
        Place::OfSlot(_) => ": declared so at",
        Place::OfMethod(_) => ": handed on by overriding at",
        Place::OfBody(_) => ": at",
        Place::OfPoint(body, point) => sent_words(owner, is_return(program, body, point)),
    }
}

/// How a register has its bit from the text at a point.
fn kind_words(kind: &PointKind) -> &'static str
    ensures { result.now ≡ spec.kind_words kind.now }
{
    match kind {
        PointKind::Const { .. } => "null is written at",
        PointKind::FieldRead { .. } => "a field of an object under construction is read at",
        PointKind::ElemRead { .. } => "an element that may be null is read at",
        _ => "it is made at",
    }
}

fn read_words(program: &Program, body: u32, point: u32) -> &'static str
    ensures { result.now ≡ spec.read_words (point_at program.now body point) }
{
    match point_at(program, body, point) {
        None => "it is made at",
        Some(info) => kind_words(&info.kind),
    }
}

/// Where a chain ends at a register.
fn end_words(program: &Program, place: Place) -> &'static str
    ensures { result.now ≡ spec.end_words program.now place }
{
    match place {
        Place::OfSlot(_) => "it is declared at",
        Place::OfMethod(_) => "it is handed on by overriding at",
        Place::OfBody(_) => "`this` is under construction in the constructor at",
        Place::OfPoint(body, point) => read_words(program, body, point),
    }
}

fn made_by(kind: &PointKind) -> &'static str
    ensures { result.now ≡ spec.made_by kind.now }
{
    match kind {
        PointKind::FieldWrite { .. } => "` was assigned at",
        _ => "` was tested at",
    }
}

/// How a point made a fact on a field: it is assigned there, or else tested.
pub fn how_made(program: &Program, body: u32, point: u32) -> &'static str
    ensures { result.now ≡ spec.how_made (point_at program.now body point) }
{
    match point_at(program, body, point) {
        None => "` was tested at",
        Some(info) => made_by(&info.kind),
    }
}

fn ends_by(kind: &PointKind) -> &'static str
    ensures { result.now ≡ spec.ends_by kind.now }
{
    match kind {
        PointKind::New { .. } => "and this call may change it:",
        PointKind::CtorCall { .. } => "and this call may change it:",
        PointKind::Call { .. } => "and this call may change it:",
        _ => "and this assignment may change it:",
    }
}

/// What may end a fact on a field at a point: a call, or else an assignment.
pub fn ended_words(program: &Program, body: u32, point: u32) -> &'static str
    ensures { result.now ≡ spec.ended_words (point_at program.now body point) }
{
    match point_at(program, body, point) {
        None => "and this assignment may change it:",
        Some(info) => ends_by(&info.kind),
    }
}

fn slot_words(
    alloc: Global,
    program: &Program,
    names: &Names,
    owner: Option<Owner>,
    bit: Bit,
    place: Place,
) -> Result<Vec<u8>, AllocError>
    ensures { IfOk result (λ words. words.items
        ≡ spec.owner_words program.now names.now owner ++ spec.bit_words bit
        ++ spec.how_words program.now owner place) }
{
    let mut words = owner_words(alloc, program, names, owner)?;
    add(&mut words, bit_words(bit))?;
    add(&mut words, how_words(program, owner, place))?;
    Ok(words)
}

/// The words of a step that is told.
///
/// # Errors
/// No memory was found.
pub fn step_words(
    alloc: Global,
    program: &OwnedProgram,
    names: &Names,
    step: Step,
) -> Result<Vec<u8>, AllocError>
    ensures { IfOk result (λ words. words.items ≡ spec.step_words program.now names.now step) }
{
    match step.item {
        Item::AtSlot(slot, bit) => slot_words(
            alloc,
            program.program(),
            names,
            program.owner_at(slot),
            bit,
            step.place,
        ),
        Item::AtRegister(_, _, _, _) => {
            Vec::from_slice(alloc, end_words(program.program(), step.place).as_bytes())
        }
    }
}
