//! Where it is told that files get no annotated texts, or that a slot is left without words, and the lines that say it.
ghost use Rattle.std.specs.Prelude.{◌≡◌, ◌≤◌, ◌++◌, codes, length, IfOk};
ghost use Rattle.jn_base.specs.Place.{place_in};
ghost use Rattle.jn_front.specs.Files.{files_of_reads};
ghost use Rattle.jn_points.specs.Members.{some_of};
ghost use Rattle.jn_sigs.specs.Signature as sigs;
ghost use Rattle.nullcheck_annotate_top.specs.Output as output;
ghost use Rattle.nullcheck_annotate_top.specs.Places as spec;

use crate::parts::{Part, part_words};
use crate::study::Left;
use itoa::{Buffer, Integer};
use jn_annotate::AnnotateFault;
use jn_base::place::place_of;
use jn_base::{FileNo, Place, SlotNo, Span};
use jn_front::SourceRead;
use jn_points::{Field, Method, Program};
use std::alloc::{AllocError, Global};

/// The first byte of a file.
fn file_start(file: u32) -> Span
    ensures { result ≡ spec.file_start file }
{
    Span {
        file: FileNo(file),
        from: 0,
        to: 0,
    }
}

/// Whether it is the slot.
pub(crate) fn is_slot(slot: u32, has: Option<SlotNo>) -> bool
    ensures { result ≡ sigs.is_slot slot has }
{
    match has {
        None => false,
        Some(has) => has.0 == slot,
    }
}

/// Whether the slot is among them.
fn is_among(slot: u32, has: &[Option<SlotNo>]) -> bool
    ensures { result ≡ some_of (sigs.is_slot slot) has.now }
{
    for one in has {
        if is_slot(slot, *one) {
            return true;
        }
    }
    false
}

/// Whether the slot is of a parameter, the receiver or the result of the method.
pub(crate) fn has_slot(slot: u32, method: &Method) -> bool
    ensures { result ≡ sigs.method_has_slot slot method.now }
{
    is_slot(slot, method.receiver)
        || is_slot(slot, method.result_slot)
        || is_among(slot, method.param_slots.as_slice())
}

/// The name of the slot's field.
fn field_span(slot: u32, fields: &[Field]) -> Option<Span>
    ensures { result ≡ spec.field_span slot fields.now }
{
    for field in fields {
        if is_slot(slot, field.slot) {
            return Some(field.span);
        }
    }
    None
}

/// The name of the slot's method.
fn method_span(slot: u32, methods: &[Method]) -> Option<Span>
    ensures { result ≡ spec.method_span slot methods.now }
{
    for method in methods {
        if has_slot(slot, method) {
            return Some(method.span);
        }
    }
    None
}

/// The name of the slot's field, or of the method whose parameter, receiver or result it is.
pub(crate) fn slot_span(program: &Program, slot: u32) -> Span
    ensures { result ≡ spec.slot_span program.now slot }
{
    match field_span(slot, program.fields.as_slice()) {
        Some(span) => span,
        None => match method_span(slot, program.methods.as_slice()) {
            Some(span) => span,
            None => file_start(0),
        },
    }
}

/// Where the fault stands: at the slot's declaration, or at the first byte of the file.
pub(crate) fn fault_span(program: &Program, fault: AnnotateFault) -> Span
    ensures { result ≡ spec.fault_span program.now fault }
{
    match fault {
        AnnotateFault::NameTaken(slot) => slot_span(program, slot.0),
        AnnotateFault::SharedType(slot) => slot_span(program, slot.0),
        AnnotateFault::TooLarge(file) => file_start(file.0),
    }
}

/// The fault's code.
fn fault_code(fault: AnnotateFault) -> &'static [u8]
    ensures { result.now ≡ output.fault_code fault }
{
    match fault {
        AnnotateFault::NameTaken(_) => b"NAME-TAKEN",
        AnnotateFault::SharedType(_) => b"SHARED-TYPE",
        AnnotateFault::TooLarge(_) => b"TOO-LARGE",
    }
}

/// `FILE:LINE:COL: CODE` and a line feed.
fn placed_line(alloc: Global, name: &str, place: Place, code: &[u8]) -> Result<Vec<u8>, AllocError>
    ensures { IfOk result (λ line. line.items ≡ output.placed_line name.now place code.now) }
{
    let mut line = Vec::from_slice(alloc, name.as_bytes())?;
    line.extend_from_slice(b":")?;
    line.extend_from_slice(Buffer::new().format(place.line).as_bytes())?;
    line.extend_from_slice(b":")?;
    line.extend_from_slice(Buffer::new().format(place.col).as_bytes())?;
    line.extend_from_slice(b": ")?;
    line.extend_from_slice(code)?;
    line.extend_from_slice(b"\n")?;
    Ok(line)
}

/// The place of a span's first byte, or the end of the text where it stands after that.
fn place_within(text: &[u8], span: Span) -> Place
    requires { length text.now ≤ 1048576 }
    ensures { result ≡ place_in text.now span }
{
    let at = Span {
        file: span.file,
        from: span.from.min(text.len() as u32),
        to: span.to,
    };
    place_of(text, &at)
}

/// The code alone, of a fault that stands in no file.
fn bare_line(alloc: Global, code: &[u8]) -> Result<Vec<u8>, AllocError>
    ensures { IfOk result (λ line. line.items ≡ code.now ++ codes "\n") }
{
    let mut line = Vec::from_slice(alloc, code)?;
    line.extend_from_slice(b"\n")?;
    Ok(line)
}

/// The line of a place, with a code.
fn place_line(
    alloc: Global,
    reads: &[SourceRead],
    code: &[u8],
    span: Span,
) -> Result<Vec<u8>, AllocError>
    ensures { IfOk result
        (λ line. line.items ≡ output.place_line (files_of_reads reads.now) code.now span) }
{
    let file = span.file.0 as usize;
    if file < reads.len() {
        let read = &reads[file];
        let place = place_within(read.file.bytes.as_slice(), span);
        placed_line(alloc, read.file.name.as_str(), place, code)
    } else {
        bare_line(alloc, code)
    }
}

/// What can be done where no annotation says the qualifier of this part.
fn spelling_cure(alloc: Global, part: Option<Part>) -> Result<Vec<u8>, AllocError>
    ensures { IfOk result (λ cure. cure.items ≡ output.spelling_cure part) }
{
    let mut cure = Vec::from_slice(alloc, b"cure: write the annotation that is meant at ")?;
    cure.extend_from_slice(part_words(part))?;
    cure.extend_from_slice(b", or leave out what takes nothing but null\n")?;
    Ok(cure)
}

/// What can be done about a fault.
fn fault_cure(fault: AnnotateFault) -> &'static [u8]
    ensures { result.now ≡ output.fault_cure fault }
{
    match fault {
        AnnotateFault::NameTaken(_) => {
            b"cure: give the type that has the annotation's name another one, or leave --imports out\n"
        }
        AnnotateFault::SharedType(_) => b"cure: declare the fields one by one\n",
        AnnotateFault::TooLarge(_) => b"cure: split the file\n",
    }
}

/// The lines of a fault: its place, and its cure.
pub(crate) fn fault_text(
    alloc: Global,
    reads: &[SourceRead],
    fault: AnnotateFault,
    span: Span,
) -> Result<Vec<u8>, AllocError>
    ensures { IfOk result
        (λ text. text.items ≡ output.fault_text (files_of_reads reads.now) fault span) }
{
    let mut text = place_line(alloc, reads, fault_code(fault), span)?;
    text.extend_from_slice(fault_cure(fault))?;
    Ok(text)
}

/// The lines of a slot that is left without words: its place, and its cure.
fn left_text(alloc: Global, reads: &[SourceRead], left: Left) -> Result<Vec<u8>, AllocError>
    ensures { IfOk result
        (λ text. text.items ≡ output.left_text (files_of_reads reads.now) left) }
{
    let mut text = place_line(alloc, reads, b"NO-SPELLING", left.span)?;
    let cure = spelling_cure(alloc, left.part)?;
    text.extend_from_slice(&cure)?;
    Ok(text)
}

/// Puts those of one more slot after the others.
fn put_left(
    alloc: Global,
    text: &mut Vec<u8>,
    reads: &[SourceRead],
    left: Left,
) -> Result<(), AllocError>
    ensures { IfOk result (λ u. text.new.items
        ≡ text.old.items ++ output.left_text (files_of_reads reads.now) left) }
{
    let lines = left_text(alloc, reads, left)?;
    text.extend_from_slice(&lines)?;
    Ok(())
}

/// Those of all slots that are left so.
pub(crate) fn left_texts(
    alloc: Global,
    reads: &[SourceRead],
    left: &[Left],
) -> Result<Vec<u8>, AllocError>
    ensures { IfOk result
        (λ text. text.items ≡ output.left_texts (files_of_reads reads.now) left.now) }
{
    let mut text = Vec::new(alloc);
    for slot in left {
        put_left(alloc, &mut text, reads, *slot)?;
    }
    Ok(text)
}
