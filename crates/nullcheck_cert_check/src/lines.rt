//! The bytes that tell a fault of a certificate.
ghost use Rattle.std.specs.Prelude.{◌≡◌, ◌≤◌, ◌++◌, ◌<◌, codes, length, None, Some, IfOk, slice_get};
ghost use Rattle.jn_base.specs.Place.{place_in};
ghost use Rattle.jn_front.specs.Files.{files_of_reads};
ghost use Rattle.jn_reporters.specs.Reports.{plain_line};
ghost use Rattle.jn_command.specs.Shown.{row_of, row_of_file};
ghost use Rattle.nullcheck_cert_check.specs.Lines as spec;

use itoa::{Buffer, Integer};
use jn_base::{BodyNo, Code, MethodNo, OutOfMemory, Place, PointNo, Row, SlotNo, Span, place_of};
use jn_cert::CertFault;
use jn_front::{SourceFile, SourceRead};
use jn_points::{Body, Field, Method, Program};
use std::alloc::{AllocError, Global};

// ---- where a fault stands

fn is_slot(number: u32, slot: &Option<SlotNo>) -> bool
    ensures { result ≡ spec.is_slot number slot.now }
{
    match slot {
        None => false,
        Some(slot) => slot.0 == number,
    }
}

fn has_slot_among(number: u32, slots: &[Option<SlotNo>]) -> bool
    ensures { result ≡ spec.has_slot_among number slots.now }
{
    for slot in slots {
        if is_slot(number, slot) {
            return true;
        }
    }
    false
}

/// Whether the slot is of the method's receiver, of one of its parameters or of its result.
fn has_slot_of(number: u32, method: &Method) -> bool
    ensures { result ≡ spec.has_slot_of number method.now }
{
    is_slot(number, &method.receiver)
        || has_slot_among(number, method.param_slots.as_slice())
        || is_slot(number, &method.result_slot)
}

/// Where the first method stands that has the slot.
fn method_span(number: u32, methods: &[Method]) -> Option<Span>
    ensures { result ≡ spec.method_span number methods.now }
{
    for method in methods {
        if has_slot_of(number, method) {
            return Some(method.span);
        }
    }
    None
}

/// Where the first field stands that has the slot.
fn field_span(number: u32, fields: &[Field]) -> Option<Span>
    ensures { result ≡ spec.field_span number fields.now }
{
    for field in fields {
        if is_slot(number, &field.slot) {
            return Some(field.span);
        }
    }
    None
}

/// Where the member stands that has the slot.
fn slot_span(program: &Program, slot: SlotNo) -> Option<Span>
    ensures { result ≡ spec.slot_span program.now slot.0 }
{
    match field_span(slot.0, program.fields.as_slice()) {
        Some(span) => Some(span),
        None => method_span(slot.0, program.methods.as_slice()),
    }
}

fn span_of_method(methods: &[Method], method: MethodNo) -> Option<Span>
    ensures { result ≡ spec.span_of_method (slice_get methods.now method.0) }
{
    match methods.get(method.0 as usize) {
        None => None,
        Some(method) => Some(method.span),
    }
}

/// Where the body's method or constructor stands.
fn body_span(program: &Program, body: BodyNo) -> Option<Span>
    ensures { result ≡ spec.body_span program.now body.0 }
{
    match program.bodies.as_slice().get(body.0 as usize) {
        None => None,
        Some(body) => span_of_method(program.methods.as_slice(), body.method),
    }
}

fn span_of_point(body: &Body, point: PointNo) -> Option<Span>
    ensures { result ≡ spec.span_of_point (slice_get body.now.points point.0) }
{
    match body.points.as_slice().get(point.0 as usize) {
        None => None,
        Some(point) => Some(point.span),
    }
}

/// Where the point stands.
fn point_span(program: &Program, body: BodyNo, point: PointNo) -> Option<Span>
    ensures { result ≡ spec.point_span program.now body.0 point.0 }
{
    match program.bodies.as_slice().get(body.0 as usize) {
        None => None,
        Some(body) => span_of_point(body, point),
    }
}

// ---- lines

/// The place of a span's first byte; one after the text's end stands at the end.
fn place_within(text: &[u8], span: Span) -> Place
    requires fits { length text.now ≤ 1048576 }
    ensures { result ≡ place_in text.now span }
{
    let at = Span {
        file: span.file,
        from: span.from.min(text.len() as u32),
        to: span.to,
    };
    place_of(text, &at)
}

/// A space and FILE:LINE:COL of a span's first byte in its file.
fn place_in_text(alloc: Global, file: &SourceFile, span: Span) -> Result<Vec<u8>, AllocError>
    requires fits { length file.now.bytes ≤ 1048576 }
    ensures { IfOk result (λ text. text.items ≡ spec.told_place file.now span) }
{
    let place = place_within(file.bytes.as_slice(), span);
    let mut text = Vec::from_slice(alloc, b" ")?;
    text.extend_from_slice(file.name.as_str().as_bytes())?;
    text.extend_from_slice(b":")?;
    text.extend_from_slice(Buffer::new().format(place.line).as_bytes())?;
    text.extend_from_slice(b":")?;
    text.extend_from_slice(Buffer::new().format(place.col).as_bytes())?;
    Ok(text)
}

/// The same, or nothing where the span has no byte.
fn place_in_file(alloc: Global, file: &SourceFile, span: Span) -> Result<Vec<u8>, AllocError>
    requires fits { length file.now.bytes ≤ 1048576 }
    ensures { IfOk result (λ text. text.items ≡ spec.place_in_file (Some file.now) span) }
{
    if span.from < span.to {
        place_in_text(alloc, file, span)
    } else {
        Ok(Vec::new(alloc))
    }
}

/// The same, or nothing where the span is of no file.
fn place_of_span(alloc: Global, reads: &[SourceRead], span: Span) -> Result<Vec<u8>, AllocError>
    ensures { IfOk result
        (λ text. text.items ≡ spec.place_in_file (slice_get (files_of_reads reads.now) span.file.0) span) }
{
    let file = span.file.0 as usize;
    if file < reads.len() {
        place_in_file(alloc, &reads[file].file, span)
    } else {
        Ok(Vec::new(alloc))
    }
}

/// The same, or nothing where there is no span.
fn place_text(
    alloc: Global,
    reads: &[SourceRead],
    span: Option<Span>,
) -> Result<Vec<u8>, AllocError>
    ensures { IfOk result
        (λ text. text.items ≡ spec.place_text (files_of_reads reads.now) span) }
{
    match span {
        None => Ok(Vec::new(alloc)),
        Some(span) => place_of_span(alloc, reads, span),
    }
}

/// The certificate's name, the word, and the place where there is one.
fn placed_line(
    alloc: Global,
    cert: &str,
    reads: &[SourceRead],
    word: &str,
    span: Option<Span>,
) -> Result<Vec<u8>, AllocError>
    ensures { IfOk result (λ line. line.items
        ≡ spec.placed_line cert.now (files_of_reads reads.now) word.now span) }
{
    let place = place_text(alloc, reads, span)?;
    let mut line = Vec::from_slice(alloc, cert.as_bytes())?;
    line.extend_from_slice(word.as_bytes())?;
    line.extend_from_slice(&place)?;
    line.extend_from_slice(b"\n")?;
    Ok(line)
}

fn form_line(alloc: Global, cert: &str, at: u32) -> Result<Vec<u8>, AllocError>
    ensures { IfOk result
        (λ line. line.items ≡ spec.form_line cert.now at) }
{
    let mut line = Vec::from_slice(alloc, cert.as_bytes())?;
    line.extend_from_slice(b": form ")?;
    line.extend_from_slice(Buffer::new().format(at).as_bytes())?;
    line.extend_from_slice(b"\n")?;
    Ok(line)
}

/// The certificate's name, and that it is too large.
pub(crate) fn large_line(alloc: Global, cert: &str) -> Result<Vec<u8>, AllocError>
    ensures { IfOk result (λ line. line.items ≡ cert.now ++ codes ": too large\n") }
{
    let mut line = Vec::from_slice(alloc, cert.as_bytes())?;
    line.extend_from_slice(b": too large\n")?;
    Ok(line)
}

/// `NAME:LINE:COL: CODE` and a line feed.
fn line_of(
    alloc: Global,
    name: &str,
    line: u32,
    col: u32,
    code: Code,
) -> Result<Vec<u8>, AllocError>
    ensures { IfOk result (λ text. text.items
        ≡ plain_line (record { name = name.now; line = line; col = col; code = code })) }
{
    let mut text = Vec::from_slice(alloc, name.as_bytes())?;
    text.extend_from_slice(b":")?;
    text.extend_from_slice(Buffer::new().format(line).as_bytes())?;
    text.extend_from_slice(b":")?;
    text.extend_from_slice(Buffer::new().format(col).as_bytes())?;
    text.extend_from_slice(b": ")?;
    text.extend_from_slice(code.name().as_bytes())?;
    text.extend_from_slice(b"\n")?;
    Ok(text)
}

/// The line of a row of this file.
fn row_in_file(alloc: Global, file: &SourceFile, row: Row) -> Result<Vec<u8>, AllocError>
    requires fits { length file.now.bytes ≤ 1048576 }
    ensures { IfOk result
        (λ line. line.items ≡ plain_line (row_of_file (Some file.now) row).text) }
{
    let place = place_within(file.bytes.as_slice(), row.span);
    line_of(alloc, file.name.as_str(), place.line, place.col, row.code)
}

/// The line of a row of no file.
fn row_of_none(alloc: Global, row: Row) -> Result<Vec<u8>, AllocError>
    ensures { IfOk result (λ line. line.items ≡ plain_line (row_of_file None row).text) }
{
    line_of(alloc, "", 1, 1, row.code)
}

/// The line of a row, as the plain reporter shows it.
fn row_line(alloc: Global, reads: &[SourceRead], row: Row) -> Result<Vec<u8>, AllocError>
    ensures { IfOk result
        (λ line. line.items ≡ plain_line (row_of (files_of_reads reads.now) row).text) }
{
    let file = row.span.file.0 as usize;
    if file < reads.len() {
        row_in_file(alloc, &reads[file].file, row)
    } else {
        row_of_none(alloc, row)
    }
}

/// The line of a fault of a certificate of this name.
pub(crate) fn fault_line(
    alloc: Global,
    cert: &str,
    reads: &[SourceRead],
    program: &Program,
    fault: CertFault,
) -> Result<Vec<u8>, OutOfMemory>
    ensures { IfOk result (λ line. line.items
        ≡ spec.fault_line cert.now (files_of_reads reads.now) program.now fault) }
{
    let line = match fault {
        CertFault::BadForm(at) => form_line(alloc, cert, at)?,
        CertFault::Slot(slot) => {
            placed_line(alloc, cert, reads, ": slot", slot_span(program, slot))?
        }
        CertFault::Entry(body) => {
            placed_line(alloc, cert, reads, ": entry", body_span(program, body))?
        }
        CertFault::Edge(body, point) => placed_line(
            alloc,
            cert,
            reads,
            ": edge",
            point_span(program, body, point),
        )?,
        CertFault::Broken(row) => row_line(alloc, reads, row)?,
        CertFault::Open(slot) => {
            placed_line(alloc, cert, reads, ": open", slot_span(program, slot))?
        }
    };
    Ok(line)
}
