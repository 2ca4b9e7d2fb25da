//! The line that tells how a run ended.
ghost use Rattle.std.specs.Prelude.{◌≡◌, ◌≤◌, length, Some, IfOk};
ghost use Rattle.jn_base.specs.Place.{place_in};
ghost use Rattle.jn_front.specs.Files.{files_of_reads};
ghost use Rattle.jn_run.specs.Line.{place_in_file, place_text, fault_line};
ghost use Rattle.jn_run.specs.Telling as spec;

use itoa::{Buffer, Integer};
use jn_base::{OutOfMemory, Place, Seq, Span, place_of};
use jn_command::Status;
use jn_command::output::{Output, finish, write};
use jn_front::{SourceFile, SourceRead};
use jn_outside::Sink;
use jn_running::{Ended, FaultKind};
use std::alloc::{AllocError, Global};

/// The class of an exception, by its simple name.
fn class_name(kind: FaultKind) -> &'static str
    ensures { result.now ≡ spec.class_name kind }
{
    match kind {
        FaultKind::Arithmetic => "ArithmeticException",
        FaultKind::Index => "ArrayIndexOutOfBoundsException",
        FaultKind::NegativeSize => "NegativeArraySizeException",
        FaultKind::ClassCast => "ClassCastException",
        FaultKind::ArrayStore => "ArrayStoreException",
    }
}

/// The place of a span's first byte; one after the text's end stands at the end.
fn place_within(text: &[u8], span: Span) -> Place
    requires fits { length text.now ≤ 1048576 }
    ensures { result ≡ place_in text.now span }
{
    let at = Span {
        file: span.file,
        from: span.from.min(text.len() as u32),
        to: span.to,
    };
    place_of(text, &at)
}

/// FILE:LINE:COL of a span's first byte in its file.
fn place_in_file(alloc: Global, file: &SourceFile, span: Span) -> Result<Vec<u8>, AllocError>
    requires fits { length file.now.bytes ≤ 1048576 }
    ensures { IfOk result (λ text. text.items ≡ place_in_file (Some file.now) span) }
{
    let place = place_within(file.bytes.as_slice(), span);
    let mut text = Vec::from_slice(alloc, file.name.as_str().as_bytes())?;
    text.extend_from_slice(b":")?;
    text.extend_from_slice(Buffer::new().format(place.line).as_bytes())?;
    text.extend_from_slice(b":")?;
    text.extend_from_slice(Buffer::new().format(place.col).as_bytes())?;
    Ok(text)
}

/// FILE:LINE:COL of a span's first byte; a span of no file has no name, and stands at its beginning.
fn place_text(alloc: Global, reads: &[SourceRead], span: Span) -> Result<Vec<u8>, AllocError>
    ensures { IfOk result (λ text. text.items ≡ place_text (files_of_reads reads.now) span) }
{
    let file = span.file.0 as usize;
    if file < reads.len() {
        place_in_file(alloc, &reads[file].file, span)
    } else {
        Vec::from_slice(alloc, b":1:1")
    }
}

/// The line of an exception whose point has this span.
fn fault_line(
    alloc: Global,
    reads: &[SourceRead],
    kind: FaultKind,
    span: Span,
) -> Result<Vec<u8>, AllocError>
    ensures { IfOk result
        (λ line. line.items ≡ fault_line (files_of_reads reads.now) (spec.class_name kind) span) }
{
    let place = place_text(alloc, reads, span)?;
    let mut line = Vec::from_slice(alloc, b"fault ")?;
    line.extend_from_slice(class_name(kind).as_bytes())?;
    line.extend_from_slice(b" ")?;
    line.extend_from_slice(&place)?;
    line.extend_from_slice(b"\n")?;
    Ok(line)
}

/// The line of an exception, and the status after it.
fn fault_output(
    alloc: Global,
    reads: &[SourceRead],
    kind: FaultKind,
    span: Span,
) -> Result<Output, OutOfMemory>
    ensures status { IfOk result (λ output. output.status ≡ Status.RunFault) }
    ensures bytes { IfOk result (λ output.
        output.bytes ≡ fault_line (files_of_reads reads.now) (spec.class_name kind) span) }
{
    let line = fault_line(alloc, reads, kind, span)?;
    Ok(Output {
        status: Status::RunFault,
        bytes: Seq::of_vec(line),
    })
}

/// Writes the line that tells how a run ended, and gives the status after it. Nothing is told of a write fault, or of
/// want of memory.
pub(crate) fn tell<K: Sink>(
    alloc: Global,
    reads: &[SourceRead],
    ended: Ended,
    out: &mut K,
) -> Status
    ensures { spec.Tells (K.written out.old) (K.written out.new) (K.faults out.old)
        (K.faults out.new) (files_of_reads reads.now) ended result }
{
    match ended {
        Ended::Done => finish(out, b"done\n", Status::Ok),
        Ended::Fault(kind, span) => write(fault_output(alloc, reads, kind, span), out),
        Ended::Steps => finish(out, b"steps\n", Status::Stopped),
        Ended::Deep => finish(out, b"deep\n", Status::Stopped),
        Ended::Long => finish(out, b"long\n", Status::Stopped),
        Ended::WriteFault => Status::WriteFault,
        Ended::OutOfMemory => Status::OutOfMemory,
    }
}
