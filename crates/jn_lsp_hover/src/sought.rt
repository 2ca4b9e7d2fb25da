//! The byte at which something is sought.
ghost use Rattle.std.specs.Prelude.{◌≡◌};
ghost use Rattle.jn_points.specs.Lookup.{method_in, static_of};
ghost use Rattle.jn_lsp_hover.specs.Searched.{passes};
ghost use Rattle.jn_lsp_hover.specs.Spots as spec;

use crate::spot::Spot;
use jn_annotate::parts::bytes_at;
use jn_base::Span;
use jn_points::Program;
use jn_points::lookup::method_in;

/// A byte of a file's text, and the program that the file is part of. Files are numbered in their order.
#[derive(Clone, Copy)]
pub struct Sought<'a> {
    pub program: &'a Program,
    pub file: usize,
    pub text: &'a [u8],
    pub offset: usize,
}

/// Whether the byte of the file is in the span.
pub(crate) fn has_byte(file: usize, offset: usize, span: Span) -> bool
    ensures { result ≡ spec.has_byte file offset span }
{
    span.file.0 as usize == file && (span.from as usize) <= offset && offset < span.to as usize
}

/// Whether the body is that of a static method, or is none.
fn is_static(program: &Program, body: u32) -> bool
    ensures { result ≡ static_of (method_in program.now body) }
{
    match method_in(program, body as usize) {
        None => true,
        Some(info) => info.is_static,
    }
}

/// Whether the register is that of `this`.
fn is_this(program: &Program, spot: Spot) -> bool
    ensures { result ≡ spec.is_this program.now spot }
{
    spot.reg == 0 && !is_static(program, spot.body)
}

/// Whether the value stands in the text as it is: a `this` that isn't written is read where a member's name stands (JLS 6.5.6.1, 15.12.4.1).
fn is_written(program: &Program, text: &[u8], spot: Spot) -> bool
    ensures { result ≡ spec.is_written program.now text.now spot }
{
    !(is_this(program, spot) && bytes_at(text, spot.span) != b"this".as_slice())
}

/// Whether the byte is in the text of the value.
pub(crate) fn passes(sought: &Sought, spot: Spot) -> bool
    ensures { result ≡ passes sought.now spot }
{
    has_byte(sought.file, sought.offset, spot.span) && is_written(sought.program, sought.text, spot)
}
