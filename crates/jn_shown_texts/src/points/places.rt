//! Places as text.
use crate::points::known::LIMIT;
use crate::points::page::Page;
use jn_base::{Place, Span, place_of};

/// The place of a byte, or of the text's end where it isn't within the text.
fn place_at(text: &[u8], span: Span, byte: u32) -> Place {
    let from = byte.min(text.len().min(LIMIT) as u32);
    place_of(
        text,
        &Span {
            file: span.file,
            from,
            to: from,
        },
    )
}

/// From the first character to the one after the last.
fn write_places(page: &mut Page, first: Place, last: Place) {
    page.number(first.line);
    page.push(":");
    page.number(first.col);
    page.push("-");
    if last.line != first.line {
        page.number(last.line);
        page.push(":");
    }
    page.number(last.col)
}

/// Where it stands, from its first character to the one after its last.
pub fn write_span(page: &mut Page, text: &[u8], span: Span) {
    write_places(
        page,
        place_at(text, span, span.from),
        place_at(text, span, span.to),
    )
}
