//! Spans, places and rows, and the place of a byte.
ghost use Rattle.std.specs.Prelude.{◌≡◌, ◌≤◌, ◌<◌, ◌-◌, ◌^◌, length};
ghost use Rattle.jn_base.specs.Place as spec;

use crate::code::Code;
use crate::number::FileNo;

/// Bytes of a file, from the byte `from` up to, and without, the byte `to`.
#[derive(Clone, Copy, Debug, PartialEq, Eq, PartialOrd, Ord)]
pub struct Span {
    pub file: FileNo,
    pub from: u32,
    pub to: u32,
}

/// A line and a column of a file, both from 1; a column is a character.
#[derive(Clone, Copy, Debug, PartialEq, Eq, PartialOrd, Ord)]
pub struct Place {
    pub file: FileNo,
    pub line: u32,
    pub col: u32,
}

/// A row of a report: what is wrong, and where.
#[derive(Clone, Copy, Debug, PartialEq, Eq)]
pub struct Row {
    pub span: Span,
    pub code: Code,
}

/// The place of the first byte of `at`. CR, LF and CR LF each end a line.
pub fn place_of(text: &[u8], at: &Span) -> Place
    requires small { at.now.from < 2 ^ 32 - 1 }
    requires within { at.now.from ≤ length text.now }
    ensures { result ≡ spec.place_in text.now at.now }
{
    let before = &text[..at.from as usize];
    Place {
        file: at.file,
        line: 1 + line_ends(before),
        col: 1 + characters(last_line(before)),
    }
}

/// Whether the byte ends a line, or is the first of CR LF.
pub fn is_line_end(byte: u8) -> bool
    ensures { result ≡ spec.is_line_end byte }
{
    byte == b'\r' || byte == b'\n'
}

/// Whether a line ends at the byte, where the byte before it is `previous`: LF of CR LF ends none once more.
pub fn ends_line(previous: u8, byte: u8) -> bool
    ensures { result ≡ spec.ends_line previous byte }
{
    byte == b'\r' || (byte == b'\n' && previous != b'\r')
}

/// Whether the byte goes on with a character of UTF-8.
pub fn is_continuation(byte: u8) -> bool
    ensures { result ≡ spec.is_continuation byte }
{
    byte / 64 == 2
}

fn line_ends(text: &[u8]) -> u32
    requires { length text.now < 2 ^ 32 - 1 }
    ensures ends { result ≡ spec.line_ends 0 text.now }
    ensures bound { result ≤ length text.now }
{
    let mut ends = 0;
    let mut previous = 0;
    for byte in text {
        if ends_line(previous, *byte) {
            ends += 1;
        }
        previous = *byte;
    }
    ends
}

fn last_line(text: &[u8]) -> &[u8]
    ensures line { result.now ≡ spec.last_line text.now }
    ensures bound { length result.now ≤ length text.now }
{
    let mut start = text.len();
    while start > 0 && !is_line_end(text[start - 1]) {
        start -= 1;
    }
    &text[start..]
}

fn characters(text: &[u8]) -> u32
    requires { length text.now < 2 ^ 32 - 1 }
    ensures count { result ≡ spec.characters text.now }
    ensures bound { result ≤ length text.now }
{
    text.iter().filter(|byte| !is_continuation(**byte)).count() as u32
}
