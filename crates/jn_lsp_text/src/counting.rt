//! What stands before a byte, counted.
ghost use Rattle.std.specs.Prelude.{◌≡◌, ◌<◌, ◌-◌, ◌+◌, ◌^◌};
ghost use Rattle.jn_lsp_text.specs.Counting as spec;
ghost use Rattle.jn_lsp_text.specs.Positions.{units_begun};
ghost use Rattle.jn_lsp_text.specs.declared.encoding.Encoding.TheVariants.{Utf16};

use crate::encoding::Encoding;
use crate::position::Position;
use jn_base::place::{ends_line, is_continuation, is_line_end};

/// What stands before a byte of a text: the byte before it (0 at the text's begin), how many lines end there, and how many
/// units of the encoding the line has up to there.
#[derive(Clone, Copy, Debug, PartialEq, Eq)]
pub struct Counted {
    pub previous: u8,
    pub lines: u64,
    pub units: u64,
}

/// How many units a byte begins: of UTF-16 none where it goes on with a character, two where it begins one of four bytes; of UTF-8 it
/// is one.
pub fn units_begun(encoding: Encoding, byte: u8) -> u64
    ensures { result ≡ units_begun encoding byte }
{
    match encoding {
        Encoding::Utf16 => units_of_utf16(byte),
        Encoding::Utf8 => 1,
    }
}

fn units_of_utf16(byte: u8) -> u64
    ensures { result ≡ units_begun Utf16 byte }
{
    if is_continuation(byte) {
        0
    } else if byte >= 0xF0 {
        2
    } else {
        1
    }
}

impl Counted {
    /// Nothing stands before.
    pub fn nothing() -> Counted
        ensures { result ≡ record { previous = 0; lines = 0; units = 0 } }
    {
        Counted {
            previous: 0,
            lines: 0,
            units: 0,
        }
    }

    /// What stands before, and this byte after it.
    pub fn with(self, encoding: Encoding, byte: u8) -> Counted
        requires lines { self.lines < 2 ^ 64 - 1 }
        requires units { self.units < 2 ^ 64 - 2 }
        ensures { result ≡ spec.with encoding self byte }
    {
        Counted {
            previous: byte,
            lines: if ends_line(self.previous, byte) {
                self.lines + 1
            } else {
                self.lines
            },
            units: if is_line_end(byte) {
                0
            } else {
                self.units + units_begun(encoding, byte)
            },
        }
    }

    /// Whether what stands before reaches beyond the position.
    pub fn is_beyond(self, position: Position) -> bool
        ensures { result ≡ spec.is_beyond self position }
    {
        let line = position.line as u64;
        self.lines > line || (self.lines == line && self.units > position.character as u64)
    }
}
