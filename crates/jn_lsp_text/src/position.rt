//! Positions of a text.
ghost use Rattle.std.specs.Prelude.{◌≡◌, ◌≤◌, ◌<◌, ◌^◌, length};
ghost use Rattle.jn_lsp_text.specs.Positions as spec;
ghost use Rattle.jn_lsp_text.specs.Positions.{
  IsOffsetOf,
  IsBetweenUnits,
  HaveOneOffset,
  OffsetsReturn,
  StandOnTheirLines,
};

use crate::counting::Counted;
use crate::encoding::Encoding;

/// A place in a text (`Position`, Language Server Protocol 3.17): a line from 0, and how many units of an [`Encoding`] stand before on
/// that line. LF, CR and CR LF each end a line.
///
/// Units are counted by bytes. Of UTF-16 one from 0x80 to 0xBF goes on with a character and counts 0, one of 0xF0 and above begins a
/// character of two units, any other counts 1. Of UTF-8 each counts 1. So bytes that are no UTF-8 count, too.
#[derive(Clone, Copy, Debug, PartialEq, Eq, Drop)]
pub struct Position {
    pub line: u32,
    pub character: u32,
}

/// The position of the byte at `offset`, or of the text's end. In UTF-16 a byte within a character has the position after the
/// character. The LF of CR LF has that of the next line's begin. In a text of less than 2^30 bytes line and character are below 2^31, as the protocol
/// has numbers (`uinteger`).
pub fn position_of(encoding: Encoding, text: &[u8], offset: usize) -> Position
    requires within { offset ≤ length text.now }
    requires small { length text.now < 2 ^ 30 }
    ensures is { result ≡ spec.position_at encoding text.now offset }
    ensures line_small { result.line < 2 ^ 31 }
    ensures character_small { result.character < 2 ^ 31 }
{
    let mut counted = Counted::nothing();
    for byte in &text[..offset] {
        counted = counted.with(encoding, *byte);
    }
    Position {
        line: counted.lines as u32,
        character: counted.units as u32,
    }
}

/// The offset of a position: the greatest whose own position isn't after it. So a position in a surrogate pair of UTF-16 has the
/// offset of the pair's begin, one within a character in UTF-8 that of its own byte, one after a line's end that of the line's end
/// (before its CR or LF), and one on a line that isn't there the text's end.
pub fn offset_of(encoding: Encoding, text: &[u8], position: Position) -> usize
    ensures is { IsOffsetOf encoding text.now position result }
    ensures between { IsBetweenUnits encoding text.now result }
{
    let mut counted = Counted::nothing();
    for (offset, byte) in text.iter().enumerate() {
        let next = counted.with(encoding, *byte);
        if next.is_beyond(position) {
            return offset;
        }
        counted = next;
    }
    text.len()
}

/// Says that a position has one offset.
pub fn positions_have_one_offset()
    ensures { HaveOneOffset }
{}

/// Says that an offset between two units is the offset of its own position.
pub fn offsets_return()
    ensures { OffsetsReturn }
{}

/// Says that a position's offset is on the position's line where the text has that line, and else the text's end.
pub fn offsets_stand_on_their_lines()
    ensures { StandOnTheirLines }
{}
