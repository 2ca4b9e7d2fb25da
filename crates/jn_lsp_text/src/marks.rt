//! Positions of many places of one text, in any order.
ghost use Rattle.std.specs.Prelude.{◌≡◌, ◌<◌, ◌^◌, All, IfOk, length};
ghost use Rattle.jn_lsp_text.specs.Positions.{position_at};
ghost use Rattle.jn_lsp_text.specs.Ranges.{range_at};
ghost use Rattle.jn_lsp_text.specs.Sweep.{IsPlaceIn};

use crate::encoding::Encoding;
use crate::position::Position;
use crate::range::Range;
use crate::sweep::{Place, place_of, start_of};
use jn_base::OutOfMemory;
use jn_base::lists::put;
use std::alloc::Global;
use std::marker::Model;

/// How many bytes stand from one mark to the next.
const STEP: usize = 256;

/// A text with a mark for each so many bytes: what stands before that byte, counted. So a position costs a short count from the mark before it,
/// wherever it stands. Contracts see the text and the encoding.
#[derive(Drop)]
pub struct Marks<'a> {
    encoding: Encoding,
    text: &'a [u8],
    places: Vec<Place>,
}

impl<'a> Model for Marks<'a> {
    ghost use Rattle.std.specs.Prelude.{All, ◌<◌, ◌^◌, length};
    ghost use Rattle.jn_lsp_text.specs.Marking.{CountedText};
    ghost use Rattle.jn_lsp_text.specs.Sweep.{IsPlaceIn};

    ghost Value = { CountedText };

    ghost view = { λ m. record { encoding = m.encoding; text = m.text.now } };

    ghost invariant = { λ m. (length m.text.now < 2 ^ 30) × All (IsPlaceIn m.encoding m.text.now) m.places.items };
}

/// A place for each so many bytes of the text.
fn places_of(alloc: Global, encoding: Encoding, text: &[u8]) -> Result<Vec<Place>, OutOfMemory>
    requires small { length text.now < 2 ^ 30 }
    ensures { IfOk result (λ places. All (IsPlaceIn encoding text.now) places.items) }
{
    let mut places = Vec::new(alloc);
    let mut place = start_of(encoding, text);
    let mut at = 0;
    while at <= text.len() {
        let (next, _position) = place_of(encoding, text, place, at);
        put(&mut places, next)?;
        place = next;
        at += STEP;
    }
    Ok(places)
}

/// The place of this number, or the text's begin where there is none.
fn place_numbered(encoding: Encoding, text: &[u8], places: &[Place], number: usize) -> Place
    requires { All (IsPlaceIn encoding text.now) places.now }
    ensures { IsPlaceIn encoding text.now result }
{
    if number < places.len() {
        places[number]
    } else {
        start_of(encoding, text)
    }
}

impl<'a> Marks<'a> {
    /// The marks of a text.
    ///
    /// # Errors
    /// No memory was found.
    pub fn new(alloc: Global, encoding: Encoding, text: &'a [u8]) -> Result<Marks<'a>, OutOfMemory>
        requires small { length text.now < 2 ^ 30 }
        ensures { IfOk result (λ marks. marks ≡ record { encoding = encoding; text = text.now }) }
    {
        let places = places_of(alloc, encoding, text)?;
        Ok(Marks {
            encoding,
            text,
            places,
        })
    }

    /// The position of the byte at `offset`, or of the text's end where the text is shorter, as `position_of` gives it.
    pub fn position(&self, offset: usize) -> Position
        ensures { result ≡ position_at self.now.encoding self.now.text offset }
    {
        let mark = place_numbered(self.encoding, self.text, &self.places, offset / STEP);
        let (_place, position) = place_of(self.encoding, self.text, mark, offset);
        position
    }

    /// The range of the bytes from `from` up to, and without, `to`, as `range_of` gives it.
    pub fn range(&self, from: u32, to: u32) -> Range
        ensures { result ≡ range_at self.now.encoding self.now.text from to }
    {
        Range {
            start: self.position(from as usize),
            end: self.position(from.max(to) as usize),
        }
    }
}
