//! Positions of a text's bytes, each counted on from the one before.
ghost use Rattle.std.specs.Prelude.{◌≡◌, ◌≤◌, ◌<◌, ◌^◌, length};
ghost use Rattle.jn_lsp_text.specs.Positions.{position_at};
ghost use Rattle.jn_lsp_text.specs.Sweep.{IsPlaceIn};

use crate::counting::Counted;
use crate::encoding::Encoding;
use crate::position::Position;

/// A byte of a text, or its end, and what stands before it.
#[derive(Clone, Copy, Debug, PartialEq, Eq)]
pub struct Place {
    pub at: usize,
    pub counted: Counted,
}

/// The text's begin.
#[tactic(auto, using(crate::proofs::Sweeping::place_start))]
pub fn start_of(encoding: Encoding, text: &[u8]) -> Place
    ensures place { IsPlaceIn encoding text.now result }
    ensures at { result.at ≡ 0 }
{
    let _encoding = encoding;
    let _text = text;
    Place {
        at: 0,
        counted: Counted::nothing(),
    }
}

/// The byte at `to`, from one before it on.
fn counted_on(encoding: Encoding, text: &[u8], place: Place, to: usize) -> Place
    requires place { IsPlaceIn encoding text.now place }
    requires before { place.at ≤ to }
    requires within { to ≤ length text.now }
    ensures place { IsPlaceIn encoding text.now result }
    ensures at { result.at ≡ to }
{
    let mut counted = place.counted;
    for at in place.at..to {
        counted = counted.with(encoding, text[at]);
    }
    Place { at: to, counted }
}

/// The byte at `to`: counted on from a byte that isn't after it, else from the text's begin.
fn place_from(encoding: Encoding, text: &[u8], place: Place, to: usize) -> Place
    requires place { IsPlaceIn encoding text.now place }
    requires within { to ≤ length text.now }
    ensures place { IsPlaceIn encoding text.now result }
    ensures at { result.at ≡ to }
{
    if place.at <= to {
        counted_on(encoding, text, place, to)
    } else {
        counted_on(encoding, text, start_of(encoding, text), to)
    }
}

/// The byte at `at`, or the text's end where the text is shorter.
#[tactic(auto, using(crate::proofs::Sweeping::position_there))]
pub fn place_of(encoding: Encoding, text: &[u8], place: Place, at: usize) -> (Place, Position)
    requires small { length text.now < 2 ^ 30 }
    requires place { IsPlaceIn encoding text.now place }
    ensures place { IsPlaceIn encoding text.now result.0 }
    ensures position { result.1 ≡ position_at encoding text.now at }
{
    let place = place_from(encoding, text, place, at.min(text.len()));
    let position = Position {
        line: place.counted.lines as u32,
        character: place.counted.units as u32,
    };
    (place, position)
}
