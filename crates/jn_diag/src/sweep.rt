//! Places in one text, each from the one before.
ghost use Rattle.std.specs.Prelude.{◌≡◌, ◌≤◌, ◌<◌, ◌+◌, ◌-◌, ◌^◌, length};
ghost use Rattle.jn_base.specs.Place.{place_in};
ghost use Rattle.jn_diag.specs.Sweep as spec;
ghost use Rattle.jn_diag.specs.Sweep.{IsPosition};

use jn_base::place::{ends_line, is_continuation, is_line_end};
use jn_base::{Place, Span};

/// How far a sweep over a text has come: so many bytes stand before, and the line and the column, both from 1, are those of
/// the byte after them. Places that are asked for in their order cost one sweep together.
#[derive(Clone, Copy, Debug, PartialEq, Eq)]
pub struct Position {
    pub before: usize,
    pub line: u32,
    pub column: u32,
}

impl Position {
    /// The beginning of a text.
    pub fn start() -> Position
        ensures { result ≡ record { before = 0; line = 1; column = 1 } }
    {
        Position {
            before: 0,
            line: 1,
            column: 1,
        }
    }
}

fn byte_before(text: &[u8], at: usize) -> u8
    requires { at ≤ length text.now }
    ensures { result ≡ spec.byte_before text.now at }
{
    if at == 0 { 0 } else { text[at - 1] }
}

/// The position after one byte more.
fn stepped(position: Position, previous: u8, byte: u8) -> Position
    requires before { position.before < 2 ^ 32 - 1 }
    requires line { position.line < 2 ^ 32 - 1 }
    requires column { position.column < 2 ^ 32 - 1 }
    ensures { result ≡ spec.stepped position previous byte }
{
    Position {
        before: position.before + 1,
        line: if ends_line(previous, byte) {
            position.line + 1
        } else {
            position.line
        },
        column: if is_line_end(byte) {
            1
        } else if is_continuation(byte) {
            position.column
        } else {
            position.column + 1
        },
    }
}

/// The position after so many bytes, from an earlier one.
fn swept(text: &[u8], from: Position, to: usize) -> Position
    requires small { to < 2 ^ 32 - 1 }
    requires within { to ≤ length text.now }
    requires earlier { from.before ≤ to }
    requires is { IsPosition text.now from }
    ensures is { IsPosition text.now result }
    ensures there { result.before ≡ to }
{
    let mut position = from;
    while position.before < to {
        let previous = byte_before(text, position.before);
        position = stepped(position, previous, text[position.before]);
    }
    position
}

/// The place of the first byte of `at`, as `place_of` gives it; the position goes there. It sweeps from the text's beginning
/// only where the byte stands before the position.
pub fn place_behind(text: &[u8], position: &mut Position, at: &Span) -> Place
    requires small { at.now.from < 2 ^ 32 - 1 }
    requires within { at.now.from ≤ length text.now }
    requires is { IsPosition text.now position.old }
    ensures place { result ≡ place_in text.now at.now }
    ensures is { IsPosition text.now position.new }
{
    let to = at.from as usize;
    let from = if to < position.before {
        Position::start()
    } else {
        *position
    };
    *position = swept(text, from, to);
    Place {
        file: at.file,
        line: position.line,
        col: position.column,
    }
}
