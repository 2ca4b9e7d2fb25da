//! The line on which a row begins.
ghost use Rattle.std.specs.Prelude.{◌≡◌, ◌++◌, ◌≤◌, [], true, false, length, take, drop};
ghost use Rattle.std.specs.Option.{option_map};
ghost use Rattle.jn_base.specs.Place as place;
ghost use Rattle.jn_reporters.specs.Excerpts as spec;
ghost use Rattle.jn_reporters.specs.Views.{end_of};
ghost use Rattle.jn_reporters.specs.Excerpts.{extract_of};
ghost use Rattle.jn_reporters.specs.Walks.{is_nothing, GoesBack, GoesOn};

use crate::codes::place;
use jn_base::place::{is_continuation, is_line_end};
use jn_base::{Code, Span};

/// How many characters of a line are shown at most.
const MOST: usize = 120;

/// How many of them stand before the row, where as many stand from its first one on.
const HALF: usize = 60;

/// Of the line on which a row begins at most 120 characters, around the row's first. They are bytes of the file, and a byte that goes on
/// with a character of UTF-8 counts for none.
#[derive(Clone, Copy)]
pub struct Excerpt<'a> {
    /// What stands before the row.
    pub before: &'a [u8],
    /// What is of the row, on this line.
    pub marked: &'a [u8],
    /// What stands after that.
    pub behind: &'a [u8],
    /// Whether the line begins where this does.
    pub begins: bool,
    /// Whether the line ends where this does.
    pub ends: bool,
}

/// How many characters begin in the bytes.
fn characters(text: &[u8]) -> usize
    ensures { result ≡ place.characters text.now }
{
    text.iter().filter(|byte| !is_continuation(**byte)).count()
}

/// How many characters begin at the byte.
fn begun(byte: u8) -> usize
    ensures { result ≡ spec.begun byte }
{
    if is_continuation(byte) { 0 } else { 1 }
}

/// Whether the byte at this place is of the text's first line, and one of so many characters more.
fn goes_on(text: &[u8], at: usize, left: usize) -> bool
    requires { at ≤ length text.now }
    ensures yes { result ≡ true → GoesOn text.now at left }
    ensures no { result ≡ false → spec.first_characters left (spec.first_line (drop at text.now)) ≡ [] }
{
    at < text.len() && !is_line_end(text[at]) && begun(text[at]) <= left
}

/// How long the front of the text's first line is that has at most so many characters.
fn front(text: &[u8], count: usize) -> usize
    ensures within { result ≤ length text.now }
    ensures front { take result text.now ≡ spec.first_characters count (spec.first_line text.now) }
    ensures line { take result text.now ++ spec.first_line (drop result text.now)
        ≡ spec.first_line text.now }
{
    let mut at = 0;
    let mut left = count;
    while goes_on(text, at, left) {
        left -= begun(text[at]);
        at += 1;
    }
    at
}

/// Whether the byte before this place is of the last line of what stands before it, and characters are left.
fn goes_back(text: &[u8], at: usize, left: usize) -> bool
    requires { at ≤ length text.now }
    ensures yes { result ≡ true → GoesBack text.now at left }
    ensures no { result ≡ false → spec.last_characters left (place.last_line (take at text.now)) ≡ [] }
{
    if at == 0 {
        return false;
    }
    if left == 0 {
        return false;
    }
    !is_line_end(text[at - 1])
}

/// Where the end of the text's last line begins that has so many characters, or all of it.
fn back(text: &[u8], count: usize) -> usize
    ensures within { result ≤ length text.now }
    ensures back { drop result text.now ≡ spec.last_characters count (place.last_line text.now) }
    ensures line { place.last_line (take result text.now) ++ drop result text.now
        ≡ place.last_line text.now }
{
    let mut at = text.len();
    let mut left = count;
    while goes_back(text, at, left) {
        at -= 1;
        left -= begun(text[at]);
    }
    at
}

/// Whether the text's first line ends at this place, up to which it has no line end.
fn ends(text: &[u8], at: usize) -> bool
    requires { at ≤ length text.now }
    ensures { result ≡ is_nothing (spec.first_line (drop at text.now)) }
{
    at == text.len() || is_line_end(text[at])
}

/// Whether a line begins at this place.
fn begins(text: &[u8], at: usize) -> bool
    requires { at ≤ length text.now }
    ensures { result ≡ is_nothing (place.last_line (take at text.now)) }
{
    at == 0 || is_line_end(text[at - 1])
}

/// How many characters are shown before a row, where this text begins with its first.
fn most_before(text: &[u8]) -> usize
    ensures { result ≡ spec.most_before (place.characters (spec.first_line text.now)) }
{
    let shown = front(text, HALF);
    HALF.max(MOST.saturating_sub(characters(&text[..shown])))
}

/// Around a row, of what stands before its first byte and of what stands from there on, of which so many bytes are the row's.
fn around<'a>(before: &'a [u8], from_row: &'a [u8], long: usize) -> Excerpt<'a>
    ensures { extract_of result
        ≡ spec.extract_in (place.last_line before.now) (spec.first_line from_row.now) long }
{
    let near = back(before, most_before(from_row));
    let shown = MOST.saturating_sub(characters(&before[near..]));
    let ahead = front(from_row, shown);
    let (marked, behind) = parted(&from_row[..ahead], long);
    Excerpt {
        before: &before[near..],
        marked,
        behind,
        begins: begins(before, near),
        ends: ends(from_row, ahead),
    }
}

/// The first so many bytes of a text, or all, and those after them.
fn parted(text: &[u8], long: usize) -> (&[u8], &[u8])
    ensures { (result.0.now ≡ take long text.now) × (result.1.now ≡ drop long text.now) }
{
    text.split_at(long.min(text.len()))
}

/// How many bytes stand before the end of a row of this code, which stands at these bytes. One of the limits B1, B2 and B3 ends where it
/// begins.
pub fn end_of(code: Code, at: &Span) -> u32
    ensures { result ≡ end_of code at.now }
{
    if place(code) <= 2 { at.from } else { at.to }
}

/// The excerpt for a row of this code, which stands at these bytes of the text; none for the limits B1, B2 and B3.
pub fn excerpt_for<'a>(code: Code, text: &'a [u8], at: &Span) -> Option<Excerpt<'a>>
    ensures { option_map extract_of result ≡ spec.extract_for code text.now at.now }
{
    if place(code) <= 2 {
        return None;
    }
    let (before, from_row) = parted(text, at.from as usize);
    Some(around(before, from_row, at.to.saturating_sub(at.from) as usize))
}
