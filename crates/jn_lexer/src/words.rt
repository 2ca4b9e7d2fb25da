//! Tokens at the front of a text.
ghost use Rattle.std.specs.Prelude.{◌≡◌, ◌≤◌, ◌<◌, ◌^◌, false, length, MatchOption, MatchResult};
ghost use Rattle.std.specs.List.{prefix_len};
ghost use Rattle.jn_lexer.specs.Characters.{is_part, is_start, is_digit};
ghost use Rattle.jn_lexer.specs.Scan.{begins_blank, begins_bad_dot, begins_dot};
ghost use Rattle.jn_lexer.specs.Found.{IsFound, IsFaultHere, BeginsWith, IsMarkPlace, NoToken};

use crate::characters::{is_digit, is_part, is_start};
use crate::numbers::number_value;
use crate::shape::{Fault, Found, Shape};
use crate::spelling::{keyword, pair, single};
use crate::strings::quoted_at;
use jn_base::Code;

/// How many characters of an identifier stand at the front.
fn run_len(text: &[char]) -> usize
    ensures value { result ≡ prefix_len is_part text.now }
    ensures within { result ≤ length text.now }
{
    for (i, c) in text.iter().enumerate() {
        if !is_part(*c) {
            return i;
        }
    }
    text.len()
}

/// An identifier, a keyword or a literal's word at the front.
fn word_at(text: &[char]) -> Found
    requires { BeginsWith is_start text.now }
    ensures { IsFound text.now result }
{
    let count = run_len(text);
    let shape = match keyword(&text[..count]) {
        Some(kind) => Shape::Fixed(kind),
        None => Shape::Word,
    };
    Found { shape, count }
}

/// Whether a `.` stands at the front.
fn begins_dot(text: &[char]) -> bool
    ensures { result ≡ begins_dot text.now }
{
    match text {
        [] => false,
        [first, ..] => *first == '.',
    }
}

/// A number at the front.
fn number_at(text: &[char]) -> Result<Found, Fault>
    requires { BeginsWith is_digit text.now }
    ensures { MatchResult result (λ found. IsFound text.now found)
        (λ fault. IsFaultHere text.now fault) }
{
    let bad = Fault {
        code: Code::L7,
        before: 0,
    };
    let count = run_len(text);
    if begins_dot(&text[count..]) {
        return Err(bad);
    }
    match number_value(&text[..count]) {
        Some(value) => Ok(Found {
            shape: Shape::Number(value),
            count,
        }),
        None => Err(bad),
    }
}

/// A separator or an operator at the front, where no comment begins.
fn mark_at(text: &[char]) -> Option<Found>
    requires place { IsMarkPlace text.now }
    requires no_bad_dot { begins_bad_dot text.now ≡ false }
    ensures { MatchOption result (NoToken text.now) (λ found. IsFound text.now found) }
{
    if let Some(kind) = pair(text) {
        return Some(Found {
            shape: Shape::Fixed(kind),
            count: 2,
        });
    }
    if let Some(kind) = single(text) {
        return Some(Found {
            shape: Shape::Fixed(kind),
            count: 1,
        });
    }
    None
}

/// A separator or an operator at the front, or a fault.
fn mark_or_fault(text: &[char]) -> Result<Found, Fault>
    requires { IsMarkPlace text.now }
    ensures { MatchResult result (λ found. IsFound text.now found)
        (λ fault. IsFaultHere text.now fault) }
{
    if begins_bad_dot(text) {
        return Err(Fault {
            code: Code::L7,
            before: 0,
        });
    }
    match mark_at(text) {
        Some(found) => Ok(found),
        None => Err(Fault {
            code: Code::L3,
            before: 0,
        }),
    }
}

/// Whether a `.` and a digit stand at the front.
fn begins_bad_dot(text: &[char]) -> bool
    ensures { result ≡ begins_bad_dot text.now }
{
    match text {
        [first, second, ..] => *first == '.' && is_digit(*second),
        _ => false,
    }
}

/// The token at the front, or what is wrong there.
pub fn token_at(text: &[char]) -> Result<Found, Fault>
    requires some { 0 < length text.now }
    requires fits { length text.now < 2 ^ 32 }
    requires no_blank { begins_blank text.now ≡ false }
    ensures { MatchResult result (λ found. IsFound text.now found)
        (λ fault. IsFaultHere text.now fault) }
{
    let first = text[0];
    if is_start(first) {
        Ok(word_at(text))
    } else if is_digit(first) {
        number_at(text)
    } else if first == '"' {
        quoted_at(text)
    } else {
        mark_or_fault(text)
    }
}
