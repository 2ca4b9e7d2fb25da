//! Strings.
ghost use Rattle.std.specs.Prelude.{◌≡◌, ◌+◌, ◌<◌, ◌^◌, true, false, length, IfOk, IfSome, MatchResult, string_bytes, encode_utf8_all};
ghost use Rattle.jn_lexer.specs.Characters.{is_line_end};
ghost use Rattle.jn_lexer.specs.Lexemes.{escape_value};
ghost use Rattle.jn_lexer.specs.Scan.{string_len, bad_letter, unescaped};
ghost use Rattle.jn_lexer.specs.Found.{IsFound, IsFaultHere, BeginsWith, is_quote};

use crate::characters::is_line_end;
use crate::shape::{Fault, Found, Shape};
use jn_base::{Code, OutOfMemory};
use std::alloc::Global;

/// What the character after a backslash stands for, if it is one of the eight escapes.
#[tactic(auto, unfolding(crate::specs::Lexemes::escape_value))]
fn escape_value(letter: char) -> Option<char>
    ensures { result ≡ escape_value letter }
{
    if letter == 'b' {
        Some('\u{8}')
    } else if letter == 't' {
        Some('\t')
    } else if letter == 'n' {
        Some('\n')
    } else if letter == 'f' {
        Some('\u{c}')
    } else if letter == 'r' {
        Some('\r')
    } else if letter == '"' || letter == '\'' || letter == '\\' {
        Some(letter)
    } else {
        None
    }
}

/// How many characters stand before the `"` that closes a string on its line.
fn string_len(text: &[char]) -> Option<usize>
    ensures value { result ≡ string_len false text.now }
    ensures within { IfSome result (λ n. n < length text.now) }
{
    let mut slash = false;
    for (i, c) in text.iter().enumerate() {
        if is_line_end(*c) {
            return None;
        }
        if !slash && *c == '"' {
            return Some(i);
        }
        slash = !slash && *c == '\\';
    }
    None
}

/// The place of the first character after a backslash with which it is no escape.
fn bad_letter(inside: &[char]) -> Option<usize>
    ensures value { result ≡ bad_letter false inside.now }
    ensures within { IfSome result (λ n. n < length inside.now) }
{
    let mut slash = false;
    for (i, c) in inside.iter().enumerate() {
        if slash && escape_value(*c).is_none() {
            return Some(i);
        }
        slash = !slash && *c == '\\';
    }
    None
}

/// A string at the front.
pub fn quoted_at(text: &[char]) -> Result<Found, Fault>
    requires quote { BeginsWith is_quote text.now }
    requires fits { length text.now < 2 ^ 32 }
    ensures { MatchResult result (λ found. IsFound text.now found)
        (λ fault. IsFaultHere text.now fault) }
{
    let inside = &text[1..];
    match string_len(inside) {
        None => Err(Fault {
            code: Code::L5,
            before: 0,
        }),
        Some(count) => match bad_letter(&inside[..count]) {
            Some(before) => Err(Fault {
                code: Code::L6,
                before,
            }),
            None => Ok(Found {
                shape: Shape::Quoted,
                count: count + 2,
            }),
        },
    }
}

/// What the inside of a string stands for.
pub fn value_of(alloc: Global, inside: &[char]) -> Result<String, OutOfMemory>
    ensures { IfOk result
        (λ text. string_bytes text ≡ encode_utf8_all (unescaped false inside.now)) }
{
    let mut text = String::with_capacity(alloc, inside.len())?;
    let mut slash = false;
    for c in inside {
        if slash {
            text.push(escape_value(*c).unwrap_or(*c))?;
            slash = false;
        } else if *c == '\\' {
            slash = true;
        } else {
            text.push(*c)?;
        }
    }
    Ok(text)
}
