//! Numbers.
ghost use Rattle.std.specs.Prelude.{◌≡◌, ◌+◌, ◌-◌, ◌*◌, ◌≤◌, ◌&&◌, not, nat_eq, if◌then◌else◌, ℕ, length, MatchOption};
ghost use Rattle.std.specs.List.{list_all};
ghost use Rattle.jn_lexer.specs.Characters.{is_digit, is_digit_or_low};
ghost use Rattle.jn_lexer.specs.Lexemes.{is_decimal, is_zero, is_long, ends_in_digit, IsNumeral};

use crate::characters::{is_digit, is_digit_or_low};

/// The greatest number that may be written, after a minus.
const LIMIT: u64 = 2147483648;

fn is_zero(word: &[char]) -> bool
    ensures { result ≡ is_zero word.now }
{
    match word {
        [] => false,
        [first, rest @ ..] => (*first == '0') & (rest.len() == 0),
    }
}

fn ends_in_digit(word: &[char]) -> bool
    requires { 1 ≤ length word.now }
    ensures { result ≡ ends_in_digit word.now }
{
    is_digit(word[word.len() - 1])
}

fn are_digits(word: &[char]) -> bool
    ensures { result ≡ list_all is_digit_or_low word.now }
{
    word.iter().all(|c| is_digit_or_low(*c))
}

fn is_first_digit(c: char) -> bool
    ensures { result ≡ (is_digit c && not (nat_eq c 48)) }
{
    is_digit(c) & (c != '0')
}

/// Whether the word is 1 to 9 and then digits and underscores, the last a digit.
fn is_long(word: &[char]) -> bool
    ensures { result ≡ is_long word.now }
{
    match word {
        [] => false,
        [first, rest @ ..] => is_first_digit(*first) & are_digits(rest) & ends_in_digit(word),
    }
}

/// The value with one digit more, or the same where the character is an underscore.
fn with_digit(value: u64, c: char) -> u64
    requires { value ≤ 2147483648 }
    ensures { result ≡ (if is_digit c then value * 10 + (c - 48) else value) }
{
    if is_digit(c) {
        value * 10 + (c as u64 - '0' as u64)
    } else {
        value
    }
}

/// The value of the word, if it is a number that may be written.
pub fn number_value(word: &[char]) -> Option<u32>
    ensures { MatchOption result ((value : ℕ) → IsNumeral word.now value → ⊥)
        (λ value. IsNumeral word.now value) }
{
    if !is_decimal(word) {
        return None;
    }
    let mut value: u64 = 0;
    for c in word {
        value = with_digit(value, *c);
        if value > LIMIT {
            return None;
        }
    }
    Some(value as u32)
}

/// Whether the word is written as numbers are.
#[tactic(auto, unfolding(crate::specs::Lexemes::is_decimal))]
fn is_decimal(word: &[char]) -> bool
    ensures { result ≡ is_decimal word.now }
{
    is_zero(word) || is_long(word)
}
