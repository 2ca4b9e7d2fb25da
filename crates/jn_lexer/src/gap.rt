//! White space and comments.
ghost use Rattle.std.specs.Prelude.{◌≡◌, ◌≤◌, ◌<◌, ◌^◌, false, ◌∷◌, length, drop, IfSome, MatchResult};
ghost use Rattle.std.specs.List.{prefix_len};
ghost use Rattle.jn_lexer.specs.Characters.{is_in_line};
ghost use Rattle.jn_lexer.specs.Scan.{block_len, begins_blank};
ghost use Rattle.jn_lexer.specs.Faults.{IsOpenComment};
ghost use Rattle.jn_lexer.specs.Found.{IsGapOf, IsStep, closed};

use crate::characters::{is_in_line, is_white};
use crate::shape::Step;

/// How far the line goes.
fn line_len(text: &[char]) -> usize
    ensures value { result ≡ prefix_len is_in_line text.now }
    ensures within { result ≤ length text.now }
{
    for (i, c) in text.iter().enumerate() {
        if !is_in_line(*c) {
            return i;
        }
    }
    text.len()
}

/// The length up to and with the next `*/`.
fn block_len(text: &[char]) -> Option<usize>
    ensures value { result ≡ block_len false text.now }
    ensures within { IfSome result (λ n. n ≤ length text.now) }
{
    let mut star = false;
    for (i, c) in text.iter().enumerate() {
        if star && *c == '/' {
            return Some(i + 1);
        }
        star = *c == '*';
    }
    None
}

/// What stands at the front, after a `/`.
fn comment_at(text: &[char]) -> Step
    requires { length text.now < 2 ^ 32 }
    ensures { IsStep (47 ∷ text.now) result }
{
    match text {
        [] => Step::Ends,
        [second, inside @ ..] => {
            if *second == '/' {
                Step::Of(2 + line_len(inside))
            } else if *second == '*' {
                closed(block_len(inside))
            } else {
                Step::Ends
            }
        }
    }
}

/// A comment `/* .. */` with the length of what stands after its `/*`.
fn closed(count: Option<usize>) -> Step
    requires { IfSome count (λ n. n < 2 ^ 32) }
    ensures { result ≡ closed count }
{
    match count {
        Some(count) => Step::Of(2 + count),
        None => Step::Opens,
    }
}

/// What stands at the front.
fn blank_at(text: &[char]) -> Step
    requires { length text.now < 2 ^ 32 }
    ensures { IsStep text.now result }
{
    match text {
        [] => Step::Ends,
        [first, rest @ ..] => {
            if is_white(*first) {
                Step::Of(1)
            } else if *first == '/' {
                comment_at(rest)
            } else {
                Step::Ends
            }
        }
    }
}

/// How many characters of white space and comments stand at the front. Where a comment isn't closed, the error says after how many characters it begins.
pub fn gap_len(text: &[char]) -> Result<usize, usize>
    requires { length text.now < 2 ^ 32 }
    ensures gap { MatchResult result (λ n. IsGapOf text.now n) (λ n. IsGapOf text.now n) }
    ensures within { MatchResult result (λ n. n ≤ length text.now) (λ n. n < length text.now) }
    ensures ends { MatchResult result (λ n. begins_blank (drop n text.now) ≡ false)
        (λ n. IsOpenComment (drop n text.now)) }
{
    let mut done = 0;
    loop {
        match blank_at(&text[done..]) {
            Step::Of(count) => done += count,
            Step::Ends => return Ok(done),
            Step::Opens => return Err(done),
        }
    }
}
