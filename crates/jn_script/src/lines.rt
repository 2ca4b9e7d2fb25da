//! Lines as steps.
ghost use Rattle.std.specs.Prelude.{◌≡◌, ◌∷◌, [], ℕ, List, bytes_eq, IfOk, MatchOption};
ghost use Rattle.jn_script.specs.Cut.{IsFirstCut};
ghost use Rattle.jn_script.specs.Script.{IsName, pieces};
ghost use Rattle.jn_script.specs.Telling.{AreWordsIn, IsStepOr, IsToldOf};

use crate::step::Step;
use jn_base::Text;
use std::alloc::{AllocError, Global};

/// The place of the first separator.
#[tactic(auto, using(crate::proofs::Cutting::cut_here, crate::proofs::Cutting::cut_later, crate::proofs::Cutting::cut_nowhere))]
pub(crate) fn first_of(separator: u8, text: &[u8]) -> Option<usize>
    ensures { IsFirstCut separator text.now result }
{
    for at in 0..text.len() {
        if text[at] == separator {
            return Some(at);
        }
    }
    None
}

/// The words of a line, with one space between two.
#[derive(Clone, Copy)]
pub(crate) enum Words<'a> {
    One(&'a [u8]),
    Two(&'a [u8], &'a [u8]),
    Three(&'a [u8], &'a [u8], &'a [u8]),
    More,
}

/// The words of what stands after two words.
fn third<'a>(one: &'a [u8], two: &'a [u8], rest: &'a [u8]) -> Words<'a>
    ensures { (line : List ℕ)
        → pieces 32 line ≡ one.entry.now ∷ two.entry.now ∷ pieces 32 rest.entry.now
        → AreWordsIn line result }
{
    match first_of(b' ', rest) {
        None => Words::Three(one, two, rest),
        Some(_) => Words::More,
    }
}

/// The words of what stands after one word.
fn second<'a>(one: &'a [u8], rest: &'a [u8]) -> Words<'a>
    ensures { (line : List ℕ) → pieces 32 line ≡ one.entry.now ∷ pieces 32 rest.entry.now
        → AreWordsIn line result }
{
    match first_of(b' ', rest) {
        None => Words::Two(one, rest),
        Some(at) => third(one, &rest[..at], &rest[at + 1..]),
    }
}

/// The words of a line.
fn words_in<'a>(line: &'a [u8]) -> Words<'a>
    ensures { AreWordsIn line.entry.now result }
{
    match first_of(b' ', line) {
        None => Words::One(line),
        Some(at) => second(&line[..at], &line[at + 1..]),
    }
}

/// The name that the word is.
fn name_in(word: &[u8]) -> Option<&str>
    ensures { MatchOption result (IsName word.now → ⊥)
        (λ name. IsName word.now × (name.now ≡ word.now)) }
{
    if word.is_empty() {
        return None;
    }
    str::from_utf8(word).ok()
}

/// Whether the word is this one.
fn is_word(word: &[u8], text: &str) -> bool
    ensures { result ≡ bytes_eq word.now text.now }
{
    word == text.as_bytes()
}

/// The step of one word.
#[tactic(auto, using(crate::proofs::Telling::told_empty, crate::proofs::Telling::told_check, crate::proofs::Telling::told_no_word))]
fn single(word: &[u8]) -> Option<Step>
    ensures { IsToldOf (word.now ∷ []) result }
{
    if word.is_empty() {
        Some(Step::Empty)
    } else if is_word(word, "check") {
        Some(Step::Check)
    } else {
        None
    }
}

/// The step of two words.
#[tactic(auto, using(crate::proofs::Telling::told_removal, crate::proofs::Telling::told_no_removal, crate::proofs::Telling::told_no_removed))]
fn removal(alloc: Global, word: &[u8], name: &[u8]) -> Result<Option<Step>, AllocError>
    ensures { IfOk result (IsToldOf (word.now ∷ name.now ∷ [])) }
{
    if !is_word(word, "drop") {
        return Ok(None);
    }
    match name_in(name) {
        None => Ok(None),
        Some(name) => Ok(Some(Step::Remove {
            name: Text::of_str(alloc, name)?,
        })),
    }
}

/// The step of three words.
#[tactic(auto, using(crate::proofs::Telling::told_setting, crate::proofs::Telling::told_no_setting, crate::proofs::Telling::told_no_set, crate::proofs::Telling::told_no_file))]
fn setting(alloc: Global, word: &[u8], name: &[u8], file: &[u8]) -> Result<Option<Step>, AllocError>
    ensures { IfOk result (IsToldOf (word.now ∷ name.now ∷ file.now ∷ [])) }
{
    if !is_word(word, "set") {
        return Ok(None);
    }
    match name_in(name) {
        None => Ok(None),
        Some(name) => match name_in(file) {
            None => Ok(None),
            Some(file) => Ok(Some(Step::Set {
                name: Text::of_str(alloc, name)?,
                file: Text::of_str(alloc, file)?,
            })),
        },
    }
}

/// The step that the line is; none where it is none.
pub(crate) fn step_of(alloc: Global, line: &[u8]) -> Result<Option<Step>, AllocError>
    ensures { IfOk result (IsStepOr line.now) }
{
    match words_in(line) {
        Words::One(word) => Ok(single(word)),
        Words::Two(word, name) => removal(alloc, word, name),
        Words::Three(word, name, file) => setting(alloc, word, name, file),
        Words::More => Ok(None),
    }
}
