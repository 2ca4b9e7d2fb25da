//! Scripts as steps.
ghost use Rattle.std.specs.Prelude.{◌≡◌, ◌≤◌, ◌<◌, ◌++◌, ◌∷◌, [], cond, true, false, IfOk, IfErr, OnOk, MatchOption, length};
ghost use Rattle.std.specs.List.{remove};
ghost use Rattle.jn_script.specs.Script.{IsFirstBad, IsScript, has, lines, without};
ghost use Rattle.jn_script.specs.Telling.{IfRefused, Takes, TakesLine};

use crate::lines::{first_of, step_of};
use crate::step::Step;
use jn_base::lists::put;
use jn_base::{Fail, Text};
use std::alloc::{AllocError, Global};

/// Where the name stands among names.
#[tactic(auto, using(crate::proofs::Standing::found_here, crate::proofs::Standing::found_later, crate::proofs::Standing::found_nowhere))]
fn place_of(names: &[Text], name: &str) -> Option<usize>
    ensures { MatchOption result
        ((has name.now names.now ≡ false) × (without name.now names.now ≡ names.now))
        (λ at. (at < length names.now) × (has name.now names.now ≡ true)
        × (without name.now names.now ≡ remove names.now at)) }
{
    for at in 0..names.len() {
        if names[at].as_str() == name {
            return Some(at);
        }
    }
    None
}

/// Puts a name after the others, unless it stands there.
fn add_name(alloc: Global, names: &mut Vec<Text>, name: &str) -> Result<(), AllocError>
    ensures { OnOk result (names.new.items
        ≡ cond (has name.now names.old.items) names.old.items (names.old.items ++ name.now ∷ [])) }
{
    match place_of(names, name) {
        Some(_) => Ok(()),
        None => put(names, Text::of_str(alloc, name)?),
    }
}

/// Takes a name out; says whether it stood there.
fn remove_name(names: &mut Vec<Text>, name: &str) -> bool
    ensures names { names.new.items ≡ without name.now names.old.items }
    ensures there { result ≡ has name.now names.old.items }
{
    match place_of(names, name) {
        None => false,
        Some(at) => {
            names.remove(at);
            true
        }
    }
}

/// Whether the step can be taken where these names stand; the names go to those after it.
#[tactic(auto, using(crate::proofs::Standing::removed))]
fn take(alloc: Global, names: &mut Vec<Text>, step: &Step) -> Result<bool, AllocError>
    ensures { IfOk result (λ can. Takes names.old.items step.now can names.new.items) }
{
    match step {
        Step::Set { name, .. } => {
            add_name(alloc, names, name.as_str())?;
            Ok(true)
        }
        Step::Remove { name } => Ok(remove_name(names, name.as_str())),
        Step::Empty => Ok(true),
        Step::Check => Ok(true),
    }
}

/// Puts the line's step after the others; false where it is none that can be taken.
fn take_line(
    alloc: Global,
    names: &mut Vec<Text>,
    steps: &mut Vec<Step>,
    line: &[u8],
) -> Result<bool, AllocError>
    ensures { IfOk result (λ can. TakesLine names.old.items steps.old.items line.now can
        names.new.items steps.new.items) }
{
    match step_of(alloc, line)? {
        None => Ok(false),
        Some(step) => {
            if take(alloc, names, &step)? {
                put(steps, step)?;
                Ok(true)
            } else {
                drop(step);
                Ok(false)
            }
        }
    }
}

/// The first line of a text, and what stands after it.
#[tactic(auto, using(crate::proofs::Cutting::lines_last, crate::proofs::Cutting::lines_more, crate::proofs::Cutting::gone_all))]
fn line_in<'a>(text: &'a [u8]) -> (&'a [u8], &'a [u8])
    requires { 0 < length text.now }
    ensures lines { lines text.entry.now ≡ result.0.now ∷ lines result.1.now }
    ensures less { length result.1.now < length text.entry.now }
{
    match first_of(b'\n', text) {
        None => (text, &text[text.len()..]),
        Some(at) => (&text[..at], &text[at + 1..]),
    }
}

/// The steps of a script, or the number, from 1, of the first line that is no step which can be taken.
///
/// # Errors
/// That line's number; or no memory was found.
pub fn read_script(alloc: Global, script: &[u8]) -> Result<Vec<Step>, Fail<u32>>
    requires { length script.now ≤ 1048576 }
    ensures steps { IfOk result (λ steps. IsScript script.now steps.items) }
    ensures bad { IfErr result (λ fail. IfRefused fail (IsFirstBad script.now)) }
{
    let mut names = Vec::new(alloc);
    let mut steps = Vec::new(alloc);
    let mut line = 1;
    let mut rest = script;
    while rest.len() > 0 {
        let (text, behind) = line_in(rest);
        match take_line(alloc, &mut names, &mut steps, text) {
            Ok(true) => {}
            Ok(false) => return Err(Fail::Refused(line)),
            Err(_) => return Err(Fail::OutOfMemory),
        }
        rest = behind;
        line += 1;
    }
    Ok(steps)
}
