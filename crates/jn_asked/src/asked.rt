//! What the words of the command line ask for.
ghost use Rattle.std.specs.Prelude.{◌≡◌, ◌≤◌, map, None, Some, IfOk, OnOk};
ghost use Rattle.std.specs.String.{string_bytes};
ghost use Rattle.jn_cli.specs.Refused.{IfRefused};
ghost use Rattle.jn_asked.specs.Asked.{asked_of, asked_with, linked_with};

use crate::choose::{Chosen, choose};
use jn_base::{Fail, OutOfMemory, Text};
use jn_cli::{Command, Usage, read_words};
use jn_reporters::Reporter;
use std::alloc::Global;

/// A command, and the reporter that shows the report of its files.
#[derive(Drop)]
pub struct Asked {
    pub command: Command,
    pub reporter: Chosen,
}

/// What the words ask for, with the first of these reporters that has the name.
///
/// # Errors
///
/// `Usage` where they are not the words of a command, or no reporter has the name; or no memory was found.
pub fn read_asked(
    alloc: Global,
    words: &[String],
    reporters: Vec<Box<dyn Reporter>>,
) -> Result<Asked, Fail<Usage>>
    ensures asked { IfOk result (λ a. asked_of
        (map (λ b. form b) reporters.items)
        (map string_bytes words.now)
        ≡ Some (asked_with a.command (form a.reporter.reporter))) }
    ensures usage { IfRefused result (asked_of
        (map (λ b. form b) reporters.items)
        (map string_bytes words.now)
        ≡ None) }
    ensures workers { IfOk result (λ a. (1 ≤ a.command.workers) × (a.command.workers ≤ 16)) }
    ensures classes { IfOk result (λ a. a.command.classes ≤ 500) }
{
    let command = match read_words(alloc, words) {
        Ok(command) => command,
        Err(Fail::Refused(usage)) => return Err(Fail::Refused(usage)),
        Err(Fail::OutOfMemory) => return Err(Fail::OutOfMemory),
    };
    match choose(reporters, command.report.as_str()) {
        None => Err(Fail::Refused(Usage)),
        Some(reporter) => match linked(reporter, &command.codes) {
            Err(OutOfMemory) => Err(Fail::OutOfMemory),
            Ok(reporter) => Ok(Asked { command, reporter }),
        },
    }
}

/// The reporter, which is told where codes are explained, if that is known.
fn linked(reporter: Chosen, address: &Option<Text>) -> Result<Chosen, OutOfMemory>
    ensures { IfOk result (λ told. form told.reporter
        ≡ linked_with address.now (form reporter.reporter)) }
{
    let mut told = reporter;
    link(&mut told, address)?;
    Ok(told)
}

/// Tells the reporter where codes are explained, if that is known.
fn link(reporter: &mut Chosen, address: &Option<Text>) -> Result<(), OutOfMemory>
    ensures { OnOk result
        (form reporter.new.reporter ≡ linked_with address.now (form reporter.old.reporter)) }
{
    match address {
        None => Ok(()),
        Some(address) => reporter.link(address.as_str()),
    }
}
