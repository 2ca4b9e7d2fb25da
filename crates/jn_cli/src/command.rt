//! The command that the words give.
ghost use Rattle.std.specs.Prelude.{◌≡◌, ◌≤◌, ◌<◌, ◌^◌, ◌==◌, IfOk, false, true, map, not, string_bytes, unwrap_or};
ghost use Rattle.std.specs.List.{filter, slice_split};
ghost use Rattle.jn_cli.specs.Refused.{IfRefused};
ghost use Rattle.jn_cli.specs.Words as spec;

use crate::infer::infer_of;
use crate::number::number_or;
use crate::options::{Options, are_refused};
use crate::parse::read_options;
use jn_base::{Fail, Infer, OutOfMemory, Seq, Text};
use jn_sharing::Workers;
use std::alloc::{AllocError, Global};

/// What the program is to do.
#[derive(Drop)]
pub struct Command {
    pub workers: Workers,
    /// The name of the reporter that shows the report, not empty; `plain` where none is given.
    pub report: Text,
    /// The members that are inferred where nothing is written; private ones where nothing is said.
    pub infer: Infer,
    pub run: bool,
    /// 1 to 1,000,000,000.
    pub steps: u64,
    /// The arguments of `main`.
    pub args: Seq<Text>,
    /// 1 to 500, or 0 where no program is to be made.
    pub classes: u32,
    /// Where codes are explained, not empty, for a reporter that shows links.
    pub codes: Option<Text>,
    pub files: Seq<Text>,
}

/// The words have no meaning.
#[derive(Clone, Copy, Debug, PartialEq, Eq)]
pub struct Usage;

/// The command that the words after the program's name give. `Usage` comes exactly where `is_usage` says so.
pub fn read_words(alloc: Global, words: &[String]) -> Result<Command, Fail<Usage>>
    ensures taken { IfOk result (λ c. spec.is_usage (map string_bytes words.now) ≡ false) }
    ensures ok { IfOk result
        (λ c. c ≡ spec.command_of (spec.options_of (map string_bytes words.now))) }
    ensures usage { IfRefused result (spec.is_usage (map string_bytes words.now) ≡ true) }
    // The numbers are those that their options take, or the defaults.
    ensures workers { IfOk result (λ c. (1 ≤ c.workers) × (c.workers ≤ 16)) }
    ensures steps { IfOk result (λ c. (1 ≤ c.steps) × (c.steps ≤ 1000000000)) }
    ensures classes { IfOk result (λ c. c.classes ≤ 500) }
{
    let options = match read_options(alloc, words) {
        Err(fail) => return Err(fail),
        Ok(options) => options,
    };
    if are_refused(&options) {
        return Err(Fail::Refused(Usage));
    }
    match command_from(alloc, options) {
        Err(OutOfMemory) => Err(Fail::OutOfMemory),
        Ok(command) => Ok(command),
    }
}

#[tactic(auto, unfolding(crate::specs::Words::command_of))]
fn command_from(alloc: Global, options: Options) -> Result<Command, OutOfMemory>
    requires workers { (1 ≤ spec.number_or 4 options.workers)
        × (spec.number_or 4 options.workers ≤ 16) }
    requires classes { spec.number_or 0 options.classes < 2 ^ 32 }
    ensures { IfOk result (λ c. c ≡ spec.command_of options) }
{
    let report = text_or(alloc, &options.report, "plain")?;
    let words = text_or(alloc, &options.words, "")?;
    Ok(Command {
        workers: Workers::of(number_or(&options.workers, 4) as u32),
        report,
        infer: infer_of(&options.infer),
        run: options.run,
        steps: number_or(&options.steps, 1_000_000),
        args: pieces(alloc, words.as_str())?,
        classes: number_or(&options.classes, 0) as u32,
        codes: options.codes,
        files: options.files,
    })
}

fn text_or(alloc: Global, text: &Option<Text>, default: &str) -> Result<Text, AllocError>
    ensures { IfOk result (λ t. t ≡ unwrap_or text.now default.now) }
{
    match text {
        None => Text::of_str(alloc, default),
        Some(text) => text.copy(alloc),
    }
}

fn pieces(alloc: Global, text: &str) -> Result<Seq<Text>, AllocError>
    ensures { IfOk result (λ ts. ts ≡ spec.pieces_of text.now) }
{
    let pieces = split(alloc, text)?;
    kept(alloc, &pieces)
}

fn split<'a>(alloc: Global, text: &'a str) -> Result<Vec<&'a str>, AllocError>
    ensures { IfOk result
        (λ v. map (λ x. x.now) v.items ≡ slice_split (λ byte. byte == 32) text.entry.now) }
{
    text.split(' ').collect(alloc)
}

fn kept(alloc: Global, pieces: &[&str]) -> Result<Seq<Text>, AllocError>
    ensures { IfOk result
        (λ ts. ts ≡ filter (λ piece. not (spec.is_empty piece)) (map (λ x. x.now) pieces.now)) }
{
    let mut kept = Seq::new(alloc);
    for piece in pieces {
        if piece.len() != 0 {
            kept.push(Text::of_str(alloc, piece)?)?;
        }
    }
    Ok(kept)
}
