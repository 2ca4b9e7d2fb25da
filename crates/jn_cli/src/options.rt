//! The texts after the options, and which of them are refused.
ghost use Rattle.std.specs.Prelude.{◌≡◌};
ghost use Rattle.jn_cli.specs.Words as spec;

use crate::infer::is_chosen;
use crate::number::fits;
use jn_base::{Seq, Text};

/// The texts that stand after the options, where they are given.
#[derive(Drop)]
pub struct Options {
    pub workers: Option<Text>,
    pub report: Option<Text>,
    pub infer: Option<Text>,
    pub run: bool,
    pub steps: Option<Text>,
    pub words: Option<Text>,
    pub classes: Option<Text>,
    pub codes: Option<Text>,
    pub files: Seq<Text>,
}

/// Whether a reporter may have the name; the command's reporters tell whether one has it.
fn is_report(name: &str) -> bool
    ensures { result ≡ spec.is_report name.now }
{
    name.len() != 0
}

/// Whether codes may be explained at the address.
fn is_address(address: &str) -> bool
    ensures { result ≡ spec.is_address address.now }
{
    address.len() != 0
}

fn has_bad_value(options: &Options) -> bool
    ensures { result ≡ spec.has_bad_value options.now }
{
    let is_named = match &options.report {
        None => true,
        Some(name) => is_report(name.as_str()),
    };
    let is_addressed = match &options.codes {
        None => true,
        Some(address) => is_address(address.as_str()),
    };
    !fits(&options.workers, 1, 16)
        || !fits(&options.steps, 1, 1_000_000_000)
        || !fits(&options.classes, 1, 500)
        || !is_named
        || !is_chosen(&options.infer)
        || !is_addressed
}

fn is_bad_mix(options: &Options) -> bool
    ensures { result ≡ spec.is_bad_mix options.now }
{
    let has_files = options.files.len() != 0;
    let has_classes = options.classes.is_some();
    (!has_files && !has_classes)
        || (has_classes && (has_files || options.run))
        || ((options.steps.is_some() || options.words.is_some()) && !options.run)
}

/// Whether a value is not one that its option takes, or the options do not go together.
pub fn are_refused(options: &Options) -> bool
    ensures { result ≡ spec.are_refused options.now }
{
    has_bad_value(options) || is_bad_mix(options)
}
