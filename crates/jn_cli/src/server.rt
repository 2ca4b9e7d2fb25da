//! What the words of `nullcheck_lsp` ask of a server.
ghost use Rattle.std.specs.Prelude.{◌≡◌, None, Some, map, string_bytes, true, false, IfOk};
ghost use Rattle.clap.specs.Words.{found_of, matches_of, rows_of};
ghost use Rattle.jn_cli.specs.Refused.{IfRefused};
ghost use Rattle.jn_cli.specs.Server as spec;
ghost use Rattle.jn_cli.specs.Tables as tables;

use crate::command::Usage;
use crate::infer::{infer_of, is_chosen};
use crate::table::{Table, names_in, take_words, text_of};
use clap::ArgMatches;
use jn_base::{Fail, Infer, OutOfMemory, Seq, Text};
use std::alloc::Global;

static VALUES: [&str; 2] = ["codes", "infer"];

static FLAGS: [&str; 0] = [];

/// What is asked of a server.
#[derive(Drop)]
pub struct Setup {
    /// The members that are inferred where the client chooses none; private ones where nothing is said.
    pub infer: Infer,
    /// The address of the document of the codes, where it is given.
    pub address: Option<Text>,
}

/// The texts that stand after the options, where they are given, and the names.
#[derive(Drop)]
pub struct Options {
    pub codes: Option<Text>,
    pub infer: Option<Text>,
    pub names: Seq<Text>,
}

/// The options of `nullcheck_lsp`.
pub(crate) fn server_table() -> Table<'static>
    ensures { tables.app_with (tables.table_of result) ≡ spec.server_app }
{
    Table {
        program: "nullcheck_lsp",
        values: VALUES.as_slice(),
        flags: FLAGS.as_slice(),
    }
}

fn read_options(alloc: Global, words: &[String]) -> Result<Options, Fail<Usage>>
    ensures taken { IfOk result
        (λ o. tables.takes spec.server_app (map string_bytes words.now) ≡ true) }
    ensures ok { IfOk result
        (λ o. o ≡ spec.options_in (matches_of spec.server_app (map string_bytes words.now))) }
    ensures usage { IfRefused result
        (tables.takes spec.server_app (map string_bytes words.now) ≡ false) }
{
    match take_words(alloc, server_table(), words) {
        Err(fail) => Err(fail),
        Ok(matches) => match options_in(alloc, &matches) {
            Err(OutOfMemory) => Err(Fail::OutOfMemory),
            Ok(options) => Ok(options),
        },
    }
}

pub(crate) fn options_in(alloc: Global, matches: &ArgMatches) -> Result<Options, OutOfMemory>
    ensures { IfOk result (λ o. o ≡ spec.options_in (rows_of (found_of matches.now))) }
{
    Ok(Options {
        codes: text_of(alloc, matches, "codes")?,
        infer: text_of(alloc, matches, "infer")?,
        names: names_in(alloc, matches)?,
    })
}

/// Whether the choice of members is one, or none, and there is no name.
fn are_taken(options: &Options) -> bool
    ensures { result ≡ spec.are_taken options.now }
{
    is_chosen(&options.infer) && options.names.len() == 0
}

fn setup_in(options: Options) -> Setup
    ensures { result ≡ spec.setup_in options }
{
    Setup {
        infer: infer_of(&options.infer),
        address: options.codes,
    }
}

/// What the words after the program's name ask of a server.
///
/// # Errors
///
/// `Usage` where they are none of its words; or no memory was found.
#[tactic(auto, unfolding(crate::specs::Server::setup_of))]
pub fn read_setup(alloc: Global, words: &[String]) -> Result<Setup, Fail<Usage>>
    ensures setup { IfOk result (λ s. spec.setup_of (map string_bytes words.now) ≡ Some s) }
    ensures usage { IfRefused result (spec.setup_of (map string_bytes words.now) ≡ None) }
{
    let options = match read_options(alloc, words) {
        Err(fail) => return Err(fail),
        Ok(options) => options,
    };
    if !are_taken(&options) {
        return Err(Fail::Refused(Usage));
    }
    Ok(setup_in(options))
}
