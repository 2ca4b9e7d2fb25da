//! The words of a program that takes names, and a choice of members that are inferred.
ghost use Rattle.std.specs.Prelude.{◌≡◌, map, string_bytes, true, false, IfOk};
ghost use Rattle.clap.specs.Words.{found_of, matches_of, rows_of};
ghost use Rattle.jn_cli.specs.Names as spec;
ghost use Rattle.jn_cli.specs.Refused.{IfRefused};
ghost use Rattle.jn_cli.specs.Tables as tables;

use crate::command::Usage;
use crate::table::{Table, names_in, take_words, text_of};
use clap::ArgMatches;
use jn_base::{Fail, OutOfMemory, Seq, Text};
use std::alloc::Global;

static VALUES: [&str; 1] = ["infer"];

static FLAGS: [&str; 0] = [];

/// The choice, where one is given, and the names.
#[derive(Drop)]
pub struct Options {
    pub infer: Option<Text>,
    pub names: Seq<Text>,
}

/// The options of the program of this name.
pub fn names_table<'a>(program: &'a str) -> Table<'a>
    ensures { tables.app_with (tables.table_of result) ≡ spec.names_app program.entry.now }
{
    Table {
        program,
        values: VALUES.as_slice(),
        flags: FLAGS.as_slice(),
    }
}

/// The choice and the names in the words of the program of this name.
pub fn read_options(alloc: Global, program: &str, words: &[String]) -> Result<Options, Fail<Usage>>
    ensures taken { IfOk result
        (λ o. tables.takes (spec.names_app program.now) (map string_bytes words.now) ≡ true) }
    ensures ok { IfOk result (λ o. o
        ≡ spec.options_in (matches_of (spec.names_app program.now) (map string_bytes words.now))) }
    ensures usage { IfRefused result
        (tables.takes (spec.names_app program.now) (map string_bytes words.now) ≡ false) }
{
    match take_words(alloc, names_table(program), words) {
        Err(fail) => Err(fail),
        Ok(matches) => match options_in(alloc, &matches) {
            Err(OutOfMemory) => Err(Fail::OutOfMemory),
            Ok(options) => Ok(options),
        },
    }
}

pub fn options_in(alloc: Global, matches: &ArgMatches) -> Result<Options, OutOfMemory>
    ensures { IfOk result (λ o. o ≡ spec.options_in (rows_of (found_of matches.now))) }
{
    Ok(Options {
        infer: text_of(alloc, matches, "infer")?,
        names: names_in(alloc, matches)?,
    })
}
