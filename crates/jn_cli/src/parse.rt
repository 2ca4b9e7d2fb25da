//! The words as clap takes them.
ghost use Rattle.std.specs.Prelude.{◌≡◌, true, false, map, string_bytes, IfOk};
ghost use Rattle.clap.specs.Words.{found_of, rows_of};
ghost use Rattle.jn_cli.specs.Refused.{IfRefused};
ghost use Rattle.jn_cli.specs.Tables as tables;
ghost use Rattle.jn_cli.specs.Words as spec;

use crate::command::Usage;
use crate::options::Options;
use crate::table::{Table, is_on, names_in, take_words, text_of};
use clap::ArgMatches;
use jn_base::{Fail, OutOfMemory};
use std::alloc::Global;

static VALUES: [&str; 7] = [
    "workers", "report", "infer", "steps", "words", "gen", "codes",
];

static FLAGS: [&str; 1] = ["run"];

/// The options of `nullcheck`.
pub fn nullcheck_table() -> Table<'static>
    ensures { tables.app_with (tables.table_of result) ≡ spec.nullcheck_app }
{
    Table {
        program: "nullcheck",
        values: VALUES.as_slice(),
        flags: FLAGS.as_slice(),
    }
}

/// The texts that stand after the options.
pub fn read_options(alloc: Global, words: &[String]) -> Result<Options, Fail<Usage>>
    ensures taken { IfOk result (λ o. spec.takes_words (map string_bytes words.now) ≡ true) }
    ensures ok { IfOk result (λ o. o ≡ spec.options_of (map string_bytes words.now)) }
    ensures usage { IfRefused result (spec.takes_words (map string_bytes words.now) ≡ false) }
{
    match take_words(alloc, nullcheck_table(), words) {
        Err(fail) => Err(fail),
        Ok(matches) => match options_in(alloc, &matches) {
            Err(OutOfMemory) => Err(Fail::OutOfMemory),
            Ok(options) => Ok(options),
        },
    }
}

pub fn options_in(alloc: Global, matches: &ArgMatches) -> Result<Options, OutOfMemory>
    ensures { IfOk result (λ o. o ≡ spec.options_in (rows_of (found_of matches.now))) }
{
    Ok(Options {
        workers: text_of(alloc, matches, "workers")?,
        report: text_of(alloc, matches, "report")?,
        infer: text_of(alloc, matches, "infer")?,
        run: is_on(matches, "run"),
        steps: text_of(alloc, matches, "steps")?,
        words: text_of(alloc, matches, "words")?,
        classes: text_of(alloc, matches, "gen")?,
        codes: text_of(alloc, matches, "codes")?,
        files: names_in(alloc, matches)?,
    })
}
