//! What the words of `nullcheck_annotate` ask for.
ghost use Rattle.std.specs.Prelude.{◌≡◌, ◌≤◌, false, length, map, string_bytes, true, IfOk, None, Some};
ghost use Rattle.clap.specs.Words.{found_of, rows_of};
ghost use Rattle.jn_cli.specs.Annotate as spec;
ghost use Rattle.jn_cli.specs.Refused.{IfRefused};
ghost use Rattle.jn_cli.specs.Tables as tables;

use crate::command::Usage;
use crate::infer::{infer_of, is_chosen};
use crate::table::{Table, is_on, names_in, take_words, text_of};
use clap::ArgMatches;
use jn_base::{Fail, Infer, OutOfMemory, Seq, Text};
use std::alloc::Global;

static VALUES: [&str; 1] = ["infer"];

static FLAGS: [&str; 4] = ["imports", "terse", "check", "write"];

/// The greatest number of files.
const MOST_FILES: usize = 64;

/// What becomes of the annotated texts.
#[derive(Clone, Copy, Debug, PartialEq, Eq)]
pub enum Mode {
    /// What would change is shown, as a unified diff.
    Show,
    /// Nothing is shown: the status says whether anything would change.
    Check,
    /// The files are replaced.
    Write,
}

/// Which files are annotated, and how.
#[derive(Drop)]
pub struct Wanted {
    /// The members that are inferred where nothing is written; private ones where nothing is said.
    pub infer: Infer,
    /// Whether words are left out that say no more than the default does.
    pub terse: bool,
    /// Whether annotations that a file gets are imported.
    pub imports: bool,
    pub mode: Mode,
    /// 1 to 64.
    pub files: Seq<Text>,
}

/// The texts that stand after the options, where they are given.
#[derive(Drop)]
pub struct Options {
    pub infer: Option<Text>,
    pub imports: bool,
    pub terse: bool,
    pub check: bool,
    pub write: bool,
    pub files: Seq<Text>,
}

/// The options of `nullcheck_annotate`.
pub(crate) fn annotate_table() -> Table<'static>
    ensures { tables.app_with (tables.table_of result) ≡ spec.annotate_app }
{
    Table {
        program: "nullcheck_annotate",
        values: VALUES.as_slice(),
        flags: FLAGS.as_slice(),
    }
}

/// The texts that stand after the options.
fn read_options(alloc: Global, words: &[String]) -> Result<Options, Fail<Usage>>
    ensures taken { IfOk result (λ o. spec.takes_words (map string_bytes words.now) ≡ true) }
    ensures ok { IfOk result (λ o. o ≡ spec.options_of (map string_bytes words.now)) }
    ensures usage { IfRefused result (spec.takes_words (map string_bytes words.now) ≡ false) }
{
    match take_words(alloc, annotate_table(), words) {
        Err(fail) => Err(fail),
        Ok(matches) => match options_in(alloc, &matches) {
            Err(OutOfMemory) => Err(Fail::OutOfMemory),
            Ok(options) => Ok(options),
        },
    }
}

pub(crate) fn options_in(alloc: Global, matches: &ArgMatches) -> Result<Options, OutOfMemory>
    ensures { IfOk result (λ o. o ≡ spec.options_in (rows_of (found_of matches.now))) }
{
    Ok(Options {
        infer: text_of(alloc, matches, "infer")?,
        imports: is_on(matches, "imports"),
        terse: is_on(matches, "terse"),
        check: is_on(matches, "check"),
        write: is_on(matches, "write"),
        files: names_in(alloc, matches)?,
    })
}

/// Whether there are too many files.
pub(crate) fn are_many(files: &Seq<Text>) -> bool
    ensures { result ≡ spec.are_many files.now }
{
    MOST_FILES < files.len()
}

/// Whether a value is not one that its option takes, the options do not go together, or no file or too many are named.
fn are_refused(options: &Options) -> bool
    ensures { result ≡ spec.are_refused options.now }
{
    !is_chosen(&options.infer)
        || (options.check && options.write)
        || options.files.len() == 0
        || are_many(&options.files)
}

fn mode_of(check: bool, write: bool) -> Mode
    ensures { result ≡ spec.mode_of check write }
{
    if check {
        Mode::Check
    } else if write {
        Mode::Write
    } else {
        Mode::Show
    }
}

#[tactic(auto, unfolding(crate::specs::Annotate::wanted_in))]
fn wanted_from(options: Options) -> Wanted
    ensures { result ≡ spec.wanted_in options }
{
    Wanted {
        infer: infer_of(&options.infer),
        terse: options.terse,
        imports: options.imports,
        mode: mode_of(options.check, options.write),
        files: options.files,
    }
}

/// What the words after the program's name ask for. `Usage` comes exactly where they ask for nothing.
///
/// # Errors
///
/// `Usage` where they are not the words of a command; or no memory was found.
#[tactic(auto, using(crate::proofs::Asking::asks, crate::proofs::Asking::asks_none, crate::proofs::Asking::asks_nothing))]
pub fn read_wanted(alloc: Global, words: &[String]) -> Result<Wanted, Fail<Usage>>
    ensures wanted { IfOk result (λ w. spec.wanted_of (map string_bytes words.now) ≡ Some w) }
    ensures usage { IfRefused result (spec.wanted_of (map string_bytes words.now) ≡ None) }
    ensures few { IfOk result (λ w. length w.files ≤ 64) }
{
    let options = match read_options(alloc, words) {
        Err(fail) => return Err(fail),
        Ok(options) => options,
    };
    if are_refused(&options) {
        return Err(Fail::Refused(Usage));
    }
    Ok(wanted_from(options))
}
