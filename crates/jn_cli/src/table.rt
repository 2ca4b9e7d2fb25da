//! The options of a program, the words as clap takes them, and what it finds.
ghost use Rattle.std.specs.Prelude.{◌≡◌, true, false, fold, map, string_bytes, unwrap_or, [], IfOk};
ghost use Rattle.clap.specs.Words.{all_of, app_of, first_of, found_of, is_simple_and_free, matches_of, rows_of, rule_of, with_rule};
ghost use Rattle.jn_cli.specs.Refused.{IfRefused};
ghost use Rattle.jn_cli.specs.Tables as spec;

use crate::command::Usage;
use clap::error::ErrorKind;
use clap::{Arg, ArgAction, ArgMatches, Command};
use jn_base::{Fail, Seq, Text};
use std::alloc::{AllocError, Global};

/// The options of a program, by their long names. Beside them the program takes names.
#[derive(Clone, Copy)]
pub struct Table<'a> {
    pub program: &'a str,
    /// The options that have a value.
    pub values: &'a [&'a str],
    /// The options that are on or off.
    pub flags: &'a [&'a str],
}

/// What clap finds in the words. `Usage` comes exactly where it doesn't take them.
pub fn take_words<'a>(
    alloc: Global,
    table: Table<'a>,
    words: &'a [String],
) -> Result<ArgMatches<'a>, Fail<Usage>>
    requires simple { is_simple_and_free (spec.app_with (spec.table_of table)) ≡ true }
    ensures taken { IfOk result (λ m.
        spec.takes (spec.app_with (spec.table_of table.entry)) (map string_bytes words.entry.now) ≡ true) }
    ensures ok { IfOk result (λ m. rows_of (found_of m)
        ≡ matches_of (spec.app_with (spec.table_of table.entry)) (map string_bytes words.entry.now)) }
    ensures usage { IfRefused result (
        spec.takes (spec.app_with (spec.table_of table.entry)) (map string_bytes words.entry.now) ≡ false) }
{
    let command = match command(alloc, table) {
        Err(_) => return Err(Fail::OutOfMemory),
        Ok(command) => command,
    };
    match command.try_get_matches_from(words) {
        Ok(matches) => Ok(matches),
        Err(error) => match error.kind() {
            ErrorKind::OutOfMemory => Err(Fail::OutOfMemory),
            _ => Err(Fail::Refused(Usage)),
        },
    }
}

/// The command that takes the options of a table, and names.
pub fn command<'a>(alloc: Global, table: Table<'a>) -> Result<Command<'a>, AllocError>
    ensures { IfOk result (λ c. app_of c ≡ spec.app_with (spec.table_of table.entry)) }
{
    let command = Command::new(alloc, table.program)
        .no_binary_name(true)
        .disable_help_flag(true);
    let command = with_values(alloc, command, table.values)?;
    let command = with_flags(alloc, command, table.flags)?;
    command.arg(file(alloc))
}

/// The command with options of these names, each of which has a value.
fn with_values<'a>(
    alloc: Global,
    command: Command<'a>,
    names: &'a [&'a str],
) -> Result<Command<'a>, AllocError>
    ensures { IfOk result (λ c. app_of c
        ≡ fold with_rule (app_of command.entry) (map spec.single (map (λ n. n.now) names.entry.now))) }
{
    let mut command = command;
    for name in names {
        command = command.arg(single(alloc, name))?;
    }
    Ok(command)
}

/// The command with options of these names, each of which is on or off.
fn with_flags<'a>(
    alloc: Global,
    command: Command<'a>,
    names: &'a [&'a str],
) -> Result<Command<'a>, AllocError>
    ensures { IfOk result (λ c. app_of c
        ≡ fold with_rule (app_of command.entry) (map spec.flag (map (λ n. n.now) names.entry.now))) }
{
    let mut command = command;
    for name in names {
        command = command.arg(flag(alloc, name))?;
    }
    Ok(command)
}

fn single<'a>(alloc: Global, name: &'a str) -> Arg<'a>
    ensures rule { rule_of result ≡ spec.single name.entry.now }
    ensures local { result.global ≡ false }
{
    Arg::new(alloc, name).long(name)
}

fn flag<'a>(alloc: Global, name: &'a str) -> Arg<'a>
    ensures rule { rule_of result ≡ spec.flag name.entry.now }
    ensures local { result.global ≡ false }
{
    single(alloc, name).action(ArgAction::SetTrue)
}

fn file<'a>(alloc: Global) -> Arg<'a>
    ensures rule { rule_of result ≡ spec.file_rule }
    ensures local { result.global ≡ false }
{
    Arg::new(alloc, "FILE").action(ArgAction::Append)
}

/// The value of an option, where it is given.
pub fn text_of(alloc: Global, matches: &ArgMatches, id: &str) -> Result<Option<Text>, AllocError>
    ensures { IfOk result (λ t. t ≡ first_of id.now (rows_of (found_of matches.now))) }
{
    match matches.get_str(id) {
        None => Ok(None),
        Some(text) => Ok(Some(Text::of_str(alloc, text)?)),
    }
}

/// Whether an option is on.
pub fn is_on(matches: &ArgMatches, id: &str) -> bool
    ensures { result ≡ spec.is_on (first_of id.now (rows_of (found_of matches.now))) }
{
    match matches.get_str(id) {
        None => false,
        Some(text) => text == "true",
    }
}

/// The names that are no options.
pub fn names_in(alloc: Global, matches: &ArgMatches) -> Result<Seq<Text>, AllocError>
    ensures { IfOk result (λ ts. ts ≡ spec.names_in (rows_of (found_of matches.now))) }
{
    match matches.get_strs("FILE") {
        None => Ok(Seq::new(alloc)),
        Some(texts) => copies(alloc, texts),
    }
}

fn copies(alloc: Global, texts: &[&str]) -> Result<Seq<Text>, AllocError>
    ensures { IfOk result (λ ts. ts ≡ map (λ t. t.now) texts.now) }
{
    let mut copies = Seq::new(alloc);
    for text in texts {
        copies.push(Text::of_str(alloc, text)?)?;
    }
    Ok(copies)
}
