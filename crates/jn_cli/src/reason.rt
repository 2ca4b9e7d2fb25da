//! Why the words of a program ask for nothing, told to a person.
//!
//! Each reason is one line without its end: the word that isn't taken, or what is missing, what may stand there, or what doesn't go
//! together. Of words that do ask for something it says nothing that is of use.
use crate::annotate::{self, annotate_table, are_many};
use crate::infer::is_chosen;
use crate::names::{self, names_table};
use crate::number::fits;
use crate::options::Options;
use crate::parse::{nullcheck_table, options_in};
use crate::server::{self, server_table};
use crate::table::{Table, command};
use clap::ArgMatches;
use jn_base::{OutOfMemory, Text};
use std::alloc::Global;

const INFER: &str = "--infer takes `private` or `package`";

const NO_FILE: &str = "no file is named";

/// What clap makes of words.
enum Heard<'a> {
    Taken(ArgMatches<'a>),
    /// Why it doesn't take them.
    Untaken(String),
}

/// The first line of a text, without the word in front of it.
fn first_line(text: &str) -> &str {
    let line = text.lines().next().unwrap_or("");
    line.strip_prefix("error: ").unwrap_or(line)
}

/// What clap makes of words by the options of a program.
fn hear<'a>(
    alloc: Global,
    table: Table<'a>,
    words: &'a [String],
) -> Result<Heard<'a>, OutOfMemory> {
    let command = command(alloc, table)?;
    match command.try_get_matches_from(words) {
        Ok(matches) => Ok(Heard::Taken(matches)),
        Err(error) => {
            let text = error.to_string(alloc)?;
            let line = String::from_str(alloc, first_line(text.as_str()))?;
            Ok(Heard::Untaken(line))
        }
    }
}

/// The sentence of the first value of `nullcheck` that its option doesn't take.
fn bad_value(options: &Options) -> Option<&'static str> {
    if !fits(&options.workers, 1, 16) {
        return Some("--workers takes a number from 1 to 16");
    }
    if !fits(&options.steps, 1, 1_000_000_000) {
        return Some("--steps takes a number from 1 to 1000000000");
    }
    if !fits(&options.classes, 1, 500) {
        return Some("--gen takes a number from 1 to 500");
    }
    if let Some(address) = &options.codes {
        if address.len() == 0 {
            return Some("--codes takes an address");
        }
    }
    if !is_chosen(&options.infer) {
        return Some(INFER);
    }
    None
}

/// The sentence of the first options of `nullcheck` that don't go together.
fn bad_mix(options: &Options) -> Option<&'static str> {
    let has_files = options.files.len() != 0;
    if options.classes.is_some() && has_files {
        return Some("--gen stands beside a file");
    }
    if options.classes.is_some() && options.run {
        return Some("--gen stands beside --run");
    }
    if options.steps.is_some() && !options.run {
        return Some("--steps stands without --run");
    }
    if options.words.is_some() && !options.run {
        return Some("--words stands without --run");
    }
    if options.classes.is_none() && !has_files {
        return Some(NO_FILE);
    }
    None
}

/// Why the options of `nullcheck` are no command's. Where nothing else is wrong, no reporter has the name.
fn nullcheck_sentence(options: &Options) -> &'static str {
    if let Some(text) = bad_value(options) {
        return text;
    }
    match bad_mix(options) {
        Some(text) => text,
        None => {
            "--report takes plain, long, causes, tabbed, summary, github, checkstyle or sarif"
        }
    }
}

/// Why words are no command of `nullcheck`'s.
///
/// # Errors
/// No memory was found.
pub fn usage_reason(alloc: Global, words: &[String]) -> Result<String, OutOfMemory> {
    match hear(alloc, nullcheck_table(), words)? {
        Heard::Untaken(line) => Ok(line),
        Heard::Taken(matches) => {
            let options = options_in(alloc, &matches)?;
            Ok(String::from_str(alloc, nullcheck_sentence(&options))?)
        }
    }
}

/// Why the options of `nullcheck_annotate` are no command's.
fn annotate_sentence(options: &annotate::Options) -> &'static str {
    if !is_chosen(&options.infer) {
        return INFER;
    }
    if options.check && options.write {
        return "--check stands beside --write";
    }
    if are_many(&options.files) {
        return "more than 64 files are named";
    }
    NO_FILE
}

/// Why words are no command of `nullcheck_annotate`'s.
///
/// # Errors
/// No memory was found.
pub fn annotate_reason(alloc: Global, words: &[String]) -> Result<String, OutOfMemory> {
    match hear(alloc, annotate_table(), words)? {
        Heard::Untaken(line) => Ok(line),
        Heard::Taken(matches) => {
            let options = annotate::options_in(alloc, &matches)?;
            Ok(String::from_str(alloc, annotate_sentence(&options))?)
        }
    }
}

/// Why the names of `nullcheck_cert` are no command's. Where nothing else is wrong, the certificate would take a source's place.
fn names_sentence(names: &[Text]) -> &'static str {
    match names {
        [] => "no command is named: `check` or `write`",
        [name, ..] if name.as_str() != "check" && name.as_str() != "write" => {
            "the first name is no command: it takes `check` or `write`"
        }
        [_] => "no certificate is named",
        [_, _] => NO_FILE,
        _ => "the certificate has the name of a source",
    }
}

/// Why the options and names of `nullcheck_cert` are no command's.
fn cert_sentence(options: &names::Options) -> &'static str {
    if is_chosen(&options.infer) {
        names_sentence(options.names.as_slice())
    } else {
        INFER
    }
}

/// Why words are no command of `nullcheck_cert`'s, or one to write a certificate in a source's place.
///
/// # Errors
/// No memory was found.
pub fn cert_reason(alloc: Global, words: &[String]) -> Result<String, OutOfMemory> {
    match hear(alloc, names_table("nullcheck_cert"), words)? {
        Heard::Untaken(line) => Ok(line),
        Heard::Taken(matches) => {
            let options = names::options_in(alloc, &matches)?;
            Ok(String::from_str(alloc, cert_sentence(&options))?)
        }
    }
}

/// Why the options and names of `nullcheck_recheck` ask for nothing.
fn recheck_sentence(options: &names::Options) -> &'static str {
    if !is_chosen(&options.infer) {
        return INFER;
    }
    if options.names.len() == 0 {
        "no script is named"
    } else {
        "more than one script is named"
    }
}

/// Why words ask nothing of `nullcheck_recheck`.
///
/// # Errors
/// No memory was found.
pub fn recheck_reason(alloc: Global, words: &[String]) -> Result<String, OutOfMemory> {
    match hear(alloc, names_table("nullcheck_recheck"), words)? {
        Heard::Untaken(line) => Ok(line),
        Heard::Taken(matches) => {
            let options = names::options_in(alloc, &matches)?;
            Ok(String::from_str(alloc, recheck_sentence(&options))?)
        }
    }
}

/// Why words ask nothing of a server.
///
/// # Errors
/// No memory was found.
pub fn server_reason(alloc: Global, words: &[String]) -> Result<String, OutOfMemory> {
    match hear(alloc, server_table(), words)? {
        Heard::Untaken(line) => Ok(line),
        Heard::Taken(matches) => {
            let options = server::options_in(alloc, &matches)?;
            let text = if is_chosen(&options.infer) {
                "a name stands among the options: files come from the client"
            } else {
                INFER
            };
            Ok(String::from_str(alloc, text)?)
        }
    }
}
