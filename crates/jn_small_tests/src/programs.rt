//! The words of the programs beside `nullcheck`, with bars between them: what they ask for, or why they ask for nothing.
use jn_base::{Fail, Infer, OutOfMemory, Text};
use jn_cli::{
    Mode, annotate_reason, cert_reason, read_cert, read_recheck, read_setup, read_wanted,
    recheck_reason, server_reason,
};
use std::alloc::{AllocError, Global};
use std::process::Abort;

fn words_of(alloc: Global, line: &str) -> Result<Vec<String>, AllocError> {
    let mut words = Vec::new(alloc);
    for word in line.split('|') {
        words.push(String::from_str(alloc, word)?)?;
    }
    Ok(words)
}

fn infer_name(infer: Infer) -> &'static str {
    match infer {
        Infer::Private => "private",
        Infer::Package => "package",
    }
}

fn mode_name(mode: Mode) -> &'static str {
    match mode {
        Mode::Show => "show",
        Mode::Check => "check",
        Mode::Write => "write",
    }
}

/// Why words ask for nothing, or that no memory was found.
fn reason(text: Result<String, OutOfMemory>) -> Result<String, AllocError> {
    match text {
        Ok(text) => Ok(text),
        Err(OutOfMemory) => Err(AllocError),
    }
}

fn annotate_answer(alloc: Global, words: &[String]) -> Result<String, AllocError> {
    match read_wanted(alloc, words) {
        Ok(wanted) => {
            let infer = infer_name(wanted.infer);
            let mode = mode_name(wanted.mode);
            let (imports, terse) = (wanted.imports, wanted.terse);
            format!(in alloc; "{infer} {imports} {terse} {mode} {}", wanted.files.len())
        }
        Err(Fail::Refused(_)) => reason(annotate_reason(alloc, words)),
        Err(Fail::OutOfMemory) => Err(AllocError),
    }
}

fn cert_answer(alloc: Global, words: &[String]) -> Result<String, AllocError> {
    match read_cert(alloc, "check", words) {
        Ok(command) => {
            let infer = infer_name(command.infer);
            let cert = command.cert.as_str();
            format!(in alloc; "{infer} {cert} {}", command.files.len())
        }
        Err(Fail::Refused(_)) => reason(cert_reason(alloc, words)),
        Err(Fail::OutOfMemory) => Err(AllocError),
    }
}

fn recheck_answer(alloc: Global, words: &[String]) -> Result<String, AllocError> {
    match read_recheck(alloc, words) {
        Ok(asked) => {
            let infer = infer_name(asked.infer);
            let script = asked.script.as_str();
            format!(in alloc; "{infer} {script}")
        }
        Err(Fail::Refused(_)) => reason(recheck_reason(alloc, words)),
        Err(Fail::OutOfMemory) => Err(AllocError),
    }
}

fn address_of(address: &Option<Text>) -> &str {
    match address {
        None => "none",
        Some(address) => address.as_str(),
    }
}

fn server_answer(alloc: Global, words: &[String]) -> Result<String, AllocError> {
    match read_setup(alloc, words) {
        Ok(setup) => {
            let infer = infer_name(setup.infer);
            let address = address_of(&setup.address);
            format!(in alloc; "{infer} {address}")
        }
        Err(Fail::Refused(_)) => reason(server_reason(alloc, words)),
        Err(Fail::OutOfMemory) => Err(AllocError),
    }
}

/// The program whose words a line has.
#[derive(Clone, Copy)]
enum Program {
    Annotate,
    Cert,
    Recheck,
    Server,
}

fn answer(alloc: Global, program: Program, line: &str) -> Result<String, AllocError> {
    let words = words_of(alloc, line)?;
    match program {
        Program::Annotate => annotate_answer(alloc, &words),
        Program::Cert => cert_answer(alloc, &words),
        Program::Recheck => recheck_answer(alloc, &words),
        Program::Server => server_answer(alloc, &words),
    }
}

fn expect(rt: &impl Abort, alloc: Global, program: Program, line: &str, want: &str) {
    let found = answer(alloc, program, line);
    assert!(rt;
        matches!(&found, Ok(same) if same.as_str() == want),
        "at {line}"
    );
}

#[test]
fn annotates(rt: HostRuntime) {
    for (line, want) in [
        ("A.java", "private false false show 1"),
        (
            "A.java|--infer=package|--write|B.java",
            "package false false write 2",
        ),
        (
            "--imports|--check|--|A.java|--write",
            "private true false check 2",
        ),
        ("--terse|A.java", "private false true show 1"),
        ("--check|--write|A.java", "--check stands beside --write"),
        ("--imports", "no file is named"),
        ("A.java|--infer|all", "--infer takes `private` or `package`"),
        (
            "--check=1|A.java",
            "unexpected value '1' for '--check' found; no more were expected",
        ),
    ] {
        expect(&rt, rt.alloc(), Program::Annotate, line, want);
    }
}

#[test]
fn certifies(rt: HostRuntime) {
    for (line, want) in [
        ("check|C|A.java|B.java", "private C 2"),
        ("check|--infer|package|C|A.java", "package C 1"),
        ("check|C|A.java|--infer=package", "package C 1"),
        ("--infer=private|check|-|A.java", "private - 1"),
        ("check|--|-C|--infer", "private -C 1"),
        ("--infer=package", "no command is named: `check` or `write`"),
        (
            "C|check|A.java",
            "the first name is no command: it takes `check` or `write`",
        ),
        ("check", "no certificate is named"),
        ("check|C", "no file is named"),
        (
            "check|C|--infer=|A.java",
            "--infer takes `private` or `package`",
        ),
        ("check|C|-A.java", "unexpected argument '-A' found"),
        (
            "check|--infer|private|--infer=package|C|A.java",
            "the argument '--infer <infer>' cannot be used multiple times",
        ),
        (
            "write|A.java|A.java",
            "the certificate has the name of a source",
        ),
    ] {
        expect(&rt, rt.alloc(), Program::Cert, line, want);
    }
}

#[test]
fn rechecks(rt: HostRuntime) {
    for (line, want) in [
        ("script", "private script"),
        ("script|--infer|package", "package script"),
        ("--infer=package|--|--script", "package --script"),
        ("--infer=package", "no script is named"),
        ("one|other", "more than one script is named"),
        ("--infer=all|script", "--infer takes `private` or `package`"),
        ("--script", "unexpected argument '--script' found"),
    ] {
        expect(&rt, rt.alloc(), Program::Recheck, line, want);
    }
}

#[test]
fn serves(rt: HostRuntime) {
    for (line, want) in [
        ("--infer=private", "private none"),
        ("--codes|file:///codes", "private file:///codes"),
        ("--codes=|--infer|package", "package "),
        ("--infer=package|--codes=codes", "package codes"),
        ("--infer|all", "--infer takes `private` or `package`"),
        (
            "--codes",
            "a value is required for '--codes <codes>' but none was supplied",
        ),
        (
            "A.java",
            "a name stands among the options: files come from the client",
        ),
    ] {
        expect(&rt, rt.alloc(), Program::Server, line, want);
    }
}
