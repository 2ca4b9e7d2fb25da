//! The words of a command, with bars between them.
use jn_base::{Fail, OutOfMemory, Seq, Text};
use jn_cli::{Command, Usage, read_words, usage_reason};
use std::alloc::{AllocError, Global};
use std::process::Abort;

fn words_of(alloc: Global, line: &str) -> Result<Vec<String>, AllocError> {
    let mut words = Vec::new(alloc);
    for word in line.split('|') {
        words.push(String::from_str(alloc, word)?)?;
    }
    Ok(words)
}

fn joined(alloc: Global, texts: &Seq<Text>) -> Result<String, AllocError> {
    let mut joined = String::new(alloc);
    for text in texts.as_slice() {
        joined.push_str("[")?;
        joined.push_str(text.as_str())?;
        joined.push_str("]")?;
    }
    Ok(joined)
}

fn shown(alloc: Global, command: &Command) -> Result<String, AllocError> {
    let report = command.report.as_str();
    let args = joined(alloc, &command.args)?;
    let files = joined(alloc, &command.files)?;
    format!(in alloc;
        "{} {report} {} {} {args} {} {files}",
        command.workers.count(),
        command.run,
        command.steps,
        command.classes
    )
}

/// The command that the words are, or `usage`.
fn answer(alloc: Global, words: &[String]) -> Result<String, AllocError> {
    match read_words(alloc, words) {
        Ok(command) => shown(alloc, &command),
        Err(Fail::Refused(Usage)) => String::from_str(alloc, "usage"),
        Err(Fail::OutOfMemory) => Err(AllocError),
    }
}

/// Why the words are no command's, or `a command`.
fn reason_of(alloc: Global, words: &[String]) -> Result<String, AllocError> {
    match read_words(alloc, words) {
        Ok(_command) => String::from_str(alloc, "a command"),
        Err(Fail::Refused(Usage)) => match usage_reason(alloc, words) {
            Ok(reason) => Ok(reason),
            Err(OutOfMemory) => Err(AllocError),
        },
        Err(Fail::OutOfMemory) => Err(AllocError),
    }
}

fn line_reason(alloc: Global, line: &str) -> Result<String, AllocError> {
    let words = words_of(alloc, line)?;
    reason_of(alloc, &words)
}

fn expect_reason(rt: &impl Abort, alloc: Global, line: &str, want: &str) {
    let found = line_reason(alloc, line);
    assert!(rt;
        matches!(&found, Ok(same) if same.as_str() == want),
        "at {line}"
    );
}

fn line_answer(alloc: Global, line: &str) -> Result<String, AllocError> {
    let words = words_of(alloc, line)?;
    answer(alloc, &words)
}

fn expect_answer(rt: &impl Abort, alloc: Global, line: &str, want: &str) {
    let found = line_answer(alloc, line);
    assert!(rt;
        matches!(&found, Ok(same) if same.as_str() == want),
        "at {line}"
    );
}

#[test]
fn takes_words(rt: HostRuntime) {
    for (line, want) in [
        ("A.java", "4 plain false 1000000  0 [A.java]"),
        ("--workers=2|A.java", "2 plain false 1000000  0 [A.java]"),
        ("A.java|--workers|16", "16 plain false 1000000  0 [A.java]"),
        ("--workers|04|A.java", "4 plain false 1000000  0 [A.java]"),
        (
            "--workers|0000000003|A.java",
            "3 plain false 1000000  0 [A.java]",
        ),
        (
            "--report|summary|A.java",
            "4 summary false 1000000  0 [A.java]",
        ),
        (
            "--report=tabbed|A.java",
            "4 tabbed false 1000000  0 [A.java]",
        ),
        ("--report|other|A.java", "4 other false 1000000  0 [A.java]"),
        ("--|-x|--run", "4 plain false 1000000  0 [-x][--run]"),
        ("-", "4 plain false 1000000  0 [-]"),
        ("", "4 plain false 1000000  0 []"),
        ("A.java|A.java", "4 plain false 1000000  0 [A.java][A.java]"),
        (
            "A.java|--run|B.java",
            "4 plain true 1000000  0 [A.java][B.java]",
        ),
        (
            "--run|--steps|1000000000|A.java",
            "4 plain true 1000000000  0 [A.java]",
        ),
        (
            "--run|--words|  a bc |A.java",
            "4 plain true 1000000 [a][bc] 0 [A.java]",
        ),
        (
            "--run|--words=-x|A.java",
            "4 plain true 1000000 [-x] 0 [A.java]",
        ),
        ("--run|--words=|A.java", "4 plain true 1000000  0 [A.java]"),
        ("--gen|500", "4 plain false 1000000  500 "),
        (
            "--gen=1|--workers|1|--report|tabbed",
            "1 tabbed false 1000000  1 ",
        ),
    ] {
        expect_answer(&rt, rt.alloc(), line, want);
    }
}

#[test]
fn refuses_words(rt: HostRuntime) {
    for (line, reason) in [
        ("--steps|5|A.java", "--steps stands without --run"),
        ("--words|x|A.java", "--words stands without --run"),
        (
            "--workers|0|A.java",
            "--workers takes a number from 1 to 16",
        ),
        (
            "--workers|17|A.java",
            "--workers takes a number from 1 to 16",
        ),
        (
            "--workers|+4|A.java",
            "--workers takes a number from 1 to 16",
        ),
        (
            "--workers|x|A.java",
            "--workers takes a number from 1 to 16",
        ),
        ("--workers=|A.java", "--workers takes a number from 1 to 16"),
        (
            "--workers|00000000004|A.java",
            "--workers takes a number from 1 to 16",
        ),
        (
            "A.java|--workers",
            "a value is required for '--workers <workers>' but none was supplied",
        ),
        (
            "--workers|1|--workers|1|A.java",
            "the argument '--workers <workers>' cannot be used multiple times",
        ),
        (
            "--report=|A.java",
            "--report takes plain, long, causes, tabbed, summary, github, checkstyle or sarif",
        ),
        ("--infer|all|A.java", "--infer takes `private` or `package`"),
        ("--run", "no file is named"),
        (
            "--run|--run|A.java",
            "the argument '--run' cannot be used multiple times",
        ),
        (
            "--run=x|A.java",
            "unexpected value 'x' for '--run' found; no more were expected",
        ),
        (
            "--run|--steps|0|A.java",
            "--steps takes a number from 1 to 1000000000",
        ),
        (
            "--run|--steps|1000000001|A.java",
            "--steps takes a number from 1 to 1000000000",
        ),
        ("--run|--words|-x|A.java", "unexpected argument '-x' found"),
        ("--work|2|A.java", "unexpected argument '--work' found"),
        ("-w|2|A.java", "unexpected argument '-w' found"),
        ("--help", "unexpected argument '--help' found"),
        ("-h", "unexpected argument '-h' found"),
        ("--version", "unexpected argument '--version' found"),
        ("--gen|0", "--gen takes a number from 1 to 500"),
        ("--gen|501", "--gen takes a number from 1 to 500"),
        ("--gen|3|A.java", "--gen stands beside a file"),
        ("--gen|3|--run", "--gen stands beside --run"),
        ("--gen|3|--words|x", "--words stands without --run"),
        ("--gen|3|--steps|5", "--steps stands without --run"),
    ] {
        expect_reason(&rt, rt.alloc(), line, reason);
    }
}

#[test]
fn refuses_no_words(rt: HostRuntime) {
    let found = reason_of(rt.alloc(), &[]);
    assert!(rt; matches!(&found, Ok(same) if same.as_str() == "no file is named"));
}
