//! Runs the top call of annotated sources on each line of a table, over the files beside it, and prints what it writes and what it replaces.
mod case;

use crate::annotated::case::{Case, case_of};
use crate::around::{MOST, WIDE, failing, sink_of};
use crate::beside::read_in;
use jn_base::Text;
use jn_outside::{MemFile, MemFiles, MemSink};
use jn_reporters::{Plain, Reporter};
use jn_sharing::Straight;
use jn_targets::{MemTargets, Replaced};
use nullcheck_annotate_top::annotate_files;
use nullcheck_top::nullcheck;
use std::alloc::{AllocError, Global};
use std::io;
use std::thread::Threads;

/// The folder of these tables.
pub const FOLDER: &str = "annotated";

/// The file that stands for one of this name: its name has no tab, quote or backslash.
fn path_of(alloc: Global, name: &str) -> Result<String, AllocError> {
    let path = name.replace(alloc, "\t", "")?;
    let path = path.replace(alloc, "\"", "")?;
    path.replace(alloc, "\\", "")
}

/// The names as texts.
fn texts(alloc: Global, names: &[String]) -> Result<Vec<Text>, AllocError> {
    let mut texts = Vec::new(alloc);
    for name in names {
        texts.push(Text::of_str(alloc, name.as_str())?)?;
    }
    Ok(texts)
}

/// The files that stand beside the tables under the words that name some.
fn held_files(rt: &HostRuntime, words: &[String]) -> io::Result<Vec<MemFile>> {
    let mut held = Vec::new(rt.alloc());
    for word in words {
        let path = path_of(rt.alloc(), word.as_str())?;
        if let Ok(bytes) = read_in(rt, FOLDER, path.as_str()) {
            let name = word.clone()?;
            held.push(MemFile { name, bytes })?;
        }
    }
    Ok(held)
}

/// The replaced files, before those that weren't.
fn held_behind(
    rt: &HostRuntime,
    words: &[String],
    replaced: &[Replaced],
) -> io::Result<Vec<MemFile>> {
    let alloc = rt.alloc();
    let mut held = Vec::new(alloc);
    for file in replaced {
        let name = String::from_str(alloc, file.name.as_str())?;
        let bytes = Vec::from_slice(alloc, file.bytes.as_slice())?;
        held.push(MemFile { name, bytes })?;
    }
    for file in held_files(rt, words)? {
        held.push(file)?;
    }
    Ok(held)
}

/// Prints what a sink took.
fn print_written(rt: &HostRuntime, sink: &MemSink) -> io::Result<()> {
    let wrote = String::from_utf8_lossy(rt.alloc(), sink.bytes())?;
    print!(rt; "{wrote}")
}

/// Prints the files that were replaced.
fn print_replaced(rt: &HostRuntime, files: &[Replaced]) -> io::Result<()> {
    for file in files {
        let name = file.name.as_str();
        let text = String::from_utf8_lossy(rt.alloc(), file.bytes.as_slice())?;
        println!(rt; ">> {name}")?;
        print!(rt; "{text}")?;
    }
    Ok(())
}

/// Takes the words over these files, prints what is written and replaced, and the status, and gives the targets.
fn run_over<R: Threads + Sync>(
    rt: &HostRuntime,
    threads: &R,
    case: &Case,
    words: &[String],
    held: Vec<MemFile>,
) -> io::Result<MemTargets> {
    let alloc = rt.alloc();
    let mut files = MemFiles::new(alloc, held, failing(alloc, case.read)?);
    let mut sink = sink_of(alloc, failing(alloc, case.write)?, MOST, WIDE)?;
    let special = texts(alloc, &case.special)?;
    let mut targets = MemTargets::over(alloc, case.replace.into(), special, Vec::new(alloc));
    let status = annotate_files(
        threads,
        alloc,
        words,
        &mut files,
        &mut sink,
        &mut targets,
        &Straight,
    );
    let number = status.number();
    print_written(rt, &sink)?;
    print_replaced(rt, targets.files())?;
    println!(rt; "-- {number}")?;
    Ok(targets)
}

/// Prints the report of these files.
fn print_report<R: Threads + Sync>(
    rt: &HostRuntime,
    threads: &R,
    names: &[String],
    held: Vec<MemFile>,
) -> io::Result<()> {
    let alloc = rt.alloc();
    let mut reporters: Vec<Box<dyn Reporter>> = Vec::new(alloc);
    reporters.push(Box::new(alloc, Plain::new(alloc))?)?;
    let mut files = MemFiles::new(alloc, held, Vec::new(alloc));
    let mut sink = sink_of(alloc, Vec::new(alloc), MOST, WIDE)?;
    let _status = nullcheck(
        threads, alloc, names, reporters, &mut files, &mut sink, &Straight,
    );
    print_written(rt, &sink)
}

/// Writes the files, and prints their report before and after, and what writing them once more comes to.
fn run_again<R: Threads + Sync>(rt: &HostRuntime, threads: &R, case: &Case) -> io::Result<()> {
    print_report(rt, threads, &case.files, held_files(rt, &case.files)?)?;
    let targets = run_over(rt, threads, case, &case.words, held_files(rt, &case.words)?)?;
    let held = held_behind(rt, &case.files, targets.files())?;
    print_report(rt, threads, &case.files, held)?;
    let held = held_behind(rt, &case.words, targets.files())?;
    let _targets = run_over(rt, threads, case, &case.words, held)?;
    Ok(())
}

/// Runs the case of a line with these threads, and prints both.
pub fn run<R: Threads + Sync>(rt: &HostRuntime, threads: &R, line: &str) -> io::Result<()> {
    let case = case_of(rt.alloc(), line)?;
    println!(rt; "== {line}")?;
    if case.again {
        return run_again(rt, threads, &case);
    }
    let held = held_files(rt, &case.words)?;
    let _targets = run_over(rt, threads, &case, &case.words, held)?;
    Ok(())
}
