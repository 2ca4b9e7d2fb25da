//! Carries out the script of each line of a table, over the files beside it, and prints what is written.
mod case;
mod counting;

use crate::around::{MOST, WIDE, failing, sink_of};
use crate::beside::read_in;
use crate::scripts::case::{Case, case_of};
use crate::scripts::counting::Counting;
use jn_base::Infer;
use jn_outside::{MemFile, MemFiles};
use jn_recheck::Session;
use jn_script::{Step, read_script};
use jn_sharing::{Straight, Workers};
use nullcheck_recheck_top::recheck;
use std::alloc::AllocError;
use std::io;
use std::thread::Threads;

/// The folder of these tables.
pub const FOLDER: &str = "scripts";

/// The steps of the script of this name; none of one that isn't there or is bad.
fn steps_of(rt: &HostRuntime, name: &str) -> io::Result<Vec<Step>> {
    if let Ok(text) = read_in(rt, FOLDER, name)
        && text.len() <= 1_048_576
        && let Ok(steps) = read_script(rt.alloc(), &text)
    {
        return Ok(steps);
    }
    Ok(Vec::new(rt.alloc()))
}

/// Holds the file of this name, where it stands beside the tables.
fn hold(rt: &HostRuntime, held: &mut Vec<MemFile>, name: &str) -> io::Result<()> {
    if let Ok(bytes) = read_in(rt, FOLDER, name) {
        let name = String::from_str(rt.alloc(), name)?;
        held.push(MemFile { name, bytes })?;
    }
    Ok(())
}

/// The scripts that the words name, and the files that they set.
fn held_files(rt: &HostRuntime, words: &[String]) -> io::Result<Vec<MemFile>> {
    let mut held = Vec::new(rt.alloc());
    for word in words {
        hold(rt, &mut held, word.as_str())?;
        for step in &steps_of(rt, word.as_str())? {
            if let Step::Set { file, .. } = step {
                hold(rt, &mut held, file.as_str())?;
            }
        }
    }
    Ok(held)
}

/// Takes the words, and prints what is written and the status.
fn run_words<R: Threads + Sync>(rt: &HostRuntime, threads: &R, case: &Case) -> io::Result<()> {
    let alloc = rt.alloc();
    let held = held_files(rt, &case.words)?;
    let mut files = MemFiles::new(alloc, held, failing(alloc, case.read)?);
    let mut sink = sink_of(alloc, failing(alloc, case.write)?, MOST, WIDE)?;
    let status = recheck(
        threads,
        &Straight,
        alloc,
        &case.words,
        &mut files,
        &mut sink,
    );
    let number = status.number();
    let wrote = String::from_utf8_lossy(alloc, sink.bytes())?;
    println!(rt; "{wrote}-- {number}")
}

/// Carries out a step by the session, and prints at a check how often one worker entered the gate of bodies whose rows are made anew, and at all but
/// the first one how often that of files and of bodies that are solved anew.
fn take_step<R: Threads + Sync>(
    rt: &HostRuntime,
    threads: &R,
    session: &mut Session,
    step: &Step,
    first: bool,
) -> io::Result<()> {
    match step {
        Step::Empty => Ok(()),
        Step::Set { name, file } => {
            let text = read_in(rt, FOLDER, file.as_str())?;
            if text.len() <= 1_048_577 && session.set(name.as_str(), &text).is_err() {
                return Err(io::Error::from(AllocError));
            }
            Ok(())
        }
        Step::Remove { name } => {
            session.remove(name.as_str());
            Ok(())
        }
        Step::Check => {
            let solving = Counting::new();
            let bodies = Counting::new();
            if session
                .report(threads, Workers::of(1), &solving, &bodies)
                .is_err()
            {
                return Err(io::Error::from(AllocError));
            }
            let taken = solving.entries();
            let anew = bodies.entries();
            if first {
                return println!(rt; "{anew} bodies anew");
            }
            println!(rt; "{taken} taken, {anew} bodies anew")
        }
    }
}

/// Carries out the scripts that the words name by one session each.
fn run_anew<R: Threads + Sync>(rt: &HostRuntime, threads: &R, case: &Case) -> io::Result<()> {
    for word in &case.words {
        let mut session = Session::new(rt.alloc(), Infer::Private);
        let mut first = true;
        for step in &steps_of(rt, word.as_str())? {
            take_step(rt, threads, &mut session, step, first)?;
            if let Step::Check = step {
                first = false;
            }
        }
    }
    Ok(())
}

/// Runs the case of a line with these threads, and prints both.
pub fn run<R: Threads + Sync>(rt: &HostRuntime, threads: &R, line: &str) -> io::Result<()> {
    let case = case_of(rt.alloc(), line)?;
    println!(rt; "== {line}")?;
    if case.anew {
        run_anew(rt, threads, &case)
    } else {
        run_words(rt, threads, &case)
    }
}
