//! Tables of the other programs. The folder of a table says what its lines are: certificates that are checked or written, files that are annotated,
//! scripts of rechecks, or recorded sessions of a language server.
use crate::{annotated, certificates, scripts, sessions};
use std::io;
use std::thread::Threads;

/// Runs a line of a table in the folder with these threads, and prints both.
fn run<R: Threads + Sync>(
    rt: &HostRuntime,
    threads: &R,
    folder: &str,
    line: &str,
) -> io::Result<()> {
    match folder {
        "certificates" => certificates::run(rt, threads, line),
        "annotated" => annotated::run(rt, threads, line),
        "scripts" => scripts::run(rt, threads, line),
        "sessions" => sessions::run(rt, threads, line),
        _ => println!(rt; "-- no table stands in {folder}"),
    }
}

/// Runs each line of a table in the folder.
pub fn run_lines<R: Threads + Sync>(
    rt: &HostRuntime,
    threads: &R,
    folder: &str,
    text: &str,
) -> io::Result<()> {
    for line in text.lines() {
        run(rt, threads, folder, line)?;
    }
    Ok(())
}
