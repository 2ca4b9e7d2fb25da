//! Checks or writes certificates by each line of a table, over the files beside it, and prints what is written, and a certificate in hexadecimal digits.
mod case;

use crate::around::{MOST, sink_of};
use crate::beside::read_in;
use crate::certificates::case::{Case, case_of};
use jn_base::{Seq, Text};
use jn_outside::{MemFile, MemFiles, MemSink};
use jn_sharing::Straight;
use jn_targets::{MemTargets, Replaced};
use nullcheck_cert_check::{Status, check};
use nullcheck_cert_write::write_cert;
use std::io;
use std::thread::Threads;

/// The folder of these tables.
pub const FOLDER: &str = "certificates";

/// The name of a case's certificate.
const CERT: &str = "CERT";

/// The certificate, and the files that the words name.
fn held_files(rt: &HostRuntime, case: &mut Case) -> io::Result<Vec<MemFile>> {
    let mut held = Vec::new(rt.alloc());
    if let Some(bytes) = case.cert.take() {
        let name = CERT.to_string(rt.alloc())?;
        held.push(MemFile { name, bytes })?;
    }
    for word in &case.words {
        if let Ok(bytes) = read_in(rt, FOLDER, word.as_str()) {
            let name = word.clone()?;
            held.push(MemFile { name, bytes })?;
        }
    }
    Ok(held)
}

/// What stands at names before a certificate is written: the case's own certificate, where it has one.
fn there_of(rt: &HostRuntime, case: &Case) -> io::Result<Vec<Replaced>> {
    let alloc = rt.alloc();
    let mut there = Vec::new(alloc);
    if let Some(bytes) = &case.cert {
        there.push(Replaced {
            name: Text::of_str(alloc, CERT)?,
            bytes: Seq::of_vec(Vec::from_slice(alloc, bytes)?),
        })?;
    }
    Ok(there)
}

/// Prints bytes in hexadecimal digits, sixteen a line.
fn print_bytes(rt: &HostRuntime, bytes: &[u8]) -> io::Result<()> {
    for line in bytes.chunks(16) {
        for byte in line {
            print!(rt; "{byte:02x} ")?;
        }
        println!(rt)?;
    }
    Ok(())
}

/// Prints what was written: text, or the certificate of accepted files.
fn print_written(rt: &HostRuntime, status: Status, bytes: &[u8]) -> io::Result<()> {
    if status == Status::Ok {
        return print_bytes(rt, bytes);
    }
    let wrote = String::from_utf8_lossy(rt.alloc(), bytes)?;
    print!(rt; "{wrote}")
}

/// Writes a certificate over these files, and prints what is written and put in place.
fn run_write<R: Threads + Sync>(
    rt: &HostRuntime,
    threads: &R,
    case: &Case,
    there: Vec<Replaced>,
    files: &mut MemFiles,
    sink: &mut MemSink,
) -> io::Result<()> {
    let alloc = rt.alloc();
    let mut special = Vec::new(alloc);
    for name in &case.special {
        special.push(Text::of_str(alloc, name.as_str())?)?;
    }
    let mut targets = MemTargets::over(alloc, case.store as u64, special, there);
    let status = write_cert(
        threads,
        &Straight,
        alloc,
        &case.words,
        files,
        sink,
        &mut targets,
    );
    print_written(rt, status, sink.bytes())?;
    for file in targets.files() {
        let name = file.name.as_str();
        println!(rt; ">> {name}")?;
        print_bytes(rt, file.bytes.as_slice())?;
    }
    let number = status.number();
    println!(rt; "-- {number}")
}

/// Checks a certificate of these files, and prints what is written.
fn run_check<R: Threads + Sync>(
    rt: &HostRuntime,
    threads: &R,
    case: &Case,
    files: &mut MemFiles,
    sink: &mut MemSink,
) -> io::Result<()> {
    let alloc = rt.alloc();
    let status = check(threads, alloc, &case.words, files, sink).number();
    let wrote = String::from_utf8_lossy(alloc, sink.bytes())?;
    println!(rt; "{wrote}-- {status}")
}

/// Whether a certificate is to be written: `write` stands among the words.
fn has_write(words: &[String]) -> bool {
    words.iter().any(|word| word.as_str() == "write")
}

/// Runs the case of a line with these threads, and prints both.
pub fn run<R: Threads + Sync>(rt: &HostRuntime, threads: &R, line: &str) -> io::Result<()> {
    let alloc = rt.alloc();
    println!(rt; "== {line}")?;
    let mut case = case_of(rt, line)?;
    let there = there_of(rt, &case)?;
    let held = held_files(rt, &mut case)?;
    let failing = Vec::from_slice(alloc, &case.reads)?;
    let mut files = MemFiles::new(alloc, held, failing);
    let mut sink = sink_of(
        alloc,
        Vec::from_slice(alloc, &case.writes)?,
        MOST,
        case.room,
    )?;
    if has_write(&case.words) {
        run_write(rt, threads, &case, there, &mut files, &mut sink)
    } else {
        run_check(rt, threads, &case, &mut files, &mut sink)
    }
}
