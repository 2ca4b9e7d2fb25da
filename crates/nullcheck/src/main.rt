//! Checks the files that the words name, or runs their main: says on standard error what went wrong, and ends with the status's number.
#![tactic(auto)]

use jn_causes::Causes;
use jn_cli::usage_reason;
use jn_host::Host;
use jn_outside::{HostFiles, HostSink};
use jn_report_formats::{Checkstyle, Github, Sarif};
use jn_reporters::{Long, Plain, Reporter, Summary, Tabbed};
use jn_sharing::Straight;
use nullcheck_top::{Status, nullcheck};
use std::alloc::AllocError;
use std::process::ExitCode;
use std::thread::Threads;

/// Does what the words ask for, and says what went wrong. The reporters are made here, of which a command takes one by its name.
fn done<R: Threads + Sync>(
    threads: &R,
    host: &Host<HostRuntime>,
    words: &[String],
) -> Result<Status, AllocError> {
    let rt = host.rt();
    let alloc = rt.alloc();
    let mut reporters: Vec<Box<dyn Reporter>> = Vec::new(alloc);
    reporters.push(Box::new(alloc, Plain::new(alloc))?)?;
    reporters.push(Box::new(alloc, Long::new(alloc))?)?;
    reporters.push(Box::new(alloc, Causes::new(alloc))?)?;
    reporters.push(Box::new(alloc, Tabbed::new(alloc))?)?;
    reporters.push(Box::new(alloc, Summary::new(alloc))?)?;
    reporters.push(Box::new(alloc, Github::new(alloc))?)?;
    reporters.push(Box::new(alloc, Checkstyle::new(alloc))?)?;
    reporters.push(Box::new(alloc, Sarif::new(alloc))?)?;
    let mut files = HostFiles::new(rt, alloc);
    let mut out = HostSink::new(rt);
    let status = nullcheck(
        threads, alloc, words, reporters, &mut files, &mut out, &Straight,
    );
    match status {
        Status::ReadFault => host.cannot_read(files.fault()),
        Status::WriteFault => host.cannot_write(out.fault()),
        Status::OutOfMemory => host.no_memory(),
        Status::Usage => host.refused(usage_reason(alloc, words)),
        _ => {}
    }
    Ok(status)
}

fn main(rt: HostRuntime) -> ExitCode {
    let host = Host::new(&rt, "nullcheck");
    let words = match host.words() {
        Ok(words) => words,
        Err(none) => return ExitCode::from(none.number()),
    };
    match done(&rt, &host, &words) {
        Ok(status) => ExitCode::from(status.number()),
        Err(AllocError) => {
            host.no_memory();
            ExitCode::from(Status::OutOfMemory.number())
        }
    }
}
