//! Carries out the script that the words name, says on standard error what went wrong, and ends with the status's number.
#![tactic(auto)]

use jn_cli::recheck_reason;
use jn_host::Host;
use jn_outside::{HostFiles, HostSink};
use jn_sharing::Straight;
use nullcheck_recheck_top::{Status, recheck};
use std::process::ExitCode;
use std::thread::Threads;

/// Carries out the script that the words name, and says what went wrong.
fn done<R: Threads + Sync>(threads: &R, host: &Host<HostRuntime>, words: &[String]) -> Status {
    let rt = host.rt();
    let alloc = rt.alloc();
    let mut files = HostFiles::new(rt, alloc);
    let mut out = HostSink::new(rt);
    let status = recheck(threads, &Straight, alloc, words, &mut files, &mut out);
    match status {
        Status::ReadFault => host.cannot_read(files.fault()),
        Status::WriteFault => host.cannot_write(out.fault()),
        Status::OutOfMemory => host.no_memory(),
        Status::Usage => host.refused(recheck_reason(alloc, words)),
        _ => {}
    }
    status
}

fn main(rt: HostRuntime) -> ExitCode {
    let host = Host::new(&rt, "nullcheck_recheck");
    match host.words() {
        Ok(words) => ExitCode::from(done(&rt, &host, &words).number()),
        Err(none) => ExitCode::from(none.number()),
    }
}
