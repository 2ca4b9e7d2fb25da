//! Writes a certificate of files, or checks one: says on standard error what went wrong, and ends with the status's number.
#![tactic(auto)]

mod input;

use input::InputFiles;
use jn_base::Fail;
use jn_cli::{cert_reason, read_cert};
use jn_host::Host;
use jn_outside::{HostFiles, HostSink};
use jn_sharing::Straight;
use jn_targets::HostTargets;
use nullcheck_cert_check::{Status, check};
use nullcheck_cert_write::write_cert;
use std::io;
use std::process::ExitCode;
use std::thread::Threads;

/// Says why the output can't be written, or the file that was to be stored.
fn say_write(
    host: &Host<HostRuntime>,
    reason: Option<io::Error>,
    target: &HostTargets<HostRuntime>,
) {
    match target.fault() {
        Some(fault) => {
            host.cannot("write", &fault.name, "", fault.reason);
            host.in_the_way(&fault.left);
        }
        None => host.cannot_write(reason),
    }
}

/// Says why the certificate or a file couldn't be read.
fn say_read(host: &Host<HostRuntime>, files: &InputFiles<HostRuntime>) {
    match files.input_fault() {
        Some(reason) => host.cannot_hear(Some(reason)),
        None => host.cannot_read(files.fault()),
    }
}

/// Says what went wrong, where the status is none of a verdict and of no fault.
fn say_other(host: &Host<HostRuntime>, status: Status, words: &[String]) {
    match status {
        Status::OutOfMemory => host.no_memory(),
        Status::Usage => host.refused(cert_reason(host.rt().alloc(), words)),
        _ => {}
    }
}

/// Writes the certificate that the words ask for, and says why it can't.
fn done_write<R: Threads + Sync>(
    threads: &R,
    host: &Host<HostRuntime>,
    words: &[String],
) -> Status {
    let rt = host.rt();
    let alloc = rt.alloc();
    let mut files = HostFiles::new(rt, alloc);
    let mut out = HostSink::new(rt);
    let mut target = HostTargets::new(rt, alloc);
    let status = write_cert(
        threads,
        &Straight,
        alloc,
        words,
        &mut files,
        &mut out,
        &mut target,
    );
    match status {
        Status::ReadFault => host.cannot_read(files.fault()),
        Status::WriteFault => say_write(host, out.fault(), &target),
        _ => say_other(host, status, words),
    }
    status
}

/// Checks the certificate that the words name, which is the standard input where they say `-`, and says why it can't.
fn done_check<R: Threads + Sync>(
    threads: &R,
    host: &Host<HostRuntime>,
    words: &[String],
) -> Status {
    let rt = host.rt();
    let alloc = rt.alloc();
    let mut files = InputFiles::new(rt, alloc);
    let mut out = HostSink::new(rt);
    let status = check(threads, alloc, words, &mut files, &mut out);
    match status {
        Status::ReadFault => say_read(host, &files),
        Status::WriteFault => host.cannot_write(out.fault()),
        _ => say_other(host, status, words),
    }
    status
}

/// Does what the words ask for.
fn done<R: Threads + Sync>(threads: &R, host: &Host<HostRuntime>, words: &[String]) -> Status {
    match read_cert(host.rt().alloc(), "write", words) {
        Ok(_command) => done_write(threads, host, words),
        Err(Fail::Refused(_)) => done_check(threads, host, words),
        Err(Fail::OutOfMemory) => {
            host.no_memory();
            Status::OutOfMemory
        }
    }
}

fn main(rt: HostRuntime) -> ExitCode {
    let host = Host::new(&rt, "nullcheck_cert");
    match host.words() {
        Ok(words) => ExitCode::from(done(&rt, &host, &words).number()),
        Err(none) => ExitCode::from(none.number()),
    }
}
