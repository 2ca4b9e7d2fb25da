//! Writes what is inferred of files into their texts: says on standard error what went wrong, and ends with the status's number.
#![tactic(auto)]

use jn_cli::annotate_reason;
use jn_host::Host;
use jn_outside::{HostFiles, HostSink};
use jn_sharing::Straight;
use jn_targets::HostTargets;
use nullcheck_annotate_top::{Status, annotate_files};
use std::io;
use std::process::ExitCode;
use std::thread::Threads;

/// Says which files were replaced before.
fn say_replaced(host: &Host<HostRuntime>, names: &[String]) {
    if names.is_empty() {
        host.say("no file was replaced");
    }
    for name in names {
        let name = name.as_str();
        host.say(format_args!("replaced {name}"));
    }
}

/// Says why the output can't be written; or which file can't be replaced, why, and which ones were replaced before.
fn say_written(
    host: &Host<HostRuntime>,
    reason: Option<io::Error>,
    targets: &HostTargets<HostRuntime>,
) {
    match targets.fault() {
        Some(fault) => {
            host.cannot("replace", &fault.name, ", which is as it was", fault.reason);
            host.in_the_way(&fault.left);
            say_replaced(host, targets.names());
        }
        None => host.cannot_write(reason),
    }
}

/// Does what the words ask for, and says what went wrong.
fn done<R: Threads + Sync>(threads: &R, host: &Host<HostRuntime>, words: &[String]) -> Status {
    let rt = host.rt();
    let alloc = rt.alloc();
    let mut files = HostFiles::new(rt, alloc);
    let mut out = HostSink::new(rt);
    let mut targets = HostTargets::new(rt, alloc);
    let status = annotate_files(
        threads,
        alloc,
        words,
        &mut files,
        &mut out,
        &mut targets,
        &Straight,
    );
    match status {
        Status::ReadFault => host.cannot_read(files.fault()),
        Status::WriteFault => say_written(host, out.fault(), &targets),
        Status::OutOfMemory => host.no_memory(),
        Status::Usage => host.refused(annotate_reason(alloc, words)),
        _ => {}
    }
    status
}

fn main(rt: HostRuntime) -> ExitCode {
    let host = Host::new(&rt, "nullcheck_annotate");
    match host.words() {
        Ok(words) => ExitCode::from(done(&rt, &host, &words).number()),
        Err(none) => ExitCode::from(none.number()),
    }
}
