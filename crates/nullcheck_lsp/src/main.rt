//! Serves an editor over standard input and output, says on standard error what went wrong, and ends with the status's number.
#![tactic(auto)]

use jn_cli::server_reason;
use jn_folder::HostFolder;
use jn_host::Host;
use jn_lsp_frames::HostStream;
use jn_outside::{HostFiles, HostSink};
use jn_sharing::Straight;
use nullcheck_lsp_top::{Status, serve};
use std::process::ExitCode;
use std::thread::Threads;

/// Serves the editor, and says what went wrong where the server didn't end in order.
fn done<R: Threads + Sync>(
    rt: &HostRuntime,
    threads: &R,
    host: &Host<HostRuntime>,
    words: &[String],
) -> Status {
    let alloc = rt.alloc();
    let mut input = HostStream::new(rt);
    let mut files = HostFiles::new(rt, alloc);
    let mut folder = HostFolder::new(rt);
    let mut out = HostSink::new(rt);
    let status = serve(
        threads,
        &Straight,
        alloc,
        words,
        &mut input,
        &mut files,
        &mut folder,
        &mut out,
    );
    match status {
        Status::ReadFault => host.cannot_hear(input.fault()),
        Status::WriteFault => host.cannot_write(out.fault()),
        Status::OutOfMemory => host.no_memory(),
        Status::Usage => host.refused(server_reason(alloc, words)),
        Status::Ended => host.say("the input ended, or exit came, without shutdown"),
        Status::Done => {}
    }
    status
}

fn main(rt: HostRuntime) -> ExitCode {
    let host = Host::new(&rt, "nullcheck_lsp");
    match host.words() {
        Ok(words) => ExitCode::from(done(&rt, &rt, &host, &words).number()),
        Err(none) => ExitCode::from(none.number()),
    }
}
