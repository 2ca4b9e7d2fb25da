//! The run of the one main of accepted files by single steps, beside the same run at once.
ghost use Rattle.std.specs.Prelude.{◌≤◌, length};
ghost use Rattle.jn_running.specs.Going.{IsGoing};

use crate::around::{MOST, ROOM, sink_of};
use crate::reading::{file_names, reads_of};
use jn_accept::Accepted;
use jn_base::Text;
use jn_cli::{Command, read_words};
use jn_front::SourceRead;
use jn_outside::MemSink;
use jn_running::{Ended, Machine, run_main};
use jn_sharing::{Straight, Workers};
use jn_trees::Names;
use nullcheck_top::check::check;
use std::alloc::{AllocError, Global};
use std::io;
use std::thread::Threads;

/// Runs at most so many steps, one after the other; `Steps` says that the machine goes on after all of them.
fn by_steps(machine: &mut Machine, steps: u64, sink: &mut MemSink) -> Ended
    requires going { IsGoing machine.old }
{
    for _ in 0..steps {
        if let Some(ended) = machine.step(sink) {
            return ended;
        }
    }
    Ended::Steps
}

/// Whether the one main of a program prints by so many single steps what it prints by as many at once, and ends so.
fn ends_so(
    alloc: Global,
    accepted: &Accepted,
    names: &Names,
    words: &[Text],
    steps: u64,
) -> Result<bool, AllocError> {
    let Some(main) = accepted.main() else {
        return Ok(false);
    };
    let mut single = sink_of(alloc, Vec::new(alloc), MOST, ROOM)?;
    let mut whole = sink_of(alloc, Vec::new(alloc), MOST, ROOM)?;
    let Ok(mut machine) = Machine::start(alloc, accepted, names, main, words) else {
        return Err(AllocError);
    };
    let ended = by_steps(&mut machine, steps, &mut single);
    match run_main(alloc, accepted, names, words, steps, &mut whole) {
        None => Ok(false),
        Some(other) => Ok(ended == other && single.bytes() == whole.bytes()),
    }
}

/// The same of files that were read; never where they aren't accepted.
fn reads_end_so<R: Threads + Sync>(
    threads: &R,
    alloc: Global,
    command: &Command,
    reads: &[SourceRead],
    steps: u64,
) -> Result<bool, AllocError>
    requires few { length reads.now ≤ 64 }
{
    let Ok(checked) = check(
        threads,
        &Straight,
        alloc,
        Workers::of(1),
        command.infer,
        reads,
    ) else {
        return Err(AllocError);
    };
    match &checked.found.accepted {
        None => Ok(false),
        Some(accepted) => {
            let words = command.args.as_slice();
            ends_so(alloc, accepted, &checked.names, words, steps)
        }
    }
}

/// Whether the one main of the files that the words name prints by so many single steps what it prints by as many at once, and ends so.
pub fn ends_by_steps<R: Threads + Sync>(
    rt: &HostRuntime,
    threads: &R,
    words: &[String],
    steps: u64,
) -> io::Result<bool> {
    let alloc = rt.alloc();
    let Ok(command) = read_words(alloc, words) else {
        return Ok(false);
    };
    let names = file_names(alloc, &command)?;
    let Some(reads) = reads_of(rt, &names)? else {
        return Ok(false);
    };
    Ok(reads_end_so(threads, alloc, &command, &reads, steps)?)
}
