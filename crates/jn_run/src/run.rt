//! The run of the one main of an accepted program of files.
ghost use Rattle.std.specs.Prelude.{◌≡◌, ◌≢◌, ◌≤◌, ◌<◌};
ghost use Rattle.jn_outside.specs.Causes.{Rose};
ghost use Rattle.jn_front.specs.Files.{files_of_reads};
ghost use Rattle.jn_run.specs.Main.{Answers};

use crate::line::tell;
use jn_accept::Accepted;
use jn_base::Text;
use jn_command::Status;
use jn_command::output::finish;
use jn_front::SourceRead;
use jn_outside::Sink;
use jn_progress_law::law::accepted_programs_never_stick;
use jn_running::run_main;
use jn_trees::Names;
use std::alloc::Global;

/// Runs the one main of an accepted program of files that were read, with these words, at most so many steps. Writes
/// what it prints as it is printed, then the line that tells how it ended, and gives the status: `Ok` where `main`
/// returned, `RunFault` after an exception of Java, `Stopped` at a limit or after all steps. Without one main it
/// writes that there is no single main (`Refused`). After `WriteFault` a prefix of all that went out, and after
/// `OutOfMemory` what some of the steps print.
pub fn run_files<K: Sink>(
    alloc: Global,
    accepted: &Accepted,
    names: &Names,
    reads: &[SourceRead],
    words: &[Text],
    steps: u64,
    out: &mut K,
) -> Status
    ensures answer { Answers (files_of_reads reads.now) accepted.now.0 names.now words.now steps
        (K.written out.old) (K.written out.new) result }
    ensures write { result ≡ Status.WriteFault → Rose (K.faults out.old) (K.faults out.new) }
    ensures write_always { K.faults out.old < K.faults out.new → result ≡ Status.WriteFault }
    ensures kept { result ≢ Status.WriteFault → K.faults out.new ≡ K.faults out.old }
    ensures later { K.faults out.old ≤ K.faults out.new }
{
    accepted_programs_never_stick();
    let _program = accepted.program();
    match run_main(alloc, accepted, names, words, steps, out) {
        None => finish(out, b"no single main\n", Status::Refused),
        Some(ended) => tell(alloc, reads, ended, out),
    }
}
