//! Words in, a unified diff or replaced files out.
ghost use Rattle.std.specs.Prelude.{None, ◌≡◌, ◌≢◌, ◌<◌, ◌⊎◌, map, IfOk};
ghost use Rattle.std.specs.String.{string_bytes};
ghost use Rattle.jn_outside.specs.Causes.{Rose};
ghost use Rattle.jn_command.specs.Answer.{reading};
ghost use Rattle.jn_cli.specs.Annotate.{wanted_of};
ghost use Rattle.nullcheck_annotate_top.specs.Answer.{Answers, effects, HoldsAll, Starts, usage_line};
ghost use Rattle.nullcheck_annotate_top.specs.Output.{only as only_of};

use crate::answer::answer_wanted;
use crate::finish::finish;
use crate::output::{Output, only};
use jn_base::{Fail, OutOfMemory};
use jn_cli::read_wanted;
use jn_command::Status;
use jn_outside::{Files, Sink};
use jn_sharing::Gate;
use jn_targets::Targets;
use std::alloc::Global;
use std::thread::Threads;

const USAGE: &str =
    "usage: nullcheck_annotate [--infer NAME] [--imports] [--terse] [--check] [--write] FILE..\n";

/// The output of words that are no command's.
fn usage_output(alloc: Global) -> Result<Output, OutOfMemory>
    ensures { IfOk result (λ o. o ≡ only_of Status.Usage usage_line) }
{
    let text = Vec::from_slice(alloc, USAGE.as_bytes())?;
    Ok(only(alloc, Status::Usage, text))
}

/// Writes what is inferred of files into their texts, as the words ask for it: the unified diff of what would change is written to the
/// output; or the files are replaced; or the status alone says whether anything would change.
///
/// [`Status::Ok`] comes where all was done, or nothing would change; [`Status::Rejected`] where something would, under `--check`, or the
/// files have no annotated texts, for the reason that is written; [`Status::Refused`] where they get their report, since they have no
/// program. Files that the checker accepts and files that it rejects are annotated alike.
///
/// `rt` gives the threads of four workers, each of which calls `gate` when it takes a file or a body. The memory of the files' trees is left
/// to the end of the process.
pub fn annotate_files<R: Threads + Sync, F: Files, K: Sink, T: Targets, G: Gate + Sync>(
    rt: &R,
    alloc: Global,
    words: &[String],
    files: &mut F,
    out: &mut K,
    targets: &mut T,
    gate: &G,
) -> Status
    // What is written, what is replaced and the status are those that the words and the files define: the files that the words name, with
    // the bytes that the reads of this call gave; their annotated texts, under the least signature of their program. Nothing is written or
    // replaced before all of it is known: after a read fault or want of memory nothing was. After a write fault a prefix of the bytes
    // went out, or the first ones of the files were replaced, each whole.
    ensures answer { Answers (reading (F.held files.old) (F.gave files.old) (F.gave files.new))
        (wanted_of (map string_bytes words.now))
        (effects (K.written out.old) (K.written out.new) (T.replaced targets.old)
        (T.replaced targets.new))
        result }
    ensures read { result ≡ Status.ReadFault → Rose (F.faults files.old) (F.faults files.new) }
    ensures read_always { F.faults files.old < F.faults files.new → result ≡ Status.ReadFault }
    ensures read_steady { F.steady files.old
        → HoldsAll (F.held files.old) (wanted_of (map string_bytes words.now))
        → result ≢ Status.ReadFault }
    // No file is started but those that the words name, in their order, whatever comes of it.
    ensures starts { Starts (wanted_of (map string_bytes words.now)) (F.gave files.old)
        (F.gave files.new) }
    // Nothing is read where the words are no command's.
    ensures unread { wanted_of (map string_bytes words.now) ≡ None
        → (F.faults files.new ≡ F.faults files.old) × (F.gave files.new ≡ F.gave files.old) }
    ensures write { result ≡ Status.WriteFault
        → Rose (K.faults out.old) (K.faults out.new)
        ⊎ Rose (T.faults targets.old) (T.faults targets.new) }
    ensures write_always { K.faults out.old < K.faults out.new → result ≡ Status.WriteFault }
    ensures replace_always { T.faults targets.old < T.faults targets.new
        → result ≡ Status.WriteFault }
{
    match read_wanted(alloc, words) {
        Ok(wanted) => answer_wanted(rt, gate, alloc, &wanted, files, out, targets),
        Err(Fail::Refused(_)) => match usage_output(alloc) {
            Ok(output) => finish(out, targets, &output),
            Err(_) => Status::OutOfMemory,
        },
        Err(Fail::OutOfMemory) => Status::OutOfMemory,
    }
}
