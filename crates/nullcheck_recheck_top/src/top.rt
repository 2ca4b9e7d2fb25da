//! A script in, the reports of its checks out.
ghost use Rattle.std.specs.Prelude.{None, Some, ◌≡◌, ◌≢◌, ◌<◌, ◌≤◌, length, map};
ghost use Rattle.std.specs.String.{string_bytes};
ghost use Rattle.jn_outside.specs.Causes.{Rose};
ghost use Rattle.jn_outside.specs.Files.{Gives, Holds};
ghost use Rattle.jn_front.specs.Files.{AllHeld};
ghost use Rattle.jn_command.specs.Answer.{reading};
ghost use Rattle.nullcheck_recheck_top.specs.Answer.{Answers, AnswersScript, HoldsAll, Starts, StartsScript};
ghost use Rattle.jn_cli.specs.Recheck.{asked_of, asking};

use crate::carrying::carry_out;
use crate::outputs::bad_output;
use jn_base::{Fail, Infer};
use jn_cli::read_recheck;
use jn_command::Status;
use jn_command::output::{finish, write};
use jn_outside::{Files, ReadFail, Sink, read_whole};
use jn_script::read_script;
use jn_sharing::Gate;
use std::alloc::Global;
use std::thread::Threads;

const USAGE: &str = "usage: nullcheck_recheck [--infer private|package] SCRIPT\n";

/// The greatest number of bytes of a script.
const LIMIT: u32 = 1_048_576;

/// Reads the script, judges it whole, and carries it out where it is good.
#[tactic(auto, using(crate::proofs::Starting::starts_script))]
fn answer_named<R: Threads + Sync, F: Files, K: Sink, G: Gate + Sync>(
    rt: &R,
    gate: &G,
    alloc: Global,
    infer: Infer,
    name: &str,
    files: &mut F,
    out: &mut K,
) -> Status
    ensures answer { AnswersScript infer
        (reading (F.held files.old) (F.gave files.old) (F.gave files.new))
        name.now (K.written out.old) (K.written out.new) result }
    ensures read { result ≡ Status.ReadFault → Rose (F.faults files.old) (F.faults files.new) }
    ensures read_always { F.faults files.old < F.faults files.new → result ≡ Status.ReadFault }
    ensures read_steady { F.steady files.old → HoldsAll (F.held files.old) (Some (asking infer name.now))
        → result ≢ Status.ReadFault }
    ensures read_count { F.steady files.old → HoldsAll (F.held files.old) (Some (asking infer name.now))
        → F.faults files.new ≡ F.faults files.old }
    ensures starts { StartsScript (F.held files.old) name.now (F.gave files.old) (F.gave files.new) }
    ensures write { result ≡ Status.WriteFault → Rose (K.faults out.old) (K.faults out.new) }
    ensures write_always { K.faults out.old < K.faults out.new → result ≡ Status.WriteFault }
{
    let script = match read_whole(alloc, files, name, LIMIT) {
        Ok(script) => script,
        Err(Fail::Refused(ReadFail::TooLarge)) => return write(bad_output(alloc, name, 1), out),
        Err(Fail::Refused(ReadFail::Failed)) => return Status::ReadFault,
        Err(Fail::OutOfMemory) => return Status::OutOfMemory,
    };
    match read_script(alloc, &script) {
        Ok(steps) => carry_out(rt, gate, alloc, infer, &steps, files, out),
        Err(Fail::Refused(line)) => write(bad_output(alloc, name, line), out),
        Err(Fail::OutOfMemory) => Status::OutOfMemory,
    }
}

/// Carries out the script that the words name: one name, before or after it `--infer private` or `--infer package`, which says the members
/// that are inferred; private ones where nothing is said. A script has lines `set NAME FILE`, `drop NAME`
/// and `check`, and empty ones; it is read and judged whole before any other file is read. `set` gives a name the text of a file, `drop`
/// takes a name out, and `check` writes the plain report of the files that stand then, and how many of them have another text than at the
/// last check and of how many bodies the rows were made anew.
///
/// `rt` gives the threads of four workers, who call `gate` when they take a file, a body for inference, or a body whose rows are made
/// anew.
pub fn recheck<R: Threads + Sync, F: Files, K: Sink, G: Gate + Sync>(
    rt: &R,
    gate: &G,
    alloc: Global,
    words: &[String],
    files: &mut F,
    out: &mut K,
) -> Status
    // Status and bytes are those that the words, the script and the files define: check by check the report of the files that stand
    // there, by the members that the words choose, with the bytes that the reads of this call gave, and the status of the last. A script with a bad line is refused by that
    // line. After a read fault the reports of all checks before the `set` whose file couldn't be read were written, after want of memory
    // those of all checks before the step that wanted it, and after a write fault a part of one report more.
    ensures answer { Answers (reading (F.held files.old) (F.gave files.old) (F.gave files.new))
        (asked_of (map string_bytes words.now)) (K.written out.old) (K.written out.new) result }
    ensures read { result ≡ Status.ReadFault → Rose (F.faults files.old) (F.faults files.new) }
    ensures read_always { F.faults files.old < F.faults files.new → result ≡ Status.ReadFault }
    ensures read_steady { F.steady files.old
        → HoldsAll (F.held files.old) (asked_of (map string_bytes words.now))
        → result ≢ Status.ReadFault }
    ensures read_count { F.steady files.old
        → HoldsAll (F.held files.old) (asked_of (map string_bytes words.now))
        → F.faults files.new ≡ F.faults files.old }
    // No file is started but the script, and where what its reads gave is good those that its steps set, in their order, whatever comes of it.
    ensures starts { Starts (F.held files.old) (asked_of (map string_bytes words.now))
        (F.gave files.old) (F.gave files.new) }
    // Nothing is read where the words name no script.
    ensures unread { asked_of (map string_bytes words.now) ≡ None
        → (F.faults files.new ≡ F.faults files.old) × (F.gave files.new ≡ F.gave files.old) }
    ensures write { result ≡ Status.WriteFault → Rose (K.faults out.old) (K.faults out.new) }
    ensures write_always { K.faults out.old < K.faults out.new → result ≡ Status.WriteFault }
{
    match read_recheck(alloc, words) {
        Err(Fail::Refused(_)) => finish(out, USAGE.as_bytes(), Status::Usage),
        Err(Fail::OutOfMemory) => Status::OutOfMemory,
        Ok(asked) => answer_named(
            rt,
            gate,
            alloc,
            asked.infer,
            asked.script.as_str(),
            files,
            out,
        ),
    }
}
