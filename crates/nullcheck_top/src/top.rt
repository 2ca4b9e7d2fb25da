//! Words in, the report or the run out.
ghost use Rattle.std.specs.Prelude.{◌≡◌, ◌≢◌, ◌<◌, map};
ghost use Rattle.std.specs.String.{string_bytes};
ghost use Rattle.jn_outside.specs.Causes.{Rose};
ghost use Rattle.jn_asked.specs.Asked.{asked_of};
ghost use Rattle.jn_command.specs.Answer.{reading};
ghost use Rattle.nullcheck_top.specs.CommandAnswer.{HoldsFiles, ReadsNothing, Starts};
ghost use Rattle.jn_command.specs.Status.{IsAcceptance};
ghost use Rattle.nullcheck_top.specs.Answers.{Answers, AsksRun, Completes, Safe};

use crate::answers::answer_command;
use jn_asked::{Asked, read_asked};
use jn_base::Fail;
use jn_command::Status;
use jn_command::output::finish;
use jn_outside::{Files, Sink};
use jn_reporters::Reporter;
use jn_workers::Gate;
use std::alloc::Global;
use std::thread::Threads;

const USAGE: &str =
    "usage: nullcheck [--workers N] [--report NAME] [--codes ADDRESS] [--infer NAME] [--run] [--steps N] [--words TEXT] [--gen N] FILE..\n";

/// Checks what the words ask for, and writes the report by the first of these reporters that has the name; or runs the main of
/// accepted files where a run is asked for.
///
/// `rt` gives the threads of as many workers as the words say, which lex and parse files, infer qualifiers and check bodies; each
/// calls `gate` when it takes a file or a body.
///
/// The memory of a check is left to the end of the process: a program that calls this often keeps that of every call.
pub fn nullcheck<R: Threads + Sync, F: Files, K: Sink, G: Gate + Sync>(
    rt: &R,
    alloc: Global,
    words: &[String],
    reporters: Vec<Box<dyn Reporter>>,
    files: &mut F,
    out: &mut K,
    gate: &G,
) -> Status
    // Status and bytes are those that the words and the files define: the files that the words name, with the bytes that the reads of
    // this call gave, or the program that they ask for; their report, or where a run is asked for the run of accepted files' main.
    // After a write fault a prefix of the bytes went out, after a read fault nothing, after want of memory nothing or the text of
    // some of the run's steps. Accepted files are safe.
    ensures answer { Answers (reading (F.held files.old) (F.gave files.old) (F.gave files.new))
        (asked_of
        (map (λ b. form b) reporters.items)
        (map string_bytes words.now))
        (K.written out.old) (K.written out.new) result }
    // So no run of accepted files dereferences null or gets stuck, with any words and any number of steps, the one that was asked for
    // among them.
    ensures safe { IsAcceptance result
        → Safe (reading (F.held files.old) (F.gave files.old) (F.gave files.new)) (asked_of
        (map (λ b. form b) reporters.items)
        (map string_bytes words.now)) }
    // Where the words are a command's and no fault is counted, all is written, or no memory was found.
    ensures complete { (Rose (F.faults files.old) (F.faults files.new) → ⊥)
        → (Rose (K.faults out.old) (K.faults out.new) → ⊥)
        → Completes (reading (F.held files.old) (F.gave files.old) (F.gave files.new))
        (asked_of
        (map (λ b. form b) reporters.items)
        (map string_bytes words.now))
        (K.written out.old) (K.written out.new) result }
    // A report is whole before its first byte goes out: where no run is asked for, nothing was written after want of memory.
    ensures nothing { result ≡ Status.OutOfMemory
        → (AsksRun (asked_of
        (map (λ b. form b) reporters.items)
        (map string_bytes words.now)) → ⊥)
        → K.written out.new ≡ K.written out.old }
    ensures read { result ≡ Status.ReadFault → Rose (F.faults files.old) (F.faults files.new) }
    ensures read_always { F.faults files.old < F.faults files.new → result ≡ Status.ReadFault }
    ensures read_steady { F.steady files.old
        → HoldsFiles (F.held files.old) (asked_of
        (map (λ b. form b) reporters.items)
        (map string_bytes words.now))
        → result ≢ Status.ReadFault }
    ensures read_count { F.steady files.old
        → HoldsFiles (F.held files.old) (asked_of
        (map (λ b. form b) reporters.items)
        (map string_bytes words.now))
        → F.faults files.new ≡ F.faults files.old }
    // No file is started but those that the words name, in their order, whatever comes of it.
    ensures starts { Starts
        (asked_of
        (map (λ b. form b) reporters.items)
        (map string_bytes words.now))
        (F.gave files.old) (F.gave files.new) }
    // Nothing is read where the words are no command's, name too many files, or ask for a program.
    ensures unread { ReadsNothing (asked_of
        (map (λ b. form b) reporters.items)
        (map string_bytes words.now))
        → (F.faults files.new ≡ F.faults files.old) × (F.gave files.new ≡ F.gave files.old) }
    ensures write { result ≡ Status.WriteFault → Rose (K.faults out.old) (K.faults out.new) }
    ensures write_always { K.faults out.old < K.faults out.new → result ≡ Status.WriteFault }
{
    match read_asked(alloc, words, reporters) {
        Ok(Asked { command, reporter }) => {
            answer_command(rt, gate, alloc, &command, reporter, files, out)
        }
        Err(Fail::Refused(_)) => finish(out, USAGE.as_bytes(), Status::Usage),
        Err(Fail::OutOfMemory) => Status::OutOfMemory,
    }
}
