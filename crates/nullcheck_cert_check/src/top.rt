//! Words in, the verdict on a certificate of files out.
ghost use Rattle.std.specs.Prelude.{◌≡◌, ◌≢◌, ◌<◌, ◌≤◌, ◌∷◌, List, ℕ, Some, map, length, codes};
ghost use Rattle.std.specs.String.{string_bytes};
ghost use Rattle.jn_outside.specs.Causes.{Rose};
ghost use Rattle.jn_command.specs.Answer.{reading};
ghost use Rattle.jn_front.specs.declared.source.SourceFile.{SourceFile as FileOf};
ghost use Rattle.jn_front.specs.Files.{AllHeld, AreReads, StartsOnly, most_files};
ghost use Rattle.nullcheck_cert_check.specs.Inputs.{IsCertRead};
ghost use Rattle.jn_cli.specs.Cert.{asked_of, command};
ghost use Rattle.nullcheck_cert_check.specs.Answer.{Answers, AnswersInputs, Certified, Completes, HoldsInputs, ReadsNothing, Starts, Uncertified};

use crate::certifying::find;
use crate::inputs::{Inputs, read_inputs};
use crate::outputs::{MOST_FILES, number_output, verdict_output};
use jn_base::{Fail, Infer};
use jn_cli::read_cert;
use jn_command::Status;
use jn_command::output::{finish, write};
use jn_outside::{Files, Sink};
use std::alloc::Global;
use std::mem::forget;
use std::thread::Threads;

const USAGE: &str =
    "usage: nullcheck_cert check [--infer NAME] CERT FILE..\n       nullcheck_cert write [--infer NAME] CERT FILE..\n";

/// Tells the verdict on a certificate of this name and the files that were read with it, at most 64.
///
/// The program is left to the process's end, which is near then and gives all memory back at once.
fn answer_inputs<R: Threads + Sync, K: Sink>(
    rt: &R,
    alloc: Global,
    infer: Infer,
    name: &str,
    inputs: &Inputs,
    out: &mut K,
) -> Status
    requires few { length inputs.now.reads.items ≤ most_files }
    requires read { (files : List FileOf) × AreReads inputs.now.reads.items files }
    requires cert { (cert : List ℕ) × IsCertRead inputs.now.cert cert }
    ensures answer { (cert : List ℕ) (files : List FileOf) → IsCertRead inputs.now.cert cert
        → AreReads inputs.now.reads.items files
        → AnswersInputs infer name.now cert files (K.written out.old) (K.written out.new) result }
    ensures write { result ≡ Status.WriteFault → Rose (K.faults out.old) (K.faults out.new) }
    ensures write_always { K.faults out.old < K.faults out.new → result ≡ Status.WriteFault }
{
    match find(rt, alloc, infer, &inputs.reads, &inputs.cert) {
        Ok(verdict) => {
            let status = write(verdict_output(alloc, name, &inputs.reads, &verdict), out);
            forget(verdict);
            status
        }
        Err(_) => Status::OutOfMemory,
    }
}

/// Reads a certificate and the files of these names, and says the verdict.
fn answer_command<R: Threads + Sync, F: Files, K: Sink>(
    rt: &R,
    alloc: Global,
    infer: Infer,
    cert: &str,
    names: &[String],
    files: &mut F,
    out: &mut K,
) -> Status
    ensures answer { Answers (reading (F.held files.old) (F.gave files.old) (F.gave files.new))
        (Some (command infer cert.now (map string_bytes names.now))) (K.written out.old)
        (K.written out.new) result }
    ensures read { result ≡ Status.ReadFault → Rose (F.faults files.old) (F.faults files.new) }
    ensures read_always { F.faults files.old < F.faults files.new → result ≡ Status.ReadFault }
    ensures read_steady { F.steady files.old
        → AllHeld (F.held files.old) (cert.now ∷ map string_bytes names.now)
        → result ≢ Status.ReadFault }
    ensures read_count { F.steady files.old
        → AllHeld (F.held files.old) (cert.now ∷ map string_bytes names.now)
        → F.faults files.new ≡ F.faults files.old }
    ensures starts { StartsOnly (cert.now ∷ map string_bytes names.now) (F.gave files.old)
        (F.gave files.new) }
    ensures unread { most_files < length names.now
        → (F.faults files.new ≡ F.faults files.old) × (F.gave files.new ≡ F.gave files.old) }
    ensures write { result ≡ Status.WriteFault → Rose (K.faults out.old) (K.faults out.new) }
    ensures write_always { K.faults out.old < K.faults out.new → result ≡ Status.WriteFault }
{
    if names.len() > MOST_FILES {
        return write(number_output(alloc, names), out);
    }
    let inputs = match read_inputs(alloc, files, cert, names) {
        Ok(inputs) => inputs,
        Err(Fail::Refused(_)) => return Status::ReadFault,
        Err(Fail::OutOfMemory) => return Status::OutOfMemory,
    };
    answer_inputs(rt, alloc, infer, cert, &inputs, out)
}

/// Does what the words ask for: `check [--infer NAME] CERT FILE..`, where the option may stand anywhere. Reads the certificate CERT and then the files, makes the files'
/// program with the choice of members that are inferred, and says whether the bytes are a certificate of it: at most 67,108,864
/// bytes that are the form of a signature and of tables that hold. It solves for nothing and searches for nothing: it looks at each
/// point of the program once. One worker does all of it, so that no thread is started, whatever `rt` could give.
///
/// The memory of a check is left to the end of the process: a program that calls this often keeps that of every call.
pub fn check<R: Threads + Sync, F: Files, K: Sink>(
    rt: &R,
    alloc: Global,
    words: &[String],
    files: &mut F,
    out: &mut K,
) -> Status
    // Status and bytes are those of the verdict on the certificate and the files that the words name, with the bytes that the reads
    // of this call gave: the rows of the first phase that has any; or what fails first of the certificate, exactly as `check_cert`
    // judges it; or that it holds. After a write fault a prefix of the bytes went out, and nothing after a read fault or want of
    // memory.
    ensures answer { Answers (reading (F.held files.old) (F.gave files.old) (F.gave files.new))
        (asked_of (codes "check") (map string_bytes words.now)) (K.written out.old)
        (K.written out.new) result }
    // Status 0: the files that were read have a program of which the bytes that were read are a certificate, whoever made it; so the
    // files are safe, in the sense in which accepted files are: by runs, by the meaning of their trees, and for every caller.
    ensures certified { result ≡ Status.Ok
        → Certified (reading (F.held files.old) (F.gave files.old) (F.gave files.new))
        (asked_of (codes "check") (map string_bytes words.now)) }
    // Status 1: the files have a program, and the bytes are no certificate of it.
    ensures uncertified { result ≡ Status.Rejected
        → Uncertified (reading (F.held files.old) (F.gave files.old) (F.gave files.new))
        (asked_of (codes "check") (map string_bytes words.now)) }
    // A verdict has no other status but that of files that are refused.
    ensures never { (result ≡ Status.RunFault → ⊥) × (result ≡ Status.Stopped → ⊥) }
    // Where the words are a command's and no fault is counted, all is written, or no memory was found.
    ensures complete { (Rose (F.faults files.old) (F.faults files.new) → ⊥)
        → (Rose (K.faults out.old) (K.faults out.new) → ⊥)
        → Completes (reading (F.held files.old) (F.gave files.old) (F.gave files.new))
        (asked_of (codes "check") (map string_bytes words.now)) (K.written out.old)
        (K.written out.new) result }
    ensures nothing { result ≡ Status.OutOfMemory → K.written out.new ≡ K.written out.old }
    ensures read { result ≡ Status.ReadFault → Rose (F.faults files.old) (F.faults files.new) }
    ensures read_always { F.faults files.old < F.faults files.new → result ≡ Status.ReadFault }
    ensures read_steady { F.steady files.old
        → HoldsInputs (F.held files.old) (asked_of (codes "check") (map string_bytes words.now))
        → result ≢ Status.ReadFault }
    ensures read_count { F.steady files.old
        → HoldsInputs (F.held files.old) (asked_of (codes "check") (map string_bytes words.now))
        → F.faults files.new ≡ F.faults files.old }
    // No name is started but the certificate's and those of the files, in this order, whatever comes of it.
    ensures starts { Starts (asked_of (codes "check") (map string_bytes words.now))
        (F.gave files.old) (F.gave files.new) }
    // Nothing is read where the words are no command's, or name too many files.
    ensures unread { ReadsNothing (asked_of (codes "check") (map string_bytes words.now))
        → (F.faults files.new ≡ F.faults files.old) × (F.gave files.new ≡ F.gave files.old) }
    ensures write { result ≡ Status.WriteFault → Rose (K.faults out.old) (K.faults out.new) }
    ensures write_always { K.faults out.old < K.faults out.new → result ≡ Status.WriteFault }
{
    match read_cert(alloc, "check", words) {
        Err(Fail::Refused(_)) => finish(out, USAGE.as_bytes(), Status::Usage),
        Err(Fail::OutOfMemory) => Status::OutOfMemory,
        Ok(command) => answer_command(
            rt,
            alloc,
            command.infer,
            command.cert.as_str(),
            &command.files,
            files,
            out,
        ),
    }
}
