//! Words in, a certificate of accepted files out.
ghost use Rattle.std.specs.Prelude.{◌≡◌, ◌≢◌, ◌<◌, ◌≤◌, ◌⊎◌, List, Some, map, length, true};
ghost use Rattle.std.specs.String.{string_bytes};
ghost use Rattle.jn_outside.specs.Causes.{Rose};
ghost use Rattle.jn_command.specs.Answer.{reading};
ghost use Rattle.jn_front.specs.declared.source.SourceFile.{SourceFile as FileOf};
ghost use Rattle.jn_front.specs.Files.{AllHeld, AreReads, StartsOnly, most_files};
ghost use Rattle.jn_cert_form.specs.Form.{magic};
ghost use Rattle.jn_targets.specs.Replacing.{takes_other};
ghost use Rattle.jn_cli.specs.Cert.{command};
ghost use Rattle.nullcheck_cert_write.specs.Words.{write_asked};
ghost use Rattle.nullcheck_cert_write.specs.Answer.{Answers, AnswersFiles, HoldsFiles, Starts, TakesOther, outcome};

use crate::command::read_write;
use crate::making::find;
use crate::outputs::tell;
use jn_base::{Fail, Infer};
use jn_command::Status;
use jn_command::output::{finish, write};
use jn_front::{SourceRead, read_all};
use jn_outside::{Files, Sink};
use jn_sharing::{Gate, Workers};
use jn_targets::Targets;
use nullcheck_cert_check::{MOST_FILES, number_output};
use std::alloc::Global;
use std::thread::Threads;

const USAGE: &str =
    "usage: nullcheck_cert check [--infer NAME] CERT FILE..\n       nullcheck_cert write [--infer NAME] CERT FILE..\n";

/// How many workers share the work.
const WORKERS: u32 = 4;

/// Checks files that were read, at most 64, and stores or says what they come to.
fn answer_reads<R: Threads + Sync, G: Gate + Sync, K: Sink, T: Targets>(
    rt: &R,
    gate: &G,
    alloc: Global,
    infer: Infer,
    name: &str,
    reads: &[SourceRead],
    out: &mut K,
    target: &mut T,
) -> Status
    requires few { length reads.now ≤ most_files }
    ensures answer { (files : List FileOf) → AreReads reads.now files
        → AnswersFiles infer name.now files
        (outcome (K.written out.old) (K.written out.new) (T.replaced target.old) (T.replaced target.new))
        result }
    ensures write { result ≡ Status.WriteFault → Rose (K.faults out.old) (K.faults out.new)
        ⊎ Rose (T.faults target.old) (T.faults target.new) }
    ensures write_always { K.faults out.old < K.faults out.new → result ≡ Status.WriteFault }
    ensures store_always { T.faults target.old < T.faults target.new
        → result ≡ Status.WriteFault }
    ensures other { takes_other (T.there target.old) name.now magic ≡ true
        → T.replaced target.new ≡ T.replaced target.old }
{
    match find(rt, gate, alloc, Workers::of(WORKERS), infer, reads) {
        Ok(made) => tell(alloc, name, reads, made, out, target),
        Err(_) => Status::OutOfMemory,
    }
}

/// Checks the files of these names, and stores the certificate under its name or says what the files come to.
fn answer_command<R: Threads + Sync, G: Gate + Sync, F: Files, K: Sink, T: Targets>(
    rt: &R,
    gate: &G,
    alloc: Global,
    infer: Infer,
    cert: &str,
    names: &[String],
    files: &mut F,
    out: &mut K,
    target: &mut T,
) -> Status
    ensures answer { Answers (reading (F.held files.old) (F.gave files.old) (F.gave files.new))
        (Some (command infer cert.now (map string_bytes names.now)))
        (outcome (K.written out.old) (K.written out.new) (T.replaced target.old) (T.replaced target.new))
        result }
    ensures read { result ≡ Status.ReadFault → Rose (F.faults files.old) (F.faults files.new) }
    ensures read_always { F.faults files.old < F.faults files.new → result ≡ Status.ReadFault }
    ensures read_steady { F.steady files.old
        → AllHeld (F.held files.old) (map string_bytes names.now) → result ≢ Status.ReadFault }
    ensures starts { StartsOnly (map string_bytes names.now) (F.gave files.old) (F.gave files.new) }
    ensures write { result ≡ Status.WriteFault → Rose (K.faults out.old) (K.faults out.new)
        ⊎ Rose (T.faults target.old) (T.faults target.new) }
    ensures write_always { K.faults out.old < K.faults out.new → result ≡ Status.WriteFault }
    ensures store_always { T.faults target.old < T.faults target.new
        → result ≡ Status.WriteFault }
    ensures other { takes_other (T.there target.old) cert.now magic ≡ true
        → T.replaced target.new ≡ T.replaced target.old }
{
    if names.len() > MOST_FILES {
        return write(number_output(alloc, names), out);
    }
    let reads = match read_all(alloc, files, names) {
        Ok(reads) => reads,
        Err(Fail::Refused(_)) => return Status::ReadFault,
        Err(Fail::OutOfMemory) => return Status::OutOfMemory,
    };
    answer_reads(rt, gate, alloc, infer, cert, &reads, out, target)
}

/// Does what the words ask for: `write [--infer NAME] CERT FILE..`, where the option may stand anywhere. Checks the files, and where they are accepted stores the certificate
/// of their program under the name CERT, or writes it to the output where that is `-`; else writes their report, by the plain reporter.
/// The certificate holds, so that `check` takes it. No source loses its place to one: CERT is none of the files, doesn't end in `.java`,
/// and where a file of its name is there, that one begins as a certificate.
///
/// The memory of a check is left to the end of the process: a program that calls this often keeps that of every call.
pub fn write_cert<R: Threads + Sync, G: Gate + Sync, F: Files, K: Sink, T: Targets>(
    rt: &R,
    gate: &G,
    alloc: Global,
    words: &[String],
    files: &mut F,
    out: &mut K,
    target: &mut T,
) -> Status
    // Status, bytes and what is stored are those of the files that the words name, with the bytes that the reads of this call gave.
    // Status 0: no rule is broken under the least signature of their program, and the certificate, which holds, is stored or written
    // whole. With another status nothing is stored.
    ensures answer { Answers (reading (F.held files.old) (F.gave files.old) (F.gave files.new))
        (write_asked (map string_bytes words.now))
        (outcome (K.written out.old) (K.written out.new) (T.replaced target.old) (T.replaced target.new))
        result }
    ensures read { result ≡ Status.ReadFault → Rose (F.faults files.old) (F.faults files.new) }
    ensures read_always { F.faults files.old < F.faults files.new → result ≡ Status.ReadFault }
    ensures read_steady { F.steady files.old
        → HoldsFiles (F.held files.old) (write_asked (map string_bytes words.now))
        → result ≢ Status.ReadFault }
    ensures starts { Starts (write_asked (map string_bytes words.now))
        (F.gave files.old) (F.gave files.new) }
    ensures write { result ≡ Status.WriteFault → Rose (K.faults out.old) (K.faults out.new)
        ⊎ Rose (T.faults target.old) (T.faults target.new) }
    ensures write_always { K.faults out.old < K.faults out.new → result ≡ Status.WriteFault }
    ensures store_always { T.faults target.old < T.faults target.new
        → result ≡ Status.WriteFault }
    // A file that is there and doesn't begin as a certificate is never replaced: where its certificate would be stored the status is that
    // of a write fault.
    ensures other { TakesOther (T.there target.old) (write_asked (map string_bytes words.now))
        → T.replaced target.new ≡ T.replaced target.old }
{
    match read_write(alloc, words) {
        Err(Fail::Refused(_)) => finish(out, USAGE.as_bytes(), Status::Usage),
        Err(Fail::OutOfMemory) => Status::OutOfMemory,
        Ok(command) => answer_command(
            rt,
            gate,
            alloc,
            command.infer,
            command.cert.as_str(),
            &command.files,
            files,
            out,
            target,
        ),
    }
}
