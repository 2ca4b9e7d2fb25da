//! What the command answers.
ghost use Rattle.std.specs.Prelude.{◌≡◌, ◌≢◌, ◌<◌, ◌≤◌, ◌⊎◌, List, IfOk, Some, length, map};
ghost use Rattle.std.specs.String.{string_bytes};
ghost use Rattle.jn_outside.specs.Causes.{Rose};
ghost use Rattle.jn_command.specs.Answer.{reading};
ghost use Rattle.jn_front.specs.declared.source.SourceFile.{SourceFile as SpecFile};
ghost use Rattle.jn_front.specs.Files.{AllHeld, AreReads, StartsOnly, most_files};
ghost use Rattle.nullcheck_annotate_top.specs.Answer.{Answers, effects};
ghost use Rattle.nullcheck_annotate_top.specs.Output.{IsOutput};

use crate::finish::finish;
use crate::output::{Output, output_of};
use crate::study::study_files;
use jn_base::{Fail, Infer, OutOfMemory, Text};
use jn_cli::{Mode, Wanted};
use jn_command::Status;
use jn_front::{SourceRead, read_all};
use jn_outside::{Files, Sink};
use jn_sharing::{Gate, Workers};
use jn_targets::Targets;
use std::alloc::{AllocError, Global};
use std::thread::Threads;

/// How many workers share the files.
const WORKERS: u32 = 4;

/// The texts as strings.
fn strings(alloc: Global, texts: &[Text]) -> Result<Vec<String>, AllocError>
    ensures { IfOk result (λ words. map string_bytes words.items ≡ texts.now) }
{
    let mut words = Vec::new(alloc);
    for text in texts {
        words.push(text.as_str().to_string(alloc)?)?;
    }
    Ok(words)
}

/// The output of files that were read, at most 64.
fn output_of_reads<R: Threads + Sync, G: Gate + Sync>(
    rt: &R,
    gate: &G,
    alloc: Global,
    infer: Infer,
    terse: bool,
    imports: bool,
    mode: Mode,
    reads: &[SourceRead],
) -> Result<Output, OutOfMemory>
    requires few { length reads.now ≤ most_files }
    ensures { IfOk result (λ o. (files : List SpecFile) → AreReads reads.now files
        → IsOutput infer terse imports mode files o) }
{
    let study = study_files(
        rt,
        gate,
        alloc,
        Workers::of(WORKERS),
        infer,
        terse,
        imports,
        reads,
    )?;
    output_of(alloc, mode, reads, study)
}

/// Annotates the files that are asked for.
pub fn answer_wanted<R: Threads + Sync, G: Gate + Sync, F: Files, K: Sink, T: Targets>(
    rt: &R,
    gate: &G,
    alloc: Global,
    wanted: &Wanted,
    files: &mut F,
    out: &mut K,
    targets: &mut T,
) -> Status
    requires few { length wanted.now.files ≤ 64 }
    ensures answer { Answers (reading (F.held files.old) (F.gave files.old) (F.gave files.new))
        (Some wanted.now)
        (effects (K.written out.old) (K.written out.new) (T.replaced targets.old)
        (T.replaced targets.new))
        result }
    ensures read { result ≡ Status.ReadFault → Rose (F.faults files.old) (F.faults files.new) }
    ensures read_always { F.faults files.old < F.faults files.new → result ≡ Status.ReadFault }
    ensures read_steady { F.steady files.old → AllHeld (F.held files.old) wanted.now.files
        → result ≢ Status.ReadFault }
    ensures starts { StartsOnly wanted.now.files (F.gave files.old) (F.gave files.new) }
    ensures write { result ≡ Status.WriteFault
        → Rose (K.faults out.old) (K.faults out.new)
        ⊎ Rose (T.faults targets.old) (T.faults targets.new) }
    ensures write_always { K.faults out.old < K.faults out.new → result ≡ Status.WriteFault }
    ensures replace_always { T.faults targets.old < T.faults targets.new
        → result ≡ Status.WriteFault }
{
    let Ok(names) = strings(alloc, wanted.files.as_slice()) else {
        return Status::OutOfMemory;
    };
    let reads = match read_all(alloc, files, &names) {
        Ok(reads) => reads,
        Err(Fail::Refused(_)) => return Status::ReadFault,
        Err(Fail::OutOfMemory) => return Status::OutOfMemory,
    };
    match output_of_reads(
        rt,
        gate,
        alloc,
        wanted.infer,
        wanted.terse,
        wanted.imports,
        wanted.mode,
        &reads,
    ) {
        Ok(output) => finish(out, targets, &output),
        Err(_) => Status::OutOfMemory,
    }
}
