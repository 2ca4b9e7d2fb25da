//! What a command answers.
ghost use Rattle.std.specs.Prelude.{◌≡◌, ◌≢◌, ◌<◌, ◌≤◌, ◌∷◌, [], List, IfOk, MatchOption, map, None, Some, length, true};
ghost use Rattle.std.specs.String.{string_bytes};
ghost use Rattle.jn_outside.specs.Causes.{Rose};
ghost use Rattle.jn_base.specs.declared.place.Row.{Row as SpecRow};
ghost use Rattle.jn_places.specs.PlacedView.{placed_file};
ghost use Rattle.jn_command.specs.declared.report.Report.TheVariants.{Checked, Refused};
ghost use Rattle.jn_asked.specs.Asked.{asked_with};
ghost use Rattle.jn_command.specs.Answer.{reading};
ghost use Rattle.nullcheck_top.specs.CommandAnswer.{HoldsFiles, ReadsNothing, Starts};
ghost use Rattle.jn_command.specs.Made.{front_of, made_file, made_text};
ghost use Rattle.jn_command.specs.Reports.{rows_of};
ghost use Rattle.jn_command.specs.Stands.{StandIn};
ghost use Rattle.jn_front.specs.declared.source.SourceFile.{SourceFile as FileOf};
ghost use Rattle.jn_front.specs.Files.{AllHeld, AreReads, IsReadOf, StartsOnly, most_files};
ghost use Rattle.nullcheck_top.specs.Answers.{Answers, AnswersFiles};
ghost use Rattle.nullcheck_top.specs.Found.{AreAtHand, AreWhole, IsFinding};
ghost use Rattle.jn_safe_files.specs.Safe.{IsSafe};

use crate::check::check;
use crate::found::{CheckedFiles, Found};
use crate::outputs::{MOST_FILES, number_output, report_output};
use jn_accept::Accepted;
use jn_base::{Fail, OutOfMemory, Text};
use jn_cli::Command;
use jn_command::made::{made_line, made_read};
use jn_command::output::write;
use jn_command::{Report, Status};
use jn_front::{SourceRead, read_all};
use jn_gen::generate;
use jn_outside::{Files, Sink};
use jn_reporters::Reporter;
use jn_run::run_files;
use jn_workers::Gate;
use std::alloc::{AllocError, Global};
use std::mem::forget;
use std::thread::Threads;

/// The texts as the words of a command.
fn strings(alloc: Global, texts: &[Text]) -> Result<Vec<String>, AllocError>
    ensures { IfOk result (λ words. map string_bytes words.items ≡ texts.now) }
{
    let mut words = Vec::new(alloc);
    for text in texts {
        words.push(text.as_str().to_string(alloc)?)?;
    }
    Ok(words)
}

/// The program that is to be run: that of accepted files, where a run is asked for.
fn to_run<'a>(run: bool, found: &'a Found) -> Option<&'a Accepted>
    ensures { MatchOption result (run ≡ true → found.now.accepted ≡ None)
        (λ accepted. (run ≡ true) × (found.now.accepted ≡ Some accepted.now)) }
{
    if run { found.accepted.as_ref() } else { None }
}

/// Are the trees needed no more? So it is before a run: rows of files that a phase refuses may have notes by the trees.
fn drops_trees(run: bool, report: &Report) -> bool
    ensures { result ≡ true → (rows : List SpecRow) → report.now ≡ Refused rows → ⊥ }
{
    match report {
        Report::Refused(_) => false,
        Report::Checked(_) => run,
    }
}

/// Writes what files that were read came to: after these bytes their report, or the run of accepted files where one is asked for.
fn answer_checked<R: Threads + Sync, P: Reporter, K: Sink>(
    rt: &R,
    alloc: Global,
    command: &Command,
    reporter: P,
    reads: &[SourceRead],
    front: &[u8],
    checked: &CheckedFiles,
    out: &mut K,
) -> Status
    requires front { front.now ≡ front_of (P.form reporter).document command.now.classes }
    requires stand { StandIn reads.now (rows_of checked.now.found.report) }
    requires found { (files : List FileOf) → AreReads reads.now files
        → IsFinding command.now.infer files checked.now.names checked.now.found }
    requires whole { AreWhole checked.now.found.report reads.now }
    requires trees { AreAtHand reads.now checked.now.found.report checked.now.names
        (map placed_file checked.now.trees.items) }
    requires safe { checked.now.found.report ≡ Checked [] → (files : List FileOf)
        → AreReads reads.now files → IsSafe command.now.infer files }
    ensures answer { (files : List FileOf) → AreReads reads.now files
        → AnswersFiles (asked_with command.now (P.form reporter)) files
        (K.written out.old) (K.written out.new) result }
    ensures write { result ≡ Status.WriteFault → Rose (K.faults out.old) (K.faults out.new) }
    ensures write_always { K.faults out.old < K.faults out.new → result ≡ Status.WriteFault }
{
    match to_run(command.run, &checked.found) {
        Some(accepted) => run_files(
            alloc,
            accepted,
            &checked.names,
            reads,
            command.args.as_slice(),
            command.steps,
            out,
        ),
        None => write(
            report_output(
                rt,
                alloc,
                reads,
                &checked.names,
                &checked.trees,
                &checked.found,
                front,
                reporter,
            ),
            out,
        ),
    }
}

/// Checks files that were read, at most 64, and writes what they come to.
///
/// What the check took is left to the end of the process, which is near then and gives back all at once: giving back the trees node
/// by node takes about a fifth of the time of a check by four workers. Only a run, which may take long and has memory of its own,
/// begins without them.
fn answer_reads<R: Threads + Sync, G: Gate + Sync, P: Reporter, K: Sink>(
    rt: &R,
    gate: &G,
    alloc: Global,
    command: &Command,
    reporter: P,
    reads: &[SourceRead],
    front: &[u8],
    out: &mut K,
) -> Status
    requires front { front.now ≡ front_of (P.form reporter).document command.now.classes }
    requires few { length reads.now ≤ most_files }
    ensures answer { (files : List FileOf) → AreReads reads.now files
        → AnswersFiles (asked_with command.now (P.form reporter)) files
        (K.written out.old) (K.written out.new) result }
    ensures write { result ≡ Status.WriteFault → Rose (K.faults out.old) (K.faults out.new) }
    ensures write_always { K.faults out.old < K.faults out.new → result ≡ Status.WriteFault }
{
    match check(rt, gate, alloc, command.workers, command.infer, reads) {
        Ok(mut checked) => {
            let drops = drops_trees(command.run, &checked.found.report);
            if drops {
                checked.trees.clear();
            }
            let status = answer_checked(rt, alloc, command, reporter, reads, front, &checked, out);
            forget(checked);
            status
        }
        Err(_) => Status::OutOfMemory,
    }
}

/// The line and the text of the program that a command makes, as it is read.
fn made(alloc: Global, document: bool, classes: u32) -> Result<(Vec<u8>, SourceRead), OutOfMemory>
    requires some { 1 ≤ classes }
    requires most { classes ≤ 500 }
    ensures front { IfOk result (λ m. m.0.items ≡ front_of document classes) }
    ensures read { IfOk result (λ m. IsReadOf m.1 (made_file (made_text classes))) }
{
    let text = generate(alloc, classes)?;
    let front = made_line(alloc, document, classes, text.len())?;
    Ok((front, made_read(alloc, text)?))
}

/// Checks the program that a command makes, and writes what it comes to.
fn answer_made<R: Threads + Sync, G: Gate + Sync, P: Reporter, K: Sink>(
    rt: &R,
    gate: &G,
    alloc: Global,
    command: &Command,
    reporter: P,
    out: &mut K,
) -> Status
    requires some { 1 ≤ command.now.classes }
    requires most { command.now.classes ≤ 500 }
    ensures answer { AnswersFiles
        (asked_with command.now (P.form reporter))
        (made_file (made_text command.now.classes) ∷ []) (K.written out.old) (K.written out.new)
        result }
    ensures write { result ≡ Status.WriteFault → Rose (K.faults out.old) (K.faults out.new) }
    ensures write_always { K.faults out.old < K.faults out.new → result ≡ Status.WriteFault }
{
    match made(alloc, reporter.is_document(), command.classes) {
        Ok((front, read)) => {
            answer_reads(rt, gate, alloc, command, reporter, &[read], &front, out)
        }
        Err(_) => Status::OutOfMemory,
    }
}

/// Checks the files of these names, and writes what they come to.
fn answer_named<R: Threads + Sync, G: Gate + Sync, P: Reporter, F: Files, K: Sink>(
    rt: &R,
    gate: &G,
    alloc: Global,
    command: &Command,
    reporter: P,
    names: &[String],
    files: &mut F,
    out: &mut K,
) -> Status
    requires classes { command.now.classes ≡ 0 }
    requires named { map string_bytes names.now ≡ command.now.files }
    ensures answer { Answers (reading (F.held files.old) (F.gave files.old) (F.gave files.new))
        (Some (asked_with command.now (P.form reporter)))
        (K.written out.old) (K.written out.new) result }
    ensures read { result ≡ Status.ReadFault → Rose (F.faults files.old) (F.faults files.new) }
    ensures read_always { F.faults files.old < F.faults files.new → result ≡ Status.ReadFault }
    ensures read_steady { F.steady files.old
        → AllHeld (F.held files.old) (map string_bytes names.now) → result ≢ Status.ReadFault }
    ensures read_count { F.steady files.old
        → AllHeld (F.held files.old) (map string_bytes names.now)
        → F.faults files.new ≡ F.faults files.old }
    ensures starts { StartsOnly (map string_bytes names.now) (F.gave files.old) (F.gave files.new) }
    ensures unread { most_files < length names.now
        → (F.faults files.new ≡ F.faults files.old) × (F.gave files.new ≡ F.gave files.old) }
    ensures write { result ≡ Status.WriteFault → Rose (K.faults out.old) (K.faults out.new) }
    ensures write_always { K.faults out.old < K.faults out.new → result ≡ Status.WriteFault }
{
    if names.len() > MOST_FILES {
        return write(number_output(alloc, names, reporter), out);
    }
    let reads = match read_all(alloc, files, names) {
        Ok(reads) => reads,
        Err(Fail::Refused(_)) => return Status::ReadFault,
        Err(Fail::OutOfMemory) => return Status::OutOfMemory,
    };
    answer_reads(rt, gate, alloc, command, reporter, &reads, &[], out)
}

/// Checks the program that a command makes, or the files that it names, and writes what they come to.
pub fn answer_command<R: Threads + Sync, G: Gate + Sync, P: Reporter, F: Files, K: Sink>(
    rt: &R,
    gate: &G,
    alloc: Global,
    command: &Command,
    reporter: P,
    files: &mut F,
    out: &mut K,
) -> Status
    requires classes { command.now.classes ≤ 500 }
    ensures answer { Answers (reading (F.held files.old) (F.gave files.old) (F.gave files.new))
        (Some (asked_with command.now (P.form reporter)))
        (K.written out.old) (K.written out.new) result }
    ensures read { result ≡ Status.ReadFault → Rose (F.faults files.old) (F.faults files.new) }
    ensures read_always { F.faults files.old < F.faults files.new → result ≡ Status.ReadFault }
    ensures read_steady { F.steady files.old
        → HoldsFiles (F.held files.old)
        (Some (asked_with command.now (P.form reporter)))
        → result ≢ Status.ReadFault }
    ensures read_count { F.steady files.old
        → HoldsFiles (F.held files.old)
        (Some (asked_with command.now (P.form reporter)))
        → F.faults files.new ≡ F.faults files.old }
    ensures starts { Starts
        (Some (asked_with command.now (P.form reporter)))
        (F.gave files.old) (F.gave files.new) }
    ensures unread { ReadsNothing
        (Some (asked_with command.now (P.form reporter)))
        → (F.faults files.new ≡ F.faults files.old) × (F.gave files.new ≡ F.gave files.old) }
    ensures write { result ≡ Status.WriteFault → Rose (K.faults out.old) (K.faults out.new) }
    ensures write_always { K.faults out.old < K.faults out.new → result ≡ Status.WriteFault }
{
    if command.classes != 0 {
        return answer_made(rt, gate, alloc, command, reporter, out);
    }
    match strings(alloc, command.files.as_slice()) {
        Ok(names) => answer_named(rt, gate, alloc, command, reporter, &names, files, out),
        Err(_) => Status::OutOfMemory,
    }
}
