//! What the command writes of what files come to.
ghost use Rattle.std.specs.Prelude.{◌≡◌, [], List, IfOk};
ghost use Rattle.jn_command.specs.Shown.{shown};
ghost use Rattle.jn_command.specs.Stands.{StandIn};
ghost use Rattle.jn_command.specs.declared.report.Report.TheVariants.{Refused as RefusedReport};
ghost use Rattle.jn_front.specs.declared.source.SourceFile.{SourceFile as SpecFile};
ghost use Rattle.jn_front.specs.Files.{files_of_reads, AreReads};
ghost use Rattle.jn_reporters.specs.Reports.{plain_shown};
ghost use Rattle.nullcheck_annotate_top.specs.Changes as changes_spec;
ghost use Rattle.nullcheck_annotate_top.specs.Output as spec;
ghost use Rattle.nullcheck_annotate_top.specs.Study.{IsOf};

use crate::changes::{Change, changes, diffs, replacements};
use crate::faults::{fault_text, left_texts};
use crate::study::{Left, Study};
use jn_annotate::AnnotateFault;
use jn_base::{OutOfMemory, Row, Seq, Span};
use jn_cli::Mode;
use jn_command::show::show;
use jn_command::{Report, Status};
use jn_front::SourceRead;
use jn_reporters::{Plain, Reporter};
use jn_targets::Replaced;
use std::alloc::Global;

/// The bytes that a command writes, the files that it replaces, and the status with which it ends where both are done.
#[derive(Drop)]
pub struct Output {
    pub status: Status,
    pub bytes: Seq<u8>,
    pub replaced: Seq<Replaced>,
}

/// An output that replaces no file.
pub(crate) fn only(alloc: Global, status: Status, bytes: Vec<u8>) -> Output
    ensures { result ≡ spec.only status bytes.items }
{
    Output {
        status,
        bytes: Seq::of_vec(bytes),
        replaced: Seq::new(alloc),
    }
}

/// The report of files that are refused by these rows.
fn refused_text(alloc: Global, reads: &[SourceRead], rows: Seq<Row>) -> Result<Vec<u8>, OutOfMemory>
    requires stand { StandIn reads.now rows }
    ensures { IfOk result (λ text. (files : List SpecFile) → AreReads reads.now files
        → text.items ≡ shown plain_shown files (RefusedReport rows)) }
{
    let report = Report::Refused(rows);
    let shower = show(alloc, reads, &report, Plain::new(alloc))?;
    Ok(Vec::from_slice(alloc, shower.bytes())?)
}

fn refused_output(
    alloc: Global,
    reads: &[SourceRead],
    rows: Seq<Row>,
) -> Result<Output, OutOfMemory>
    requires stand { StandIn reads.now rows }
    ensures { IfOk result (λ o. (files : List SpecFile) → AreReads reads.now files
        → o ≡ spec.only Status.Refused (shown plain_shown files (RefusedReport rows))) }
{
    let text = refused_text(alloc, reads, rows)?;
    Ok(only(alloc, Status::Refused, text))
}

/// Whether anything would change, as a status.
fn status_of_changes(changes: &[Change]) -> Status
    ensures { result ≡ spec.status_of_changes changes.now }
{
    match changes {
        [] => Status::Ok,
        _ => Status::Rejected,
    }
}

/// What changes is shown.
fn shown_output(alloc: Global, changes: &[Change]) -> Result<Output, OutOfMemory>
    ensures { IfOk result (λ o. o ≡ spec.only Status.Ok (changes_spec.diffs changes.now)) }
{
    let text = diffs(alloc, changes)?;
    Ok(only(alloc, Status::Ok, text))
}

/// What changes is written.
fn written_output(alloc: Global, changes: &[Change]) -> Result<Output, OutOfMemory>
    ensures { IfOk result (λ o. o
        ≡ record {
          status = Status.Ok;
          bytes = [];
          replaced = changes_spec.replacements changes.now;
        }) }
{
    let files = replacements(alloc, changes)?;
    Ok(Output {
        status: Status::Ok,
        bytes: Seq::new(alloc),
        replaced: Seq::of_vec(files),
    })
}

fn changed_output(alloc: Global, mode: Mode, changes: &[Change]) -> Result<Output, OutOfMemory>
    ensures { IfOk result (λ o. o ≡ spec.changed_output mode changes.now) }
{
    match mode {
        Mode::Show => shown_output(alloc, changes),
        Mode::Check => Ok(only(alloc, status_of_changes(changes), Vec::new(alloc))),
        Mode::Write => written_output(alloc, changes),
    }
}

/// The output with slots after it that are left without words.
fn told_after(
    alloc: Global,
    reads: &[SourceRead],
    left: &[Left],
    output: Output,
) -> Result<Output, OutOfMemory>
    ensures { IfOk result
        (λ o. o ≡ spec.told_after (files_of_reads reads.now) left.now output) }
{
    match left {
        [] => Ok(output),
        _ => {
            let Output {
                bytes,
                replaced,
                ..
            } = output;
            let mut text = Vec::from_slice(alloc, bytes.as_slice())?;
            drop(bytes);
            let lines = left_texts(alloc, reads, left)?;
            text.extend_from_slice(&lines)?;
            Ok(Output {
                status: Status::Rejected,
                bytes: Seq::of_vec(text),
                replaced,
            })
        }
    }
}

/// The output of annotated texts of files, and of what is left of them.
fn annotated_output(
    alloc: Global,
    mode: Mode,
    reads: &[SourceRead],
    texts: &[Seq<u8>],
    left: &[Left],
) -> Result<Output, OutOfMemory>
    ensures { IfOk result (λ o. o
        ≡ spec.told_after (files_of_reads reads.now) left.now
        (spec.changed_output mode
        (changes_spec.changes (files_of_reads reads.now) texts.now))) }
{
    let changes = changes(alloc, reads, texts)?;
    let output = changed_output(alloc, mode, &changes)?;
    told_after(alloc, reads, left, output)
}

/// The output of a fault.
fn fault_output(
    alloc: Global,
    reads: &[SourceRead],
    fault: AnnotateFault,
    span: Span,
) -> Result<Output, OutOfMemory>
    ensures { IfOk result (λ o. o
        ≡ spec.only Status.Rejected (spec.fault_text (files_of_reads reads.now) fault span)) }
{
    let text = fault_text(alloc, reads, fault, span)?;
    Ok(only(alloc, Status::Rejected, text))
}

/// The output of what files that were read come to.
///
/// # Errors
///
/// No memory was found.
pub fn output_of(
    alloc: Global,
    mode: Mode,
    reads: &[SourceRead],
    study: Study,
) -> Result<Output, OutOfMemory>
    requires of { IsOf reads.now study }
    ensures { IfOk result (λ o. (files : List SpecFile) → AreReads reads.now files
        → o ≡ spec.output_of mode files study) }
{
    match study {
        Study::Refused(rows) => refused_output(alloc, reads, rows),
        Study::Unannotated(fault, span) => fault_output(alloc, reads, fault, span),
        Study::Annotated(texts, left) => {
            annotated_output(alloc, mode, reads, texts.as_slice(), left.as_slice())
        }
    }
}
