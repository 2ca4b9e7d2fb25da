//! The output of a verdict: of files that were read, and of too many files.
ghost use Rattle.std.specs.Prelude.{◌≡◌, ◌<◌, List, IfOk, codes, map, length, string_bytes};
ghost use Rattle.jn_base.specs.declared.infer.Infer.{Infer};
ghost use Rattle.jn_command.specs.declared.report.Report.TheVariants.{Refused as RefusedReport};
ghost use Rattle.jn_command.specs.Shown.{shown};
ghost use Rattle.jn_command.specs.Stands.{StandIn};
ghost use Rattle.jn_front.specs.declared.source.SourceFile.{SourceFile as FileOf};
ghost use Rattle.jn_front.specs.Files.{AreReads, files_of_reads, most_files, names_of};
ghost use Rattle.jn_reporters.specs.Reports.{plain_shown};
ghost use Rattle.nullcheck_cert_check.specs.Lines.{status_of, verdict_text};
ghost use Rattle.nullcheck_cert_check.specs.Told.{IsRefusalOf};
ghost use Rattle.nullcheck_cert_check.specs.Verdicts.{HasProgram, refused_rows};

use crate::lines::{fault_line, large_line};
use crate::verdict::CertVerdict;
use jn_base::{OutOfMemory, Row, Seq};
use jn_command::output::Output;
use jn_command::show::{show, show_number};
use jn_command::{Report, Status};
use jn_front::SourceRead;
use jn_reporters::{Plain, Reporter};
use std::alloc::{AllocError, Global};

/// The greatest number of files.
pub const MOST_FILES: usize = 64;

fn rows_of(alloc: Global, rows: &[Row]) -> Result<Report, AllocError>
    ensures { IfOk result (λ report. report ≡ RefusedReport rows.now) }
{
    Ok(Report::Refused(Seq::of_vec(Vec::from_slice(alloc, rows)?)))
}

/// The bytes of rows of files that were read, as the plain reporter shows them.
fn rows_text(alloc: Global, reads: &[SourceRead], rows: &[Row]) -> Result<Vec<u8>, OutOfMemory>
    requires stand { StandIn reads.now rows.now }
    ensures { IfOk result (λ text. (files : List FileOf) → AreReads reads.now files
        → text.items ≡ shown plain_shown files (RefusedReport rows.now)) }
{
    let report = rows_of(alloc, rows)?;
    let shower = show(alloc, reads, &report, Plain::new(alloc))?;
    let text = Vec::from_slice(alloc, shower.bytes())?;
    Ok(text)
}

fn certified_line(alloc: Global) -> Result<Vec<u8>, AllocError>
    ensures { IfOk result (λ line. line.items ≡ codes "certified\n") }
{
    Vec::from_slice(alloc, b"certified\n")
}

/// The bytes that tell a verdict on a certificate of this name.
fn text_of(
    alloc: Global,
    cert: &str,
    reads: &[SourceRead],
    verdict: &CertVerdict,
) -> Result<Vec<u8>, OutOfMemory>
    requires stand { StandIn reads.now (refused_rows verdict.now) }
    requires whole { HasProgram verdict.now → (files : List FileOf) → AreReads reads.now files
        → files_of_reads reads.now ≡ files }
    ensures { IfOk result (λ text. (files : List FileOf) → AreReads reads.now files
        → text.items ≡ verdict_text cert.now files verdict.now) }
{
    match verdict {
        CertVerdict::Refused(rows) => rows_text(alloc, reads, rows.as_slice()),
        CertVerdict::TooLarge => {
            let line = large_line(alloc, cert)?;
            Ok(line)
        }
        CertVerdict::Faulty(base, fault) => fault_line(alloc, cert, reads, base.program(), *fault),
        CertVerdict::Certified(_) => {
            let line = certified_line(alloc)?;
            Ok(line)
        }
    }
}

/// The status with which a command ends that tells the verdict.
fn status_of(verdict: &CertVerdict) -> Status
    ensures { result ≡ status_of verdict.now }
{
    match verdict {
        CertVerdict::Refused(_) => Status::Refused,
        CertVerdict::TooLarge => Status::Rejected,
        CertVerdict::Faulty(_, _) => Status::Rejected,
        CertVerdict::Certified(_) => Status::Ok,
    }
}

/// The output of a verdict on a certificate of this name and files that were read.
pub(crate) fn verdict_output(
    alloc: Global,
    cert: &str,
    reads: &[SourceRead],
    verdict: &CertVerdict,
) -> Result<Output, OutOfMemory>
    requires stand { StandIn reads.now (refused_rows verdict.now) }
    requires whole { HasProgram verdict.now → (files : List FileOf) → AreReads reads.now files
        → files_of_reads reads.now ≡ files }
    ensures status { IfOk result (λ o. o.status ≡ status_of verdict.now) }
    ensures bytes { IfOk result (λ o. (files : List FileOf) → AreReads reads.now files
        → o.bytes ≡ verdict_text cert.now files verdict.now) }
{
    let text = text_of(alloc, cert, reads, verdict)?;
    Ok(Output {
        status: status_of(verdict),
        bytes: Seq::of_vec(text),
    })
}

/// The output of more files than there may be: one row at the first that is too many.
///
/// # Errors
/// No memory was found.
pub fn number_output(alloc: Global, names: &[String]) -> Result<Output, OutOfMemory>
    requires many { most_files < length names.now }
    ensures { IfOk result (λ o. (infer : Infer) (files : List FileOf)
        → names_of files ≡ map string_bytes names.now → IsRefusalOf infer files o.status o.bytes) }
{
    let shower = show_number(alloc, names[MOST_FILES].as_str(), Plain::new(alloc))?;
    let text = Vec::from_slice(alloc, shower.bytes())?;
    Ok(Output {
        status: Status::Refused,
        bytes: Seq::of_vec(text),
    })
}
