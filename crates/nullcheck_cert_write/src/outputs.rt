//! What is told and stored of a verdict.
ghost use Rattle.std.specs.Prelude.{◌≡◌, ◌<◌, ◌⊎◌, ◌++◌, List, IfOk, codes, true};
ghost use Rattle.jn_base.specs.declared.infer.Infer.{Infer};
ghost use Rattle.jn_outside.specs.Causes.{Rose};
ghost use Rattle.jn_command.specs.Shown.{shown};
ghost use Rattle.jn_command.specs.Reports.{rows_of as rows_of_report, status_of};
ghost use Rattle.jn_command.specs.Stands.{StandIn};
ghost use Rattle.jn_front.specs.declared.source.SourceFile.{SourceFile as FileOf};
ghost use Rattle.jn_front.specs.Files.{AreReads};
ghost use Rattle.jn_reporters.specs.Reports.{plain_shown};
ghost use Rattle.nullcheck_cert_write.specs.declared.made.CertMade.TheVariants.{Made};
ghost use Rattle.jn_cert_form.specs.Form.{magic};
ghost use Rattle.jn_targets.specs.Replacing.{takes_other};
ghost use Rattle.nullcheck_cert_write.specs.Answer.{AnswersFiles, outcome};
ghost use Rattle.nullcheck_cert_write.specs.Verdicts.{IsVerdict, rows_of};

use crate::made::CertMade;
use jn_base::{OutOfMemory, Seq};
use jn_command::output::{Output, finish, write};
use jn_command::show::show;
use jn_command::{Report, Status};
use jn_front::SourceRead;
use jn_outside::Sink;
use jn_reporters::{Plain, Reporter};
use jn_targets::Targets;
use std::alloc::{AllocError, Global};

/// The output of a report of files that were read, by the plain reporter.
pub(crate) fn report_output(
    alloc: Global,
    reads: &[SourceRead],
    report: Report,
) -> Result<Output, OutOfMemory>
    requires stand { StandIn reads.now (rows_of_report report) }
    ensures status { IfOk result (λ o. o.status ≡ status_of report) }
    ensures bytes { IfOk result (λ o. (files : List FileOf) → AreReads reads.now files
        → o.bytes ≡ shown plain_shown files report) }
{
    let shower = show(alloc, reads, &report, Plain::new(alloc))?;
    let text = Vec::from_slice(alloc, shower.bytes())?;
    Ok(Output {
        status: report.status(),
        bytes: Seq::of_vec(text),
    })
}

fn large_line(alloc: Global, name: &str) -> Result<Vec<u8>, AllocError>
    ensures { IfOk result (λ line. line.items ≡ name.now ++ codes ": too large\n") }
{
    let mut line = Vec::from_slice(alloc, name.as_bytes())?;
    line.extend_from_slice(b": too large\n")?;
    Ok(line)
}

/// The output of a certificate that is too large.
fn large_output(alloc: Global, name: &str) -> Result<Output, OutOfMemory>
    ensures status { IfOk result (λ o. o.status ≡ Status.Rejected) }
    ensures bytes { IfOk result (λ o. o.bytes ≡ name.now ++ codes ": too large\n") }
{
    let line = large_line(alloc, name)?;
    Ok(Output {
        status: Status::Rejected,
        bytes: Seq::of_vec(line),
    })
}

/// How a certificate begins.
fn front() -> &'static [u8]
    ensures { result.now ≡ magic }
{
    b"JNCERT1\n"
}

/// Writes the certificate to the output where its name is `-`, and else stores it under the name, where no other file is there.
fn put_cert<K: Sink, T: Targets>(name: &str, cert: &[u8], out: &mut K, target: &mut T) -> Status
    ensures answer { (infer : Infer) (files : List FileOf) → IsVerdict infer files (Made cert.now)
        → AnswersFiles infer name.now files
        (outcome (K.written out.old) (K.written out.new) (T.replaced target.old) (T.replaced target.new))
        result }
    ensures write { result ≡ Status.WriteFault → Rose (K.faults out.old) (K.faults out.new)
        ⊎ Rose (T.faults target.old) (T.faults target.new) }
    ensures write_always { K.faults out.old < K.faults out.new → result ≡ Status.WriteFault }
    ensures store_always { T.faults target.old < T.faults target.new
        → result ≡ Status.WriteFault }
    ensures other { takes_other (T.there target.old) name.now magic ≡ true
        → T.replaced target.new ≡ T.replaced target.old }
{
    if name == "-" {
        return finish(out, cert, Status::Ok);
    }
    match target.replace_alike(name, front(), cert) {
        Ok(()) => Status::Ok,
        Err(_) => Status::WriteFault,
    }
}

/// Tells a verdict on files that were read, or stores the certificate under this name.
pub(crate) fn tell<K: Sink, T: Targets>(
    alloc: Global,
    name: &str,
    reads: &[SourceRead],
    made: CertMade,
    out: &mut K,
    target: &mut T,
) -> Status
    requires stand { StandIn reads.now (rows_of made) }
    ensures answer { (infer : Infer) (files : List FileOf) → AreReads reads.now files
        → IsVerdict infer files made
        → AnswersFiles infer name.now files
        (outcome (K.written out.old) (K.written out.new) (T.replaced target.old) (T.replaced target.new))
        result }
    ensures write { result ≡ Status.WriteFault → Rose (K.faults out.old) (K.faults out.new)
        ⊎ Rose (T.faults target.old) (T.faults target.new) }
    ensures write_always { K.faults out.old < K.faults out.new → result ≡ Status.WriteFault }
    ensures store_always { T.faults target.old < T.faults target.new
        → result ≡ Status.WriteFault }
    ensures other { takes_other (T.there target.old) name.now magic ≡ true
        → T.replaced target.new ≡ T.replaced target.old }
{
    match made {
        CertMade::Refused(rows) => write(report_output(alloc, reads, Report::Refused(rows)), out),
        CertMade::Rejected(rows) => write(report_output(alloc, reads, Report::Checked(rows)), out),
        CertMade::TooLarge => write(large_output(alloc, name), out),
        CertMade::Made(cert) => put_cert(name, cert.as_slice(), out, target),
    }
}
