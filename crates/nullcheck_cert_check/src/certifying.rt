//! From files that were read and a certificate to the rows of the first phase that has any, or to what the certificate comes to.
ghost use Rattle.std.specs.Prelude.{◌≡◌, ◌≤◌, ◌<◌, ◌^◌, ℕ, List, IsSome, length, map, IfOk};
ghost use Rattle.jn_base.specs.declared.refusal.Fail.TheVariants.{Refused as RefusedFor};
ghost use Rattle.jn_places.specs.PlacedView.{placed_file};
ghost use Rattle.jn_cert.specs.Checking.{IsCertified, IsWhyRefused};
ghost use Rattle.jn_front.specs.declared.source.SourceFile.{SourceFile as SpecFile};
ghost use Rattle.jn_front.specs.Files.{files_of_reads, AreReads, most_files};
ghost use Rattle.jn_command.specs.Stands.{StandIn};
ghost use Rattle.jn_phases.specs.Phases.{IsTypedOr, TypedProgramOf};
ghost use Rattle.nullcheck_cert_check.specs.Inputs.{IsCertRead};
ghost use Rattle.nullcheck_cert_check.specs.Verdicts.{HasProgram, IsVerdict, refused_rows};

use crate::certificate::CertRead;
use crate::law::{nothing_is_no_certificate, programs_of_trees_are_counted};
use crate::verdict::CertVerdict;
use jn_accept::Accepted;
use jn_base::{Fail, Infer, OutOfMemory, Row, Seq};
use jn_cert::law::refused_certificates_do_not_hold;
use jn_cert::{CertFault, check_cert};
use jn_front::SourceRead;
use jn_index::BaseTyped;
use jn_phases::law::files_have_one_typing;
use jn_phases::{TypedFiles, type_files};
use jn_safe_files::law::files_accepted_under_some_signature_are_safe;
use jn_sharing::{Straight, Workers};
use jn_trees::{FileTree, Names};
use std::alloc::Global;
use std::mem::forget;
use std::thread::Threads;

/// The verdict where the certificate holds of the files' program.
fn certified(
    infer: Infer,
    reads: &[SourceRead],
    names: &Names,
    accepted: Accepted,
    cert: &CertRead,
) -> CertVerdict
    requires program { TypedProgramOf infer (files_of_reads reads.now) names.now accepted.0 }
    requires certified { IsCertified accepted.0 cert.now.bytes accepted.1 }
    ensures found { (bytes : List ℕ) → IsCertRead cert.now bytes
        → IsVerdict infer (files_of_reads reads.now) bytes result }
    ensures program { HasProgram result }
{
    let _infer = infer;
    let _reads = reads;
    let _names = names;
    let _cert = cert;
    nothing_is_no_certificate();
    files_accepted_under_some_signature_are_safe();
    files_have_one_typing();
    let _program = accepted.program();
    CertVerdict::Certified(accepted)
}

/// The verdict where the certificate doesn't hold of the files' program; one that isn't read whole is too large.
fn faulty(
    infer: Infer,
    reads: &[SourceRead],
    names: &Names,
    base: BaseTyped,
    cert: &CertRead,
    fault: CertFault,
) -> CertVerdict
    requires program { TypedProgramOf infer (files_of_reads reads.now) names.now base }
    requires why { IsWhyRefused base cert.now.bytes (RefusedFor fault) }
    ensures found { (bytes : List ℕ) → IsCertRead cert.now bytes
        → IsVerdict infer (files_of_reads reads.now) bytes result }
    ensures program { HasProgram result }
{
    let _infer = infer;
    let _reads = reads;
    let _names = names;
    programs_of_trees_are_counted();
    refused_certificates_do_not_hold();
    if cert.whole {
        CertVerdict::Faulty(base, fault)
    } else {
        forget(base);
        CertVerdict::TooLarge
    }
}

/// What the certificate comes to of the files' program.
fn certify(
    alloc: Global,
    infer: Infer,
    reads: &[SourceRead],
    names: &Names,
    base: BaseTyped,
    cert: &CertRead,
) -> Result<CertVerdict, OutOfMemory>
    requires program { TypedProgramOf infer (files_of_reads reads.now) names.now base }
    requires short { length cert.now.bytes < 2 ^ 32 }
    ensures found { IfOk result (λ verdict. (bytes : List ℕ) → IsCertRead cert.now bytes
        → IsVerdict infer (files_of_reads reads.now) bytes verdict) }
    ensures program { IfOk result (λ verdict. HasProgram verdict) }
{
    match check_cert(alloc, base, cert.bytes.as_slice()) {
        Ok(accepted) => Ok(certified(infer, reads, names, accepted, cert)),
        Err((base, fail)) => match fail {
            Fail::Refused(fault) => Ok(faulty(infer, reads, names, base, cert, fault)),
            Fail::OutOfMemory => {
                forget(base);
                Err(OutOfMemory)
            }
        },
    }
}

/// What files come to that had these rows, or this program, before the certificate.
fn verdict_of(
    alloc: Global,
    infer: Infer,
    reads: &[SourceRead],
    names: &Names,
    trees: &[FileTree],
    rows: Seq<Row>,
    base: Option<BaseTyped>,
    cert: &CertRead,
) -> Result<CertVerdict, OutOfMemory>
    requires short { length cert.now.bytes < 2 ^ 32 }
    requires typed { (files : List SpecFile) → AreReads reads.now files
        → IsTypedOr infer files names.now (map placed_file trees.now) rows base }
    requires whole { IsSome base
        → (files : List SpecFile) → AreReads reads.now files → files_of_reads reads.now ≡ files }
    requires stand { StandIn reads.now rows }
    ensures found { IfOk result (λ verdict. (files : List SpecFile) (bytes : List ℕ)
        → AreReads reads.now files → IsCertRead cert.now bytes
        → IsVerdict infer files bytes verdict) }
    ensures whole { IfOk result (λ verdict. HasProgram verdict
        → (files : List SpecFile) → AreReads reads.now files → files_of_reads reads.now ≡ files) }
    ensures stand { IfOk result (λ verdict. StandIn reads.now (refused_rows verdict)) }
{
    let _trees = trees;
    match base {
        None => Ok(CertVerdict::Refused(rows)),
        Some(base) => {
            drop(rows);
            certify(alloc, infer, reads, names, base, cert)
        }
    }
}

/// What files that were read, at most 64, and a certificate come to, with the choice of members that are inferred. One worker does all
/// of it, so that no thread is started. Names and trees are left to the process's end: giving them back node by node takes long.
///
/// # Errors
/// No memory was found.
pub(crate) fn find<R: Threads + Sync>(
    rt: &R,
    alloc: Global,
    infer: Infer,
    reads: &[SourceRead],
    cert: &CertRead,
) -> Result<CertVerdict, OutOfMemory>
    requires few { length reads.now ≤ most_files }
    requires short { length cert.now.bytes < 2 ^ 32 }
    ensures found { IfOk result (λ verdict. (files : List SpecFile) (bytes : List ℕ)
        → AreReads reads.now files → IsCertRead cert.now bytes
        → IsVerdict infer files bytes verdict) }
    ensures whole { IfOk result (λ verdict. HasProgram verdict
        → (files : List SpecFile) → AreReads reads.now files → files_of_reads reads.now ≡ files) }
    ensures stand { IfOk result (λ verdict. StandIn reads.now (refused_rows verdict)) }
{
    let TypedFiles {
        rows,
        base,
        names,
        trees,
    } = type_files(rt, &Straight, alloc, Workers::of(1), infer, reads)?;
    let found = verdict_of(alloc, infer, reads, &names, &trees, rows, base, cert);
    forget(names);
    forget(trees);
    found
}
