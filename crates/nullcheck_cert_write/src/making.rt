//! From files that were read to the rows of the first phase that has any, or to a certificate.
ghost use Rattle.std.specs.Prelude.{◌≡◌, ◌≤◌, [], List, IsSome, length, map, true, false, IfOk};
ghost use Rattle.jn_places.specs.PlacedView.{placed_file};
ghost use Rattle.jn_transfer.specs.Rules.{Breaks};
ghost use Rattle.jn_inference_law.specs.Solution.{IsLeastSignature};
ghost use Rattle.jn_front.specs.declared.source.SourceFile.{SourceFile as SpecFile};
ghost use Rattle.jn_front.specs.Files.{files_of_reads, AreReads, most_files};
ghost use Rattle.jn_command.specs.Stands.{StandIn};
ghost use Rattle.jn_phases.specs.Phases.{IsTypedOr, TypedProgramOf};
ghost use Rattle.nullcheck_cert_write.specs.Making.{IsMadeOf};
ghost use Rattle.nullcheck_cert_write.specs.Verdicts.{IsVerdict, rows_of};

use crate::made::CertMade;
use crate::tables::least_tables;
use jn_base::{Fail, Infer, OutOfMemory, Row, Seq};
use jn_cert::{WriteFail, write_cert};
use jn_cert_exists_law::law::{accepted_programs_have_certificates, least_tables_have_a_form};
use jn_front::SourceRead;
use jn_index::BaseTyped;
use jn_inference_law::law::regular_programs_are_inferable;
use jn_phases::{TypedFiles, type_files};
use jn_sharing::{Gate, Workers};
use jn_sigs::Sig;
use jn_system::{check_all, solve_sig};
use jn_trees::{FileTree, Names};
use std::alloc::Global;
use std::mem::forget;
use std::thread::Threads;

/// The certificate of a program that breaks no rule, by its least signature and the least tables under it.
fn written(alloc: Global, base: &BaseTyped, sig: &Sig) -> Result<CertMade, OutOfMemory>
    requires least { IsLeastSignature base.now sig.now }
    requires unbroken { Breaks base.now sig.now [] }
    ensures { IfOk result (λ made. IsMadeOf base.now made) }
{
    regular_programs_are_inferable();
    least_tables_have_a_form();
    accepted_programs_have_certificates();
    let program = base.program();
    let tables = least_tables(alloc, program, sig)?;
    match write_cert(alloc, program, sig, &tables) {
        Ok(cert) => Ok(CertMade::Made(Seq::of_vec(cert))),
        Err(Fail::Refused(WriteFail::TooLarge)) => Ok(CertMade::TooLarge),
        Err(Fail::OutOfMemory) => Err(OutOfMemory),
    }
}

fn no_rows(rows: &Vec<Row>) -> bool
    ensures some { result ≡ false → rows.now.items ≡ [] → ⊥ }
    ensures none { result ≡ true → rows.now.items ≡ [] }
{
    rows.is_empty()
}

/// What a base-typed program comes to.
fn make_typed<R: Threads + Sync, G: Gate + Sync>(
    rt: &R,
    gate: &G,
    alloc: Global,
    workers: Workers,
    base: &BaseTyped,
) -> Result<CertMade, OutOfMemory>
    ensures { IfOk result (λ made. IsMadeOf base.now made) }
{
    regular_programs_are_inferable();
    let sig = solve_sig(rt, alloc, base.indexed(), workers, gate)?;
    let rows = check_all(rt, alloc, base.indexed(), &sig, workers, gate)?;
    if no_rows(&rows) {
        written(alloc, base, &sig)
    } else {
        Ok(CertMade::Rejected(Seq::of_vec(rows)))
    }
}

/// What the files' program comes to. It is left to the process's end: giving it back node by node takes long.
fn make_based<R: Threads + Sync, G: Gate + Sync>(
    rt: &R,
    gate: &G,
    alloc: Global,
    workers: Workers,
    infer: Infer,
    reads: &[SourceRead],
    names: &Names,
    base: BaseTyped,
) -> Result<CertMade, OutOfMemory>
    requires program { TypedProgramOf infer (files_of_reads reads.now) names.now base }
    ensures { IfOk result (λ made. IsVerdict infer (files_of_reads reads.now) made) }
{
    let _infer = infer;
    let _reads = reads;
    let _names = names;
    let made = make_typed(rt, gate, alloc, workers, &base);
    forget(base);
    made
}

/// What files come to that had these rows, or this program, before their rules.
fn verdict_of<R: Threads + Sync, G: Gate + Sync>(
    rt: &R,
    gate: &G,
    alloc: Global,
    workers: Workers,
    infer: Infer,
    reads: &[SourceRead],
    names: &Names,
    trees: &[FileTree],
    rows: Seq<Row>,
    base: Option<BaseTyped>,
) -> Result<CertMade, OutOfMemory>
    requires typed { (files : List SpecFile) → AreReads reads.now files
        → IsTypedOr infer files names.now (map placed_file trees.now) rows base }
    requires whole { IsSome base
        → (files : List SpecFile) → AreReads reads.now files → files_of_reads reads.now ≡ files }
    requires stand { StandIn reads.now rows }
    ensures found { IfOk result (λ verdict. (files : List SpecFile) → AreReads reads.now files
        → IsVerdict infer files verdict) }
    ensures stand { IfOk result (λ verdict. StandIn reads.now (rows_of verdict)) }
{
    let _trees = trees;
    match base {
        None => Ok(CertMade::Refused(rows)),
        Some(base) => {
            drop(rows);
            make_based(rt, gate, alloc, workers, infer, reads, names, base)
        }
    }
}

/// What files that were read, at most 64, come to where a certificate is asked for, with the choice of members that are inferred, by so
/// many workers: the rows of the first phase that has any; the rows of the rules under the least signature; or, where none is broken,
/// the certificate by the least signature and the least tables, which holds. It keeps the tables of all bodies. Names and trees are left
/// to the process's end, too.
///
/// # Errors
/// No memory was found.
pub fn find<R: Threads + Sync, G: Gate + Sync>(
    rt: &R,
    gate: &G,
    alloc: Global,
    workers: Workers,
    infer: Infer,
    reads: &[SourceRead],
) -> Result<CertMade, OutOfMemory>
    requires few { length reads.now ≤ most_files }
    ensures found { IfOk result (λ verdict. (files : List SpecFile) → AreReads reads.now files
        → IsVerdict infer files verdict) }
    ensures stand { IfOk result (λ verdict. StandIn reads.now (rows_of verdict)) }
{
    let TypedFiles {
        rows,
        base,
        names,
        trees,
    } = type_files(rt, gate, alloc, workers, infer, reads)?;
    let found = verdict_of(
        rt, gate, alloc, workers, infer, reads, &names, &trees, rows, base,
    );
    forget(names);
    forget(trees);
    found
}
