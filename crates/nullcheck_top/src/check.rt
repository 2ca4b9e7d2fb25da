//! The checker of the subset: from files that were read to the rows of the first phase that has any, or to the rules.
ghost use Rattle.std.specs.Prelude.{◌≡◌, ◌≤◌, ◌<◌, ◌∷◌, [], List, None, IsSome, length, map, IfOk};
ghost use Rattle.jn_base.specs.declared.code.Code.TheVariants.{B1};
ghost use Rattle.jn_places.specs.PlacedView.{placed_file};
ghost use Rattle.jn_base.specs.declared.infer.Infer.{Infer as SpecInfer};
ghost use Rattle.jn_front.specs.declared.source.SourceFile.{SourceFile as SpecFile};
ghost use Rattle.jn_front.specs.Files.{files_of_reads, AreReads, most_files};
ghost use Rattle.jn_front.specs.Limits.{row_at};
ghost use Rattle.jn_command.specs.declared.report.Report.TheVariants.{Refused, Checked};
ghost use Rattle.jn_command.specs.Reports.{rows_of};
ghost use Rattle.jn_command.specs.Stands.{StandIn};
ghost use Rattle.nullcheck_top.specs.Found.{AreAtHand, AreWhole, IsFinding, found_of};
ghost use Rattle.jn_phases.specs.Phases.{IsTypedOr, TypedProgramOf};
ghost use Rattle.jn_report.specs.Report.{IsReport};
ghost use Rattle.jn_safe_files.specs.Safe.{IsSafe};

use crate::found::{CheckedFiles, Found};
use crate::law::accepted_files_are_safe;
use jn_accept::{Accepted, accept};
use jn_base::{Infer, OutOfMemory, Row, Seq};
use jn_command::Report;
use jn_front::SourceRead;
use jn_index::BaseTyped;
use jn_inference_law::law::regular_programs_are_inferable;
use jn_phases::{TypedFiles, too_many_files, type_files};
use jn_sharing::Workers;
use jn_sigs::Sig;
use jn_system::{check_all, solve_sig};
use jn_trees::{FileTree, Names};
use jn_workers::Gate;
use std::alloc::Global;
use std::thread::Threads;

/// What is found of files that are refused by these rows.
fn refused(rows: Seq<Row>) -> Found
    ensures { result ≡ record { report = Refused rows; accepted = None; rejected = None } }
{
    Found {
        report: Report::Refused(rows),
        accepted: None,
        rejected: None,
    }
}

/// What is found where the rules have these rows.
fn found_by(rows: Vec<Row>, made: Result<Accepted, (BaseTyped, Sig)>) -> Found
    ensures { result ≡ found_of rows.items made }
{
    let report = Report::Checked(Seq::of_vec(rows));
    match made {
        Ok(accepted) => Found {
            report,
            accepted: Some(accepted),
            rejected: None,
        },
        Err(left) => Found {
            report,
            accepted: None,
            rejected: Some(left),
        },
    }
}

/// What is found of files with this program, which has no row of types: the rows of the rules under its least signature.
fn checked<R: Threads + Sync, G: Gate + Sync>(
    rt: &R,
    alloc: Global,
    workers: Workers,
    infer: Infer,
    reads: &[SourceRead],
    names: &Names,
    base: BaseTyped,
    gate: &G,
) -> Result<Found, OutOfMemory>
    requires program { TypedProgramOf infer (files_of_reads reads.now) names.now base }
    ensures { IfOk result (λ found. IsFinding infer (files_of_reads reads.now) names.now found) }
{
    regular_programs_are_inferable();
    let sig = solve_sig(rt, alloc, base.indexed(), workers, gate)?;
    let rows = check_all(rt, alloc, base.indexed(), &sig, workers, gate)?;
    let made = accept(base, sig, &rows);
    Ok(found_by(rows, made))
}

/// What is found of files that came to this before their rules.
fn find<R: Threads + Sync, G: Gate + Sync>(
    rt: &R,
    alloc: Global,
    workers: Workers,
    infer: Infer,
    reads: &[SourceRead],
    names: &Names,
    trees: &[FileTree],
    rows: Seq<Row>,
    base: Option<BaseTyped>,
    gate: &G,
) -> Result<Found, OutOfMemory>
    requires typed { (files : List SpecFile) → AreReads reads.now files
        → IsTypedOr infer files names.now (map placed_file trees.now) rows base }
    requires whole { IsSome base
        → (files : List SpecFile) → AreReads reads.now files → files_of_reads reads.now ≡ files }
    requires stand { StandIn reads.now rows }
    ensures found { IfOk result (λ found. (files : List SpecFile) → AreReads reads.now files
        → IsFinding infer files names.now found) }
    ensures whole { IfOk result (λ found. AreWhole found.report reads.now) }
    ensures stand { IfOk result (λ found. StandIn reads.now (rows_of found.report)) }
{
    let _trees = trees;
    match base {
        None => return Ok(refused(rows)),
        Some(base) => {
            drop(rows);
            return checked(rt, alloc, workers, infer, reads, names, base, gate);
        }
    }
}

/// What is found of files that were read, at most 64, by so many workers, with the choice of members that are inferred; it is safe to
/// accept them where no row is.
///
/// # Errors
///
/// No memory was found.
pub fn check<R: Threads + Sync, G: Gate + Sync>(
    rt: &R,
    gate: &G,
    alloc: Global,
    workers: Workers,
    infer: Infer,
    reads: &[SourceRead],
) -> Result<CheckedFiles, OutOfMemory>
    requires few { length reads.now ≤ most_files }
    ensures found { IfOk result (λ checked. (files : List SpecFile) → AreReads reads.now files
        → IsFinding infer files checked.names checked.found) }
    ensures whole { IfOk result (λ checked. AreWhole checked.found.report reads.now) }
    ensures safe { IfOk result (λ checked. checked.found.report ≡ Checked []
        → (files : List SpecFile) → AreReads reads.now files → IsSafe infer files) }
    ensures stand { IfOk result (λ checked. StandIn reads.now (rows_of checked.found.report)) }
    ensures trees { IfOk result
        (λ checked. AreAtHand reads.now checked.found.report checked.names
        (map placed_file checked.trees.items)) }
{
    accepted_files_are_safe();
    let TypedFiles {
        rows,
        base,
        names,
        trees,
    } = type_files(rt, gate, alloc, workers, infer, reads)?;
    let found = find(
        rt, alloc, workers, infer, reads, &names, &trees, rows, base, gate,
    )?;
    Ok(CheckedFiles {
        found,
        names,
        trees,
    })
}

/// The report of more files than there may be: one row at the first that is too many.
///
/// # Errors
///
/// No memory was found.
pub fn refuse_number(alloc: Global) -> Result<Report, OutOfMemory>
    ensures report { IfOk result
        (λ report. (infer : SpecInfer) (files : List SpecFile) → most_files < length files
        → IsReport infer files report) }
    ensures row { IfOk result (λ report. report ≡ Refused (row_at most_files B1 ∷ [])) }
{
    let rows = too_many_files(alloc)?;
    Ok(Report::Refused(rows))
}
