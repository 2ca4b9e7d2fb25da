//! The output of a report: of files that were read, and of too many files.
ghost use Rattle.std.specs.Prelude.{◌≡◌, ◌<◌, ◌++◌, List, IfOk, MatchOption, None, Some, map, length, true};
ghost use Rattle.std.specs.String.{string_bytes};
ghost use Rattle.jn_base.specs.declared.infer.Infer.{Infer};
ghost use Rattle.jn_base.specs.declared.place.Row.{Row as SpecRow};
ghost use Rattle.jn_command.specs.declared.report.Report.TheVariants.{Refused};
ghost use Rattle.jn_command.specs.Reporters.{shown_behind};
ghost use Rattle.jn_command.specs.Reports.{rows_of, status_of, verdict_of};
ghost use Rattle.jn_command.specs.Shown.{rows_with};
ghost use Rattle.jn_command.specs.Stands.{StandIn};
ghost use Rattle.jn_front.specs.declared.source.SourceFile.{SourceFile as FileOf};
ghost use Rattle.jn_front.specs.Files.{AreReads, files_of_reads, most_files, names_of};
ghost use Rattle.jn_inference_law.specs.Solution.{IsLeastSignature};
ghost use Rattle.jn_notes.specs.Noted.{AreNotesOf};
ghost use Rattle.jn_places.specs.PlacedView.{placed_file};
ghost use Rattle.nullcheck_top.specs.Report.{placed};
ghost use Rattle.nullcheck_top.specs.Found.{AreAtHand, AreWhole, IsFinding, IsGiven, IsRefusalOf, ShowsReport};

use crate::check::refuse_number;
use crate::found::Found;
use crate::marks::marked;
use crate::notes::PlacedNotes;
use jn_base::{OutOfMemory, Row, Seq};
use jn_command::Report;
use jn_command::output::Output;
use jn_command::show::{show, show_noted, show_number};
use jn_front::SourceRead;
use jn_index::BaseTyped;
use jn_inference_law::law::regular_programs_are_inferable;
use jn_note_words::Notes;
use jn_notes::notes_of_rows;
use jn_phase_notes::notes_of_phase;
use jn_reporters::Reporter;
use jn_sigs::Sig;
use jn_trees::{FileTree, Names};
use std::alloc::{AllocError, Global};
use std::thread::Threads;

/// The greatest number of files.
pub(crate) const MOST_FILES: usize = 64;

fn joined(alloc: Global, front: &[u8], back: &[u8]) -> Result<Seq<u8>, AllocError>
    ensures { IfOk result (λ whole. whole ≡ front.now ++ back.now) }
{
    let mut whole = Vec::from_slice(alloc, front)?;
    whole.extend_from_slice(back)?;
    Ok(Seq::of_vec(whole))
}

/// Hands the report of files that were read to a reporter, with the notes of its rows where it shows notes.
fn show_found<R: Threads + Sync, P: Reporter>(
    rt: &R,
    alloc: Global,
    reads: &[SourceRead],
    names: &Names,
    trees: &[FileTree],
    found: &Found,
    reporter: P,
) -> Result<P, OutOfMemory>
    requires stand { StandIn reads.now (rows_of found.now.report) }
    requires found { (infer : Infer) × ((files : List FileOf) → AreReads reads.now files
        → IsFinding infer files names.now found.now) }
    requires trees { AreAtHand reads.now found.now.report names.now (map placed_file trees.now) }
    requires whole { AreWhole found.now.report reads.now }
    ensures rows { IfOk result (λ shower. (infer : Infer) (files : List FileOf)
        → AreReads reads.now files → IsFinding infer files names.now found.now
        → IsGiven (P.form reporter).notes (P.form reporter).rows infer reads.now files found.now.report
        (P.form shower).rows) }
    ensures verdict { IfOk result
        (λ shower. P.given shower ≡ Some (verdict_of found.now.report)) }
    ensures shown { IfOk result (λ shower. (P.form shower).shown ≡ (P.form reporter).shown) }
{
    match refused_for(reporter.shows_notes(), &found.report) {
        None => show_checked(alloc, reads, names, found, reporter),
        Some(rows) => {
            let notes = notes_of_phase(rt, alloc, reads, names, trees, rows)?;
            show_with(alloc, reads, &found.report, &notes, reporter)
        }
    }
}

/// The rows of the phase that refused the files, where notes are shown.
fn refused_for(shows_notes: bool, report: &Report) -> Option<&[Row]>
    ensures { MatchOption result
        (shows_notes ≡ true → (rows : List SpecRow) → report.now ≡ Refused rows → ⊥)
        (λ rows. (shows_notes ≡ true) × (report.now ≡ Refused rows.now)) }
{
    match report {
        Report::Refused(rows) => {
            if shows_notes {
                Some(rows.as_slice())
            } else {
                None
            }
        }
        Report::Checked(_) => None,
    }
}

/// The same of files that no phase refused, or whose notes aren't shown.
fn show_checked<P: Reporter>(
    alloc: Global,
    reads: &[SourceRead],
    names: &Names,
    found: &Found,
    reporter: P,
) -> Result<P, OutOfMemory>
    requires found { (infer : Infer) × ((files : List FileOf) → AreReads reads.now files
        → IsFinding infer files names.now found.now) }
    requires whole { AreWhole found.now.report reads.now }
    requires checked { (P.form reporter).notes ≡ true
        → (rows : List SpecRow) → found.now.report ≡ Refused rows → ⊥ }
    ensures rows { IfOk result (λ shower. (infer : Infer) (files : List FileOf)
        → AreReads reads.now files → IsFinding infer files names.now found.now
        → IsGiven (P.form reporter).notes (P.form reporter).rows infer reads.now files found.now.report
        (P.form shower).rows) }
    ensures verdict { IfOk result
        (λ shower. P.given shower ≡ Some (verdict_of found.now.report)) }
    ensures shown { IfOk result (λ shower. (P.form shower).shown ≡ (P.form reporter).shown) }
{
    match left_for(reporter.shows_notes(), found) {
        None => show(alloc, reads, &found.report, reporter),
        Some(left) => {
            let rows = found.report.rows();
            let notes = notes_of(alloc, names, &left.0, &left.1, rows)?;
            show_with(alloc, reads, &found.report, &notes, reporter)
        }
    }
}

/// Hands the report of files that were read to a reporter, with these notes of its rows.
fn show_with<P: Reporter>(
    alloc: Global,
    reads: &[SourceRead],
    report: &Report,
    notes: &[Notes],
    reporter: P,
) -> Result<P, OutOfMemory>
    ensures rows { IfOk result (λ shower. (P.form shower).rows
        ≡ (P.form reporter).rows
        ++ rows_with (files_of_reads reads.now) (map (placed (files_of_reads reads.now)) notes.now)
        (rows_of report.now)) }
    ensures verdict { IfOk result (λ shower. P.given shower ≡ Some (verdict_of report.now)) }
    ensures shown { IfOk result (λ shower. (P.form shower).shown ≡ (P.form reporter).shown) }
{
    let files = marked(alloc, reads)?;
    let placed = PlacedNotes::new(&files, notes);
    show_noted(alloc, reads, report, &placed, reporter)
}

/// The program of which the rows' notes are shown: that of files that break a rule, where notes are shown.
fn left_for<'a>(shows_notes: bool, found: &'a Found) -> Option<&'a (BaseTyped, Sig)>
    ensures { MatchOption result (shows_notes ≡ true → found.now.rejected ≡ None)
        (λ left. (shows_notes ≡ true) × (found.now.rejected ≡ Some left.now)) }
{
    if shows_notes {
        found.rejected.as_ref()
    } else {
        None
    }
}

/// The notes of rows of the rules, under the least signature.
fn notes_of(
    alloc: Global,
    names: &Names,
    base: &BaseTyped,
    sig: &Sig,
    rows: &[Row],
) -> Result<Vec<Notes>, OutOfMemory>
    requires { IsLeastSignature base.now sig.now }
    ensures { IfOk result
        (λ notes. AreNotesOf base.now names.now sig.now rows.now notes.items) }
{
    regular_programs_are_inferable();
    notes_of_rows(alloc, base.indexed(), names, sig, rows)
}

/// The output of a report of files that were read: these bytes, and then the report.
pub(crate) fn report_output<R: Threads + Sync, P: Reporter>(
    rt: &R,
    alloc: Global,
    reads: &[SourceRead],
    names: &Names,
    trees: &[FileTree],
    found: &Found,
    front: &[u8],
    reporter: P,
) -> Result<Output, OutOfMemory>
    requires stand { StandIn reads.now (rows_of found.now.report) }
    requires found { (infer : Infer) × ((files : List FileOf) → AreReads reads.now files
        → IsFinding infer files names.now found.now) }
    requires trees { AreAtHand reads.now found.now.report names.now (map placed_file trees.now) }
    requires whole { AreWhole found.now.report reads.now }
    ensures status { IfOk result (λ o. o.status ≡ status_of found.now.report) }
    ensures bytes { IfOk result (λ o. (infer : Infer) (files : List FileOf)
        → AreReads reads.now files → IsFinding infer files names.now found.now
        → ShowsReport (P.form reporter).notes (shown_behind (P.form reporter).rows (P.form reporter).shown) infer
        files found.now.report front.now o.bytes) }
{
    let shower = show_found(rt, alloc, reads, names, trees, found, reporter)?;
    Ok(Output {
        status: found.report.status(),
        bytes: joined(alloc, front, shower.bytes())?,
    })
}

/// The output of more files than there may be.
pub(crate) fn number_output<P: Reporter>(
    alloc: Global,
    names: &[String],
    reporter: P,
) -> Result<Output, OutOfMemory>
    requires many { most_files < length names.now }
    ensures { IfOk result (λ o. (infer : Infer) (files : List FileOf)
        → names_of files ≡ map string_bytes names.now
        → IsRefusalOf (shown_behind (P.form reporter).rows (P.form reporter).shown) infer files o.status
        o.bytes) }
{
    let report = refuse_number(alloc)?;
    let shower = show_number(alloc, names[MOST_FILES].as_str(), reporter)?;
    Ok(Output {
        status: report.status(),
        bytes: joined(alloc, &[], shower.bytes())?,
    })
}
