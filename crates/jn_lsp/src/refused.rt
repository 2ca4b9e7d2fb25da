//! The notes of rows with which a report ends before the rules.
ghost use Rattle.std.specs.Prelude.{IfOk};
ghost use Rattle.jn_command.specs.declared.report.Report.TheVariants.{Refused};
ghost use Rattle.jn_phase_notes.specs.Phases.{PhaseNotes};
ghost use Rattle.jn_report.specs.Report.{IsReport};

use crate::reporting::WORKERS;
use jn_base::{Infer, OutOfMemory, Row};
use jn_front::SourceFile;
use jn_note_words::Notes;
use jn_phase_notes::law::notes_by_what_was_read_are_those_of_files;
use jn_phase_notes::{notes_of_phase, notes_of_texts};
use jn_phases::law::files_have_one_typing;
use jn_phases::{too_many_files, type_files};
use jn_recheck::reads::reads_of;
use jn_sharing::{Gate, Workers};
use std::alloc::Global;
use std::thread::Threads;

/// The greatest number of files that have trees.
const MOST_FILES: usize = 64;

/// The notes of the rows of files that a phase before the rules refuses: the files are taken through the phases anew, for their names and trees.
pub(crate) fn notes_of_refused<R: Threads + Sync, G: Gate + Sync>(
    rt: &R,
    gate: &G,
    alloc: Global,
    infer: Infer,
    files: &[SourceFile],
    rows: &[Row],
) -> Result<Vec<Notes>, OutOfMemory>
    requires report { IsReport infer files.now (Refused rows.now) }
    ensures { IfOk result (λ notes. PhaseNotes files.now rows.now notes.items) }
{
    files_have_one_typing();
    notes_by_what_was_read_are_those_of_files();
    let reads = reads_of(alloc, files)?;
    if files.len() > MOST_FILES {
        too_many_files(alloc)?;
        let notes = notes_of_texts(alloc, &reads, rows)?;
        return Ok(notes);
    }
    let typed = type_files(rt, gate, alloc, Workers::of(WORKERS), infer, &reads)?;
    let notes = notes_of_phase(rt, alloc, &reads, &typed.names, &typed.trees, rows)?;
    Ok(notes)
}
