//! The notes of rows of a phase before the rules.
ghost use Rattle.std.specs.Prelude.{IfOk, map};
ghost use Rattle.jn_front.specs.Files.{files_of_reads};
ghost use Rattle.jn_phase_notes.specs.Phases.{AreNotesBy};
ghost use Rattle.jn_places.specs.PlacedView.{placed_file};

use crate::stops::notes_of_texts;
use crate::trees::notes_of_trees;
use jn_base::{OutOfMemory, Row};
use jn_front::SourceRead;
use jn_note_words::Notes;
use jn_trees::{FileTree, Names};
use std::alloc::Global;
use std::thread::Threads;

/// The notes of rows of a phase, row by row: by the trees of the files, or by their texts where no name of them is known. Where types don't fit,
/// workers lower the files once more.
///
/// # Errors
/// No memory was found, or numbers of 32 bits aren't enough for what is declared; the class table has no rows then.
pub fn notes_of_phase<R: Threads + Sync>(
    rt: &R,
    alloc: Global,
    reads: &[SourceRead],
    names: &Names,
    trees: &[FileTree],
    rows: &[Row],
) -> Result<Vec<Notes>, OutOfMemory>
    ensures { IfOk result
        (λ notes. AreNotesBy (files_of_reads reads.now) names.now (map placed_file trees.now) rows.now
        notes.items) }
{
    if names.len() == 0 {
        notes_of_texts(alloc, reads, rows)
    } else {
        notes_of_trees(rt, alloc, names, trees, rows)
    }
}
