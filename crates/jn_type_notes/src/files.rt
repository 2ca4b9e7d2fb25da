//! The notes of rows J7 of files.
ghost use Rattle.std.specs.Prelude.{◌≡◌, [], map, IfOk};
ghost use Rattle.jn_base.specs.declared.infer.Infer.TheVariants.{Private};
ghost use Rattle.jn_classtable.specs.Rows.{t_rows};
ghost use Rattle.jn_heads.specs.Extract.{heads};
ghost use Rattle.jn_heads.specs.Inferred.{tabled};
ghost use Rattle.jn_places.specs.PlacedView.{placed_file};
ghost use Rattle.jn_type_notes.specs.Wording as spec;

use crate::points::mismatches_of;
use crate::words::notes_of_each;
use jn_base::{Fail, Infer, OutOfMemory, Seq};
use jn_classtable::{ClassTable, build};
use jn_index::indexed::IndexedProgram;
use jn_note_words::Note;
use jn_program::lowering::lower;
use jn_program_law::law::more_members_are_inferred;
use jn_sharing::Workers;
use jn_trees::{FileTree, Names};
use std::alloc::Global;
use std::thread::Threads;

/// How many workers lower bodies.
const WORKERS: u32 = 4;

/// The notes of a program.
fn program_notes(
    alloc: Global,
    names: &Names,
    program: &IndexedProgram,
) -> Result<Seq<Note>, OutOfMemory>
    ensures { IfOk result (λ notes. notes ≡ spec.program_notes names.now program.now) }
{
    let found = mismatches_of(alloc, program)?;
    let notes = notes_of_each(alloc, names, program.program(), found.as_slice())?;
    Ok(Seq::of_vec(notes))
}

/// Those of files that have no program.
fn no_notes(alloc: Global) -> Result<Seq<Note>, OutOfMemory>
    ensures { IfOk result (λ notes. notes ≡ []) }
{
    Ok(Seq::new(alloc))
}

/// The notes of files with this class table.
fn lowered_notes<R: Threads + Sync>(
    rt: &R,
    alloc: Global,
    names: &Names,
    trees: &[FileTree],
    table: ClassTable,
) -> Result<Seq<Note>, OutOfMemory>
    requires table { table ≡ tabled Private (map placed_file trees.now) }
    requires rows { t_rows (heads (map placed_file trees.now)) ≡ [] }
    ensures { IfOk result
        (λ notes. notes ≡ spec.type_notes names.now (map placed_file trees.now)) }
{
    more_members_are_inferred();
    match lower(rt, alloc, table, trees, Workers::of(WORKERS)) {
        Ok(program) => return program_notes(alloc, names, &program),
        Err(Fail::Refused(rows)) => {
            drop(rows);
            return no_notes(alloc);
        }
        Err(Fail::OutOfMemory) => return Err(OutOfMemory),
    }
}

/// The notes of rows J7 of files with these trees and names, operand by operand in the order of bodies: each says which type is found, and what is wanted.
/// There are none where the files have a row T1 to T10 or J1 to J6. Workers lower the files to their program; the members that are inferred play no part.
///
/// # Errors
/// No memory was found.
pub fn type_notes<R: Threads + Sync>(
    rt: &R,
    alloc: Global,
    names: &Names,
    trees: &[FileTree],
) -> Result<Seq<Note>, OutOfMemory>
    ensures { IfOk result
        (λ notes. notes ≡ spec.type_notes names.now (map placed_file trees.now)) }
{
    match build(alloc, trees, Infer::Private) {
        Ok(table) => return lowered_notes(rt, alloc, names, trees, table),
        Err(Fail::Refused(rows)) => {
            drop(rows);
            return no_notes(alloc);
        }
        Err(Fail::OutOfMemory) => return Err(OutOfMemory),
    }
}
