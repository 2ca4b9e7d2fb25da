//! From files to what is inferred of their program.
ghost use Rattle.std.specs.Prelude.{◌≡◌, ◌≤◌, IfOk, IsSome, length, map};
ghost use Rattle.jn_front.specs.Files.{files_of_reads};
ghost use Rattle.jn_phases.specs.Phases.{IsTypedOr, TypedProgramOf};
ghost use Rattle.jn_places.specs.PlacedView.{placed_file};
ghost use Rattle.jn_tables_law.specs.Inferable.{IsInferable};
ghost use Rattle.jn_lsp_solved.specs.Solving as spec;

use crate::solved::{Inferred, Solved};
use jn_base::{Infer, OutOfMemory};
use jn_contrib::overriders;
use jn_front::SourceRead;
use jn_index::BaseTyped;
use jn_index::indexed::IndexedProgram;
use jn_lsp_text::Encoding;
use jn_note_words::owners::find_owners;
use jn_notes::tables::least_tables;
use jn_phases::{TypedFiles, too_many_files, type_files};
use jn_recheck::FileSet;
use jn_recheck::reads::reads_of;
use jn_sharing::{Gate, Workers};
use jn_system::solve_with;
use jn_tables_law::law::regular_programs_can_be_inferred;
use jn_trees::{FileTree, Names};
use std::alloc::Global;
use std::thread::Threads;

/// The greatest number of files.
const MOST_FILES: usize = 64;

/// What is inferred of a program.
fn infer_all<R: Threads + Sync, G: Gate + Sync>(
    rt: &R,
    gate: &G,
    alloc: Global,
    workers: Workers,
    program: &IndexedProgram,
) -> Result<Inferred, OutOfMemory>
    requires inferable { IsInferable program.now }
    ensures { IfOk result (λ inferred. spec.IsInferredOf program.now inferred) }
{
    let overriders = overriders(alloc, program)?;
    let sig = solve_with(rt, alloc, program.program(), &overriders, workers, gate)?;
    let tables = least_tables(alloc, program.program(), &sig)?;
    let owners = find_owners(alloc, program.program())?;
    Ok(Inferred {
        overriders,
        sig,
        tables,
        owners,
    })
}

/// The same of a program whose types fit.
fn infer_typed<R: Threads + Sync, G: Gate + Sync>(
    rt: &R,
    gate: &G,
    alloc: Global,
    workers: Workers,
    base: &BaseTyped,
) -> Result<Inferred, OutOfMemory>
    ensures { IfOk result (λ inferred. spec.IsInferredOf base.now inferred) }
{
    regular_programs_can_be_inferred();
    infer_all(rt, gate, alloc, workers, base.indexed())
}

/// Files with these trees and this program, solved.
fn solve<'a, R: Threads + Sync, G: Gate + Sync>(
    rt: &R,
    gate: &G,
    alloc: Global,
    workers: Workers,
    infer: Infer,
    encoding: Encoding,
    files: &'a FileSet,
    reads: Vec<SourceRead>,
    names: Names,
    trees: Vec<FileTree>,
    base: BaseTyped,
) -> Result<Solved<'a>, OutOfMemory>
    requires reads { spec.AreReadFrom files.now reads.items }
    requires typed { (typed : TypedProgramOf infer files.now names base)
        × (typed.of_files.trees ≡ map placed_file trees.items) }
    ensures infer { IfOk result (λ solved. solved.infer ≡ infer) }
    ensures encoding { IfOk result (λ solved. solved.encoding ≡ encoding) }
    ensures files { IfOk result (λ solved. solved.files ≡ files.now) }
{
    match infer_typed(rt, gate, alloc, workers, &base) {
        Ok(inferred) => {
            return Ok(Solved::of(infer, encoding, files, reads, names, trees, base, inferred));
        }
        Err(_) => return Err(OutOfMemory),
    }
}

/// Files of which this was found before their rules, solved.
fn solve_typed<'a, R: Threads + Sync, G: Gate + Sync>(
    rt: &R,
    gate: &G,
    alloc: Global,
    workers: Workers,
    infer: Infer,
    encoding: Encoding,
    files: &'a FileSet,
    reads: Vec<SourceRead>,
    found: TypedFiles,
) -> Result<Option<Solved<'a>>, OutOfMemory>
    requires few { length reads.items ≤ 64 }
    requires whole { IsSome found.base → files_of_reads reads.items ≡ files.now }
    requires typed { IsTypedOr infer files.now found.names (map placed_file found.trees.items)
        found.rows found.base }
    ensures { IfOk result (λ solved. spec.AreSolvedOr infer encoding files.now solved) }
{
    let TypedFiles {
        base,
        names,
        trees,
        ..
    } = found;
    match base {
        None => return Ok(None),
        Some(base) => {
            match solve(
                rt, gate, alloc, workers, infer, encoding, files, reads, names, trees, base,
            ) {
                Ok(solved) => return Ok(Some(solved)),
                Err(_) => return Err(OutOfMemory),
            }
        }
    }
}

/// Files, solved by so many workers, where these members are inferred and positions count in this unit; none where a phase before the rules refuses
/// them. A worker enters the gate when it takes a file, or infers.
///
/// # Errors
/// No memory was found.
pub fn find_solved<'a, R: Threads + Sync, G: Gate + Sync>(
    rt: &R,
    gate: &G,
    alloc: Global,
    workers: Workers,
    infer: Infer,
    encoding: Encoding,
    files: &'a FileSet,
) -> Result<Option<Solved<'a>>, OutOfMemory>
    ensures { IfOk result (λ solved. spec.AreSolvedOr infer encoding files.now solved) }
{
    let listed = files.as_slice();
    if listed.len() > MOST_FILES {
        too_many_files(alloc)?;
        return Ok(None);
    }
    let reads = reads_of(alloc, listed)?;
    let found = type_files(rt, gate, alloc, workers, infer, &reads)?;
    solve_typed(
        rt, gate, alloc, workers, infer, encoding, files, reads, found,
    )
}
