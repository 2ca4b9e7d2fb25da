//! From trees to their program, or to the rows of the first phase that has any, where an earlier program is kept.
ghost use Rattle.std.specs.Prelude.{◌≡◌, [], false, true, IsSome, List, map, IfOk};
ghost use Rattle.jn_trees.specs.declared.token.Token.{Token as SpecToken};
ghost use Rattle.jn_points.specs.declared.program.Program.{Program};
ghost use Rattle.jn_basecheck.specs.Rows.{AreTyped};
ghost use Rattle.jn_heads.specs.Extract.{heads as heads_of};
ghost use Rattle.jn_heads.specs.Inferred.{tabled};
ghost use Rattle.jn_classtable.specs.Rows.{t_rows};
ghost use Rattle.jn_classtable.specs.Table as tables;
ghost use Rattle.jn_front.specs.Files.{files_of_reads};
ghost use Rattle.jn_front.specs.Phases.{AreParsed};
ghost use Rattle.jn_places.specs.Placed.{PlacedFile};
ghost use Rattle.jn_places.specs.PlacedView.{placed_file};
ghost use Rattle.jn_program.specs.Known.{AreKnown};
ghost use Rattle.jn_program.specs.Lowered.{IsProgram};
ghost use Rattle.jn_program.specs.Starts.{AreStarts};
ghost use Rattle.jn_program_law.specs.FileSources.{sources};
ghost use Rattle.jn_phases.specs.Typing.{IsTyping};
ghost use Rattle.jn_kept_points.specs.Stays.{KnownFrom};
ghost use Rattle.jn_kept_points.specs.Typings.{IsAlike, IsKeptOf, IsTypingOf, IsUnchangedIn, SameTrees};

use crate::alike::same_heads;
use crate::known::{known_bodies, same_starts};
use jn_base::{Fail, Infer, OutOfMemory, Row, Seq};
use jn_classtable::{ClassTable, build_of, rebuild};
use jn_front::SourceRead;
use jn_heads::ClassHead;
use jn_heads::extract::heads;
use jn_heads_law::law::{
    alike_heads_have_alike_tables, base_typing_looks_at_no_place_of_the_class_table,
    indexes_serve_alike_programs, lowering_looks_at_no_other_place,
};
use jn_index::BaseTyped;
use jn_index::index::Index;
use jn_index::indexed::IndexedProgram;
use jn_phases::{TypedTable, Typing, find_table, refused_types};
use jn_points::Body;
use jn_program::sources::{Start, starts_of_files};
use jn_sharing::Workers;
use jn_trees::{FileTree, Names};
use std::alloc::Global;
use std::thread::Threads;

/// What is kept beside a program of the trees that it is of.
#[derive(Drop)]
pub struct KeptTyping {
    /// What their types declare, in the order of files and text.
    pub heads: Seq<ClassHead>,
    /// Where each file begins, and where one after the last would.
    pub starts: Vec<Start>,
}

/// What is found of files with trees, and what is to be kept beside their program.
#[derive(Drop)]
pub struct TypedTrees {
    /// The rows of the first phase that has any, or the files' program.
    pub typing: Typing,
    /// What is to be kept beside the program; nothing where there is none.
    pub kept: Option<KeptTyping>,
}

/// What of an earlier program stands in the one that is found.
#[derive(Drop)]
pub struct Unchanged {
    /// The program declares what the earlier one did, but for places and what is written of nullness and initialization.
    pub alike: bool,
    /// For each body whether it is the earlier program's of its number; nothing is told of those behind the last.
    pub bodies: Vec<bool>,
}

/// What is found of files with trees, and what of the earlier program stands in theirs.
#[derive(Drop)]
pub struct FoundAgain {
    /// What is found, with what is to be kept.
    pub found: TypedTrees,
    /// What of the earlier program stands.
    pub unchanged: Unchanged,
}

/// What is found, with what is to be kept.
fn to_keep(
    infer: Infer,
    reads: &[SourceRead],
    names: &Names,
    trees: &[FileTree],
    found: TypedTable,
    starts: Vec<Start>,
) -> TypedTrees
    requires typing { IsTyping infer (files_of_reads reads.now) names.now (map placed_file trees.now) found.typing }
    requires heads { IsSome found.typing.base → found.heads ≡ heads_of (map placed_file trees.now) }
    requires starts { AreStarts (map placed_file trees.now) starts.items }
    ensures typing { IsTyping infer (files_of_reads reads.now) names.now (map placed_file trees.now) result.typing }
    ensures kept { IsKeptOf infer (map placed_file trees.now) result.typing.base result.kept }
{
    let _infer = infer;
    let _reads = reads;
    let _names = names;
    let _trees = trees;
    let TypedTable { typing, heads } = found;
    TypedTrees {
        typing,
        kept: Some(KeptTyping { heads, starts }),
    }
}

/// What is found of files whose classes and members are refused by these rows.
fn refused(
    alloc: Global,
    infer: Infer,
    reads: &[SourceRead],
    names: &Names,
    trees: &[FileTree],
    rows: Seq<Row>,
) -> Result<TypedTrees, OutOfMemory>
    requires parsed { (tokens : List (List SpecToken))
        × AreParsed (files_of_reads reads.now) names.now tokens (map placed_file trees.now) }
    requires rows { (rows ≡ t_rows (heads_of (map placed_file trees.now)))
        × (t_rows (heads_of (map placed_file trees.now)) ≡ [] → ⊥) }
    ensures typing { IfOk result (λ found.
        IsTyping infer (files_of_reads reads.now) names.now (map placed_file trees.now) found.typing) }
    ensures kept { IfOk result
        (λ found. IsKeptOf infer (map placed_file trees.now) found.typing.base found.kept) }
{
    let typing = refused_types(alloc, reads, names, trees, infer, rows)?;
    Ok(TypedTrees { typing, kept: None })
}

/// What is found of files with a class table, of whose bodies some are known.
fn find_with<R: Threads + Sync>(
    rt: &R,
    alloc: Global,
    workers: Workers,
    infer: Infer,
    reads: &[SourceRead],
    names: &Names,
    trees: &[FileTree],
    table: ClassTable,
    starts: Vec<Start>,
    bodies: &[Body],
    known: &[bool],
) -> Result<TypedTrees, OutOfMemory>
    requires parsed { (tokens : List (List SpecToken))
        × AreParsed (files_of_reads reads.now) names.now tokens (map placed_file trees.now) }
    requires rowless { t_rows (heads_of (map placed_file trees.now)) ≡ [] }
    requires table { table ≡ tabled infer (map placed_file trees.now) }
    requires starts { AreStarts (map placed_file trees.now) starts.items }
    requires known { AreKnown (tables.table (heads_of (map placed_file trees.now)))
        (sources (map placed_file trees.now)) bodies.now known.now }
    requires typed { (P : Program) → IsProgram infer (map placed_file trees.now) P
        → AreTyped P known.now }
    ensures typing { IfOk result (λ found.
        IsTyping infer (files_of_reads reads.now) names.now (map placed_file trees.now) found.typing) }
    ensures kept { IfOk result
        (λ found. IsKeptOf infer (map placed_file trees.now) found.typing.base found.kept) }
{
    match find_table(
        rt, alloc, workers, infer, reads, names, trees, table, bodies, known,
    ) {
        Err(_) => {
            drop(starts);
            return Err(OutOfMemory);
        }
        Ok(found) => return Ok(to_keep(infer, reads, names, trees, found, starts)),
    }
}

/// What is found of files whose types declare this.
fn find_heads<R: Threads + Sync>(
    rt: &R,
    alloc: Global,
    workers: Workers,
    infer: Infer,
    reads: &[SourceRead],
    names: &Names,
    trees: &[FileTree],
    heads: Seq<ClassHead>,
) -> Result<TypedTrees, OutOfMemory>
    requires parsed { (tokens : List (List SpecToken))
        × AreParsed (files_of_reads reads.now) names.now tokens (map placed_file trees.now) }
    requires heads { heads ≡ heads_of (map placed_file trees.now) }
    ensures typing { IfOk result (λ found.
        IsTyping infer (files_of_reads reads.now) names.now (map placed_file trees.now) found.typing) }
    ensures kept { IfOk result
        (λ found. IsKeptOf infer (map placed_file trees.now) found.typing.base found.kept) }
{
    match build_of(alloc, heads, trees, infer) {
        Ok(table) => {
            return find_of_table(rt, alloc, workers, infer, reads, names, trees, table);
        }
        Err(Fail::Refused(rows)) => {
            return refused(alloc, infer, reads, names, trees, rows);
        }
        Err(Fail::OutOfMemory) => return Err(OutOfMemory),
    }
}

/// What is found of files with a class table, of whose bodies none is known.
#[tactic(auto, using(crate::proofs::Knowing::nothing_known, crate::proofs::Knowing::nothing_typed))]
fn find_of_table<R: Threads + Sync>(
    rt: &R,
    alloc: Global,
    workers: Workers,
    infer: Infer,
    reads: &[SourceRead],
    names: &Names,
    trees: &[FileTree],
    table: ClassTable,
) -> Result<TypedTrees, OutOfMemory>
    requires parsed { (tokens : List (List SpecToken))
        × AreParsed (files_of_reads reads.now) names.now tokens (map placed_file trees.now) }
    requires rowless { t_rows (heads_of (map placed_file trees.now)) ≡ [] }
    requires table { table ≡ tabled infer (map placed_file trees.now) }
    ensures typing { IfOk result (λ found.
        IsTyping infer (files_of_reads reads.now) names.now (map placed_file trees.now) found.typing) }
    ensures kept { IfOk result
        (λ found. IsKeptOf infer (map placed_file trees.now) found.typing.base found.kept) }
{
    match starts_of_files(alloc, trees) {
        Err(_) => {
            drop(table);
            return Err(OutOfMemory);
        }
        Ok(starts) => {
            return find_with(
                rt,
                alloc,
                workers,
                infer,
                reads,
                names,
                trees,
                table,
                starts,
                &[],
                &[],
            );
        }
    }
}

/// What is found of files with these trees, as [`jn_phases::find_trees`] finds it, with what is to be kept beside their program.
///
/// # Errors
/// No memory was found.
pub fn find_trees_anew<R: Threads + Sync>(
    rt: &R,
    alloc: Global,
    workers: Workers,
    infer: Infer,
    reads: &[SourceRead],
    names: &Names,
    trees: &[FileTree],
) -> Result<TypedTrees, OutOfMemory>
    requires parsed { (tokens : List (List SpecToken))
        × AreParsed (files_of_reads reads.now) names.now tokens (map placed_file trees.now) }
    ensures typing { IfOk result (λ found.
        IsTyping infer (files_of_reads reads.now) names.now (map placed_file trees.now) found.typing) }
    ensures kept { IfOk result
        (λ found. IsKeptOf infer (map placed_file trees.now) found.typing.base found.kept) }
{
    let declared = heads(alloc, trees)?;
    find_heads(rt, alloc, workers, infer, reads, names, trees, declared)
}

/// Which bodies of the old program are those of the new one at their places; none where files begin elsewhere.
fn known_of(
    alloc: Global,
    old: &IndexedProgram,
    new: &IndexedProgram,
    same: &[bool],
    before: &[Start],
    starts: &[Start],
) -> Result<Vec<bool>, OutOfMemory>
    ensures { IfOk result (λ known. KnownFrom old.now new.now same.now before.now starts.now known.items) }
{
    if same_starts(before, starts) {
        known_bodies(alloc, old, new, same, starts)
    } else {
        Ok(Vec::new(alloc))
    }
}

/// What is found of files whose types declare what they did, where these bodies are known.
fn with_known(
    found: Result<TypedTrees, OutOfMemory>,
    known: Vec<bool>,
) -> Result<FoundAgain, OutOfMemory>
    ensures { IfOk result (λ f. (found ≡ Ok f.found) × (f.unchanged ≡ record { alike = true; bodies = known })) }
{
    match found {
        Err(_) => {
            drop(known);
            return Err(OutOfMemory);
        }
        Ok(found) => {
            return Ok(FoundAgain {
                found,
                unchanged: Unchanged {
                    alike: true,
                    bodies: known,
                },
            });
        }
    }
}

/// Of no earlier program anything is told to stand.
pub fn nothing_unchanged(alloc: Global) -> Unchanged
    ensures alike { result.alike ≡ false }
    ensures bodies { result.bodies.items ≡ [] }
{
    Unchanged {
        alike: false,
        bodies: Vec::new(alloc),
    }
}

/// What is found of files whose types declare what they did, but for places and what is written of nullness and initialization.
fn find_alike<R: Threads + Sync>(
    rt: &R,
    alloc: Global,
    workers: Workers,
    infer: Infer,
    reads: &[SourceRead],
    names: &Names,
    trees: &[FileTree],
    table: ClassTable,
    same: &[bool],
    base: &BaseTyped,
    kept: &KeptTyping,
) -> Result<FoundAgain, OutOfMemory>
    requires parsed { (tokens : List (List SpecToken))
        × AreParsed (files_of_reads reads.now) names.now tokens (map placed_file trees.now) }
    requires rowless { t_rows (heads_of (map placed_file trees.now)) ≡ [] }
    requires table { table ≡ tabled infer (map placed_file trees.now) }
    requires alike { IsAlike kept.now.heads (heads_of (map placed_file trees.now)) }
    requires earlier { (before : List PlacedFile) × IsTypingOf infer before base.now kept.now
        × SameTrees before same.now (map placed_file trees.now) }
    ensures typing { IfOk result (λ f.
        IsTyping infer (files_of_reads reads.now) names.now (map placed_file trees.now) f.found.typing) }
    ensures kept { IfOk result
        (λ f. IsKeptOf infer (map placed_file trees.now) f.found.typing.base f.found.kept) }
    ensures unchanged { IfOk result
        (λ f. IsUnchangedIn base.now f.found.typing.base f.unchanged) }
{
    lowering_looks_at_no_other_place();
    base_typing_looks_at_no_place_of_the_class_table();
    alike_heads_have_alike_tables();
    let old = base.indexed();
    match starts_of_files(alloc, trees) {
        Err(_) => {
            drop(table);
            return Err(OutOfMemory);
        }
        Ok(starts) => match known_of(
            alloc,
            old,
            table.indexed(),
            same,
            kept.starts.as_slice(),
            starts.as_slice(),
        ) {
            Err(_) => {
                drop(table);
                drop(starts);
                return Err(OutOfMemory);
            }
            Ok(known) => {
                let found = find_with(
                    rt,
                    alloc,
                    workers,
                    infer,
                    reads,
                    names,
                    trees,
                    table,
                    starts,
                    old.program().bodies.as_slice(),
                    known.as_slice(),
                );
                return with_known(found, known);
            }
        },
    }
}

/// What is found of files with these trees, as [`jn_phases::find_trees`] finds it, where the program `base` is that of files with earlier
/// trees, and `kept` what was kept beside it. Those files that are told (`same`) have the tree that they had.
///
/// Where the types declare what they did, but for places and what is written of nullness and initialization, the rows T1 to T10 aren't looked for,
/// the index of members is taken out of `base`, and where each file begins at the numbers at which it began, bodies of files that are told
/// are copied from it. So much is told with what is found.
///
/// # Errors
/// No memory was found.
#[tactic(auto, using(crate::proofs::Knowing::nothing_told))]
pub fn find_trees_again<R: Threads + Sync>(
    rt: &R,
    alloc: Global,
    workers: Workers,
    infer: Infer,
    reads: &[SourceRead],
    names: &Names,
    trees: &[FileTree],
    same: &[bool],
    base: &mut BaseTyped,
    kept: &KeptTyping,
) -> Result<FoundAgain, OutOfMemory>
    requires parsed { (tokens : List (List SpecToken))
        × AreParsed (files_of_reads reads.now) names.now tokens (map placed_file trees.now) }
    requires earlier { (before : List PlacedFile) × IsTypingOf infer before base.old kept.now
        × SameTrees before same.now (map placed_file trees.now) }
    ensures typing { IfOk result (λ f.
        IsTyping infer (files_of_reads reads.now) names.now (map placed_file trees.now) f.found.typing) }
    ensures kept { IfOk result
        (λ f. IsKeptOf infer (map placed_file trees.now) f.found.typing.base f.found.kept) }
    ensures unchanged { IfOk result
        (λ f. IsUnchangedIn base.old f.found.typing.base f.unchanged) }
    ensures base { base.new ≡ base.old }
{
    indexes_serve_alike_programs();
    alike_heads_have_alike_tables();
    let declared = heads(alloc, trees)?;
    if !same_heads(kept.heads.as_slice(), declared.as_slice()) {
        let found = find_heads(rt, alloc, workers, infer, reads, names, trees, declared)?;
        return Ok(FoundAgain {
            found,
            unchanged: nothing_unchanged(alloc),
        });
    }
    let index = base.take_index();
    match rebuild(alloc, declared, index, trees, infer) {
        Ok(table) => {
            return find_alike(
                rt, alloc, workers, infer, reads, names, trees, table, same, base, kept,
            );
        }
        Err(_) => return Err(OutOfMemory),
    }
}
