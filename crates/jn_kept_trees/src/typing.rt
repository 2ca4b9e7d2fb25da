//! From files that were read to their program, or to the rows of the first phase that has any, where trees of texts that stayed are kept.
ghost use Rattle.std.specs.Prelude.{◌≡◌, ◌≤◌, [], List, None, true, false, length, map, IfErr, IfOk, IsSome};
ghost use Rattle.jn_base.specs.declared.place.Row.{Row as SpecRow};
ghost use Rattle.jn_diag.specs.Order.{IsOrderOf};
ghost use Rattle.jn_places.specs.Placed.{PlacedFile};
ghost use Rattle.jn_places.specs.PlacedView.{placed_file};
ghost use Rattle.jn_front.specs.declared.source.SourceFile.{SourceFile as FileOf};
ghost use Rattle.jn_front.specs.Files.{files_of_reads, AreReads, most_files};
ghost use Rattle.jn_front.specs.Limits.{limit_rows};
ghost use Rattle.jn_phases.specs.Phases.{IsTypedOr};
ghost use Rattle.jn_phases.specs.Typing.{IsTyping};
ghost use Rattle.jn_kept_points.specs.Typings.{IsKeptOf, IsTypingOf, IsUnchangedIn};
ghost use Rattle.jn_kept_trees.specs.KeptTrees.{AreAllKept, AreKeptTrees};
ghost use Rattle.jn_kept_trees.specs.Merges.{CanBeKept};
ghost use Rattle.jn_kept_trees.specs.Retyped.{AreParsedAgain, AreTypedAgain};
ghost use Rattle.jn_kept_trees.specs.Staying.{HaveTrees, StayPlaced};

use crate::again::{ParsedAgain, parse_again};
use crate::kept::KeptTree;
use crate::merging::TextNames;
use jn_base::lists::put;
use jn_base::{Infer, OutOfMemory, Row, Seq};
use jn_front::{SourceFile, SourceRead, limit_rows};
use jn_index::BaseTyped;
use jn_kept_points::{
    FoundAgain, KeptTyping, TypedTrees, Unchanged, find_trees_again, find_trees_anew,
    nothing_unchanged,
};
use jn_phases::{TypedFiles, Typing, refused_texts};
use jn_sharing::{Gate, Workers};
use jn_trees::{FileTree, Names};
use std::alloc::Global;
use std::thread::Threads;

/// What files come to before their rules are looked at, and what is to be kept of their texts.
#[derive(Drop)]
pub struct TypedAgain {
    /// The rows of the first phase that has any, in order; none where the files have a program.
    pub rows: Seq<Row>,
    /// The files' program, whose types fit.
    pub base: Option<BaseTyped>,
    /// The texts of their names and strings, by number; none where the files have no trees.
    pub names: Names,
    /// What is to be kept of each file; nothing where a limit is passed.
    pub kept: Vec<Option<KeptTree>>,
    /// What is to be kept beside the program; it is there where there is a program.
    pub typing: Option<KeptTyping>,
}

/// What files come to, with what of an earlier program stands in theirs.
#[derive(Drop)]
pub struct TypedOn {
    /// What they come to, and what is to be kept of them.
    pub typed: TypedAgain,
    /// What of the earlier program stands in theirs; where they have none, it says nothing.
    pub unchanged: Unchanged,
}

fn no_rows(rows: &Vec<Row>) -> bool
    ensures some { result ≡ false → rows.now.items ≡ [] → ⊥ }
    ensures none { result ≡ true → rows.now.items ≡ [] }
{
    rows.is_empty()
}

/// What files come to that are refused by these rows and have no trees.
fn refused(
    alloc: Global,
    rows: Vec<Row>,
    kept: Vec<Option<KeptTree>>,
) -> Result<TypedAgain, OutOfMemory>
    ensures rows { IfOk result
        (λ typed. (sorted : List SpecRow) × IsOrderOf rows.items sorted × (typed.rows ≡ sorted)) }
    ensures base { IfOk result (λ typed. typed.base ≡ None) }
    ensures kept { IfOk result (λ typed. typed.kept.items ≡ kept.items) }
{
    let TypedFiles { rows, .. } = refused_texts(alloc, rows)?;
    Ok(TypedAgain {
        rows,
        base: None,
        names: Names::new(alloc),
        kept,
        typing: None,
    })
}

/// The names and trees, file by file, as they are kept.
fn kept_again(
    alloc: Global,
    files: &[SourceRead],
    texts: Vec<TextNames>,
    trees: Vec<FileTree>,
) -> Result<Vec<Option<KeptTree>>, OutOfMemory>
    requires { CanBeKept (files_of_reads files.now) texts.items trees.items }
    ensures kept { IfOk result (λ kept. AreAllKept (files_of_reads files.now) kept.items) }
    ensures trees { IfOk result (λ kept. HaveTrees kept.items (map placed_file trees.items)) }
{
    let _files = files;
    let mut kept = Vec::new(alloc);
    for (text, tree) in texts.into_iter().zip(trees) {
        let TextNames { own, numbers } = text;
        put(
            &mut kept,
            Some(KeptTree {
                own,
                numbers: Some(numbers),
                tree,
            }),
        )?;
    }
    Ok(kept)
}

/// What was found of files with trees, with what is to be kept of them.
fn typed_again(found: TypedTrees, names: Names, kept: Vec<Option<KeptTree>>) -> TypedAgain
    ensures rows { result.rows ≡ found.typing.rows }
    ensures base { result.base ≡ found.typing.base }
    ensures names { result.names ≡ names }
    ensures kept { result.kept.items ≡ kept.items }
    ensures typing { result.typing ≡ found.kept }
{
    let TypedTrees {
        typing,
        kept: beside,
    } = found;
    let Typing { rows, base } = typing;
    TypedAgain {
        rows,
        base,
        names,
        kept,
        typing: beside,
    }
}

/// What was found of files with trees, with what is to be kept.
fn keep(
    alloc: Global,
    infer: Infer,
    reads: &[SourceRead],
    parsed: ParsedAgain,
    found: TypedTrees,
) -> Result<TypedAgain, OutOfMemory>
    requires parsed { AreParsedAgain reads.now parsed }
    requires typing { IsTyping infer (files_of_reads reads.now) parsed.names (map placed_file parsed.trees.items) found.typing }
    requires kept { IsKeptOf infer (map placed_file parsed.trees.items) found.typing.base found.kept }
    ensures typed { IfOk result (λ typed. AreTypedAgain infer reads.now typed) }
    ensures base { IfOk result (λ typed. typed.base ≡ found.typing.base) }
{
    let _infer = infer;
    let ParsedAgain {
        trees,
        names,
        texts,
        ..
    } = parsed;
    let kept = kept_again(alloc, reads, texts, trees)?;
    Ok(typed_again(found, names, kept))
}

/// The names and trees of files that pass no limit and all have trees; what the others come to.
fn parse_or_refuse<R: Threads + Sync, G: Gate + Sync>(
    rt: &R,
    gate: &G,
    alloc: Global,
    workers: Workers,
    infer: Infer,
    reads: &[SourceRead],
    last: &[SourceFile],
    trees: Vec<Option<KeptTree>>,
) -> Result<Result<ParsedAgain, TypedAgain>, OutOfMemory>
    requires few { length reads.now ≤ most_files }
    requires kept { AreKeptTrees last.now trees.items }
    ensures parsed { IfOk result (λ all. IfOk all (λ parsed. AreParsedAgain reads.now parsed)) }
    ensures same { IfOk result (λ all. IfOk all (λ parsed.
        StayPlaced trees.items parsed.same.items (map placed_file parsed.trees.items))) }
    ensures refused { IfOk result (λ all. IfErr all (λ typed. AreTypedAgain infer reads.now typed)) }
{
    let _infer = infer;
    let limits = limit_rows(alloc, reads)?;
    if !no_rows(&limits) {
        let typed = refused(alloc, limits, Vec::new(alloc))?;
        return Ok(Err(typed));
    }
    let parsed = parse_again(rt, alloc, reads, last, trees, workers, gate)?;
    if no_rows(&parsed.rows) {
        return Ok(Ok(parsed));
    }
    let ParsedAgain { rows, kept, .. } = parsed;
    let typed = refused(alloc, rows, kept)?;
    Ok(Err(typed))
}

/// What files that were read come to before their rules are looked at, at most 64 files, by so many workers, with the choice of members
/// that are inferred; `trees` is what was kept of the files `last`. The text of a file that has the text of the file at its place among
/// them is neither lexed nor parsed where its tree was kept. A worker enters the gate when it takes a file.
///
/// To be kept are the trees of all files whose texts have one, or none where the files pass a limit (`limit_rows`). Nothing need have been
/// kept of the files `last`: an empty list does for any of them.
///
/// # Errors
/// No memory was found. `trees` is gone then, and an empty list does in its place.
pub fn type_files_again<R: Threads + Sync, G: Gate + Sync>(
    rt: &R,
    gate: &G,
    alloc: Global,
    workers: Workers,
    infer: Infer,
    reads: &[SourceRead],
    last: &[SourceFile],
    trees: Vec<Option<KeptTree>>,
) -> Result<TypedAgain, OutOfMemory>
    requires few { length reads.now ≤ most_files }
    requires kept { AreKeptTrees last.now trees.items }
    ensures typed { IfOk result (λ typed. (files : List FileOf) → AreReads reads.now files
        → (placed : List PlacedFile) × IsTypedOr infer files typed.names placed typed.rows typed.base) }
    ensures kept { IfOk result (λ typed. (files : List FileOf) → AreReads reads.now files
        → AreKeptTrees files typed.kept.items) }
    ensures all { IfOk result (λ typed. (files : List FileOf) → AreReads reads.now files
        → limit_rows files ≡ [] → AreAllKept files typed.kept.items) }
    ensures typing { IfOk result (λ typed. IsSome typed.base → (placed : List PlacedFile)
        × HaveTrees typed.kept.items placed × IsKeptOf infer placed typed.base typed.typing) }
{
    let parsed = match parse_or_refuse(rt, gate, alloc, workers, infer, reads, last, trees)? {
        Ok(parsed) => parsed,
        Err(typed) => return Ok(typed),
    };
    let found = find_trees_anew(
        rt,
        alloc,
        workers,
        infer,
        reads,
        &parsed.names,
        &parsed.trees,
    )?;
    keep(alloc, infer, reads, parsed, found)
}

/// Does what [`type_files_again`] does, where the program `base` is that of files whose trees were kept in `trees`, and `typing` what was kept beside
/// it: rows and index of a class table that is alike, and bodies of files whose trees stay, aren't made anew
/// ([`jn_kept_points::find_trees_again`]). So much is told with what is found.
///
/// # Errors
/// Those of [`type_files_again`].
#[tactic(auto, using(jn_kept_points::proofs::Knowing::nothing_told, crate::proofs::Found::unchanged_by))]
pub fn type_files_on<R: Threads + Sync, G: Gate + Sync>(
    rt: &R,
    gate: &G,
    alloc: Global,
    workers: Workers,
    infer: Infer,
    reads: &[SourceRead],
    last: &[SourceFile],
    trees: Vec<Option<KeptTree>>,
    base: &mut BaseTyped,
    typing: &KeptTyping,
) -> Result<TypedOn, OutOfMemory>
    requires few { length reads.now ≤ most_files }
    requires kept { AreKeptTrees last.now trees.items }
    requires earlier { (before : List PlacedFile) × HaveTrees trees.items before
        × IsTypingOf infer before base.old typing.now }
    ensures typed { IfOk result (λ on. (files : List FileOf) → AreReads reads.now files
        → (placed : List PlacedFile) × IsTypedOr infer files on.typed.names placed on.typed.rows on.typed.base) }
    ensures kept { IfOk result (λ on. (files : List FileOf) → AreReads reads.now files
        → AreKeptTrees files on.typed.kept.items) }
    ensures all { IfOk result (λ on. (files : List FileOf) → AreReads reads.now files
        → limit_rows files ≡ [] → AreAllKept files on.typed.kept.items) }
    ensures typing { IfOk result (λ on. IsSome on.typed.base → (placed : List PlacedFile)
        × HaveTrees on.typed.kept.items placed × IsKeptOf infer placed on.typed.base on.typed.typing) }
    ensures unchanged { IfOk result
        (λ on. IsUnchangedIn base.old on.typed.base on.unchanged) }
    ensures base { base.new ≡ base.old }
{
    let parsed = match parse_or_refuse(rt, gate, alloc, workers, infer, reads, last, trees)? {
        Ok(parsed) => parsed,
        Err(typed) => {
            return Ok(TypedOn {
                typed,
                unchanged: nothing_unchanged(alloc),
            });
        }
    };
    let FoundAgain { found, unchanged } = find_trees_again(
        rt,
        alloc,
        workers,
        infer,
        reads,
        &parsed.names,
        &parsed.trees,
        &parsed.same,
        base,
        typing,
    )?;
    let typed = keep(alloc, infer, reads, parsed, found)?;
    Ok(TypedOn { typed, unchanged })
}
