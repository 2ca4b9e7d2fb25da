//! From the texts of files to their names and trees, or their rows, where trees of texts that stayed are kept.
ghost use Rattle.std.specs.Prelude.{◌≡◌, ◌≤◌, ◌<◌, [], true, false, length, map, IfOk};
ghost use Rattle.jn_places.specs.PlacedView.{placed_file};
ghost use Rattle.jn_front.specs.Files.{files_of_reads};
ghost use Rattle.jn_front.specs.Phases.{AreTreesOf, TextRows};
ghost use Rattle.jn_kept_trees.specs.KeptTrees.{AreAllKept, AreKeptTrees};
ghost use Rattle.jn_kept_trees.specs.Merges.{AreAll, CanBeKept};
ghost use Rattle.jn_kept_trees.specs.Staying.{AreAmong, StayPlaced};

use crate::kept::KeptTree;
use crate::merging::{Merged, TextNames, merge_all};
use crate::parsing::{parse_others, which_are_kept};
use crate::rows::{lexical_rows, syntax_rows};
use crate::same::still_kept;
use crate::unchanged::which_stay;
use crate::updating::update_all;
use jn_base::{OutOfMemory, Row};
use jn_front::renumbering::renumber_by;
use jn_front::{SourceFile, SourceRead};
use jn_lex_shared::law::{own_names_can_be_merged, own_trees_can_be_renumbered};
use jn_lexer::law::{texts_have_few_tokens, texts_have_one_reading};
use jn_sharing::{Gate, Workers};
use jn_trees::{FileTree, Names};
use std::alloc::Global;
use std::thread::Threads;

/// What became of the texts of files: the tree of each, or the rows of those that have none.
#[derive(Drop)]
pub struct ParsedAgain {
    /// The tree of each file, in the files' order; none where there are rows.
    pub trees: Vec<FileTree>,
    /// The names in the order of their numbers, the known ones first; none where there are rows.
    pub names: Names,
    /// The names of each text and their numbers; none where there are rows.
    pub texts: Vec<TextNames>,
    /// The first lexical fault of each file that has one; where none has, the one syntax row of each file that has no tree.
    pub rows: Vec<Row>,
    /// What is kept of each file, where there are rows.
    pub kept: Vec<Option<KeptTree>>,
    /// For each file whether its tree is the one that was kept of it, names' numbers and places included; nothing where there are rows.
    pub same: Vec<bool>,
}

fn no_rows(rows: &Vec<Row>) -> bool
    ensures some { result ≡ false → rows.now.items ≡ [] → ⊥ }
    ensures none { result ≡ true → rows.now.items ≡ [] }
{
    rows.is_empty()
}

/// Rows, and so no trees.
fn refused(alloc: Global, rows: Vec<Row>, kept: Vec<Option<KeptTree>>) -> ParsedAgain
    ensures rows { result.rows.items ≡ rows.items }
    ensures kept { result.kept.items ≡ kept.items }
{
    ParsedAgain {
        trees: Vec::new(alloc),
        names: Names::new(alloc),
        texts: Vec::new(alloc),
        rows,
        kept,
        same: Vec::new(alloc),
    }
}

/// The names and trees of files that all have one; `flags` tells which trees were kept before, and so many workers renumber the trees.
fn merged<R: Threads + Sync>(
    rt: &R,
    alloc: Global,
    reads: &[SourceRead],
    kept: Vec<Option<KeptTree>>,
    flags: &[bool],
    workers: Workers,
) -> Result<ParsedAgain, OutOfMemory>
    requires few { length reads.now ≤ 64 }
    requires long { length kept.items ≡ length reads.now }
    requires kept { AreKeptTrees (files_of_reads reads.now) kept.items }
    requires all { AreAll kept.items }
    ensures rows { IfOk result (λ p. p.rows.items ≡ []) }
    ensures trees { IfOk result
        (λ p. AreTreesOf (files_of_reads reads.now) p.names (map placed_file p.trees.items)) }
    ensures texts { IfOk result
        (λ p. CanBeKept (files_of_reads reads.now) p.texts.items p.trees.items) }
    ensures among { IfOk result (λ p. AreAmong p.same.items flags.now) }
    ensures same { IfOk result
        (λ p. StayPlaced kept.items p.same.items (map placed_file p.trees.items)) }
{
    let _reads = reads;
    texts_have_few_tokens();
    own_names_can_be_merged();
    own_trees_can_be_renumbered();
    let Merged {
        names,
        trees,
        texts,
    } = merge_all(alloc, kept)?;
    let same = which_stay(alloc, trees.as_slice(), flags)?;
    let trees = renumber_by(rt, alloc, trees, workers.count() as usize)?;
    Ok(ParsedAgain {
        trees,
        names,
        texts,
        rows: Vec::new(alloc),
        kept: Vec::new(alloc),
        same,
    })
}

/// The rows of texts, where there are some, else the names and trees of files that then all have one; `flags` tells which trees were
/// kept before.
fn put_together<R: Threads + Sync>(
    rt: &R,
    alloc: Global,
    reads: &[SourceRead],
    kept: Vec<Option<KeptTree>>,
    flags: &[bool],
    faults: Vec<Row>,
    syntax: Vec<Row>,
    workers: Workers,
) -> Result<ParsedAgain, OutOfMemory>
    requires few { length reads.now ≤ 64 }
    requires long { length kept.items ≡ length reads.now }
    requires kept { AreAllKept (files_of_reads reads.now) kept.items }
    requires faults { (faults.items ≡ [] → ⊥) → TextRows (files_of_reads reads.now) faults.items }
    requires syntax { faults.items ≡ [] → TextRows (files_of_reads reads.now) syntax.items }
    requires all { faults.items ≡ [] → syntax.items ≡ [] → AreAll kept.items }
    ensures rows { IfOk result
        (λ p. (p.rows.items ≡ [] → ⊥) → TextRows (files_of_reads reads.now) p.rows.items) }
    ensures trees { IfOk result (λ p. p.rows.items ≡ []
        → AreTreesOf (files_of_reads reads.now) p.names (map placed_file p.trees.items)) }
    ensures texts { IfOk result (λ p. p.rows.items ≡ []
        → CanBeKept (files_of_reads reads.now) p.texts.items p.trees.items) }
    ensures kept { IfOk result (λ p. (p.rows.items ≡ [] → ⊥)
        → AreAllKept (files_of_reads reads.now) p.kept.items) }
    ensures among { IfOk result (λ p. p.rows.items ≡ [] → AreAmong p.same.items flags.now) }
    ensures same { IfOk result (λ p. p.rows.items ≡ []
        → StayPlaced kept.items p.same.items (map placed_file p.trees.items)) }
{
    if !no_rows(&faults) {
        return Ok(refused(alloc, faults, kept));
    }
    if !no_rows(&syntax) {
        return Ok(refused(alloc, syntax, kept));
    }
    merged(rt, alloc, reads, kept, flags, workers)
}

/// The tree of each file that was read (JLS 7.3) with its places and all names, or the rows of their texts, as
/// [`jn_front::parse_files`] gives them. The text of a file that had the same text before, at the same place, is neither lexed nor parsed
/// where its tree was kept.
///
/// # Errors
/// No memory was found.
pub fn parse_again<R: Threads + Sync, G: Gate + Sync>(
    rt: &R,
    alloc: Global,
    reads: &[SourceRead],
    last: &[SourceFile],
    trees: Vec<Option<KeptTree>>,
    workers: Workers,
    gate: &G,
) -> Result<ParsedAgain, OutOfMemory>
    requires few { length reads.now ≤ 64 }
    requires kept { AreKeptTrees last.now trees.items }
    ensures rows { IfOk result
        (λ p. (p.rows.items ≡ [] → ⊥) → TextRows (files_of_reads reads.now) p.rows.items) }
    ensures trees { IfOk result (λ p. p.rows.items ≡ []
        → AreTreesOf (files_of_reads reads.now) p.names (map placed_file p.trees.items)) }
    ensures texts { IfOk result (λ p. p.rows.items ≡ []
        → CanBeKept (files_of_reads reads.now) p.texts.items p.trees.items) }
    ensures kept { IfOk result (λ p. (p.rows.items ≡ [] → ⊥)
        → AreAllKept (files_of_reads reads.now) p.kept.items) }
    ensures same { IfOk result (λ p. p.rows.items ≡ []
        → StayPlaced trees.items p.same.items (map placed_file p.trees.items)) }
{
    texts_have_one_reading();
    own_names_can_be_merged();
    own_trees_can_be_renumbered();
    let before = still_kept(alloc, trees, last, reads)?;
    let flags = which_are_kept(alloc, &before)?;
    let fresh = parse_others(rt, alloc, reads, &flags, workers, gate)?;
    let faults = lexical_rows(alloc, &fresh)?;
    let syntax = syntax_rows(alloc, &fresh)?;
    let kept = update_all(before, fresh);
    put_together(rt, alloc, reads, kept, &flags, faults, syntax, workers)
}
