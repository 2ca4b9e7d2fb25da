//! The names of all files, and the numbers that those of each text get.
ghost use Rattle.std.specs.Prelude.{◌≡◌, ◌≤◌, ◌<◌, ◌^◌, ◌++◌, ◌∷◌, [], ℕ, List, length, map, IfOk, MatchOption, OnOk, Some};
ghost use Rattle.jn_known.specs.Known.{known_names};
ghost use Rattle.jn_places.specs.PlacedView.{placed_file};
ghost use Rattle.jn_renumber.specs.Merged.{merged, merged_numbers};
ghost use Rattle.jn_front.specs.Numbered.{numbered_by, numbered_tree};
ghost use Rattle.jn_front.specs.declared.source.SourceFile.{SourceFile};
ghost use Rattle.jn_kept_trees.specs.KeptTrees.{AreNumbersOf, IsKeptTree};
ghost use Rattle.jn_kept_trees.specs.Shifts.{AreConsistent, LeadsFrom};
ghost use Rattle.jn_kept_trees.specs.Merges.{AreFit, AreMerged, HasWay, IsFit, IsJoined, IsWay};
ghost use Rattle.jn_kept_trees.specs.Staying.{raw_of, raw_tree, raw_trees};

use crate::kept::KeptTree;
use crate::shifting::{are_same, shift};
use jn_base::lists::put;
use jn_base::{NameNo, OutOfMemory};
use jn_front::renumbering::Numbered;
use jn_lex_shared::known_names;
use jn_parse_placed::law::files_have_one_placed_tree;
use jn_renumber::merge;
use jn_trees::{FileTree, Names};
use std::alloc::{AllocError, Global};

/// The names of a text, and the number that each of them has among those of all files.
#[derive(Drop)]
pub struct TextNames {
    pub own: Names,
    pub numbers: Vec<NameNo>,
}

fn copy_numbers(alloc: Global, numbers: &[NameNo]) -> Result<Vec<NameNo>, AllocError>
    ensures { IfOk result (λ copy. copy.items ≡ numbers.now) }
{
    Vec::from_slice(alloc, numbers)
}

/// By what the old numbers become the new ones, where they aren't the same.
fn way_from(
    alloc: Global,
    old: &[NameNo],
    new: &[NameNo],
) -> Result<Option<Vec<NameNo>>, OutOfMemory>
    requires long { length new.now ≡ length old.now }
    requires consistent { AreConsistent old.now new.now }
    ensures { IfOk result (λ by. MatchOption by (old.now ≡ new.now)
        (λ by. LeadsFrom old.now new.now by.items)) }
{
    if are_same(old, new) {
        return Ok(None);
    }
    Ok(Some(shift(alloc, old, new)?))
}

/// By what a tree's names get the new numbers, where they have the old ones, or their own; none where these are the same.
///
/// # Errors
/// No memory was found.
pub fn way(
    alloc: Global,
    old: &Option<Vec<NameNo>>,
    new: &[NameNo],
) -> Result<Option<Vec<NameNo>>, OutOfMemory>
    requires { HasWay old.now new.now }
    ensures { IfOk result (λ by. IsWay old.now new.now by) }
{
    match old {
        None => Ok(Some(copy_numbers(alloc, new)?)),
        Some(old) => way_from(alloc, old.as_slice(), new),
    }
}

/// The numbers that a text's names get, and by what its tree's names do.
#[derive(Drop)]
pub struct NextNumbers {
    pub numbers: Vec<NameNo>,
    pub by: Option<Vec<NameNo>>,
}

/// Merges a text's names into those of the files before it.
fn next_numbers(
    alloc: Global,
    names: &mut Names,
    kept: &KeptTree,
) -> Result<NextNumbers, OutOfMemory>
    requires room { length names.old < 2 ^ 31 }
    requires fit { IsFit (Some kept.now) }
    ensures names { OnOk result (names.new ≡ merged names.old kept.now.own) }
    ensures numbers { IfOk result
        (λ next. next.numbers.items ≡ merged_numbers names.old kept.now.own) }
    ensures by { IfOk result (λ next. IsWay kept.now.numbers next.numbers.items next.by) }
{
    let numbers = merge(alloc, names, &kept.own)?;
    let by = way(alloc, &kept.numbers, &numbers)?;
    Ok(NextNumbers { numbers, by })
}

fn put_both(
    trees: &mut Vec<Numbered>,
    texts: &mut Vec<TextNames>,
    tree: Numbered,
    text: TextNames,
) -> Result<(), AllocError>
    ensures trees { OnOk result (trees.new.items ≡ trees.old.items ++ tree ∷ []) }
    ensures texts { OnOk result (texts.new.items ≡ texts.old.items ++ text ∷ []) }
{
    put(trees, tree)?;
    put(texts, text)?;
    Ok(())
}

/// Puts a text's tree and names to those before it.
fn put_parts(
    trees: &mut Vec<Numbered>,
    texts: &mut Vec<TextNames>,
    kept: KeptTree,
    next: NextNumbers,
) -> Result<(), AllocError>
    ensures trees { OnOk result (map numbered_tree trees.new.items
        ≡ map numbered_tree trees.old.items ++ numbered_by next.by (placed_file kept.tree) ∷ []) }
    ensures raw { OnOk result (map raw_tree trees.new.items
        ≡ map raw_tree trees.old.items ++ placed_file kept.tree ∷ []) }
    ensures texts { OnOk result (texts.new.items
        ≡ texts.old.items ++ (record { own = kept.own; numbers = next.numbers }) ∷ []) }
{
    let KeptTree { own, tree, .. } = kept;
    let NextNumbers { numbers, by } = next;
    put_both(
        trees,
        texts,
        Numbered { tree, numbers: by },
        TextNames { own, numbers },
    )
}

/// Merges a text's names, and puts its tree and names to those before it.
fn join_tree(
    alloc: Global,
    names: &mut Names,
    trees: &mut Vec<Numbered>,
    texts: &mut Vec<TextNames>,
    kept: KeptTree,
) -> Result<(), OutOfMemory>
    requires room { length names.old < 2 ^ 31 }
    requires fit { IsFit (Some kept) }
    ensures joined { OnOk result (IsJoined (Some kept) names.old names.new
        (map numbered_tree trees.old.items) (map numbered_tree trees.new.items) texts.old.items
        texts.new.items) }
    ensures raw { OnOk result (map raw_tree trees.new.items
        ≡ map raw_tree trees.old.items ++ placed_file kept.tree ∷ []) }
{
    files_have_one_placed_tree();
    let next = next_numbers(alloc, names, &kept)?;
    put_parts(trees, texts, kept, next)?;
    Ok(())
}

fn join_next(
    alloc: Global,
    names: &mut Names,
    trees: &mut Vec<Numbered>,
    texts: &mut Vec<TextNames>,
    kept: Option<KeptTree>,
) -> Result<(), OutOfMemory>
    requires room { length names.old < 2 ^ 31 }
    requires fit { IsFit kept }
    ensures joined { OnOk result (IsJoined kept names.old names.new
        (map numbered_tree trees.old.items) (map numbered_tree trees.new.items) texts.old.items
        texts.new.items) }
    ensures raw { OnOk result
        (map raw_tree trees.new.items ≡ map raw_tree trees.old.items ++ raw_of kept) }
{
    match kept {
        None => Ok(()),
        Some(kept) => join_tree(alloc, names, trees, texts, kept),
    }
}

/// The names of all files, their trees with what these are to be renumbered by, and what is kept beside them.
#[derive(Drop)]
pub struct Merged {
    pub names: Names,
    pub trees: Vec<Numbered>,
    pub texts: Vec<TextNames>,
}

/// Merges the names of all texts that have trees, at most 64.
///
/// # Errors
/// No memory was found.
pub fn merge_all(alloc: Global, kept: Vec<Option<KeptTree>>) -> Result<Merged, OutOfMemory>
    requires many { length kept.items ≤ 64 }
    requires fit { AreFit kept.items }
    ensures joined { IfOk result (λ m. AreMerged known_names kept.items
        (map numbered_tree m.trees.items) m.texts.items m.names) }
    ensures raw { IfOk result (λ m. map raw_tree m.trees.items ≡ raw_trees kept.items) }
{
    let mut names = known_names(alloc)?;
    let mut trees = Vec::new(alloc);
    let mut texts = Vec::new(alloc);
    for one in kept {
        join_next(alloc, &mut names, &mut trees, &mut texts, one)?;
    }
    Ok(Merged {
        names,
        trees,
        texts,
    })
}
