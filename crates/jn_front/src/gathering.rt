//! What files have, by the outcomes of their texts.
ghost use Rattle.std.specs.Prelude.{◌≡◌, ◌≤◌, ◌<◌, ◌+◌, ◌^◌, ◌++◌, ◌∷◌, [], ℕ, List, length, map, IfOk, OnOk};
ghost use Rattle.jn_known.specs.Known.{known_names};
ghost use Rattle.jn_places.specs.PlacedView.{placed_file};
ghost use Rattle.jn_renumber.specs.Merged.{merged, merged_numbers};
ghost use Rattle.jn_renumber.specs.Renumbered.{renumbered_file};
ghost use Rattle.jn_front.specs.Outcomes.{IsOutcome, AreOutcomes, lexical_rows, syntax_rows, joined_names, joined_trees, HaveFewNames};
ghost use Rattle.jn_front.specs.Numbered.{numbered_tree};
ghost use Rattle.jn_front.specs.declared.outcome.Outcome.TheVariants.{Tree};
ghost use Rattle.jn_front.specs.declared.source.SourceFile.{SourceFile};

use crate::outcome::Outcome;
use crate::parsing::ParsedFiles;
use crate::renumbering::{Numbered, renumber_by};
use jn_base::lists::put;
use jn_base::{OutOfMemory, Row};
use jn_lex_shared::known_names;
use jn_lex_shared::law::{own_names_can_be_merged, own_trees_can_be_renumbered};
use jn_parse_placed::law::files_have_one_placed_tree;
use jn_renumber::merge;
use jn_trees::{FileTree, Names};
use std::alloc::{AllocError, Global};
use std::thread::Threads;

/// The lexical faults, in the files' order.
pub fn lexical_rows(alloc: Global, outcomes: &[Outcome]) -> Result<Vec<Row>, AllocError>
    ensures { IfOk result (λ rows. rows.items ≡ lexical_rows outcomes.now) }
{
    let mut rows = Vec::new(alloc);
    'outcomes: for outcome in outcomes {
        match outcome {
            Outcome::Lexical(row) => rows.push(*row)?,
            Outcome::Syntax(_) => (),
            Outcome::Tree { .. } => (),
        }
    }
    Ok(rows)
}

/// The syntax rows, in the files' order.
pub fn syntax_rows(alloc: Global, outcomes: &[Outcome]) -> Result<Vec<Row>, AllocError>
    ensures { IfOk result (λ rows. rows.items ≡ syntax_rows outcomes.now) }
{
    let mut rows = Vec::new(alloc);
    'outcomes: for outcome in outcomes {
        match outcome {
            Outcome::Lexical(_) => (),
            Outcome::Syntax(row) => rows.push(*row)?,
            Outcome::Tree { .. } => (),
        }
    }
    Ok(rows)
}

/// Adds a file's tree to those of the files before it, with the numbers that its names are to have once they are merged into theirs.
/// The first tree and its names stay as they are, as they would where its names are merged into the known ones.
fn join_tree(
    alloc: Global,
    names: &mut Names,
    trees: &mut Vec<Numbered>,
    own: Names,
    tree: FileTree,
) -> Result<(), OutOfMemory>
    requires room { length names.old < 2 ^ 31 }
    requires few { length own ≤ 1048606 }
    requires found { (k : ℕ) × (file : SourceFile) × IsOutcome k file (Tree own tree) }
    requires begun { trees.old.items ≡ [] → names.old ≡ known_names }
    ensures names { OnOk result (names.new ≡ merged names.old own) }
    ensures trees { OnOk result (map numbered_tree trees.new.items
        ≡ map numbered_tree trees.old.items
        ++ renumbered_file (merged_numbers names.old own) (placed_file tree) ∷ []) }
{
    own_names_can_be_merged();
    own_trees_can_be_renumbered();
    files_have_one_placed_tree();
    if trees.is_empty() {
        *names = own;
        let numbers = None;
        put(trees, Numbered { tree, numbers })?;
        return Ok(());
    }
    let numbers = Some(merge(alloc, names, &own)?);
    put(trees, Numbered { tree, numbers })?;
    Ok(())
}

/// Adds what a file has to the names and trees of the files before it.
fn join_next(
    alloc: Global,
    names: &mut Names,
    trees: &mut Vec<Numbered>,
    outcome: Outcome,
) -> Result<(), OutOfMemory>
    requires room { length names.old < 2 ^ 31 }
    requires few { HaveFewNames (outcome ∷ []) }
    requires found { (k : ℕ) × (file : SourceFile) × IsOutcome k file outcome }
    requires begun { trees.old.items ≡ [] → names.old ≡ known_names }
    ensures names { OnOk result (names.new ≡ joined_names names.old (outcome ∷ [])) }
    ensures trees { OnOk result (map numbered_tree trees.new.items
        ≡ map numbered_tree trees.old.items ++ joined_trees names.old (outcome ∷ [])) }
{
    match outcome {
        Outcome::Lexical(_) => Ok(()),
        Outcome::Syntax(_) => Ok(()),
        Outcome::Tree { names: own, tree } => join_tree(alloc, names, trees, own, tree),
    }
}

/// The names of all files, and their trees with the numbers that their names are to have.
fn merge_all(alloc: Global, outcomes: Vec<Outcome>) -> Result<(Names, Vec<Numbered>), OutOfMemory>
    requires many { length outcomes.items ≤ 64 }
    requires few { HaveFewNames outcomes.items }
    requires found { (files : List SourceFile) × AreOutcomes 0 files outcomes.items }
    ensures names { IfOk result (λ r. r.0 ≡ joined_names known_names outcomes.items) }
    ensures trees { IfOk result
        (λ r. map numbered_tree r.1.items ≡ joined_trees known_names outcomes.items) }
{
    let mut names = known_names(alloc)?;
    let mut trees = Vec::new(alloc);
    for outcome in outcomes {
        join_next(alloc, &mut names, &mut trees, outcome)?;
    }
    Ok((names, trees))
}

/// The names and trees of all files; one worker and as many others as `more` number the trees' names anew.
pub fn join_all<R: Threads + Sync>(
    rt: &R,
    alloc: Global,
    outcomes: Vec<Outcome>,
    more: u32,
) -> Result<ParsedFiles, OutOfMemory>
    requires many { length outcomes.items ≤ 64 }
    requires few { HaveFewNames outcomes.items }
    requires found { (files : List SourceFile) × AreOutcomes 0 files outcomes.items }
    ensures rows { IfOk result (λ p. p.rows.items ≡ []) }
    ensures names { IfOk result (λ p. p.names ≡ joined_names known_names outcomes.items) }
    ensures trees { IfOk result
        (λ p. map placed_file p.trees.items ≡ joined_trees known_names outcomes.items) }
{
    let (names, numbered) = merge_all(alloc, outcomes)?;
    let trees = renumber_by(rt, alloc, numbered, more as usize + 1)?;
    Ok(ParsedFiles {
        trees,
        names,
        rows: Vec::new(alloc),
    })
}
