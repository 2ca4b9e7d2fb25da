//! The trees of files, each given the numbers that its names have among those of all files, by workers.
ghost use Rattle.std.specs.Prelude.{◌≡◌, ◌<◌, ℕ, length, map, slice_index_or, IfOk};
ghost use Rattle.jn_front.specs.declared.renumbering.Numbered.{Numbered as NumberedOf};
ghost use Rattle.jn_places.specs.PlacedView.{placed_file};
ghost use Rattle.jn_front.specs.Numbered.{numbered_tree, tree_of};

use jn_base::lists::put;
use jn_base::{NameNo, OutOfMemory};
use jn_renumber::renumber_file;
use jn_trees::FileTree;
use std::alloc::Global;
use std::thread::{Threads, for_each_mut};

/// A file's tree, and the numbers that its names are to have.
#[derive(Drop)]
pub struct Numbered {
    /// The tree, whose names have the numbers that they have in the file.
    pub tree: FileTree,
    /// At each of these, the number among the names of all files; none where these are the same.
    pub numbers: Option<Vec<NameNo>>,
}

/// Gives the tree's names the numbers that they are to have.
fn renumber(numbered: &mut Numbered)
    ensures { placed_file numbered.new.tree ≡ numbered_tree numbered.old }
{
    if let Some(numbers) = &numbered.numbers {
        renumber_file(numbers.as_slice(), &mut numbered.tree);
    }
}

/// The trees without the numbers.
fn trees_of(alloc: Global, numbered: Vec<Numbered>) -> Result<Vec<FileTree>, OutOfMemory>
    ensures { IfOk result (λ trees. trees.items ≡ map tree_of numbered.items) }
{
    let mut trees = Vec::new(alloc);
    for one in numbered {
        let Numbered { tree, .. } = one;
        put(&mut trees, tree)?;
    }
    Ok(trees)
}

/// Gives the names of each tree the numbers that they are to have: so many workers take each a range of the trees.
fn renumber_all<R: Threads + Sync>(rt: &R, numbered: &mut [Numbered], workers: usize)
    requires { 0 < workers }
    ensures { (at : ℕ) (d : NumberedOf) → at < length numbered.old
        → placed_file (slice_index_or numbered.new at d).tree
        ≡ numbered_tree (slice_index_or numbered.old at d) }
{
    let each = |_at: usize, one: &mut Numbered|
        ensures { placed_file one.exit.now.tree ≡ numbered_tree one.entry.now }
    { renumber(one) };
    for_each_mut(rt, numbered, workers, &each);
}

/// The trees, each with the numbers that its names are to have, by so many workers.
///
/// # Errors
///
/// [`OutOfMemory`] where the list of the trees found no memory.
pub fn renumber_by<R: Threads + Sync>(
    rt: &R,
    alloc: Global,
    numbered: Vec<Numbered>,
    workers: usize,
) -> Result<Vec<FileTree>, OutOfMemory>
    requires { 0 < workers }
    ensures { IfOk result
        (λ trees. map placed_file trees.items ≡ map numbered_tree numbered.items) }
{
    let mut numbered = numbered;
    renumber_all(rt, numbered.as_mut_slice(), workers);
    let trees = trees_of(alloc, numbered)?;
    Ok(trees)
}
