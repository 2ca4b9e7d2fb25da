//! What is kept of files, once the changed ones are parsed.
ghost use Rattle.std.specs.Prelude.{◌≡◌, ◌<◌, ℕ, None, length, get_or, slice_set};
ghost use Rattle.jn_kept_trees.specs.Fresh.{kept_of, updated};

use crate::kept::KeptTree;
use jn_front::Outcome;

/// What is to be kept of a text with this outcome.
fn kept_of(outcome: Outcome) -> Option<KeptTree>
    ensures { result ≡ kept_of outcome }
{
    match outcome {
        Outcome::Lexical(_) => None,
        Outcome::Syntax(_) => None,
        Outcome::Tree { names, tree } => Some(KeptTree {
            own: names,
            numbers: None,
            tree,
        }),
    }
}

fn update_at(trees: &mut Vec<Option<KeptTree>>, at: usize, fresh: Option<Outcome>)
    requires { at < length trees.old.items }
    ensures { trees.new.items
        ≡ slice_set trees.old.items at (updated (get_or trees.old.items at None) fresh) }
{
    if let Some(outcome) = fresh {
        trees[at] = kept_of(outcome);
    }
}

/// Takes out what became of the file at this place.
fn take_at(fresh: &mut Vec<Option<Outcome>>, at: usize) -> Option<Outcome>
    requires { at < length fresh.old.items }
    ensures taken { result ≡ get_or fresh.old.items at None }
    ensures rest { fresh.new.items ≡ slice_set fresh.old.items at None }
{
    fresh[at].take()
}

/// What is kept of the files, once this became of those that had no tree.
pub fn update_all(
    trees: Vec<Option<KeptTree>>,
    fresh: Vec<Option<Outcome>>,
) -> Vec<Option<KeptTree>>
    requires { length fresh.items ≡ length trees.items }
    ensures long { length result.items ≡ length trees.items }
    ensures each { (n : ℕ) → n < length trees.items → get_or result.items n None
        ≡ updated (get_or trees.items n None) (get_or fresh.items n None) }
{
    let mut trees = trees;
    let mut fresh = fresh;
    for at in 0..trees.len() {
        let one = take_at(&mut fresh, at);
        update_at(&mut trees, at, one);
    }
    trees
}
