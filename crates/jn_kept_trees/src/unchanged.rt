//! Which files' trees stay as they were.
ghost use Rattle.std.specs.Prelude.{◌≡◌, ℕ, Some, false, get_or, slice_get, IfOk};
ghost use Rattle.jn_kept_trees.specs.Staying.{stays_as_it_was};

use jn_base::OutOfMemory;
use jn_base::lists::put;
use jn_front::renumbering::Numbered;
use jn_kept_points::known::is_told;
use std::alloc::Global;

/// Whether a tree stays as it was, that was kept or not.
fn stays(kept: bool, tree: &Numbered) -> bool
    ensures { result ≡ stays_as_it_was kept (Some tree.now) }
{
    kept && tree.numbers.is_none()
}

/// Which trees stay as they were, where these were kept: those whose names keep their numbers.
///
/// # Errors
/// No memory was found.
pub(crate) fn which_stay(
    alloc: Global,
    trees: &[Numbered],
    kept: &[bool],
) -> Result<Vec<bool>, OutOfMemory>
    ensures { IfOk result (λ same. (n : ℕ) → get_or same.items n false
        ≡ stays_as_it_was (get_or kept.now n false) (slice_get trees.now n)) }
{
    let mut same = Vec::new(alloc);
    for at in 0..trees.len() {
        let one = stays(is_told(kept, at), &trees[at]);
        put(&mut same, one)?;
    }
    Ok(same)
}
