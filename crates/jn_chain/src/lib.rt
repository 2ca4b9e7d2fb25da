//! Why a bit stands: the first of the shortest chains of causes, from an item to the text.
#![tactic(auto)]

pub mod chains;
pub mod first;
pub mod kept;
mod levels;
mod lists;
mod order;
pub mod origins;
mod settled;
pub mod shown;
pub mod sources;
pub mod walk;

pub use chains::Chains;
pub use first::{find_left, first_chain, next_first_chain};
pub use kept::Kept;
pub use origins::Origins;
pub use shown::{Told, nothing_told, told_with};
pub use walk::walk_to;
