//! What a point makes of an environment, least tables, and the rules.
#![tactic(auto)]

pub mod analysis;
pub mod creation;
pub mod edges;
pub mod entry;
pub mod law;
pub mod lookup;

pub use analysis::{Analysis, Edge};
pub use edges::transfer;
