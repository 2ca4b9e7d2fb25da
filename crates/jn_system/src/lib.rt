//! Inference as a system that workers solve, and checks of all bodies by workers.
#![tactic(auto)]

pub mod bodies;
pub mod checking;
pub mod inferable;
pub mod listing;
pub mod nullness;
pub mod packing;
pub mod reading;
pub mod signature;
pub mod solving;
pub mod tasks;

pub use checking::check_all;
pub use inferable::is_inferable;
pub use nullness::Nullness;
pub use solving::{solve_sig, solve_with};
