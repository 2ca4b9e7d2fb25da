//! Dataflow over the points of a body, block by block, for any environments that can be joined.
#![tactic(auto)]

mod analysis;
mod blocks;
mod loops;
mod slots;
mod sweeps;

pub use analysis::Dataflow;
pub use slots::Slots;
pub use sweeps::solve;
