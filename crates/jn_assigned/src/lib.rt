//! Definite assignment: the points that are reached, and the registers that some path leaves without a write, in one run.
#![tactic(auto)]

mod assignment;
mod bits;
mod lacks;

pub use lacks::{Unwritten, unassigned};
