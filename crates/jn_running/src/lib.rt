//! Runs of accepted programs: each ends as done, by an exception of Java with its place, or at a limit; none gets
//! stuck.
#![tactic(auto)]

pub mod ended;
mod going;
pub mod machine;

pub use ended::{Ended, FaultKind};
pub use machine::{Machine, run_main};
