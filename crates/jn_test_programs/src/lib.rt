//! Programs made by hand, for tests: a builder of their lists, and a function for each kind of point.
#![tactic(auto)]

pub mod build;
pub mod lines;
