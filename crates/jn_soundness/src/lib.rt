//! The law that accepted programs never dereference null.
#![tactic(auto)]

pub mod law;
