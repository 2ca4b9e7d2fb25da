//! Laws of good states: what is kept of each state that a run of an accepted program comes to.
#![tactic(auto)]

pub mod law;
