//! Accepted programs: what is checked of them, and that they never dereference null and never get stuck.
#![tactic(auto)]

pub mod accepted;
pub mod accepting;
pub mod mains;

pub use accepted::Accepted;
pub use accepting::accept;
pub use mains::only_main;
