//! The run of a program's `main` by the meaning of its trees: the code of `jn_meaning`'s bodies, calls and ends.
//!
//! [`tree_run`] enters `main`, evaluates its trees without points, registers or lowering, and says how it ended. What statements do is
//! `jn_tree_stmt`'s, and what a call does is a closure there; here is the function that makes it ([`calling`]). The cases also make calls from
//! outside ([`outside`]).
#![tactic(auto)]

mod body;
pub mod calling;
mod construction;
pub mod ended;
mod entry;
pub mod outside;
pub mod run;

pub use ended::{FaultKind, TreeEnd};
pub use run::tree_run;
