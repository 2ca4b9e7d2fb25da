//! Statements by recursion on their trees: the code of `jn_meaning`'s definitions.
//!
//! [`execute_all`] runs statements one after the other. What a call of a method or constructor does is a closure, so that no body is
//! entered here. The number of turns is the one that the definition carries: fuel is never more, and decides.
#![tactic(auto)]

mod each;
mod simple;
pub mod statements;
mod turns;

pub use statements::execute_all;
