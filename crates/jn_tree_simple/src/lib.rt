//! What a statement does that has no other in it, by recursion on its trees: the code of `jn_meaning`'s definitions.
//!
//! [`pieces`] has expressions for their effects, `return` and declarations; [`each`] the parts of a `for` over an array. A [`Standing`]
//! is the names in scope and the number of the next local, and a [`Flow`] says where a statement goes on.
#![tactic(auto)]

pub mod each;
pub mod flow;
pub mod pieces;
pub mod standing;

pub use flow::Flow;
pub use standing::{Site, Standing};
