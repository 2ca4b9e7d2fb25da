//! Expressions by recursion on their trees: the code of `jn_meaning`'s definitions.
//!
//! [`value`] evaluates an expression, [`condition`] decides one, and [`evaluated`] evaluates operands from left to right. What a call
//! of a method or constructor does is a closure, kept in a [`Calling`], so that no body is evaluated here.
#![tactic(auto)]

pub mod calling;
mod calls;
mod expressions;
pub mod forms;
mod names;
mod steps;

pub use calling::{Calling, Enters};
pub use expressions::{condition, evaluated, value};
