//! What names mean in a body: locals in scope, fields, classes and methods, and the type of each expression.
//!
//! Each function equals its definition in `jn_lowering` for every tree, whether it has rows or not.
#![tactic(auto)]

pub mod assigns;
pub mod context;
pub mod forms;
pub mod heads;
pub mod lookup;
pub mod members;
pub mod types;
pub mod variables;

pub use context::{Access, Bound, Callee, Context, Faults, Meaning, Variable};
pub use variables::Variables;
