//! The rules at the points of a body, as rows.
#![tactic(auto)]

pub mod ctor;
pub mod kinds;
pub mod overriding;
pub mod rows;
pub mod rules;

pub use overriding::{indexed_override_rows, override_rows};
pub use rows::{checks, checks_by};
