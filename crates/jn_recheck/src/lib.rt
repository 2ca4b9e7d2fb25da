//! Rechecking after edits: a [`Session`] keeps files, and of its reports what serves the next one.
#![tactic(auto)]

pub mod file_set;
mod files;
mod kept;
pub mod law;
mod least;
mod notes;
mod pairs;
pub mod reads;
mod recheck;
mod rows;
pub mod session;
mod shown;
mod telling;

pub use file_set::FileSet;
pub use session::{Checked, Session};
