//! What the words of the command line ask for: a command, and the reporter that shows the report of its files.
//!
//! [`read_asked`] reads the words and chooses a reporter, which it tells where codes are explained.
#![tactic(auto)]

pub mod asked;
pub mod choose;

pub use asked::{Asked, read_asked};
