//! The top call: words in, the report or the run of the files out.
#![tactic(auto)]

mod answers;
pub mod check;
pub mod found;
pub mod law;
mod marks;
mod notes;
mod outputs;
pub mod top;

pub use jn_command::Status;
pub use top::nullcheck;
