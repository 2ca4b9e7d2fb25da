//! Rechecks after edits: a script in, the reports of its checks out.
//!
//! [`recheck`] carries out a script; `specs/Answer.antt` says what each answer means.
#![tactic(auto)]

mod carrying;
mod outputs;
mod step;
pub mod top;

pub use jn_command::Status;
pub use top::recheck;
