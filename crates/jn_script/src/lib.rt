//! Scripts of a session: lines that set a name to a file, drop a name, or ask for a check.
//!
//! [`read_script`] reads a script whole; `specs/Script.antt` says what the steps of a script are, and which line is the first that is no
//! step.
#![tactic(auto)]

mod lines;
pub mod script;
pub mod step;

pub use script::read_script;
pub use step::Step;
