//! A language server (Language Server Protocol 3.17) over an input, files, folders and an output.
//!
//! [`serve`] reads messages, answers them, and publishes the diagnostics of all files of the workspace; `specs/Answer.antt` says what each
//! status means.
#![tactic(auto)]

mod announcing;
mod client;
mod finding;
mod frames;
pub mod law;
mod messages;
mod moving;
mod placing;
mod status;
mod texts;
pub mod top;
mod warning;
mod writing;

pub use status::Status;
pub use top::serve;
