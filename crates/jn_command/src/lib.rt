//! What a command is, apart from what a report of files says and what its words ask for: how a report is shown, and what status and
//! which bytes belong to each answer (`specs/Answer.antt`).
//!
//! [`show::show`] and [`show::show_noted`] show a [`Report`] by a reporter, the second with [`noted::Notes`] of its rows, and
//! [`output::write`] writes what was made and gives the [`Status`].
#![tactic(auto)]

pub mod made;
pub mod noted;
pub mod output;
pub mod report;
pub mod show;
pub mod status;

pub use report::Report;
pub use status::Status;
