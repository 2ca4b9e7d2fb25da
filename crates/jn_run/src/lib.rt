//! What the run of an accepted program's main writes: its text as it is printed, and the line that says how it ended.
//!
//! [`run::run_files`] runs the one main and gives the status; `specs/Main.antt` says what each status means, by
//! the definition's run alone, and `specs/Line.antt` has the line of each end.
#![tactic(auto)]

pub mod line;
pub mod run;

pub use run::run_files;
