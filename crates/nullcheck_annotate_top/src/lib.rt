//! The top call of annotated sources: words in, a unified diff or replaced files out.
//!
//! [`annotate_files`] reads the files that the words name, finds what they come to ([`study::study_files`]: `specs/Study.antt`), and shows, counts or
//! writes what changes in them (`specs/Output.antt`). `specs/Answer.antt` says what each status means.
#![tactic(auto)]

pub mod answer;
pub mod changes;
pub mod faults;
pub mod finish;
pub mod law;
pub mod output;
pub mod parts;
pub mod study;
mod texts;
pub mod top;

pub use jn_command::Status;
pub use top::annotate_files;
