//! Reporters for other programs: SARIF, Checkstyle and GitHub's annotations.
//!
//! [`Sarif`] and [`Checkstyle`] are one [`Document`] of all rows in a [`Format`], made of what is kept of each row ([`KeptRow`]); [`Github`]
//! writes a line for each row. Their bytes are defined in `specs/`.
#![tactic(auto)]

mod attribute;
pub mod checkstyle;
pub mod document;
mod escapes;
mod fingerprint;
pub mod github;
pub mod kept;
pub mod sarif;

pub use checkstyle::Checkstyle;
pub use document::{Document, Format};
pub use github::Github;
pub use kept::KeptRow;
pub use sarif::Sarif;
