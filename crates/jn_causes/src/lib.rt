//! The report of causes: rows by where their chains of causes end.
//!
//! [`Causes`] is a reporter (`jn_reporters`). Rows whose chains end with the same words at the same place are one group, and so are rows
//! without an end that have the same code. Groups with an end come first, and of each kind those with more rows.
#![tactic(auto)]

mod caused;
pub mod causes;
mod gather;
mod group;
mod heads;

pub use causes::Causes;
