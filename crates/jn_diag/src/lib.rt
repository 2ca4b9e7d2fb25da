//! Rows of a report in order, and as a reader sees them.
//!
//! [`order`] sorts rows by file, place, code and end, each once. [`row_text`] shows a row by file, line and column, and [`place_behind`]
//! finds the places of ordered rows in one sweep over a text. [`Verdict`] is what a check comes to.
#![tactic(auto)]

pub mod ordered;
pub mod shown;
pub mod sweep;

pub use ordered::{order, rows_have_one_order};
pub use shown::{RowText, Verdict, row_text};
pub use sweep::{Position, place_behind};
