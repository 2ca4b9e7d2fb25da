//! Row J6: a body that is too large.
//!
//! [`limit_rows`] adds it to the rows of a body that has no other one, by `is_too_large` of `jn_lowering`.
#![tactic(auto)]

pub mod limits;

pub use limits::limit_rows;
