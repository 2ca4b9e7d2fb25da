//! Notes beside rows J7: the type that is found, and the one that is wanted.
//!
//! [`type_notes`] lowers files to their program once more, since rows of types are handed on without it, and has a note for each operand whose type
//! doesn't fit, at its place.
#![tactic(auto)]

pub mod files;
pub mod law;
pub mod mismatch;
mod points;
mod words;

pub use files::type_notes;
