//! Files with the words of what was inferred of them, written between the tokens of their texts.
#![tactic(auto)]

pub mod annotating;
pub mod chosen;
pub mod files;
pub mod imports;
pub mod insert;
pub mod lines;
pub mod members;
pub mod parts;
pub mod positions;
pub mod refusals;
pub mod shared;
pub mod steps;
pub mod taken;
pub mod words;

pub use annotating::{AnnotateFault, annotate};
pub use refusals::unspelled_slots;
