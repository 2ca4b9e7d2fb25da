//! Qualifiers, and how they are packed into words.
//!
//! [`Qual`] is a set of three bits: what a reference may be, null, committed or free. [`pack`] and [`unpack`] put 21 of them into a word;
//! [`law`] says that qualifiers are ordered by inclusion, that a join is least, and that words are joined by an or.
#![tactic(auto)]

pub mod law;
pub mod qual;
pub mod word;

pub use qual::Qual;
pub use word::{pack, unpack};
