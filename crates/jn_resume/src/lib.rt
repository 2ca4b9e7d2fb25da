//! Solving on from the words of an earlier solving.
//!
//! [`law`] says which words of an earlier solving lie below the new least words, [`standing_words`] makes them, and [`resume`] gives the least words
//! from words that lie between the start and them: the words themselves, where all bodies are closed under them.
#![tactic(auto)]

pub mod closing;
pub mod law;
pub mod resuming;
pub mod words;

pub use closing::mark;
pub use resuming::resume;
pub use words::standing_words;
