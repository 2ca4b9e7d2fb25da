//! What notes are, and the words and places of the steps of a chain.
//!
//! [`find_owners`] says whose each slot is, [`step_words`] what a note says of a step, and [`step_span`] where it stands.
//! [`read_with`] finds the field from which a chain's value is read, and [`preceded`] puts the note of a test that isn't kept before the others.
#![tactic(auto)]

pub mod leaving;
pub mod note;
pub mod owners;
pub mod spans;
pub mod unkept;
pub mod words;

pub use leaving::{ReadAt, read_with};
pub use note::{Note, Notes};
pub use owners::{OwnedProgram, Owner, find_owners, owner_at};
pub use spans::step_span;
pub use unkept::preceded;
pub use words::step_words;
