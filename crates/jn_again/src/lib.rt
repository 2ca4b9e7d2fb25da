//! The least signature of an edited program, from that of the program that it was.
//!
//! [`solve_again`] gives what a fresh solving gives. Where the programs declare the same, it goes on from the old signature, without the bits that an edited body
//! may no longer send; else it solves anew. [`find_lost`] finds the bits that may be lost, [`find_dirty`] the bodies that aren't sure to be
//! closed under the words that stand, and [`solve_on`] goes on from there. What a body can't reach is told by a [`Reach`], bit by bit, since words
//! hold bits of many things; [`off_body`] and [`off_pair`] are those of a program's tasks.
#![tactic(auto)]

pub mod again;
pub mod changed;
pub mod dirty;
pub mod edit;
pub mod finding;
pub mod masks;
pub mod program_reach;
pub mod reach;
pub mod slots;
pub mod solving;

pub use again::{Earlier, solve_again};
pub use dirty::find_dirty;
pub use edit::Edit;
pub use finding::find_lost;
pub use reach::Reach;
pub use slots::{off_body, off_pair};
pub use solving::solve_on;
