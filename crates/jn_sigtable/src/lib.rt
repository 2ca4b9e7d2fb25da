//! Words of bits that workers raise together.
//!
//! A system of words ([`Constraints`]) is solved on a [`SigTable`] of atomic words: a [`Pass`] is what one worker knows of it, and each of
//! its steps, take, read, raise, mark, scan and join, is one atomic operation. Where a pass has seen all idle, `close` gives the least
//! words ([`least_words_are_least`]); `specs/Machine.antt` is the raise machine that it carries out. What all passes take is bounded
//! ([`bodies_taken_are_bounded`]), so workers need no budget.
#![tactic(auto)]

mod constraints;
mod laws;
mod plays;
mod table;
mod view;
mod words;

pub use constraints::Constraints;
pub use laws::{bodies_taken_are_bounded, least_words_are_least};
pub use table::{Pass, SigTable};
pub use view::{Raising, Setting, View};
