//! Statements and bodies to points (JLS 14, 8.4.7, 8.8.7 and 12.5): the code of `jn_lowering`'s definitions.
//!
//! `lower_body` gives a body from its trees. Every `Err` is want of memory, which a number of a label, a point or a register
//! past 2^32 - 1 counts as.
#![tactic(auto)]

pub mod body;
pub mod construction;
pub mod each;
pub mod entry;
pub mod forms;
pub mod given;
pub mod lower;
pub mod names;
pub mod pieces;
pub mod registers;
pub mod resolve;
pub mod state;
pub mod types;
