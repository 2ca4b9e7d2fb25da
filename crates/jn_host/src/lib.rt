//! What each program does around its top call: its words as text, and what it says on standard error where something went wrong.
//!
//! A [`Host`] speaks for one program. Its lines begin with the program's name. That a line can't be written changes nothing: no fault
//! there is one of the program's.
#![tactic(auto)]

mod host;

pub use host::{Host, NoWords};
