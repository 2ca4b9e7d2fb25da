//! Workers over one table, and the least words by any number of them.
//!
//! [`solve`] gives the least words for 1 to 16 workers and every interleaving of their steps; [`work`] is one worker. Each calls [`Gate`]
//! when it takes a body, so that a test can hold it there; [`Straight`] returns at once.
#![tactic(auto)]

mod solving;
mod working;

pub use jn_sharing::{Gate, Straight};
pub use solving::solve;
pub use working::{Worked, work};
