//! Pieces of work shared among workers, who steal the pieces' numbers from one deque.
//!
//! [`share_out`] gives what each piece of work gave. [`Gate`] is what a worker calls at each piece, so that a test can hold it there.
//! [`Workers`] says how many there are, from 1 to 16. [`make_room`] asks the system for memory ahead, so that workers that build trees or bodies don't wait for each other there.
#![tactic(auto)]

mod gate;
mod room;
mod sharing;
mod workers;

pub use gate::{Gate, Straight};
pub use room::make_room;
pub use sharing::share_out;
pub use workers::Workers;
