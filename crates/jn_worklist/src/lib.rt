//! One body's steps on a shared table, and all bodies on one thread.
//!
//! [`plan`] lists which bodies read a word. [`run_body`] takes a body as a [`Task`], reads its words, raises what it sends and marks the readers, in the
//! one order that loses no mark; [`run_body_in`] does so in [`Room`] that a worker keeps. [`drain`] gives the least words on one thread.
#![tactic(auto)]

mod bits;
mod draining;
mod marking;
mod planning;
mod raising;
mod readers;
mod reading;
mod room;
mod running;
mod task;

pub use draining::drain;
pub use planning::plan;
pub use readers::Plan;
pub use room::Room;
pub use running::{run_body, run_body_in};
pub use task::Task;
