//! Small systems and a gate, on which the solver is tried.
//!
//! [`Pair`] and [`Net`] are systems with known least words, [`Starved`] one whose body finds no memory, and [`Meet`] is a gate that holds one
//! worker until another one comes.
#![tactic(auto)]

mod meet;
mod net;
mod pair;
mod solving;
mod starved;
#[cfg(test)]
mod tests;

pub use meet::Meet;
pub use net::{Net, Shape};
pub use pair::Pair;
pub use solving::{drained, solved};
pub use starved::Starved;
