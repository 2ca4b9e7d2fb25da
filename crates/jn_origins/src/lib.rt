//! The causes of items over the least tables of all bodies.
//!
//! [`LeastOrigins`] lists what an item has its bit from, as far as that stands: of a slot its start, what each reached point sends to it and what
//! each method that overrides does; of a register a body's entry and each edge that carries the bit there. So [`jn_chain::first_chain`] can walk.
#![tactic(auto)]

pub mod adding;
pub mod basis;
pub mod bodies;
pub mod law;
pub mod origins;
pub mod registers;
pub mod senders;
pub mod slots;
pub mod standing;
pub mod tabled;

pub use basis::Basis;
pub use origins::LeastOrigins;
