//! Why a bit stands: what it may come from, at a body's entry, after a point, and where a point or an overriding method sends it to a slot.
#![tactic(auto)]

pub mod causes;
pub mod entry;
pub mod law;
pub mod pairs;
pub mod points;
pub mod sent;
pub mod sources;

pub use causes::Cause;
pub use entry::add_entry;
pub use pairs::add_pairs;
pub use points::{Asked, add_behind};
pub use sent::{AskedSlot, add_sent};
pub use sources::{Source, Spot};
