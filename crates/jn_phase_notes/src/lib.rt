//! Notes below rows of the phases before the rules.
//!
//! Beside a row of a file's syntax: where the text of the file stops being of the subset ([`notes_of_texts`], by `jn_follow`). Beside
//! others ([`notes_of_trees`]): of a row of the class table that two declarations make, and of a second local, the other declaration, by
//! its name, with the place where it is declared; of a member that isn't there, the members of its name, with the number of their
//! parameters, or that a class has no objects; of a form that isn't of the subset, which of its causes it is; of a type that doesn't
//! fit, it and the one that is wanted. Other rows have none. [`notes_of_phase`] gives those of any phase.
#![tactic(auto)]

pub mod candidates;
pub mod law;
mod members;
pub mod mentioning;
mod naming;
pub mod phases;
mod places;
mod refused;
pub mod repeated;
mod saying;
pub mod scoped;
pub mod stops;
pub mod trees;
mod typed;

pub use phases::notes_of_phase;
pub use stops::notes_of_texts;
pub use trees::notes_of_trees;
