//! What bodies, and methods that override, send into inferred slots.
//!
//! A body sends at its reached points ([`contrib`]); a method that overrides takes the parameters and receivers of what it overrides, and
//! sends its result up ([`pair_contrib`]).
#![tactic(auto)]

pub mod body;
pub mod law;
pub mod listed;
pub mod pairs;
pub mod sends;
pub mod under;

pub use body::{contrib, contrib_by};
pub use listed::{Overrider, overriders};
pub use pairs::{pair_contrib, pair_contrib_by};
