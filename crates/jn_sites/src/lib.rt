//! Where something stands in the text: lists that are kept for places, so that what stands at a place is found without a pass over all.
//!
//! [`find_sites`] keeps, for each place of which rows speak, the points at which a value stands there of which a rule may ask something; [`find_near`]
//! keeps the methods that override and stand there.
#![tactic(auto)]

pub mod near;
pub mod points;
pub mod sites;

pub use near::{find_near, overriders_at};
pub use points::{find_sites, spans_of};
pub use sites::Sites;
