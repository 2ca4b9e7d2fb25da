//! The least table of a body, as the solution of a dataflow problem.
#![tactic(auto)]

mod inside;
mod least;
mod qualifiers;

pub use inside::stays_inside;
pub use least::{flow, flow_by};
