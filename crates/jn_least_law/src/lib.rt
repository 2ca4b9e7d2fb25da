//! Laws of the least signature: there is one, and what is accepted under some signature is accepted under it.
#![tactic(auto)]

pub mod law;
