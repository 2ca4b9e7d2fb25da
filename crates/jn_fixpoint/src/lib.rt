//! Fixpoints by whole rounds, over any order with a bounded weight.
//!
//! [`law`] says that rounds of a climbing step end, in the one least fixpoint above their start. The least tables of bodies and the least
//! signature are found so in definitions; code may go another way.
#![tactic(auto)]

pub mod law;
