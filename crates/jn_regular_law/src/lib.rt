//! The law that regular programs have what soundness asks of a program.
#![tactic(auto)]

pub mod law;
