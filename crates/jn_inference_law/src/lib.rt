//! Laws of inference: a program is a system of bodies and words, and has at most one least signature.
#![tactic(auto)]

pub mod law;
