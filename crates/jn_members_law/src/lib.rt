//! The law that members, overriding pairs and dispatch are those of the Java Language Specification.
//!
//! `specs/` says in its words what is a member (JLS 8.2), what overrides (8.4.8, 9.4.1) and which method a call runs (15.12.4.4); [`law`]
//! that the definitions of `jn_points` meet them.
#![tactic(auto)]

pub mod law;
