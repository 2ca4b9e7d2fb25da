//! Laws of least tables: those of a base-typed program have a form, so each accepted program has a certificate.
#![tactic(auto)]

pub mod law;
