//! The writer of certificates: words in, a certificate of accepted files out.
//!
//! [`write_cert`] checks files, and stores the certificate of those that are accepted, or writes their report. `specs/Answer.antt` says what
//! each answer means.
#![tactic(auto)]

pub mod command;
pub mod made;
pub mod making;
mod outputs;
mod tables;
pub mod top;

pub use top::write_cert;
