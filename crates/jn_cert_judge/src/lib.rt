//! What a certificate claims, judged point by point: a signature and a table for each body.
#![tactic(auto)]

pub mod bodies;
pub mod fault;
pub mod judging;
pub mod overriding;
pub mod points;
pub mod sends;
pub mod slots;

pub use fault::CertFault;
pub use judging::judge;
