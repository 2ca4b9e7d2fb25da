//! Signatures: a qualifier for each slot of a program, packed into words, and the one from which inference starts.
//!
//! [`Sig`] is seen as the list of its qualifiers. [`start`] gives written and default slots theirs; an inferred one is empty there, or
//! committed where no body calls its method (of a private method, no body of its class).
#![tactic(auto)]

pub mod initial;
pub mod law;
pub mod sig;
pub mod sites;

pub use initial::start;
pub use sig::Sig;
