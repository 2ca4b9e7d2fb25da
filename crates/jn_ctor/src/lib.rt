//! The fields that a constructor leaves unassigned.
#![tactic(auto)]

pub mod unassigned;

pub use unassigned::unassigned_at_end;
