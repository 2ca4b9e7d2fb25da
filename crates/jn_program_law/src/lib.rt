//! The program of files is regular: a law above the class table and lowering.
#![tactic(auto)]

pub mod law;
