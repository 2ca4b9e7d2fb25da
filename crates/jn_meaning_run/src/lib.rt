//! What `--run` writes of files is what their trees mean.
#![tactic(auto)]

pub mod law;
