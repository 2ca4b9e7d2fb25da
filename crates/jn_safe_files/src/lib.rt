//! Safe files: by runs of their main, by the meaning of their trees, and for every caller of their methods and constructors.
#![tactic(auto)]

pub mod law;
