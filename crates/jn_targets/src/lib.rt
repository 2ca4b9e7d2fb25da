//! Files that are replaced whole, by targets that count their faults.
//!
//! [`Targets`] is what a program asks of the outside; [`replace_all`] replaces files one after the other over any of them. [`HostTargets`]
//! stands for the host, [`MemTargets`] for tests, which say where they fail. Targets tell only clauses what was replaced.
#![tactic(auto)]

mod beside;
pub mod host;
pub mod memory;
pub mod replaced;
pub mod targets;

pub use host::{HostTargets, TargetFault};
pub use memory::MemTargets;
pub use replaced::Replaced;
pub use targets::{Targets, replace_all};
