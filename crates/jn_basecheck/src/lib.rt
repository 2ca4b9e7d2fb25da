//! Base typing of a program's bodies: the rows J7 to J10.
#![tactic(auto)]

mod alone;
mod assigned;
mod check;
mod lookup;
mod operands;
mod points;
mod results;
mod sharing;
pub mod types;

pub use check::{base_check, base_check_others};
pub use types::Want;
