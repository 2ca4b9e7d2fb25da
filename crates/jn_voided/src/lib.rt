//! Facts on fields that something made void: a test or an assignment made it known that a field isn't null, and an assignment or a call ended that.
//!
//! [`next_voided`] gives the first pair of a point that made it known that the field isn't null and one that ended that before the field was read. The pair
//! is a fact of the body's table (`specs/Voided.antt`), and there is one first. What was found for a field in a body is kept for further reads there.
#![tactic(auto)]

mod analysis;
pub mod course;
pub mod kept;
pub mod law;
pub mod search;
pub mod turns;

pub use course::{Passed, Way};
pub use kept::{Voids, next_voided};
pub use search::Voided;
