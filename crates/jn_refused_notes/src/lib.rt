//! Causes of rows J5: which of the forms that aren't of the subset stands at a place.
//!
//! [`refusals_of`] lists what of files may not be of the subset, each with the cause that it has where it stands; annotations are in the list where they
//! aren't taken, other forms wherever one of them may have a row. The first one at a row's place is what the row speaks of. [`cause_words`] says the cause
//! in words.
#![tactic(auto)]

mod bodies;
pub mod causes;
mod forms;
mod marks;
pub mod outside;

pub use causes::{Cause, Refusal, cause_words};
pub use outside::refusals_of;
