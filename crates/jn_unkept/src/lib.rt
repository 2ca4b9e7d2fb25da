//! Tests that aren't kept: the last test, before a value is read, of what is made alike.
//!
//! What a test tells is kept of a local, a parameter, `this` and a field of these. [`find_unkept`] gives the last test before a value is read of what is
//! made alike (`specs/Alike.antt`), where the value is a field of another object, an element of an array or a method's result, or where the result of the
//! test went to a local.
#![tactic(auto)]

pub mod alike;
pub mod making;
pub mod search;
pub mod stored;

pub use alike::Held;
pub use search::{Reading, Unkept, find_unkept};
