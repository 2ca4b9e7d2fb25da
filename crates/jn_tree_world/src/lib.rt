//! What evaluation of trees goes over, and what operations do to it: the code of the worlds and operations of `jn_meaning`.
//!
//! A [`World`] has the heap, the static numbers, the text printed, the locals of the method that runs, and fuel. Each operation gives
//! a value, or a [`Halt`]. Values, things on the heap and arithmetic are the machine's.
#![tactic(auto)]

pub mod arrays;
pub mod frames;
pub mod halt;
pub mod heap;
pub mod operators;
pub mod place;
pub mod texts;
pub mod values;
pub mod world;

pub use halt::Halt;
pub use place::Place;
pub use world::World;
