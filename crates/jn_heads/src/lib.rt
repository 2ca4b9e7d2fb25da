//! What the types of files declare: their heads, with the types, qualifiers and slots of what stands in them.
//!
//! Placed files give heads (`extract`); all that comes after them knows no trees but names. `Declarations` finds types by name,
//! `types` gives the base types and slots of positions, and `marking` the slots by the choice of members that are inferred.
#![tactic(auto)]

pub mod declarations;
pub mod extract;
pub mod head;
pub mod marking;
pub mod notes;
pub mod types;
pub mod values;

pub use head::{ClassHead, FieldHead, MethodHead, Notes, ParamHead, TypeHead};
pub use notes::Word;
