//! The rows of the class table that ask a program alone, and no head: second fields and methods (T1, T4), circles (T3), bad
//! overriding (T5), missing and wrong bodies (T6), hidden fields (T7) and final parents (T9).
//!
//! No step looks at all pairs of members: T4 to T6 ask the index, T7 a table of the classes that declare fields along the
//! supertypes (`hidden`). T3 labels the classes that reach each other (`components`).
#![tactic(auto)]

pub mod candidates;
pub mod circles;
pub mod clashes;
pub mod components;
pub mod earlier;
pub mod hidden;
pub mod hiding;
pub mod lacking;
pub mod overrides;
pub mod rows;
