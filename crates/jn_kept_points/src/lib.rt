//! From the trees of files to their program, where that of earlier files is kept: the rows and the index of a class table that differs in places
//! alone, and the points and the types of bodies whose sources stayed, aren't made anew.
//!
//! [`find_trees_again`] gives what [`jn_phases::find_trees`] gives. What is kept is a function of what it was made from, and the laws of
//! `jn_heads_law` say that it looks at nothing else (`specs/Typings.antt`).
#![tactic(auto)]

pub mod alike;
pub mod known;
pub mod typing;

pub use typing::{
    FoundAgain, KeptTyping, TypedTrees, Unchanged, find_trees_again, find_trees_anew,
    nothing_unchanged,
};
