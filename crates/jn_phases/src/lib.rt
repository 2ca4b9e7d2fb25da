//! From files that were read to their program, whose types fit, or to the rows of the first phase that has any.
//!
//! [`type_files`] does so, by workers; `specs/Phases.antt` says what the phases' rows and the program are, and [`law`] that files have
//! one of the two, in one way.
#![tactic(auto)]

pub mod law;
pub mod typing;

pub use typing::{
    TypedFiles, TypedTable, Typing, find_table, find_trees, refused_texts, refused_types,
    too_many_files, type_files,
};
