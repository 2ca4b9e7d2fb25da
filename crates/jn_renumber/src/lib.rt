//! Lists of names made one, and trees with other numbers for their names.
//!
//! Where files are lexed each with names of its own, [`merge`] puts a file's names into the list of all (`specs/Merged.antt`),
//! and [`renumber_file`] gives each name of its tree the number that it got there (`specs/Renumbered.antt`, and
//! `specs/ByNumbers.antt` for trees without places). [`law`] says that such a tree is the tree of the renumbered tokens
//! (`specs/Tokens.antt`); `jn_lex_shared` says that these are the tokens of lexing after all names.
#![tactic(auto)]

mod expressions;
mod files;
pub mod law;
mod locals;
mod members;
mod merging;
mod names;
mod statements;

pub use files::renumber_file;
pub use merging::merge;
pub use names::entry;
