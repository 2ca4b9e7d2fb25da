//! The definitions of trees, run: the tokens that spell a tree, and whether a tree is well formed.
//!
//! [`spell_file`] and [`well_formed_file`] equal the definitions of `jn_trees`, so that cases can hold what the parser gives against them.
#![tactic(auto)]

pub mod declarations;
pub mod expressions;
pub mod files;
pub mod good;
pub mod good_locals;
pub mod good_members;
pub mod good_statements;
pub mod levels;
pub mod locals;
pub mod marks;
pub mod members;
pub mod nesting;
pub mod put;
pub mod statements;
pub mod words;

pub use files::spell_file;
pub use good_members::well_formed_file;
