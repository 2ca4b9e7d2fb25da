//! Files from tokens.
//!
//! [`parse_file`] gives the one well-formed tree that tokens spell (JLS 7.3), or the row where they stop to be one. The file is read piece
//! by piece, with what is open on a stack of its own, and the members of a large type by several workers side by side; statements and expressions inside are those of `jn_parse_stmt` and `jn_parse_expr`.
#![tactic(auto)]

mod building;
mod file;
mod guess;
mod heads;
mod lines;
mod members;
mod modifiers;
mod names;
mod nested;
mod parameters;
mod piece;
mod pieces;
mod scanning;
mod sharing;
mod whole;

pub use file::parse_file;
