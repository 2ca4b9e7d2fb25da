//! The grammar of expressions: a reader, and laws on what it reads.
//!
//! [`law::expressions_are_read_once`] says that the reader of `specs/` finds the longest well-formed expression at the front of tokens, and
//! no other. `jn_parse_expr` is proved by it.
#![tactic(auto)]

pub mod law;
