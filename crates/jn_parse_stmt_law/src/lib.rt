//! The grammar of statements: a reader, and laws on what it reads.
//!
//! [`law::statements_are_read_once`] says that the reader of `specs/` finds the longest well-formed statement at the front of tokens, and
//! no other; [`law::parts_are_read_once`] the same of the parts that statements and members share. `jn_parse_stmt` is proved by both.
#![tactic(auto)]

pub mod law;
