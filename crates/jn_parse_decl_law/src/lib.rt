//! The grammar of files: pieces in order, a reader of them, and laws on what it reads.
//!
//! [`law::files_have_one_outcome`] says that tokens are one file or have one syntax row, and never both. `jn_parse_decl` is proved by the
//! reader's laws.
#![tactic(auto)]

pub mod law;
