//! From the text of a file to its tokens and names, or to its lexical fault (JLS 3).
//!
//! [`lex`] gives the one list of tokens of a text (JLS 3.3 to 3.12) and interns its names, or the row of its first lexical fault.
//! [`lex_onto`] does so for a piece of a text, and puts its tokens after those before it.
//! `specs/Lexed.antt`, `specs/Moved.antt` and `specs/Faults.antt` say what these are; [`law`] that there is one of the two, and one alone.
#![tactic(auto)]

mod characters;
mod gap;
pub mod law;
mod lexing;
mod numbers;
mod shape;
mod spelling;
mod strings;
mod words;

pub use lexing::{lex, lex_onto};
