//! Where the text of a file stops being of the subset: the first token that can't follow those before it in any file, and the note of it beside a syntax row.
//!
//! `specs/Follow.antt` is a table: what may stand next is a stack of [`Frame`]s, and each token is taken by the top frame, which leaves
//! others in its place. [`stop`] gives the first token that none takes, and [`note_beside`] says so of a file's text. [`law`] says that
//! each well-formed file is taken whole, so no such file begins with the tokens up to that one.
#![tactic(auto)]

mod expressions;
mod frame;
pub mod law;
mod members;
mod noting;
mod place;
mod stack;
mod statements;
mod table;
mod types;
mod words;

pub use frame::{Frame, Mode, Stage};
pub use noting::{StopNote, note_beside};
pub use place::stop;
