//! What becomes of a text, shown as cases want it: of a line with its kind its tree, tokens, names, spans or row ([`answer`]), of two files what workers
//! make of both ([`files_text`]), and of a file of Java the bodies of its program with their points ([`file_text`]).
#![tactic(auto)]

mod case;
mod expressions;
mod files;
mod lowered;
mod outcome;
mod page;
mod places;
mod points;
mod shape;
mod source;
mod tokens;

pub use case::answer;
pub use files::files_text;
pub use points::outcome::file_text;
