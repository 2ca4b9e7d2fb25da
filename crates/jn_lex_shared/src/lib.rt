//! One text, lexed in parts by several workers, each with names of its own.
//!
//! [`lex_shared`] gives the tokens and names that `jn_lexer::lex` gives from the known names on, for every number of workers: it
//! cuts the text after line feeds, since no token goes over one (`specs/Cut.antt`). Each worker lexes its part window by window, with
//! the spans that its tokens have in the text; then the tokens of each part are put after those of the parts before it, by the
//! numbers that `jn_renumber::merge` gives its names.
#![tactic(auto)]

mod alone;
mod cutting;
pub mod law;
mod names;
mod renumbering;
mod sharing;

pub use names::known_names;
pub use sharing::lex_shared;
