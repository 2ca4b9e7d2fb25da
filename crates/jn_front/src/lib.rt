//! From the names of files to their names and trees, or their first rows.
//!
//! [`read_all`] reads the files, [`limit_rows`] gives the rows of the limits, and [`parse_files`] the names and the trees with
//! their places, or the lexical faults, or the syntax rows: workers share the files, and take part in each other's where there
//! are more of them than files; each file is lexed and parsed with names of its own (`specs/Outcomes.antt`), which are then merged
//! into one list, and the trees are given the numbers of that list. `specs/Phases.antt` says what all this is of files:
//! `FrontRows` the rows of the first phase that has any, `AreParsed` names, tokens and trees where none has; and [`law`], that
//! files have one of the two, in one way.
#![tactic(auto)]

pub mod alone;
mod gathering;
pub mod law;
pub mod limits;
pub mod outcome;
pub mod parsing;
pub mod reads;
pub mod relexed;
pub mod renumbering;
mod sharing;
pub mod source;

pub use alone::outcome_of;
pub use limits::{limit_rows, row_at};
pub use outcome::Outcome;
pub use parsing::{ParsedFiles, parse_files};
pub use reads::read_all;
pub use relexed::lex_all;
pub use source::{SourceFile, SourceRead};
