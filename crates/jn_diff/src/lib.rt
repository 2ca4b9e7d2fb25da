//! Differences of texts, as unified diffs.
//!
//! [`file_diff`] compares two texts line by line, and writes the lines that differ with three lines of context, as `git apply` takes it.
//! Where the new text has more lines, the first ones that differ count as added. It looks for no line that moved, so it is short only
//! where lines are added at one place, before all others that differ, and none is removed. Names stand as git writes them: without parts
//! `.`, and in quotes where a byte would break the line.
#![tactic(auto)]

mod diff;
mod hunks;
pub mod law;
mod line;
mod names;
mod texts;

pub use diff::file_diff;
pub use line::Line;
