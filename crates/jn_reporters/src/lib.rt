//! Reporters, which make the text of a report from rows and a verdict.
//!
//! A [`Reporter`] takes each row once and in order, with what is shown of the line on which it begins and with its notes ([`RowView`]),
//! and then the verdict; its bytes are a function of both, defined in `specs/` for each of [`Plain`], [`Long`], [`Tabbed`] and
//! [`Summary`]. The first three are a reporter by rows ([`ByRow`]) in a format each ([`RowFormat`]). `docs/HOWTO.md` says how to add one.
#![tactic(auto)]

pub mod anchors;
pub mod by_row;
pub mod codes;
pub mod excerpt;
mod lines;
pub mod long;
mod look;
pub mod plain;
pub mod reporter;
pub mod sheet;
pub mod shown;
pub mod summary;
pub mod tabbed;
pub mod taken;
pub mod telling;
pub mod view;

pub use anchors::code_anchor;
pub use by_row::{ByRow, RowFormat};
pub use excerpt::{Excerpt, end_of, excerpt_for};
pub use long::Long;
pub use plain::Plain;
pub use reporter::Reporter;
pub use shown::ShownNote;
pub use summary::Summary;
pub use tabbed::Tabbed;
pub use view::RowView;
