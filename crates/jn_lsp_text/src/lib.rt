//! Positions and ranges of the Language Server Protocol, and texts with a range replaced.
//!
//! [`position_of`] gives the [`Position`] of a byte and [`range_of`] the [`Range`] of a span; [`offset_of`] is the way back. [`replace`]
//! makes a text with other bytes in place of a range. Many places of one text are found from its [`Marks`] in any order, and by a sweep
//! ([`sweep::place_of`]) where they come in theirs. All take an [`Encoding`], in whose units a position counts, and texts of any bytes:
//! where a text is no UTF-8, its bytes count by the same rule, which [`Position`] tells.
#![tactic(auto)]

pub mod choice;
pub mod copies;
pub mod counting;
pub mod encoding;
pub mod folders;
pub mod id;
pub mod marks;
pub mod markup;
pub mod message;
pub mod position;
pub mod range;
pub mod reply;
pub mod small;
pub mod sweep;

pub use choice::{Choice, choice_named, chosen};
pub use copies::copy_diagnostics;
pub use encoding::Encoding;
pub use folders::Folders;
pub use id::Id;
pub use marks::Marks;
pub use markup::Markup;
pub use message::{Change, Message};
pub use position::{
    Position, offset_of, offsets_return, offsets_stand_on_their_lines, position_of,
    positions_have_one_offset,
};
pub use range::{Range, range_of, ranges_have_one_replacement, replace};
pub use reply::{Action, Diagnostic, Failure, Hint, Hover, Insertion, Related, Reply, Said};
pub use small::SmallText;
