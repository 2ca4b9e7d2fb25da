//! Places, rows and their codes, typed numbers, and lists and texts that contracts see as lists.
//!
//! [`Row`] is one line of a report: a [`Code`] at a [`Span`], whose [`Place`] [`place_of`] gives. A call that refuses its input answers
//! [`Fail`], one that can only want memory [`OutOfMemory`]. Where a `Vec` or a `String` stands inside another type, [`Seq`] and [`Text`]
//! let contracts speak of the list alone.
#![tactic(auto)]

pub mod choice;
pub mod code;
pub mod infer;
pub mod lists;
pub mod message;
pub mod number;
pub mod place;
pub mod refusal;
pub mod seq;
pub mod text;

pub use choice::{either, least};
pub use code::Code;
pub use infer::Infer;
pub use number::{
    BodyNo, ClassNo, FieldNo, FileNo, MethodNo, NameNo, PointNo, RegNo, SlotNo, WordNo,
};
pub use place::{Place, Row, Span, place_of};
pub use refusal::{Fail, OutOfMemory};
pub use seq::Seq;
pub use text::Text;
