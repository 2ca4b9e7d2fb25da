//! What a language server shows of files whose program is inferred anew ([`Solved`]): rows and notes at their places ([`related`]), which are
//! counted from marks ([`Marked`]), and why a slot has its bits ([`Traced`]).
#![tactic(auto)]

pub mod finding;
pub mod marked;
pub mod reasons;
pub mod related;
pub mod solved;
pub mod texts;
pub mod traced;

pub use finding::find_solved;
pub use marked::Marked;
pub use solved::{Parts, Solved};
pub use traced::Traced;
