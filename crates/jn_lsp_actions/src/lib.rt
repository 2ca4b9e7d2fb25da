//! Edits that a language server offers at a row (Language Server Protocol 3.17, "Code Action Request"): those that write what is inferred of
//! the slot where the qualifier that the row speaks of was left open, and those that write `@Nullable` where the row wants null.
//!
//! [`actions_for`] checks the files anew. For each row of a file that meets the range it goes along the row's first chain of causes
//! ([`jn_chain::first_chain`]) to the first slot whose annotation can be written alone, and offers the words that [`jn_annotate`] puts for that
//! slot. After those it offers `@Nullable` at what takes the row's value, where that may be null, and at each slot of an overriding pair that
//! lacks the null of its partner, where the word can be written alone. Each edit tells the diagnostics of the rows for which it is offered. Nothing is
//! claimed of what the files mean with these words.
//!
//! [`hints_for`] infers the files' program anew, and gives the words that annotating puts in a range of a file, each with
//! why its slot has what it has (Language Server Protocol 3.17, "Inlay Hint Request").
#![tactic(auto)]

pub mod alone;
pub mod asking;
pub mod choosing;
pub mod edits;
pub mod explaining;
pub mod files;
pub mod giving;
pub mod hinting;
pub mod hints;
pub mod law;
pub mod mending;
pub mod nullable;
pub mod slots;
pub mod wants;

pub use files::actions_for;
pub use hinting::hints_for;
