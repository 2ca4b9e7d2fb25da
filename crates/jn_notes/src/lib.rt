//! Notes below rows: which field, parameter or other declaration a row speaks of, and where its qualifier comes from, step by step, with a place of
//! the text for each.
//!
//! [`notes_of_rows`] finds what takes the value of each row, what is overridden or left unassigned there ([`topics`]), and what is said of the
//! first chain of causes of the value ([`said`]), and says in words what is told of these. Rows of what is whole where the other is taken have no chain.
#![tactic(auto)]

pub mod changes;
pub mod explain;
pub mod found;
pub mod law;
pub mod lefts;
pub mod pairs;
pub mod placed;
pub mod reads;
pub mod said;
pub mod solved;
pub mod tables;
pub mod takers;
pub mod topics;
pub mod voids;
pub mod walk;

pub use explain::notes_of_rows;
pub use solved::SolvedProgram;
