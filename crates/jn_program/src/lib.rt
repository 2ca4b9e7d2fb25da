//! The program of files (JLS 7 to 15): the class table with its bodies, or the rows J1 to J6 for which there is none.
#![tactic(auto)]

mod bodies;
mod copying;
pub mod expressions;
pub mod lowering;
mod rows;
mod sharing;
pub mod sources;
