//! What a report of files is: the rows of the first phase that has any, or those of the rules under the least signature of their program.
//!
//! `specs/Report.antt` says so, and [`law`] that files have one report.
#![tactic(auto)]

pub mod law;
