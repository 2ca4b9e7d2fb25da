//! The words of the command lines of all programs.
//!
//! Each program has a table of options, and takes its words exactly as `clap` does by it: [`read_words`] gives a [`Command`] of
//! `nullcheck` within its limits, [`read_wanted`] what `nullcheck_annotate` is to do, [`read_cert`] a command of `nullcheck_cert`,
//! [`read_recheck`] the script of `nullcheck_recheck`, and [`read_setup`] what is asked of the language server; or [`Usage`].
#![tactic(auto)]

pub mod annotate;
pub mod cert;
pub mod command;
mod infer;
mod names;
mod number;
mod options;
mod parse;
mod reason;
pub mod recheck;
pub mod server;
mod table;

pub use annotate::{Mode, Wanted, read_wanted};
pub use cert::{CertCommand, read_cert};
pub use command::{Command, Usage, read_words};
pub use reason::{annotate_reason, cert_reason, recheck_reason, server_reason, usage_reason};
pub use recheck::{AskedFor, read_recheck};
pub use server::{Setup, read_setup};
