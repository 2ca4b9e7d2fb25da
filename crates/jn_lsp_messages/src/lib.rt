//! Messages of the Language Server Protocol 3.17, read from JSON and written as JSON.
//!
//! [`read_message`] tells which message a body is, [`write_reply`] writes a reply's body. [`name_of`] and [`uri_of`] turn URIs of files into
//! names, which are paths, and back.
#![tactic(auto)]

mod actions;
mod diagnostics;
mod folders;
mod hints;
mod hovers;
pub mod law;
pub mod method;
mod params;
mod places;
mod progress;
pub mod reading;
pub mod uri;
mod watching;
pub mod writing;

pub use method::Method;
pub use reading::read_message;
pub use uri::{name_of, uri_of};
pub use writing::write_reply;
