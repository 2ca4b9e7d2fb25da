//! The core of a language server (Language Server Protocol 3.17): a [`Server`] takes an [`Event`] and gives the replies to it.
//!
//! Files stand as the client has them open, the others as they were last read of the folder. After each event that changes them their
//! report is told: [`law::last_published_is_the_report`] says that what was published last of each name is always what the report of the
//! files as they stand says of it, and [`law::requests_are_answered_once`] that each request is answered once, in order. A request of actions
//! gets those of the files as they stand ([`jn_lsp_actions::actions_for`]), where something is told at its range, a request of hints
//! the words that annotating would put there ([`jn_lsp_actions::hints_for`]), and a request of what stands at a position what a value may be
//! there, or what a declared name's slot has ([`jn_lsp_hover::hover_for`]).
#![tactic(auto)]

mod answers;
mod comparing;
pub mod diagnostics;
pub mod documents;
pub mod event;
pub mod front;
mod hinting;
mod hovering;
pub mod law;
mod offering;
pub mod phase;
mod publishing;
mod refused;
mod reporting;
pub mod server;
mod standing;
pub mod unchecked;
mod unknown;
pub mod versions;

pub use diagnostics::Told;
pub use documents::Workspace;
pub use event::{Event, wants_folder};
pub use phase::Phase;
pub use server::Server;
pub use unchecked::LastReport;
pub use versions::Version;
