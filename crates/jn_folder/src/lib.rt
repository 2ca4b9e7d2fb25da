//! Folders, which say what they list and count their faults, and a walk over all files below one.
//!
//! [`Folder`] is what a program asks of the outside; [`walk`] gives the names of the Java files below a root, over any of them.
//! [`HostFolder`] stands for the host, [`MemFolder`] for tests, which say where it fails. A folder tells only clauses what its calls
//! listed.
#![tactic(auto)]

pub mod below;
pub mod folder;
pub mod host;
pub mod listed;
pub mod memory;
pub mod paths;
pub mod route;

pub use below::{Walked, order, walk};
pub use folder::Folder;
pub use host::HostFolder;
pub use listed::{Entry, Kind, Listed};
pub use memory::MemFolder;
pub use paths::{each_once, is_among, joined};
pub use route::{is_below, is_whole, plain, rehomed};
