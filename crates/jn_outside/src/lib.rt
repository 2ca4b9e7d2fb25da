//! Sources of files and sinks of bytes, which count their faults.
//!
//! [`Files`] and [`Sink`] are what the program asks of the outside; [`read_whole`] and [`write_whole`] read and write whole over any of
//! them. [`HostFiles`] and [`HostSink`] stand for the host, [`MemFiles`] and [`MemSink`] for tests, which say where they fail. A source
//! tells only clauses what its calls gave ([`Told`], [`Given`]).
#![tactic(auto)]

mod count;
pub mod files;
pub mod given;
pub mod host;
pub mod mem_files;
pub mod mem_sink;
pub mod sink;
pub mod told;

pub use files::{Failed, Files, ReadFail, read_whole};
pub use given::Given;
pub use host::{HostFault, HostFiles, HostSink};
pub use mem_files::{MemFile, MemFiles};
pub use mem_sink::MemSink;
pub use sink::{Sink, write_whole};
pub use told::{Tells, Told};
