//! Frames of the base protocol of the Language Server Protocol 3.17: a header, and as many bytes as it says.
//!
//! [`FrameReader`] reads them from a [`Stream`], and [`write_frame`] writes one to a sink. [`HostStream`] is the standard input, and
//! [`MemStream`] stands for it in tests, which say where it fails.
#![tactic(auto)]

pub mod asking;
pub mod frame;
mod header;
pub mod host_stream;
pub mod law;
pub mod mem_stream;
pub mod reader;
pub mod stream;
pub mod writer;

pub use asking::Asking;
pub use frame::{End, Frame, Next};
pub use host_stream::HostStream;
pub use mem_stream::MemStream;
pub use reader::FrameReader;
pub use stream::Stream;
pub use writer::{frame_of, write_frame};
