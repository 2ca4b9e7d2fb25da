//! What a reader of frames gives.

use jn_base::Seq;

/// A frame as it was read.
#[derive(Drop)]
pub enum Frame {
    /// The bytes after a legal header, as many as it says: at most 16,777,216.
    Body(Seq<u8>),
    /// A header that isn't legal: a line without a colon, none or two of `Content-Length`, one that isn't 1 to 9 decimal digits,
    /// or no empty line within 8,192 bytes. The header, or these bytes, were passed over.
    BadHeader,
    /// A legal header that says more than 16,777,216 bytes, which were passed over.
    TooLarge,
}

/// Where the input ended.
#[derive(Clone, Copy, Debug, PartialEq, Eq, Drop)]
pub enum End {
    /// After a frame, or before the first.
    Between,
    /// In the middle of a header or of a body.
    Within,
}

/// The next frame, or the input's end.
#[derive(Drop)]
pub enum Next {
    Frame(Frame),
    End(End),
}
