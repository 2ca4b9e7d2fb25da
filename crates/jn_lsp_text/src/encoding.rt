//! In which units positions count.

/// The unit in which a position counts what stands before it on its line (Language Server Protocol 3.17, `PositionEncodingKind`).
#[derive(Clone, Copy, Debug, PartialEq, Eq)]
pub enum Encoding {
    /// `utf-16`: units of UTF-16, which every client takes.
    Utf16,
    /// `utf-8`: bytes of UTF-8.
    Utf8,
}
