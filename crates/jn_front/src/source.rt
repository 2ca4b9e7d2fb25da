//! The files that were read.
ghost use Rattle.std.specs.Prelude.{◌≤◌, cond, length};

use jn_base::{Seq, Text};

/// A file by its name and its bytes.
#[derive(Drop)]
pub struct SourceFile {
    pub name: Text,
    pub bytes: Seq<u8>,
}

/// A file as it was read: whole, or, where it is larger than a file may be, by its name alone. No more than 1,048,576 bytes are kept.
#[derive(Drop)]
pub struct SourceRead {
    pub file: SourceFile,
    pub whole: bool,
    pub ghost kept: { length file.bytes ≤ cond whole 1048576 0 },
}
