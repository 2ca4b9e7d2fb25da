//! Rows that reporters took, as clauses see them, and their notes.
ghost use Rattle.std.specs.Prelude.{◌≡◌, IfOk};

use jn_base::{OutOfMemory, Seq, Text};
use jn_diag::RowText;
use std::alloc::Global;

/// A note of a row: what it tells, up to the place that follows it, and that place: the name of a file, and the line and the column,
/// both from 1; whether it goes on with the note before it, so that both are told in one line; and whether a chain of causes ends there.
#[derive(Drop)]
pub struct ShownNote {
    pub text: Seq<u8>,
    pub name: Text,
    pub line: u32,
    pub col: u32,
    pub joined: bool,
    pub ends: bool,
}

impl ShownNote {
    pub fn copy(&self, alloc: Global) -> Result<ShownNote, OutOfMemory>
        ensures { IfOk result (λ c. c ≡ self.now) }
    {
        Ok(ShownNote {
            text: self.text.copy(alloc)?,
            name: self.name.copy(alloc)?,
            line: self.line,
            col: self.col,
            joined: self.joined,
            ends: self.ends,
        })
    }
}

/// What is shown of a line: what stands before the row, what is of the row, and what stands after that; and whether the line begins
/// and ends there. Only clauses have such values.
#[derive(Drop)]
pub struct Extract {
    pub before: Seq<u8>,
    pub marked: Seq<u8>,
    pub behind: Seq<u8>,
    pub begins: bool,
    pub ends: bool,
}

/// A row's text, the line and the column, both from 1, of what stands after its last byte, what is shown of the line on which it begins, if
/// anything is, its notes in order, and how many notes were left out.
/// Only clauses have such values; they have no lifetime, so that a reporter can be boxed as `dyn Reporter`.
#[derive(Drop)]
pub struct ShownRow {
    pub text: RowText,
    pub end_line: u32,
    pub end_col: u32,
    pub extract: Option<Extract>,
    pub notes: Seq<ShownNote>,
    pub more: usize,
}
