//! Rows as a reader sees them, and what a check comes to.
ghost use Rattle.std.specs.Prelude.{◌≡◌, ◌≤◌, ◌<◌, ◌-◌, ◌^◌, length, IfOk};
ghost use Rattle.jn_diag.specs.Shown.{row_shown};

use jn_base::{Code, OutOfMemory, Row, Text, place_of};
use std::alloc::Global;

/// A row with the name of its file, and the line and the column, both from 1, of its first byte.
#[derive(Drop)]
pub struct RowText {
    pub name: Text,
    pub line: u32,
    pub col: u32,
    pub code: Code,
}

/// What a check comes to. A number is that of the rows.
#[derive(Clone, Copy, Debug, PartialEq, Eq)]
pub enum Verdict {
    /// No rule is broken.
    Accepted,
    /// The files are of the subset, and so many rules are broken.
    Rejected(u64),
    /// The files are not of the subset, for so many reasons.
    Refused(u64),
}

impl RowText {
    pub fn copy(&self, alloc: Global) -> Result<RowText, OutOfMemory>
        ensures { IfOk result (λ c. c ≡ self.now) }
    {
        Ok(RowText {
            name: self.name.copy(alloc)?,
            line: self.line,
            col: self.col,
            code: self.code,
        })
    }
}

/// The row as a reader sees it, in a file of this name and this text.
pub fn row_text(alloc: Global, row: &Row, name: &str, text: &[u8]) -> Result<RowText, OutOfMemory>
    requires small { row.now.span.from < 2 ^ 32 - 1 }
    requires within { row.now.span.from ≤ length text.now }
    ensures { IfOk result (λ t. t ≡ row_shown name.now text.now row.now) }
{
    let place = place_of(text, &row.span);
    Ok(RowText {
        name: Text::of_str(alloc, name)?,
        line: place.line,
        col: place.col,
        code: row.code,
    })
}
