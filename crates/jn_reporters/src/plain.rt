//! The plain report.
ghost use Rattle.std.specs.Prelude.{◌≡◌};
ghost use Rattle.jn_reporters.specs.Reports.{plain_shown};

use crate::by_row::{ByRow, RowFormat};
use crate::lines::plain_line;
use crate::reporter::Reporter;
use crate::view::RowView;
use std::alloc::{AllocError, Global};

/// Shows a line `FILE:LINE:COL: CODE` for each row, and then the verdict.
pub type Plain = ByRow<PlainRow>;

/// What it shows of rows and a verdict is `plain_shown`.
pub fn plain_shows(reporter: &Plain)
    ensures { (⟦<Plain as Reporter>⟧.form reporter.now).shown ≡ plain_shown }
{}

/// A line `FILE:LINE:COL: CODE`.
#[derive(Drop)]
pub struct PlainRow;

impl RowFormat for PlainRow {
    ghost use Rattle.std.specs.Prelude.{codes, false};
    ghost use Rattle.jn_reporters.specs.Reports.{plain_row};

    ghost title = { codes "plain" };

    ghost notes = { false };

    ghost written = { plain_row };

    fn name() -> &'static str {
        "plain"
    }

    fn shows_notes() -> bool {
        false
    }

    fn text(alloc: Global, row: &RowView<'_>) -> Result<Vec<u8>, AllocError> {
        plain_line(alloc, row.row())
    }
}
