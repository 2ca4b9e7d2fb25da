//! The tabbed report.
ghost use Rattle.std.specs.Prelude.{◌≡◌};
ghost use Rattle.jn_reporters.specs.Reports.{tabbed_shown};

use crate::by_row::{ByRow, RowFormat};
use crate::lines::tabbed_line;
use crate::reporter::Reporter;
use crate::view::RowView;
use std::alloc::{AllocError, Global};

/// Shows a line for each row, of file, line, column, code and the code's text with a tab between, and then the verdict.
pub type Tabbed = ByRow<TabbedRow>;

/// What it shows of rows and a verdict is `tabbed_shown`.
pub fn tabbed_shows(reporter: &Tabbed)
    ensures { (⟦<Tabbed as Reporter>⟧.form reporter.now).shown ≡ tabbed_shown }
{}

/// A line of file, line, column, code and the code's text, with a tab between.
#[derive(Drop)]
pub struct TabbedRow;

impl RowFormat for TabbedRow {
    ghost use Rattle.std.specs.Prelude.{codes, false};
    ghost use Rattle.jn_reporters.specs.Reports.{tabbed_row};

    ghost title = { codes "tabbed" };

    ghost notes = { false };

    ghost written = { tabbed_row };

    fn name() -> &'static str {
        "tabbed"
    }

    fn shows_notes() -> bool {
        false
    }

    fn text(alloc: Global, row: &RowView<'_>) -> Result<Vec<u8>, AllocError> {
        tabbed_line(alloc, row.row())
    }
}
