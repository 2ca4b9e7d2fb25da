//! Reports of a text for each row.
ghost use Rattle.std.specs.Prelude.{◌≡◌, ℕ, Bool, List, IfOk};
ghost use Rattle.jn_reporters.specs.Sheet.{nothing_taken};
ghost use Rattle.jn_reporters.specs.declared.shown.ShownRow.{ShownRow};

use crate::reporter::Reporter;
use crate::sheet::Sheet;
use crate::view::RowView;
use jn_base::OutOfMemory;
use jn_diag::Verdict;
use std::alloc::{AllocError, Global};
use std::marker::{Model, PhantomData};

/// How a row is written.
pub trait RowFormat: Drop {
    /// The name by which the reporter is chosen.
    ghost title: { List ℕ };

    /// Whether notes are shown.
    ghost notes: { Bool };

    /// The text of a row.
    ghost written: { ShownRow → List ℕ };

    /// The name by which the reporter is chosen.
    fn name() -> &'static str
        ensures { result.now ≡ title };

    /// Whether notes are shown.
    fn shows_notes() -> bool
        ensures { result ≡ notes };

    /// The text of the row.
    fn text(alloc: Global, row: &RowView<'_>) -> Result<Vec<u8>, AllocError>
        ensures { IfOk result (λ text. text.items ≡ written row.now) };
}

/// Shows each row's text in this format, and then the verdict.
#[derive(Drop)]
pub struct ByRow<F: RowFormat> {
    sheet: Sheet,
    format: PhantomData<F>,
}

impl<F: RowFormat> Model for ByRow<F> {
    ghost use Rattle.std.specs.Prelude.{◌≡◌};
    ghost use Rattle.std.specs.List.{flat_map};
    ghost use Rattle.jn_reporters.specs.Sheet.{Taken, taken_of};

    ghost Value = { Taken };

    ghost view = { λ a. taken_of a.sheet };

    ghost invariant = { λ a. a.sheet.lines ≡ flat_map F.written a.sheet.rows };
}

impl<F: RowFormat> ByRow<F> {
    pub fn new(alloc: Global) -> Self
        ensures { result ≡ nothing_taken }
    {
        ByRow {
            sheet: Sheet::new(alloc),
            format: PhantomData,
        }
    }
}

impl<F: RowFormat> Reporter for ByRow<F> {
    ghost use Rattle.std.specs.Prelude.{false};
    ghost use Rattle.jn_reporters.specs.Reports.{rows_shown};

    ghost form = { λ a. record {
      title = F.title;
      document = false;
      notes = F.notes;
      rows = a.rows;
      shown = rows_shown F.written;
      linked = λ address. rows_shown F.written;
    } };

    ghost given = { λ a. a.verdict };

    fn name(&self) -> &str {
        F::name()
    }

    fn is_document(&self) -> bool {
        false
    }

    fn shows_notes(&self) -> bool {
        F::shows_notes()
    }

    fn link(&mut self, _address: &str) -> Result<(), OutOfMemory> {
        Ok(())
    }

    fn take(&mut self, row: &RowView<'_>) -> Result<(), OutOfMemory> {
        let text = F::text(self.sheet.alloc(), row)?;
        self.sheet.take(row, &text)
    }

    fn finish(&mut self, verdict: Verdict) -> Result<(), OutOfMemory> {
        self.sheet.finish(verdict)
    }

    fn bytes(&self) -> &[u8] {
        self.sheet.text()
    }
}
