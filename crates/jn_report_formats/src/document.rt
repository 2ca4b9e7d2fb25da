//! Reports that are one document of all rows.
ghost use Rattle.std.specs.Prelude.{◌≡◌, ℕ, Bool, List, Option, IfOk};
ghost use Rattle.jn_report_formats.specs.declared.kept.KeptRow.{KeptRow};
ghost use Rattle.jn_report_formats.specs.Kept.{document_shown, nothing_documented};

use crate::kept::{KeptRow, keep};
use jn_base::{OutOfMemory, Text};
use jn_diag::Verdict;
use jn_outside::Told;
use jn_reporters::reporter::Reporter;
use jn_reporters::taken::{TakenRows, with_row};
use jn_reporters::view::RowView;
use std::alloc::{AllocError, Global};
use std::marker::{Model, PhantomData};

/// How rows are written as one document.
pub trait Format: Drop {
    /// The name by which the reporter is chosen.
    ghost title: { List ℕ };

    /// Whether notes are shown.
    ghost notes: { Bool };

    /// The document of the rows, where codes are explained at this address, if one is known.
    ghost written: { Option (List ℕ) → List KeptRow → List ℕ };

    /// The name by which the reporter is chosen.
    fn name() -> &'static str
        ensures { result.now ≡ title };

    /// Whether notes are shown.
    fn shows_notes() -> bool
        ensures { result ≡ notes };

    /// The document of the rows, made in time linear in its size.
    fn document(
        alloc: Global,
        address: &Option<Text>,
        rows: &[KeptRow],
    ) -> Result<Vec<u8>, AllocError>
        ensures { IfOk result (λ text. text.items ≡ written address.now rows.now) };
}

/// Shows the document of the rows in this format, and nothing before a verdict is given.
/// The document is made when the verdict is given, and made anew for each row after it.
#[derive(Drop)]
pub struct Document<F: Format> {
    alloc: Global,
    rows: TakenRows,
    /// What is kept of the rows.
    kept: Vec<KeptRow>,
    verdict: Option<Verdict>,
    /// Where codes are explained, if that is known.
    address: Option<Text>,
    /// The document of the rows, or nothing where no verdict was given.
    text: Vec<u8>,
    format: PhantomData<F>,
}

impl<F: Format> Model for Document<F> {
    ghost use Rattle.std.specs.Prelude.{◌≡◌};
    ghost use Rattle.jn_report_formats.specs.Kept.{Documented, document_shown, all_kept};

    ghost Value = { Documented };

    ghost view = { λ a. record { rows = a.rows.items; verdict = a.verdict; address = a.address } };

    ghost invariant = { λ a. (a.kept.items ≡ all_kept a.rows.items) × (a.text.items ≡ document_shown (F.written a.address) a.kept.items a.verdict) };
}

impl<F: Format> Document<F> {
    pub fn new(alloc: Global) -> Self
        ensures { result ≡ nothing_documented }
    {
        Document {
            alloc,
            rows: Told::none(),
            kept: Vec::new(alloc),
            verdict: None,
            address: None,
            text: Vec::new(alloc),
            format: PhantomData,
        }
    }
}

impl<F: Format> Reporter for Document<F> {
    ghost use Rattle.std.specs.Prelude.{Some, true};
    ghost use Rattle.jn_report_formats.specs.Kept.{documented};

    ghost form = { λ a. record {
      title = F.title;
      document = true;
      notes = F.notes;
      rows = a.rows;
      shown = documented (F.written a.address);
      linked = λ address. documented (F.written (Some address));
    } };

    ghost given = { λ a. a.verdict };

    fn name(&self) -> &str {
        F::name()
    }

    fn is_document(&self) -> bool {
        true
    }

    fn shows_notes(&self) -> bool {
        F::shows_notes()
    }

    fn link(&mut self, address: &str) -> Result<(), OutOfMemory> {
        let address = Some(Text::of_str(self.alloc, address)?);
        let text = shown::<F>(self.alloc, &address, &self.kept, self.verdict)?;
        self.text = text;
        self.address = address;
        Ok(())
    }

    fn take(&mut self, row: &RowView<'_>) -> Result<(), OutOfMemory> {
        keep(self.alloc, &mut self.kept, row)?;
        match shown::<F>(self.alloc, &self.address, &self.kept, self.verdict) {
            Ok(text) => {
                self.text = text;
                self.rows = with_row(&self.rows, row);
                Ok(())
            }
            Err(_) => {
                self.kept.pop();
                Err(OutOfMemory)
            }
        }
    }

    fn finish(&mut self, verdict: Verdict) -> Result<(), OutOfMemory> {
        let text = shown::<F>(self.alloc, &self.address, &self.kept, Some(verdict))?;
        self.text = text;
        self.verdict = Some(verdict);
        Ok(())
    }

    fn bytes(&self) -> &[u8] {
        &self.text
    }
}

/// The document of the rows, or nothing where no verdict was given.
fn shown<F: Format>(
    alloc: Global,
    address: &Option<Text>,
    rows: &[KeptRow],
    verdict: Option<Verdict>,
) -> Result<Vec<u8>, AllocError>
    ensures { IfOk result
        (λ text. text.items ≡ document_shown (F.written address.now) rows.now verdict) }
{
    match verdict {
        None => Ok(Vec::new(alloc)),
        Some(_) => F::document(alloc, address, rows),
    }
}
