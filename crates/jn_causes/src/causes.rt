//! The report of causes.
ghost use Rattle.std.specs.Prelude.{◌≡◌, ◌++◌, ◌∷◌, [], map, Some, IfOk, OnOk, OnErr};
ghost use Rattle.jn_causes.specs.Causes as spec;
ghost use Rattle.jn_reporters.specs.Reports.{verdict_line};
ghost use Rattle.jn_reporters.specs.Sheet.{nothing_taken};

use crate::caused::{Caused, caused_of};
use crate::gather::groups_text;
use jn_base::OutOfMemory;
use jn_diag::Verdict;
use jn_outside::Told;
use jn_reporters::taken::{TakenRows, with_row};
use jn_reporters::{Plain, Reporter, RowView};
use std::alloc::Global;
use std::marker::Model;

/// Shows the rows by where their chains of causes end, and then the verdict; before a verdict is given it shows nothing.
/// The text is made when the verdict is given, and made anew for each row after it.
#[derive(Drop)]
pub struct Causes {
    alloc: Global,
    rows: TakenRows,
    /// What is kept of the rows.
    kept: Vec<Caused>,
    verdict: Option<Verdict>,
    text: Vec<u8>,
}

impl Model for Causes {
    ghost use Rattle.std.specs.Prelude.{◌≡◌, map};
    ghost use Rattle.jn_causes.specs.Causes.{caused_of, text_of};
    ghost use Rattle.jn_reporters.specs.Sheet.{Taken};

    ghost Value = { Taken };

    ghost view = { λ a. record { rows = a.rows.items; verdict = a.verdict } };

    ghost invariant = { λ a. (a.kept.items ≡ map caused_of a.rows.items) × (a.text.items ≡ text_of a.kept.items a.verdict) };
}

impl Causes {
    pub fn new(alloc: Global) -> Self
        ensures { result ≡ nothing_taken }
    {
        Causes {
            alloc,
            rows: Told::none(),
            kept: Vec::new(alloc),
            verdict: None,
            text: Vec::new(alloc),
        }
    }
}

impl Reporter for Causes {
    ghost use Rattle.std.specs.Prelude.{codes, false, true};
    ghost use Rattle.jn_causes.specs.Causes.{causes_shown};

    ghost form = { λ a. record {
      title = codes "causes";
      document = false;
      notes = true;
      rows = a.rows;
      shown = causes_shown;
      linked = λ address. causes_shown;
    } };

    ghost given = { λ a. a.verdict };

    fn name(&self) -> &str {
        "causes"
    }

    fn is_document(&self) -> bool {
        false
    }

    fn shows_notes(&self) -> bool {
        true
    }

    fn link(&mut self, _address: &str) -> Result<(), OutOfMemory> {
        Ok(())
    }

    fn take(&mut self, row: &RowView<'_>) -> Result<(), OutOfMemory> {
        keep(self.alloc, &mut self.kept, row)?;
        match text_of(self.alloc, &self.kept, self.verdict) {
            Ok(text) => {
                self.text = text;
                self.rows = with_row(&self.rows, row);
                Ok(())
            }
            Err(_) => {
                self.kept.pop();
                Err(OutOfMemory)
            }
        }
    }

    fn finish(&mut self, verdict: Verdict) -> Result<(), OutOfMemory> {
        let text = text_of(self.alloc, &self.kept, Some(verdict))?;
        self.text = text;
        self.verdict = Some(verdict);
        Ok(())
    }

    fn bytes(&self) -> &[u8] {
        &self.text
    }
}

/// Keeps the row after the others. On want of memory the rows are as before.
fn keep(alloc: Global, rows: &mut Vec<Caused>, row: &RowView<'_>) -> Result<(), OutOfMemory>
    ensures ok { OnOk result (rows.new.items ≡ rows.old.items ++ spec.caused_of row.now ∷ []) }
    ensures err { OnErr result (rows.new.items ≡ rows.old.items) }
{
    let row = caused_of(alloc, row)?;
    if rows.push(row).is_err() {
        return Err(OutOfMemory);
    }
    Ok(())
}

/// The text of the rows and the verdict, or nothing where no verdict was given.
fn text_of(alloc: Global, rows: &[Caused], verdict: Option<Verdict>) -> Result<Vec<u8>, OutOfMemory>
    ensures { IfOk result (λ text. text.items ≡ spec.text_of rows.now verdict) }
{
    match verdict {
        None => Ok(Vec::new(alloc)),
        Some(verdict) => whole(alloc, rows, verdict),
    }
}

/// The groups of rows with an end, those of the others, and the verdict.
fn whole(alloc: Global, rows: &[Caused], verdict: Verdict) -> Result<Vec<u8>, OutOfMemory>
    ensures { IfOk result (λ text. text.items ≡ spec.text_of rows.now (Some verdict)) }
{
    let mut text = groups_text(alloc, rows, true)?;
    let others = groups_text(alloc, rows, false)?;
    text.extend_from_slice(&others)?;
    let end = end_line(alloc, verdict)?;
    text.extend_from_slice(&end)?;
    Ok(text)
}

/// The verdict's line, as the plain report has it.
fn end_line(alloc: Global, verdict: Verdict) -> Result<Vec<u8>, OutOfMemory>
    ensures { IfOk result (λ line. line.items ≡ verdict_line verdict) }
{
    let mut plain = Plain::new(alloc);
    plain.finish(verdict)?;
    Ok(Vec::from_slice(alloc, plain.bytes())?)
}
