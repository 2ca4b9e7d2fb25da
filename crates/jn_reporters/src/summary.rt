//! The summary.
ghost use Rattle.std.specs.Prelude.{◌≡◌, ◌<◌, ◌+◌, length, slice_index, slice_set, IfOk};
ghost use Rattle.jn_diag.specs.Order.{code_place};
ghost use Rattle.jn_reporters.specs.Counts.{lines_of};
ghost use Rattle.jn_reporters.specs.Reports.{count_line, summary_shown};
ghost use Rattle.jn_reporters.specs.Sheet.{nothing_taken};

use crate::codes::{CODES, place};
use crate::lines::counted;
use crate::reporter::Reporter;
use crate::sheet::Sheet;
use crate::view::RowView;
use jn_base::{Code, OutOfMemory};
use jn_diag::Verdict;
use std::alloc::{AllocError, Global};
use std::marker::Model;

/// Shows a line `CODE COUNT` for each code that occurs, in the order of the codes, and then the verdict.
#[derive(Drop)]
pub struct Summary {
    sheet: Sheet,
    /// The codes of the rows, a byte each, so that there are fewer than a number counts.
    codes: Vec<Code>,
    /// How many rows have each code, by its place in the order of the codes.
    counts: [u64; 49],
}

impl Model for Summary {
    ghost use Rattle.jn_reporters.specs.Counts.{IsCounted};
    ghost use Rattle.jn_reporters.specs.Sheet.{Taken, taken_of};

    ghost Value = { Taken };

    ghost view = { λ a. taken_of a.sheet };

    ghost invariant = { λ a. IsCounted a.sheet a.codes.items a.counts };
}

impl Summary {
    pub fn new(alloc: Global) -> Self
        ensures { result ≡ nothing_taken }
    {
        Summary {
            sheet: Sheet::new(alloc),
            codes: Vec::new(alloc),
            counts: [0; 49],
        }
    }
}

impl Reporter for Summary {
    ghost use Rattle.std.specs.Prelude.{codes, false};
    ghost use Rattle.jn_reporters.specs.Reports.{summary_shown};

    ghost form = { λ a. record {
      title = codes "summary";
      document = false;
      notes = false;
      rows = a.rows;
      shown = summary_shown;
      linked = λ address. summary_shown;
    } };

    ghost given = { λ a. a.verdict };

    fn name(&self) -> &str {
        "summary"
    }

    fn is_document(&self) -> bool {
        false
    }

    fn shows_notes(&self) -> bool {
        false
    }

    fn link(&mut self, _address: &str) -> Result<(), OutOfMemory> {
        Ok(())
    }

    fn take(&mut self, row: &RowView<'_>) -> Result<(), OutOfMemory> {
        let code = row.row().code;
        if self.codes.push(code).is_err() {
            return Err(OutOfMemory);
        }
        let counts = one_more(&self.counts, code, &self.codes);
        let lines = count_lines(self.sheet.alloc(), &CODES, &counts)?;
        self.sheet.take_anew(row, &lines)?;
        self.counts = counts;
        Ok(())
    }

    fn finish(&mut self, verdict: Verdict) -> Result<(), OutOfMemory> {
        self.sheet.finish(verdict)
    }

    fn bytes(&self) -> &[u8] {
        self.sheet.text()
    }
}

/// The counts with one row more of this code, which is the last of all codes.
fn one_more(counts: &[u64; 49], code: Code, codes: &[Code]) -> [u64; 49]
    requires { slice_index counts.now (code_place code) < length codes.now }
    ensures more { result
        ≡ slice_set counts.now (code_place code) (slice_index counts.now (code_place code) + 1) }
    ensures within { code_place code < length counts.now }
{
    let _codes = codes;
    let mut more = *counts;
    more[place(code)] += 1;
    more
}

fn count_lines(alloc: Global, codes: &[Code], counts: &[u64; 49]) -> Result<Vec<u8>, AllocError>
    ensures { IfOk result (λ lines. lines.items ≡ lines_of codes.now counts.now) }
{
    let mut lines = Vec::new(alloc);
    for code in codes {
        let line = count_line(alloc, *code, counts[place(*code)])?;
        lines.extend_from_slice(&line)?;
    }
    Ok(lines)
}

fn count_line(alloc: Global, code: Code, count: u64) -> Result<Vec<u8>, AllocError>
    ensures { IfOk result (λ line. line.items ≡ count_line code count) }
{
    if count == 0 {
        return Ok(Vec::new(alloc));
    }
    counted(alloc, code.name(), count)
}
