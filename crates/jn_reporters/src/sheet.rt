//! What reporters keep: rows, a verdict, and the text of both.
ghost use Rattle.std.specs.Prelude.{◌≡◌, ◌++◌, IfOk, OnOk, OnErr, take, drop, length, ◌≤◌};
ghost use Rattle.jn_reporters.specs.Reports.{end_line};
ghost use Rattle.jn_reporters.specs.Sheet.{nothing_lined, with_line, with_lines, with_verdict};

use crate::lines::verdict_line;
use crate::taken::{TakenRows, with_row};
use crate::view::RowView;
use jn_base::OutOfMemory;
use jn_diag::Verdict;
use jn_outside::Told;
use std::alloc::{AllocError, Global};
use std::marker::Model;

/// Rows and a verdict, with the lines made of the rows; the rows themselves only clauses read, and the verdict's line after them.
#[derive(Drop)]
pub struct Sheet {
    alloc: Global,
    rows: TakenRows,
    verdict: Option<Verdict>,
    /// The lines and after them the verdict's line.
    text: Vec<u8>,
    /// How many bytes of the text are lines.
    lines: usize,
}

impl Model for Sheet {
    ghost use Rattle.std.specs.Prelude.{◌≡◌, ◌≤◌, length, take, drop};
    ghost use Rattle.jn_reporters.specs.Reports.{end_line};
    ghost use Rattle.jn_reporters.specs.Sheet.{Lined};

    ghost Value = { Lined };

    ghost view = { λ a. record { rows = a.rows.items; verdict = a.verdict; lines = take a.lines a.text.items } };

    ghost invariant = { λ a. (a.lines ≤ length a.text.items) × (drop a.lines a.text.items ≡ end_line a.verdict) };
}

impl Sheet {
    pub fn new(alloc: Global) -> Self
        ensures { result ≡ nothing_lined }
    {
        Sheet {
            alloc,
            rows: Told::none(),
            verdict: None,
            text: Vec::new(alloc),
            lines: 0,
        }
    }

    pub fn alloc(&self) -> Global {
        self.alloc
    }

    /// The lines and after them the verdict's line.
    pub fn text(&self) -> &[u8]
        ensures { result.now ≡ self.now.lines ++ end_line self.now.verdict }
    {
        &self.text
    }

    /// Takes the row, with its line after the lines. On want of memory the sheet is as before.
    pub fn take(&mut self, row: &RowView<'_>, line: &[u8]) -> Result<(), OutOfMemory>
        ensures ok { OnOk result (self.new ≡ with_line self.old row.now line.now) }
        ensures err { OnErr result (self.new ≡ self.old) }
    {
        put_in(self.alloc, &mut self.text, self.lines, line)?;
        self.rows = with_row(&self.rows, row);
        self.lines += line.len();
        Ok(())
    }

    /// Takes the row, with these lines in place of the earlier ones. On want of memory the sheet is as before.
    pub fn take_anew(&mut self, row: &RowView<'_>, lines: &[u8]) -> Result<(), OutOfMemory>
        ensures ok { OnOk result (self.new ≡ with_lines self.old row.now lines.now) }
        ensures err { OnErr result (self.new ≡ self.old) }
    {
        let text = joined(self.alloc, lines, &self.text[self.lines..])?;
        self.rows = with_row(&self.rows, row);
        self.lines = lines.len();
        self.text = text;
        Ok(())
    }

    /// Gives the verdict, in place of an earlier one. On want of memory the sheet is as before.
    pub fn finish(&mut self, verdict: Verdict) -> Result<(), OutOfMemory>
        ensures ok { OnOk result (self.new ≡ with_verdict self.old verdict) }
        ensures err { OnErr result (self.new ≡ self.old) }
    {
        let end = verdict_line(self.alloc, verdict)?;
        let text = joined(self.alloc, &self.text[..self.lines], &end)?;
        self.text = text;
        self.verdict = Some(verdict);
        Ok(())
    }
}

fn joined(alloc: Global, front: &[u8], back: &[u8]) -> Result<Vec<u8>, AllocError>
    ensures { IfOk result (λ whole. whole.items ≡ front.now ++ back.now) }
{
    let mut whole = Vec::from_slice(alloc, front)?;
    whole.extend_from_slice(back)?;
    Ok(whole)
}

/// Puts the piece into the text at this byte. On want of memory the text is as before.
fn put_in(alloc: Global, text: &mut Vec<u8>, at: usize, piece: &[u8]) -> Result<(), AllocError>
    requires { at ≤ length text.old.items }
    ensures ok { OnOk result
        (text.new.items ≡ take at text.old.items ++ piece.now ++ drop at text.old.items) }
    ensures err { OnErr result (text.new.items ≡ text.old.items) }
{
    if at == text.len() {
        return text.extend_from_slice(piece);
    }
    let mut whole = joined(alloc, &text[..at], piece)?;
    whole.extend_from_slice(&text[at..])?;
    *text = whole;
    Ok(())
}
