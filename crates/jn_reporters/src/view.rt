//! Rows as reporters are given them.
ghost use Rattle.std.specs.Prelude.{◌≡◌, []};
ghost use Rattle.std.specs.Option.{option_map};
ghost use Rattle.jn_reporters.specs.Excerpts.{extract_of};

use crate::excerpt::Excerpt;
use crate::shown::ShownNote;
use jn_diag::RowText;
use std::marker::Model;

/// A row, with where it ends, what is shown of the line on which it begins, and its notes. The line is the file's, and none of it is copied;
/// the notes are those of this row alone.
#[derive(Drop)]
pub struct RowView<'a> {
    row: RowText,
    end_line: u32,
    end_col: u32,
    excerpt: Option<Excerpt<'a>>,
    notes: &'a [ShownNote],
    more: usize,
}

impl<'a> Model for RowView<'a> {
    ghost use Rattle.std.specs.Option.{option_map};
    ghost use Rattle.jn_reporters.specs.Excerpts.{extract_of};
    ghost use Rattle.jn_reporters.specs.declared.shown.ShownRow.{ShownRow};

    ghost Value = { ShownRow };

    ghost view = { λ a. record { text = a.row; end_line = a.end_line; end_col = a.end_col; extract = option_map extract_of a.excerpt; notes = a.notes.now; more = a.more } };
}

impl<'a> RowView<'a> {
    /// The row with its excerpt, or without, as one of a limit; it ends where it begins, and has no notes.
    pub fn new(row: RowText, excerpt: Option<Excerpt<'a>>) -> RowView<'a>
        ensures { result ≡ record {
          text = row;
          end_line = row.line;
          end_col = row.col;
          extract = option_map extract_of excerpt.entry;
          notes = [];
          more = 0;
        } }
    {
        let (line, col) = (row.line, row.col);
        RowView::noted(row, line, col, excerpt, &[], 0)
    }

    /// The row with the line and the column of what stands after it, with these notes, and with how many more were left out.
    pub fn noted(
        row: RowText,
        end_line: u32,
        end_col: u32,
        excerpt: Option<Excerpt<'a>>,
        notes: &'a [ShownNote],
        more: usize,
    ) -> RowView<'a>
        ensures { result ≡ record {
          text = row;
          end_line = end_line;
          end_col = end_col;
          extract = option_map extract_of excerpt.entry;
          notes = notes.now;
          more = more;
        } }
    {
        RowView {
            row,
            end_line,
            end_col,
            excerpt,
            notes,
            more,
        }
    }

    /// File, line, column and code.
    pub fn row(&self) -> &RowText
        ensures { result.now ≡ self.now.text }
    {
        &self.row
    }

    /// The line of what stands after the row's last byte.
    pub fn end_line(&self) -> u32
        ensures { result ≡ self.now.end_line }
    {
        self.end_line
    }

    /// The column of what stands after the row's last byte.
    pub fn end_col(&self) -> u32
        ensures { result ≡ self.now.end_col }
    {
        self.end_col
    }

    /// What is shown of the line on which the row begins.
    pub fn excerpt(&self) -> Option<Excerpt<'a>>
        ensures { option_map extract_of result ≡ self.now.extract }
    {
        self.excerpt
    }

    /// The notes, in their order.
    pub fn notes(&self) -> &'a [ShownNote]
        ensures { result.now ≡ self.now.notes }
    {
        self.notes
    }

    /// How many notes were left out after them.
    pub fn more(&self) -> usize
        ensures { result ≡ self.now.more }
    {
        self.more
    }
}
