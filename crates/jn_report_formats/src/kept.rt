//! What documents keep of rows.
ghost use Rattle.std.specs.Prelude.{◌≡◌, ◌++◌, ◌∷◌, [], IfOk, OnOk, OnErr};
ghost use Rattle.jn_report_formats.specs.Kept.{kept_of};

use crate::fingerprint::print_for;
use jn_base::{Code, OutOfMemory, Seq, Text};
use jn_reporters::shown::ShownNote;
use jn_reporters::view::RowView;
use std::alloc::Global;

/// A row with the name of its file, and the line and the column, both from 1, of its first byte and of what stands after its last.
#[derive(Drop)]
pub struct KeptRow {
    pub name: Text,
    pub line: u32,
    pub col: u32,
    pub end_line: u32,
    pub end_col: u32,
    pub code: Code,
    /// The fingerprint of the code and of what is shown of the row's line; none where no line is shown.
    pub fingerprint: Option<u64>,
    /// The notes, in their order.
    pub notes: Seq<ShownNote>,
    /// How many notes were left out after them.
    pub more: usize,
}

fn copied(alloc: Global, notes: &[ShownNote]) -> Result<Seq<ShownNote>, OutOfMemory>
    ensures { IfOk result (λ copies. copies ≡ notes.now) }
{
    let mut copies = Seq::new(alloc);
    for note in notes {
        copies.push(note.copy(alloc)?)?;
    }
    Ok(copies)
}

fn kept_of(alloc: Global, row: &RowView<'_>) -> Result<KeptRow, OutOfMemory>
    ensures { IfOk result (λ kept. kept ≡ kept_of row.now) }
{
    let fingerprint = print_for(row);
    let text = row.row();
    Ok(KeptRow {
        name: text.name.copy(alloc)?,
        line: text.line,
        col: text.col,
        end_line: row.end_line(),
        end_col: row.end_col(),
        code: text.code,
        fingerprint,
        notes: copied(alloc, row.notes())?,
        more: row.more(),
    })
}

/// Keeps the row after the others. On want of memory the rows are as before.
pub fn keep(alloc: Global, rows: &mut Vec<KeptRow>, row: &RowView<'_>) -> Result<(), OutOfMemory>
    ensures ok { OnOk result (rows.new.items ≡ rows.old.items ++ kept_of row.now ∷ []) }
    ensures err { OnErr result (rows.new.items ≡ rows.old.items) }
{
    let row = kept_of(alloc, row)?;
    if rows.push(row).is_err() {
        return Err(OutOfMemory);
    }
    Ok(())
}
