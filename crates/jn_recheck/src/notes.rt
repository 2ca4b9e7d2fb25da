//! The notes of rows, in what is kept.
ghost use Rattle.std.specs.Prelude.{◌≡◌, IfOk};
ghost use Rattle.jn_notes.specs.Noted.{AreNotesOf};
ghost use Rattle.jn_recheck.specs.Sessions.{HaveNotes};

use crate::kept::Kept;
use jn_base::{OutOfMemory, Row};
use jn_note_words::Notes;
use jn_notes::notes_of_rows;
use jn_tables_law::law::regular_programs_can_be_inferred;
use std::alloc::Global;

fn notes_in(alloc: Global, kept: &Kept, rows: &[Row]) -> Result<Vec<Notes>, OutOfMemory>
    ensures { IfOk result
        (λ notes. AreNotesOf kept.now.program kept.now.names kept.now.signature rows.now notes.items) }
{
    regular_programs_can_be_inferred();
    notes_of_rows(alloc, kept.indexed(), kept.names(), kept.sig(), rows)
}

/// The notes of these rows in what is kept; none where nothing is.
pub(crate) fn notes_of(
    alloc: Global,
    kept: &Option<Kept>,
    rows: &[Row],
) -> Result<Vec<Notes>, OutOfMemory>
    ensures { IfOk result (λ notes. HaveNotes kept.now rows.now notes.items) }
{
    match kept {
        None => Ok(Vec::new(alloc)),
        Some(kept) => notes_in(alloc, kept, rows),
    }
}
