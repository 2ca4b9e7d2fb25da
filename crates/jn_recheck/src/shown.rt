//! Rows as a reader sees them.
ghost use Rattle.std.specs.Prelude.{◌≡◌, ◌⊎◌, ◌≤◌, ◌<◌, ◌++◌, ◌∷◌, [], IfOk, OnOk, length, map};
ghost use Rattle.jn_diag.specs.Shown.{row_shown};
ghost use Rattle.jn_diag.specs.Sweep.{IsPosition};
ghost use Rattle.jn_recheck.specs.Places.{IsPlaceIn};
ghost use Rattle.jn_recheck.specs.Sessions.{text_of_row};

use crate::file_set::FileSet;
use jn_base::{OutOfMemory, Row, Span, Text};
use jn_command::show::Place;
use jn_diag::{Position, RowText, place_behind};
use jn_front::SourceFile;
use std::alloc::Global;

/// The place, or the beginning of the file where it is of another one: rows come in order, so that each file is swept once.
fn place_in(place: Place, file: usize) -> Place
    ensures { ((result ≡ place) × (place.file ≡ file))
        ⊎ (result
        ≡ record { file = file; position = record { before = 0; line = 1; column = 1 } }) }
{
    if place.file == file {
        place
    } else {
        Place {
            file,
            position: Position::start(),
        }
    }
}

/// The row as a reader sees it, in its file; the position goes there.
fn text_in(
    alloc: Global,
    file: &SourceFile,
    row: &Row,
    position: &mut Position,
) -> Result<RowText, OutOfMemory>
    requires fits { length file.now.bytes ≤ 1048577 }
    requires is { IsPosition file.now.bytes position.old }
    ensures shown { IfOk result (λ t. t ≡ row_shown file.now.name file.now.bytes row.now) }
    ensures is { IsPosition file.now.bytes position.new }
{
    let text = file.bytes.as_slice();
    let at = Span {
        file: row.span.file,
        from: row.span.from.min(text.len() as u32),
        to: row.span.to,
    };
    let place = place_behind(text, position, &at);
    Ok(RowText {
        name: Text::of_str(alloc, file.name.as_str())?,
        line: place.line,
        col: place.col,
        code: row.code,
    })
}

/// The row of no file: it has no name.
fn text_nowhere(alloc: Global, row: &Row) -> Result<RowText, OutOfMemory>
    ensures { IfOk result (λ t. t ≡ record { name = []; line = 1; col = 1; code = row.now.code }) }
{
    Ok(RowText {
        name: Text::of_str(alloc, "")?,
        line: 1,
        col: 1,
        code: row.code,
    })
}

/// The row as a reader sees it; the place goes there.
fn text_of(
    alloc: Global,
    files: &FileSet,
    row: &Row,
    place: &mut Place,
) -> Result<RowText, OutOfMemory>
    requires is { IsPlaceIn files.now place.old }
    ensures shown { IfOk result (λ t. t ≡ text_of_row files.now row.now) }
    ensures is { IsPlaceIn files.now place.new }
{
    let files = files.as_slice();
    let file = row.span.file.0 as usize;
    if file < files.len() {
        *place = place_in(*place, file);
        text_in(alloc, &files[file], row, &mut place.position)
    } else {
        text_nowhere(alloc, row)
    }
}

fn push_text(texts: &mut Vec<RowText>, text: RowText) -> Result<(), OutOfMemory>
    ensures { OnOk result (texts.new.items ≡ texts.old.items ++ text ∷ []) }
{
    match texts.push(text) {
        Ok(()) => Ok(()),
        Err(_) => Err(OutOfMemory),
    }
}

/// The rows as a reader sees them.
pub(crate) fn row_texts(
    alloc: Global,
    files: &FileSet,
    rows: &[Row],
) -> Result<Vec<RowText>, OutOfMemory>
    ensures { IfOk result (λ texts. texts.items ≡ map (text_of_row files.now) rows.now) }
{
    let mut texts = Vec::new(alloc);
    let mut place = Place {
        file: 0,
        position: Position::start(),
    };
    for row in rows {
        let text = text_of(alloc, files, row, &mut place)?;
        push_text(&mut texts, text)?;
    }
    Ok(texts)
}
