//! A report, as a reporter takes it.
ghost use Rattle.std.specs.Prelude.{◌≡◌, ◌⊎◌, ◌<◌, ◌∷◌, ◌++◌, [], map, None, Some, IfOk};
ghost use Rattle.jn_base.specs.declared.code.Code.TheVariants.{B1};
ghost use Rattle.jn_diag.specs.Shown.{row_shown};
ghost use Rattle.jn_diag.specs.Sweep.{IsPosition};
ghost use Rattle.jn_front.specs.Files.{files_of_reads};
ghost use Rattle.jn_front.specs.Limits.{row_at};
ghost use Rattle.jn_command.specs.Reports.{rows_of, verdict_of};
ghost use Rattle.jn_command.specs.Shown.{row_of, row_of_file, rows_with, with_notes};
ghost use Rattle.jn_command.specs.Stands.{IsPlace};
ghost use Rattle.jn_reporters.specs.Views.{end_in, row_view};

use crate::noted::{NoNotes, Noted, Notes};
use crate::report::Report;
use jn_base::{Code, OutOfMemory, Row, Span, Text};
use jn_diag::{Position, RowText, Verdict, place_behind};
use jn_front::{SourceRead, row_at};
use jn_reporters::{Reporter, RowView, end_of, excerpt_for};
use std::alloc::Global;

/// A place in one of the files that were read: rows come in order, so that each file is swept once.
#[derive(Clone, Copy, Debug, PartialEq, Eq)]
pub struct Place {
    /// The file's number.
    pub file: usize,
    pub position: Position,
}

/// The place, or the beginning of the file where it is of another one.
fn place_in(place: Place, file: usize) -> Place
    ensures { ((result ≡ place) × (place.file ≡ file))
        ⊎ (result
        ≡ record { file = file; position = record { before = 0; line = 1; column = 1 } }) }
{
    if place.file == file {
        place
    } else {
        Place {
            file,
            position: Position::start(),
        }
    }
}

/// The row's text, of a file that was read; the position goes there.
fn text_in(
    alloc: Global,
    read: &SourceRead,
    row: &Row,
    position: &mut Position,
) -> Result<RowText, OutOfMemory>
    requires is { IsPosition read.now.file.bytes position.old }
    ensures shown { IfOk result
        (λ t. t ≡ row_shown read.now.file.name read.now.file.bytes row.now) }
    ensures is { IsPosition read.now.file.bytes position.new }
{
    let text = read.file.bytes.as_slice();
    let at = Span {
        file: row.span.file,
        from: row.span.from.min(text.len() as u32),
        to: row.span.to,
    };
    let place = place_behind(text, position, &at);
    Ok(RowText {
        name: Text::of_str(alloc, read.file.name.as_str())?,
        line: place.line,
        col: place.col,
        code: row.code,
    })
}

/// The row with what is shown of its line and its notes, of a file that was read; the position goes there.
fn row_in<'a>(
    alloc: Global,
    read: &'a SourceRead,
    row: &Row,
    noted: &'a Noted,
    position: &mut Position,
) -> Result<RowView<'a>, OutOfMemory>
    requires is { IsPosition read.now.file.bytes position.old }
    ensures shown { IfOk result
        (λ t. t
        ≡ with_notes (row_view read.now.file.name read.now.file.bytes row.now) noted.now) }
    ensures is { IsPosition read.now.file.bytes position.new }
{
    let text = text_in(alloc, read, row, position)?;
    let end = end_in(read, row, *position);
    let excerpt = excerpt_for(row.code, read.file.bytes.as_slice(), &row.span);
    Ok(RowView::noted(
        text,
        end.line,
        end.col,
        excerpt,
        noted.notes.as_slice(),
        noted.more,
    ))
}

/// The place of what stands after the row, of a file that was read; it is sought from the position on.
fn end_in(read: &SourceRead, row: &Row, position: Position) -> jn_base::Place
    requires is { IsPosition read.now.file.bytes position }
    ensures { result ≡ end_in row.now.code read.now.file.bytes row.now.span }
{
    let text = read.file.bytes.as_slice();
    let at = Span {
        file: row.span.file,
        from: end_of(row.code, &row.span).min(text.len() as u32),
        to: row.span.to,
    };
    let mut position = position;
    place_behind(text, &mut position, &at)
}

/// The row of no file: it has no name, and no line is shown.
fn row_nowhere<'a>(alloc: Global, row: &Row, noted: &'a Noted) -> Result<RowView<'a>, OutOfMemory>
    ensures { IfOk result (λ t. t ≡ with_notes (row_of_file None row.now) noted.now) }
{
    let text = RowText {
        name: Text::of_str(alloc, "")?,
        line: 1,
        col: 1,
        code: row.code,
    };
    Ok(RowView::noted(text, 1, 1, None, noted.notes.as_slice(), noted.more))
}

/// The row as a reporter is given it, with these notes; one of no file has no name, and one after its file's end stands at the end.
fn row_of<'a>(
    alloc: Global,
    reads: &'a [SourceRead],
    row: &Row,
    noted: &'a Noted,
    place: &mut Place,
) -> Result<RowView<'a>, OutOfMemory>
    requires is { IsPlace reads.now place.old }
    ensures shown { IfOk result
        (λ t. t ≡ with_notes (row_of (files_of_reads reads.now) row.now) noted.now) }
    ensures is { IsPlace reads.now place.new }
{
    let file = row.span.file.0 as usize;
    if file < reads.len() {
        *place = place_in(*place, file);
        row_in(alloc, &reads[file], row, noted, &mut place.position)
    } else {
        row_nowhere(alloc, row, noted)
    }
}

/// Hands the rows, with these notes, and the verdict of a report of files that were read to a reporter.
pub fn show_noted<P: Reporter, N: Notes>(
    alloc: Global,
    reads: &[SourceRead],
    report: &Report,
    notes: &N,
    reporter: P,
) -> Result<P, OutOfMemory>
    ensures rows { IfOk result (λ shower. (P.form shower).rows
        ≡ (P.form reporter).rows
        ++ rows_with (files_of_reads reads.now) (N.told notes.now) (rows_of report.now)) }
    ensures verdict { IfOk result (λ shower. P.given shower ≡ Some (verdict_of report.now)) }
    ensures shown { IfOk result (λ shower. (P.form shower).shown ≡ (P.form reporter).shown) }
{
    let rows = report.rows();
    let mut shower = reporter;
    let mut place = Place {
        file: 0,
        position: Position::start(),
    };
    let mut at = 0;
    while at < rows.len() {
        let noted = notes.of_row(alloc, at)?;
        let shown = row_of(alloc, reads, &rows[at], &noted, &mut place)?;
        shower.take(&shown)?;
        at += 1;
    }
    shower.finish(report.verdict())?;
    Ok(shower)
}

/// Hands the rows, without notes, and the verdict of a report of files that were read to a reporter.
pub fn show<P: Reporter>(
    alloc: Global,
    reads: &[SourceRead],
    report: &Report,
    reporter: P,
) -> Result<P, OutOfMemory>
    ensures rows { IfOk result (λ shower. (P.form shower).rows
        ≡ (P.form reporter).rows ++ map (row_of (files_of_reads reads.now)) (rows_of report.now)) }
    ensures verdict { IfOk result (λ shower. P.given shower ≡ Some (verdict_of report.now)) }
    ensures shown { IfOk result (λ shower. (P.form shower).shown ≡ (P.form reporter).shown) }
{
    show_noted(alloc, reads, report, &NoNotes, reporter)
}

/// The row of the first file that is too many, which has this name.
fn row_too_many<'a>(alloc: Global, name: &str) -> Result<RowView<'a>, OutOfMemory>
    ensures { IfOk result (λ t. t ≡ row_view name.now [] (row_at 64 B1)) }
{
    let row = row_at(64, Code::B1);
    let text = RowText {
        name: Text::of_str(alloc, name)?,
        line: 1,
        col: 1,
        code: Code::B1,
    };
    Ok(RowView::new(text, excerpt_for(row.code, &[], &row.span)))
}

/// Hands the report of more files than there may be to a reporter; this is the name of the first that is too many.
pub fn show_number<P: Reporter>(alloc: Global, name: &str, reporter: P) -> Result<P, OutOfMemory>
    ensures rows { IfOk result
        (λ shower. (P.form shower).rows ≡ (P.form reporter).rows ++ row_view name.now [] (row_at 64 B1) ∷ []) }
    ensures verdict { IfOk result (λ shower. P.given shower ≡ Some (Verdict.Refused 1)) }
    ensures shown { IfOk result (λ shower. (P.form shower).shown ≡ (P.form reporter).shown) }
{
    let shown = row_too_many(alloc, name)?;
    let mut shower = reporter;
    shower.take(&shown)?;
    shower.finish(Verdict::Refused(1))?;
    Ok(shower)
}
