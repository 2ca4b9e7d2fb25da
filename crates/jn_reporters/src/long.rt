//! The report with the lines of the files.
ghost use Rattle.std.specs.Prelude.{◌≡◌, ◌<◌, ◌++◌, Some, IfOk, OnOk};
ghost use Rattle.std.specs.List.{flat_map};
ghost use Rattle.std.specs.Option.{option_map};
ghost use Rattle.jn_reporters.specs.Excerpts.{extract_of};
ghost use Rattle.jn_reporters.specs.Longs as spec;

use crate::by_row::{ByRow, RowFormat};
use crate::excerpt::Excerpt;
use crate::look::{Look, put_looked};
use crate::reporter::Reporter;
use crate::shown::ShownNote;
use crate::telling::noted;
use crate::view::RowView;
use itoa::{Buffer, Integer};
use jn_diag::RowText;
use std::alloc::{AllocError, Global};

/// Shows for each row its message, its place, the line on which it begins with a mark below, its cure and its notes, and then the
/// verdict.
pub type Long = ByRow<LongRow>;

/// What it shows of rows and a verdict is `long_shown`.
pub fn long_shows(reporter: &Long)
    ensures { (⟦<Long as Reporter>⟧.form reporter.now).shown ≡ spec.long_shown }
{}

/// The lines of a row, and an empty one.
#[derive(Drop)]
pub struct LongRow;

impl RowFormat for LongRow {
    ghost use Rattle.std.specs.Prelude.{codes, true};
    ghost use Rattle.jn_reporters.specs.Longs.{long_row};

    ghost title = { codes "long" };

    ghost notes = { true };

    ghost written = { long_row };

    fn name() -> &'static str {
        "long"
    }

    fn shows_notes() -> bool {
        true
    }

    fn text(alloc: Global, row: &RowView<'_>) -> Result<Vec<u8>, AllocError> {
        long_row(alloc, row)
    }
}

/// The lines of a row, and an empty one.
fn long_row(alloc: Global, row: &RowView<'_>) -> Result<Vec<u8>, AllocError>
    ensures { IfOk result (λ text. text.items ≡ spec.long_row row.now) }
{
    let mut text = head_line(alloc, row.row())?;
    let place = place_line(alloc, row.row())?;
    text.extend_from_slice(&place)?;
    put_source(&mut text, alloc, row.row(), row.excerpt())?;
    let cure = cure_line(alloc, row.row())?;
    text.extend_from_slice(&cure)?;
    let notes = note_lines(alloc, row.row(), row.notes(), row.more())?;
    text.extend_from_slice(&notes)?;
    text.extend_from_slice(b"\n\n")?;
    Ok(text)
}

/// As many spaces as the number of the row's line has digits.
fn margin(alloc: Global, row: &RowText) -> Result<Vec<u8>, AllocError>
    ensures { IfOk result (λ text. text.items ≡ spec.margin row.now) }
{
    let mut text = Vec::new(alloc);
    let mut buffer = Buffer::new();
    put_looked(
        &mut text,
        alloc,
        Look::Blank,
        buffer.format(row.line).as_bytes(),
    )?;
    Ok(text)
}

/// `error[CODE]: MESSAGE` and a line feed.
fn head_line(alloc: Global, row: &RowText) -> Result<Vec<u8>, AllocError>
    ensures { IfOk result (λ text. text.items ≡ spec.head_line row.now) }
{
    let mut text = Vec::from_slice(alloc, b"error[")?;
    text.extend_from_slice(row.code.name().as_bytes())?;
    text.extend_from_slice(b"]: ")?;
    text.extend_from_slice(row.code.message().as_bytes())?;
    text.extend_from_slice(b"\n")?;
    Ok(text)
}

/// `--> FILE:LINE:COL` and a line feed.
fn place_line(alloc: Global, row: &RowText) -> Result<Vec<u8>, AllocError>
    ensures { IfOk result (λ text. text.items ≡ spec.place_line row.now) }
{
    let mut text = margin(alloc, row)?;
    text.extend_from_slice(b"--> ")?;
    text.extend_from_slice(row.name.as_str().as_bytes())?;
    text.extend_from_slice(b":")?;
    text.extend_from_slice(Buffer::new().format(row.line).as_bytes())?;
    text.extend_from_slice(b":")?;
    text.extend_from_slice(Buffer::new().format(row.col).as_bytes())?;
    text.extend_from_slice(b"\n")?;
    Ok(text)
}

/// `= cure: CURE`.
fn cure_line(alloc: Global, row: &RowText) -> Result<Vec<u8>, AllocError>
    ensures { IfOk result (λ text. text.items ≡ spec.cure_line row.now) }
{
    let mut text = margin(alloc, row)?;
    text.extend_from_slice(b" = cure: ")?;
    text.extend_from_slice(row.code.cure().as_bytes())?;
    Ok(text)
}

/// A line for each note, and one where more were left out.
fn note_lines(
    alloc: Global,
    row: &RowText,
    notes: &[ShownNote],
    more: usize,
) -> Result<Vec<u8>, AllocError>
    ensures { IfOk result (λ text. text.items ≡ spec.note_lines row.now notes.now more) }
{
    let mut text = Vec::new(alloc);
    put_notes(&mut text, alloc, row, notes)?;
    put_more(&mut text, alloc, row, more)?;
    Ok(text)
}

fn put_notes(
    out: &mut Vec<u8>,
    alloc: Global,
    row: &RowText,
    notes: &[ShownNote],
) -> Result<(), AllocError>
    ensures { OnOk result
        (out.new.items ≡ out.old.items ++ flat_map (spec.note_line row.now) notes.now) }
{
    for note in notes {
        let line = note_line(alloc, row, note)?;
        out.extend_from_slice(&line)?;
    }
    Ok(())
}

/// `= note: TEXT FILE:LINE:COL` on a line of its own, or `, TEXT FILE:LINE:COL`.
#[tactic(auto, unfolding(crate::specs::Longs::note_line))]
fn note_line(alloc: Global, row: &RowText, note: &ShownNote) -> Result<Vec<u8>, AllocError>
    ensures { IfOk result (λ text. text.items ≡ spec.note_line row.now note.now) }
{
    let mut text = note_begin(alloc, row, note)?;
    let words = noted(alloc, note)?;
    text.extend_from_slice(&words)?;
    Ok(text)
}

/// What stands before a note's words.
fn note_begin(alloc: Global, row: &RowText, note: &ShownNote) -> Result<Vec<u8>, AllocError>
    ensures { IfOk result (λ text. text.items ≡ spec.note_begin row.now note.now) }
{
    if note.joined {
        Vec::from_slice(alloc, b", ")
    } else {
        line_begin(alloc, row)
    }
}

/// A line feed, and what stands before the words of a note on a line of its own.
fn line_begin(alloc: Global, row: &RowText) -> Result<Vec<u8>, AllocError>
    ensures { IfOk result (λ text. text.items ≡ spec.line_begin row.now) }
{
    let mut text = Vec::from_slice(alloc, b"\n")?;
    let margin = margin(alloc, row)?;
    text.extend_from_slice(&margin)?;
    text.extend_from_slice(b" = note: ")?;
    Ok(text)
}

/// `= note: .. and N more` on a line of its own, where notes were left out.
#[tactic(auto, unfolding(crate::specs::Longs::more_line))]
fn put_more(out: &mut Vec<u8>, alloc: Global, row: &RowText, more: usize) -> Result<(), AllocError>
    ensures { OnOk result (out.new.items ≡ out.old.items ++ spec.more_line row.now more) }
{
    if more == 0 {
        return Ok(());
    }
    let line = more_line(alloc, row, more)?;
    out.extend_from_slice(&line)
}

#[tactic(auto, unfolding(crate::specs::Longs::more_line))]
fn more_line(alloc: Global, row: &RowText, more: usize) -> Result<Vec<u8>, AllocError>
    requires { 0 < more }
    ensures { IfOk result (λ text. text.items ≡ spec.more_line row.now more) }
{
    let mut text = line_begin(alloc, row)?;
    text.extend_from_slice(b".. and ")?;
    text.extend_from_slice(Buffer::new().format(more).as_bytes())?;
    text.extend_from_slice(b" more")?;
    Ok(text)
}

/// Puts the line on which the row begins, and its mark; nothing where no line is shown.
fn put_source(
    out: &mut Vec<u8>,
    alloc: Global,
    row: &RowText,
    excerpt: Option<Excerpt<'_>>,
) -> Result<(), AllocError>
    ensures { OnOk result (out.new.items
        ≡ out.old.items ++ spec.source_lines row.now (option_map extract_of excerpt.entry)) }
{
    match excerpt {
        None => Ok(()),
        Some(excerpt) => {
            let lines = source_lines(alloc, row, &excerpt)?;
            out.extend_from_slice(&lines)
        }
    }
}

fn source_lines(alloc: Global, row: &RowText, excerpt: &Excerpt<'_>) -> Result<Vec<u8>, AllocError>
    ensures { IfOk result
        (λ text. text.items ≡ spec.source_lines row.now (Some (extract_of excerpt.now))) }
{
    let mut text = margin(alloc, row)?;
    text.extend_from_slice(b" |\n")?;
    let line = text_line(alloc, row, excerpt)?;
    text.extend_from_slice(&line)?;
    let mark = mark_line(alloc, row, excerpt)?;
    text.extend_from_slice(&mark)?;
    Ok(text)
}

fn cut_before(excerpt: &Excerpt<'_>) -> &'static str
    ensures { result.now ≡ spec.cut_before (extract_of excerpt.now) }
{
    if excerpt.begins { "" } else { ".. " }
}

fn cut_behind(excerpt: &Excerpt<'_>) -> &'static str
    ensures { result.now ≡ spec.cut_behind (extract_of excerpt.now) }
{
    if excerpt.ends { "" } else { " .." }
}

/// The line's number, and what is shown of it.
fn text_line(alloc: Global, row: &RowText, excerpt: &Excerpt<'_>) -> Result<Vec<u8>, AllocError>
    ensures { IfOk result
        (λ text. text.items ≡ spec.text_line row.now (extract_of excerpt.now)) }
{
    let mut text = Vec::from_slice(alloc, Buffer::new().format(row.line).as_bytes())?;
    text.extend_from_slice(b" | ")?;
    text.extend_from_slice(cut_before(excerpt).as_bytes())?;
    put_looked(&mut text, alloc, Look::Itself, excerpt.before)?;
    put_looked(&mut text, alloc, Look::Itself, excerpt.marked)?;
    put_looked(&mut text, alloc, Look::Itself, excerpt.behind)?;
    text.extend_from_slice(cut_behind(excerpt).as_bytes())?;
    text.extend_from_slice(b"\n")?;
    Ok(text)
}

/// Marks below the row, or one where nothing of it stands on the line.
fn put_marks(out: &mut Vec<u8>, alloc: Global, marked: &[u8]) -> Result<(), AllocError>
    ensures { OnOk result (out.new.items ≡ out.old.items ++ spec.marks marked.now) }
{
    match marked {
        [] => out.extend_from_slice(b"^"),
        _ => put_looked(out, alloc, Look::Mark, marked),
    }
}

/// The mark below the line.
fn mark_line(alloc: Global, row: &RowText, excerpt: &Excerpt<'_>) -> Result<Vec<u8>, AllocError>
    ensures { IfOk result
        (λ text. text.items ≡ spec.mark_line row.now (extract_of excerpt.now)) }
{
    let mut text = margin(alloc, row)?;
    text.extend_from_slice(b" | ")?;
    put_looked(
        &mut text,
        alloc,
        Look::Blank,
        cut_before(excerpt).as_bytes(),
    )?;
    put_looked(&mut text, alloc, Look::Blank, excerpt.before)?;
    put_marks(&mut text, alloc, excerpt.marked)?;
    text.extend_from_slice(b"\n")?;
    Ok(text)
}
