//! The report as the XML of Checkstyle.
ghost use Rattle.std.specs.Prelude.{◌≡◌, ◌++◌, true, IfOk, OnOk};
ghost use Rattle.jn_report_formats.specs.Checkstyle as spec;

use crate::attribute::put_value;
use crate::document::{Document, Format};
use crate::kept::KeptRow;
use itoa::{Buffer, Integer};
use jn_base::{Code, Text};
use jn_reporters::reporter::Reporter;
use jn_reporters::shown::ShownNote;
use jn_reporters::telling::told_noted;
use std::alloc::{AllocError, Global};

/// Shows the XML of Checkstyle.
pub type Checkstyle = Document<CheckstyleXml>;

/// What it shows of rows and a verdict is `checkstyle_shown`, one document.
pub fn checkstyle_shows(reporter: &Checkstyle)
    ensures shown { (⟦<Checkstyle as Reporter>⟧.form reporter.now).shown ≡ spec.checkstyle_shown }
    ensures document { (⟦<Checkstyle as Reporter>⟧.form reporter.now).document ≡ true }
    ensures notes { (⟦<Checkstyle as Reporter>⟧.form reporter.now).notes ≡ true }
{}

/// The XML of Checkstyle: an element for each run of rows of one file, and in it one for each row, with its first note.
#[derive(Drop)]
pub struct CheckstyleXml;

impl Format for CheckstyleXml {
    ghost use Rattle.std.specs.Prelude.{codes, true};
    ghost use Rattle.jn_report_formats.specs.Checkstyle.{checkstyle_document};

    ghost title = { codes "checkstyle" };

    ghost notes = { true };

    ghost written = { λ address. checkstyle_document };

    fn name() -> &'static str {
        "checkstyle"
    }

    fn shows_notes() -> bool {
        true
    }

    fn document(
        alloc: Global,
        _address: &Option<Text>,
        rows: &[KeptRow],
    ) -> Result<Vec<u8>, AllocError> {
        let mut text = Vec::from_slice(
            alloc,
            b"<?xml version=\"1.0\" encoding=\"UTF-8\"?>\n<checkstyle version=\"4.3\">\n",
        )?;
        put_files(&mut text, alloc, rows)?;
        text.extend_from_slice(b"</checkstyle>\n")?;
        Ok(text)
    }
}

/// Puts an element for each run of rows of one file.
fn put_files(out: &mut Vec<u8>, alloc: Global, rows: &[KeptRow]) -> Result<(), AllocError>
    ensures { OnOk result (out.new.items ≡ out.old.items ++ spec.file_elements rows.now) }
{
    let Some((first, rest)) = rows.split_first() else {
        return Ok(());
    };
    put_first(out, alloc, first)?;
    put_rows_behind(out, alloc, first, rest)
}

/// Puts the rows that follow this one, and the end of the last file's element.
fn put_rows_behind(
    out: &mut Vec<u8>,
    alloc: Global,
    first: &KeptRow,
    rest: &[KeptRow],
) -> Result<(), AllocError>
    ensures { OnOk result
        (out.new.items ≡ out.old.items ++ spec.rows_behind first.now.name rest.now) }
{
    let mut last = first;
    for row in rest {
        put_next(out, alloc, last, row)?;
        last = row;
    }
    out.extend_from_slice(b"  </file>\n")
}

/// Puts the first row, with the begin of its file's element.
fn put_first(out: &mut Vec<u8>, alloc: Global, row: &KeptRow) -> Result<(), AllocError>
    ensures { OnOk result (out.new.items
        ≡ out.old.items ++ (spec.file_begin row.now.name ++ spec.error_element row.now)) }
{
    let mut text = file_begin(alloc, row.name.as_str())?;
    let element = error_element(alloc, row)?;
    text.extend_from_slice(&element)?;
    out.extend_from_slice(&text)
}

/// Puts a row that follows this last one.
fn put_next(
    out: &mut Vec<u8>,
    alloc: Global,
    last: &KeptRow,
    row: &KeptRow,
) -> Result<(), AllocError>
    ensures { OnOk result (out.new.items
        ≡ out.old.items
        ++ (spec.file_change last.now.name row.now.name ++ spec.error_element row.now)) }
{
    let mut text = file_change(alloc, last.name.as_str(), row.name.as_str())?;
    let element = error_element(alloc, row)?;
    text.extend_from_slice(&element)?;
    out.extend_from_slice(&text)
}

fn file_change(alloc: Global, name: &str, next: &str) -> Result<Vec<u8>, AllocError>
    ensures { IfOk result (λ text. text.items ≡ spec.file_change name.now next.now) }
{
    if name == next {
        return Ok(Vec::new(alloc));
    }
    let mut text = Vec::from_slice(alloc, b"  </file>\n")?;
    let begin = file_begin(alloc, next)?;
    text.extend_from_slice(&begin)?;
    Ok(text)
}

fn file_begin(alloc: Global, name: &str) -> Result<Vec<u8>, AllocError>
    ensures { IfOk result (λ text. text.items ≡ spec.file_begin name.now) }
{
    let mut text = Vec::from_slice(alloc, b"  <file name=\"")?;
    put_value(&mut text, name.as_bytes())?;
    text.extend_from_slice(b"\">\n")?;
    Ok(text)
}

fn error_element(alloc: Global, row: &KeptRow) -> Result<Vec<u8>, AllocError>
    ensures { IfOk result (λ text. text.items ≡ spec.error_element row.now) }
{
    let mut text = error_place(alloc, row)?;
    let meaning = error_meaning(alloc, row)?;
    text.extend_from_slice(&meaning)?;
    Ok(text)
}

fn error_place(alloc: Global, row: &KeptRow) -> Result<Vec<u8>, AllocError>
    ensures { IfOk result (λ text. text.items ≡ spec.error_place row.now) }
{
    let mut text = Vec::from_slice(alloc, b"    <error line=\"")?;
    text.extend_from_slice(Buffer::new().format(row.line).as_bytes())?;
    text.extend_from_slice(b"\" column=\"")?;
    text.extend_from_slice(Buffer::new().format(row.col).as_bytes())?;
    text.extend_from_slice(b"\"")?;
    Ok(text)
}

#[tactic(auto, unfolding(crate::specs::Checkstyle::error_words))]
fn error_words(alloc: Global, code: Code, notes: &[ShownNote]) -> Result<Vec<u8>, AllocError>
    ensures { IfOk result (λ text. text.items ≡ spec.error_words code notes.now) }
{
    let words = told_noted(alloc, code, notes)?;
    let mut text = Vec::new(alloc);
    put_value(&mut text, &words)?;
    Ok(text)
}

fn error_meaning(alloc: Global, row: &KeptRow) -> Result<Vec<u8>, AllocError>
    ensures { IfOk result (λ text. text.items ≡ spec.error_meaning row.now) }
{
    let words = error_words(alloc, row.code, row.notes.as_slice())?;
    let mut text = Vec::from_slice(alloc, b" severity=\"error\" message=\"")?;
    text.extend_from_slice(row.code.name().as_bytes())?;
    text.extend_from_slice(b": ")?;
    text.extend_from_slice(&words)?;
    text.extend_from_slice(b"\" source=\"nullcheck.")?;
    text.extend_from_slice(row.code.name().as_bytes())?;
    text.extend_from_slice(b"\"/>\n")?;
    Ok(text)
}
