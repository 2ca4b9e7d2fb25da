//! Rows and notes at the files where they stand.
ghost use Rattle.std.specs.Prelude.{◌≡◌, map, IfOk};
ghost use Rattle.jn_lsp_solved.specs.Related as spec;

use crate::marked::Marked;
use jn_base::{OutOfMemory, Row, Seq, Span, Text};
use jn_front::SourceFile;
use jn_lsp_text::{Diagnostic, Encoding, Range, Related, Said};
use jn_note_words::Note;
use jn_recheck::FileSet;
use std::alloc::{AllocError, Global};

/// The number of the file where the span stands: of no file, the first.
pub fn home(files: &[SourceFile], span: &Span) -> usize
    ensures { result ≡ spec.home files.now span.now }
{
    let file = span.file.0 as usize;
    if file < files.len() { file } else { 0 }
}

/// The name of the file where the span stands.
pub fn name_of<'a>(files: &'a [SourceFile], span: &Span) -> &'a str
    ensures { result.now ≡ (spec.home_of files.now span.now).name }
{
    match files.get(home(files, span)) {
        None => "",
        Some(file) => file.name.as_str(),
    }
}

/// The range of a span in the file where it stands.
pub fn range_in(marked: &Marked, span: &Span) -> Range
    ensures { result ≡ spec.range_in marked.now.encoding marked.now.files span.now }
{
    marked.range(home(marked.files(), span), span.from, span.to)
}

/// The text without this ending, where it has it.
fn without_ending<'a>(text: &'a [u8], ending: &[u8]) -> &'a [u8]
    ensures { result.now ≡ spec.without_ending ending.now text.now }
{
    if text.ends_with(ending) {
        &text[..text.len() - ending.len()]
    } else {
        text
    }
}

/// A note's words, which lead to the place that a report has after them, without that end.
fn without_lead(words: &[u8]) -> &[u8]
    ensures { result.now ≡ spec.without_lead words.now }
{
    without_ending(without_ending(words, b" at"), b":")
}

fn related_of(alloc: Global, marked: &Marked, note: &Note) -> Result<Related, AllocError>
    ensures { IfOk result (λ related. related ≡ spec.related_of marked.now.encoding marked.now.files note.now) }
{
    Ok(Related {
        name: Text::of_str(alloc, name_of(marked.files(), &note.span))?,
        range: range_in(marked, &note.span),
        words: Text::of_string(String::from_utf8_lossy(
            alloc,
            without_lead(note.words.as_slice()),
        )?),
    })
}

/// Notes at their files, in their order.
///
/// # Errors
/// No memory was found.
pub fn all_related_in(
    alloc: Global,
    marked: &Marked,
    notes: &[Note],
) -> Result<Seq<Related>, AllocError>
    ensures { IfOk result (λ related. related
        ≡ map (spec.related_of marked.now.encoding marked.now.files) notes.now) }
{
    let mut related = Seq::new(alloc);
    for note in notes {
        related.push(related_of(alloc, marked, note)?)?;
    }
    Ok(related)
}

/// The same where no other places are asked for.
///
/// # Errors
/// No memory was found.
pub fn all_related(
    alloc: Global,
    encoding: Encoding,
    files: &FileSet,
    notes: &[Note],
) -> Result<Seq<Related>, OutOfMemory>
    ensures { IfOk result (λ related. related ≡ map (spec.related_of encoding files.now) notes.now) }
{
    let marked = Marked::new(alloc, encoding, files, false)?;
    let related = all_related_in(alloc, &marked, notes)?;
    Ok(related)
}

/// A row at its range, with these notes.
///
/// # Errors
/// No memory was found.
pub fn diagnostic_of(
    alloc: Global,
    marked: &Marked,
    row: &Row,
    notes: &[Note],
) -> Result<Diagnostic, AllocError>
    ensures { IfOk result (λ diagnostic. diagnostic
        ≡ spec.diagnostic_of marked.now.encoding marked.now.files row.now notes.now) }
{
    Ok(Diagnostic {
        range: range_in(marked, &row.span),
        said: Said::Row(row.code),
        related: all_related_in(alloc, marked, notes)?,
    })
}
