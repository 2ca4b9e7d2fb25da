//! From a report's rows to what is told of files.
ghost use Rattle.std.specs.Prelude.{◌≡◌, ◌++◌, ◌∷◌, [], IfOk, OnOk};
ghost use Rattle.jn_lsp.specs.Telling as spec;

use jn_base::{OutOfMemory, Row, Seq, Text};
use jn_front::SourceFile;
use jn_lsp_solved::Marked;
use jn_lsp_solved::related::{diagnostic_of, home};
use jn_lsp_text::{Diagnostic, Encoding};
use jn_note_words::{Note, Notes};
use jn_recheck::FileSet;
use std::alloc::{AllocError, Global};

/// What is told of a file: its diagnostics in the order of the report.
#[derive(Drop)]
pub struct Told {
    pub name: Text,
    pub diagnostics: Seq<Diagnostic>,
}

/// The notes of the row of this number; none where the list is shorter.
fn shown_at(notes: &[Notes], at: usize) -> &[Note]
    ensures { result.now ≡ spec.shown_at notes.now at }
{
    match notes.get(at) {
        None => &[],
        Some(notes) => notes.shown.as_slice(),
    }
}

/// Puts a row's diagnostic after the others, where the row stands at the file of this number.
fn add_row(
    alloc: Global,
    marked: &Marked,
    row: &Row,
    notes: &[Note],
    file: usize,
    diagnostics: &mut Seq<Diagnostic>,
) -> Result<(), AllocError>
    ensures { OnOk result (diagnostics.new
        ≡ diagnostics.old
        ++ spec.diagnostics_of_row marked.now.encoding marked.now.files row.now notes.now file) }
{
    if home(marked.files(), &row.span) == file {
        diagnostics.push(diagnostic_of(alloc, marked, row, notes)?)?;
    }
    Ok(())
}

/// The diagnostics of the rows that stand at the file of this number.
pub(crate) fn diagnostics_at(
    alloc: Global,
    marked: &Marked,
    rows: &[Row],
    notes: &[Notes],
    file: usize,
) -> Result<Seq<Diagnostic>, AllocError>
    ensures { IfOk result (λ diagnostics. diagnostics
        ≡ spec.diagnostics_at marked.now.encoding marked.now.files rows.now notes.now file) }
{
    let mut diagnostics = Seq::new(alloc);
    for at in 0..rows.len() {
        add_row(
            alloc,
            marked,
            &rows[at],
            shown_at(notes, at),
            file,
            &mut diagnostics,
        )?;
    }
    Ok(diagnostics)
}

pub(crate) fn told_of(
    alloc: Global,
    file: &SourceFile,
    diagnostics: Seq<Diagnostic>,
) -> Result<Told, AllocError>
    ensures { IfOk result (λ told. told
        ≡ record { name = file.now.name; diagnostics = diagnostics }) }
{
    Ok(Told {
        name: file.name.copy(alloc)?,
        diagnostics,
    })
}

pub(crate) fn push(told: &mut Vec<Told>, one: Told) -> Result<(), AllocError>
    ensures { OnOk result (told.new.items ≡ told.old.items ++ one ∷ []) }
{
    told.push(one)?;
    Ok(())
}

/// What is told of each marked file: of these rows those that stand there.
fn told_of_marked(
    alloc: Global,
    marked: &Marked,
    rows: &[Row],
    notes: &[Notes],
) -> Result<Vec<Told>, OutOfMemory>
    ensures { IfOk result (λ told. told.items
        ≡ spec.told_from (spec.diagnostics_at marked.now.encoding marked.now.files rows.now notes.now) 0
        marked.now.files) }
{
    let files = marked.files();
    let mut told = Vec::new(alloc);
    for at in 0..files.len() {
        let diagnostics = diagnostics_at(alloc, marked, rows, notes, at)?;
        push(&mut told, told_of(alloc, &files[at], diagnostics)?)?;
    }
    Ok(told)
}

/// What is told of each file: of the report's rows those that stand there.
pub(crate) fn told_of_all(
    alloc: Global,
    encoding: Encoding,
    files: &FileSet,
    rows: &[Row],
    notes: &[Notes],
) -> Result<Vec<Told>, OutOfMemory>
    ensures { IfOk result (λ told. told.items
        ≡ spec.told_from (spec.diagnostics_at encoding files.now rows.now notes.now) 0 files.now) }
{
    let marked = Marked::new(alloc, encoding, files, rows.len() > 0)?;
    let told = told_of_marked(alloc, &marked, rows, notes)?;
    Ok(told)
}
