//! What is told where a report ends before the rules.
ghost use Rattle.std.specs.Prelude.{◌≡◌, ◌<◌, ◌^◌, ◌++◌, ◌∷◌, [], IfOk, OnOk, length};
ghost use Rattle.jn_base.specs.Place as places;
ghost use Rattle.jn_lsp.specs.Reported as spec;
ghost use Rattle.jn_lsp.specs.Telling.{told_from};
ghost use Rattle.jn_lsp_solved.specs.Related.{home_of};
ghost use Rattle.jn_recheck.specs.Files.{is_as_before};

use crate::diagnostics::{Told, diagnostics_at, push, told_of};
use crate::documents::place_of;
use crate::front::front;
use crate::publishing::told_of as told_before;
use itoa::{Buffer, Integer};
use jn_base::{Code, OutOfMemory, Place, Row, Seq, Span, Text, place_of as place_of_span};
use jn_front::SourceFile;
use jn_lsp_solved::Marked;
use jn_lsp_solved::related::{home, name_of, range_in};
use jn_lsp_solved::texts::text_at;
use jn_lsp_text::{Diagnostic, Encoding, Related, Said, SmallText, copy_diagnostics};
use jn_note_words::Notes;
use jn_recheck::FileSet;
use std::alloc::{AllocError, Global};

/// The last report that came to the rules: the files that stood then, and what it told of each of them. Before the first one there are none.
#[derive(Drop)]
pub struct LastReport {
    pub files: Seq<SourceFile>,
    pub told: Seq<Told>,
}

impl LastReport {
    /// None came so far.
    pub(crate) fn none(alloc: Global) -> LastReport
        ensures { result ≡ spec.no_report }
    {
        LastReport {
            files: Seq::new(alloc),
            told: Seq::new(alloc),
        }
    }
}

/// Keeps a report of these files, which told this, where it came to the rules.
pub(crate) fn keep(last: &mut LastReport, came: bool, files: FileSet, told: Vec<Told>)
    ensures { last.new ≡ spec.next_last came files told.items last.old }
{
    if came {
        *last = LastReport {
            files: Seq::of_vec(files.into_vec()),
            told: Seq::of_vec(told),
        };
    }
}

// ---- texts as they were

fn is_as_before(earlier: &[SourceFile], file: &SourceFile) -> bool
    ensures { result ≡ is_as_before earlier.now file.now }
{
    match place_of(earlier, file.name.as_str()) {
        None => false,
        Some(at) => earlier[at].bytes.as_slice() == file.bytes.as_slice(),
    }
}

/// What the last report that came to the rules told of a file whose text is as it was then.
fn kept_of<'a>(last: &'a LastReport, file: &SourceFile) -> &'a [Diagnostic]
    ensures { result.now ≡ spec.kept_of last.now file.now }
{
    if is_as_before(last.files.as_slice(), file) {
        told_before(last.told.as_slice(), file.name.as_str())
    } else {
        &[]
    }
}

// ---- why a file isn't checked

/// What is wrong with the file of a row of this code, where rows of it keep a report from the rules.
fn wrong(code: Code) -> &'static str
    ensures { result.now ≡ spec.wrong code }
{
    match code {
        Code::B1 => "is beyond the limits",
        Code::B2 => "is beyond the limits",
        Code::B3 => "is beyond the limits",
        Code::L1 => "doesn't parse",
        Code::L2 => "doesn't parse",
        Code::L3 => "doesn't parse",
        Code::L4 => "doesn't parse",
        Code::L5 => "doesn't parse",
        Code::L6 => "doesn't parse",
        Code::L7 => "doesn't parse",
        Code::S1 => "doesn't parse",
        Code::S2 => "doesn't parse",
        _ => "isn't of the subset",
    }
}

/// The text of the file where a span stands.
fn text_of<'a>(files: &'a FileSet, span: &Span) -> SmallText<'a>
    ensures { result ≡ (home_of files.now span.now).bytes }
{
    text_at(files, home(files.as_slice(), span))
}

/// The place of a span's first byte, or of the text's end where it is beyond.
fn place_in(text: &SmallText, span: &Span) -> Place
    ensures { result ≡ places.place_in text.now span.now }
{
    let text = text.bytes();
    let within = Span {
        file: span.file,
        from: (span.from as usize).min(text.len()) as u32,
        to: span.to,
    };
    place_of_span(text, &within)
}

/// Why files aren't checked: the report has this row.
fn why(alloc: Global, files: &FileSet, row: &Row) -> Result<Text, AllocError>
    ensures { IfOk result (λ words. words ≡ spec.why files.now row.now) }
{
    let place = place_in(&text_of(files, &row.span), &row.span);
    let mut words = String::from_str(alloc, "not checked since ")?;
    words.push_str(name_of(files.as_slice(), &row.span))?;
    words.push_str(" ")?;
    words.push_str(wrong(row.code))?;
    words.push_str(": ")?;
    words.push_str(Buffer::new().format(place.line))?;
    words.push_str(":")?;
    words.push_str(Buffer::new().format(place.col))?;
    words.push_str(" ")?;
    words.push_str(row.code.name())?;
    Ok(Text::of_string(words))
}

/// The place of a row, with what is wrong there.
fn there(alloc: Global, marked: &Marked, row: &Row) -> Result<Seq<Related>, AllocError>
    ensures { IfOk result (λ related. related
        ≡ spec.there marked.now.encoding marked.now.files row.now ∷ []) }
{
    let mut related = Seq::new(alloc);
    related.push(Related {
        name: Text::of_str(alloc, name_of(marked.files(), &row.span))?,
        range: range_in(marked, &row.span),
        words: Text::of_str(alloc, row.code.message())?,
    })?;
    Ok(related)
}

/// That a file isn't checked, since the report has this row.
fn unchecked(
    alloc: Global,
    marked: &Marked,
    row: &Row,
    file: &SourceFile,
) -> Result<Diagnostic, AllocError>
    requires small { length file.now.bytes < 2 ^ 30 }
    ensures { IfOk result (λ diagnostic. diagnostic
        ≡ spec.unchecked marked.now.encoding marked.now.files row.now file.now) }
{
    let text = SmallText::of(file.bytes.as_slice());
    Ok(Diagnostic {
        range: front(marked.encoding(), &text),
        said: Said::Unchecked(why(alloc, marked.file_set(), row)?),
        related: there(alloc, marked, row)?,
    })
}

// ---- what is told

/// Puts after what was told that a file isn't checked, since these are the report's rows.
fn add_unchecked(
    alloc: Global,
    marked: &Marked,
    rows: &[Row],
    file: &SourceFile,
    diagnostics: &mut Seq<Diagnostic>,
) -> Result<(), AllocError>
    requires small { length file.now.bytes < 2 ^ 30 }
    ensures { OnOk result (diagnostics.new
        ≡ diagnostics.old
        ++ spec.unchecked_by marked.now.encoding marked.now.files rows.now file.now) }
{
    match rows {
        [] => Ok(()),
        [row, ..] => diagnostics.push(unchecked(alloc, marked, row, file)?),
    }
}

/// What was told of a file whose text is as it was, and that it isn't checked.
fn kept(
    alloc: Global,
    marked: &Marked,
    last: &LastReport,
    rows: &[Row],
    file: &SourceFile,
) -> Result<Seq<Diagnostic>, AllocError>
    requires small { length file.now.bytes < 2 ^ 30 }
    ensures { IfOk result (λ diagnostics. diagnostics
        ≡ spec.kept_of last.now file.now
        ++ spec.unchecked_by marked.now.encoding marked.now.files rows.now file.now) }
{
    let mut diagnostics = copy_diagnostics(alloc, kept_of(last, file))?;
    add_unchecked(alloc, marked, rows, file, &mut diagnostics)?;
    Ok(diagnostics)
}

/// What is told of the file of a number: its rows; where it has none, what was told of it, and that it isn't checked.
#[tactic(auto, using(crate::proofs::Keeping::told_rows, crate::proofs::Keeping::told_kept))]
fn unchecked_at(
    alloc: Global,
    marked: &Marked,
    last: &LastReport,
    rows: &[Row],
    notes: &[Notes],
    at: usize,
) -> Result<Seq<Diagnostic>, AllocError>
    requires there { at < length marked.now.files }
    ensures { IfOk result (λ diagnostics. diagnostics
        ≡ spec.unchecked_at marked.now.encoding last.now marked.now.files rows.now notes.now at) }
{
    let files = marked.file_set().as_slice();
    let own = diagnostics_at(alloc, marked, rows, notes, at)?;
    if own.len() == 0 {
        kept(alloc, marked, last, rows, &files[at])
    } else {
        Ok(own)
    }
}

/// What is told of each marked file, where these rows, with these notes, end the report before the rules.
fn unchecked_of_marked(
    alloc: Global,
    marked: &Marked,
    last: &LastReport,
    rows: &[Row],
    notes: &[Notes],
) -> Result<Vec<Told>, OutOfMemory>
    ensures { IfOk result (λ told. told.items
        ≡ told_from (spec.unchecked_at marked.now.encoding last.now marked.now.files rows.now notes.now) 0
        marked.now.files) }
{
    let files = marked.files();
    let mut told = Vec::new(alloc);
    for at in 0..files.len() {
        let diagnostics = unchecked_at(alloc, marked, last, rows, notes, at)?;
        push(&mut told, told_of(alloc, &files[at], diagnostics)?)?;
    }
    Ok(told)
}

/// What is told of each file, where these rows, with these notes, end the report before the rules.
pub(crate) fn unchecked_of_all(
    alloc: Global,
    encoding: Encoding,
    last: &LastReport,
    files: &FileSet,
    rows: &[Row],
    notes: &[Notes],
) -> Result<Vec<Told>, OutOfMemory>
    ensures { IfOk result (λ told. told.items
        ≡ told_from (spec.unchecked_at encoding last.now files.now rows.now notes.now) 0 files.now) }
{
    let marked = Marked::new(alloc, encoding, files, rows.len() > 0)?;
    let told = unchecked_of_marked(alloc, &marked, last, rows, notes)?;
    Ok(told)
}
