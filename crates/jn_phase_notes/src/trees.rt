//! The notes of rows of files that have trees: beside a row of the class table or a second local, the other declaration of which it
//! speaks; beside a member that isn't there, those of its name; beside a form that isn't of the subset, its cause; beside a type
//! that doesn't fit, it and the one that is wanted.
ghost use Rattle.std.specs.Prelude.{◌≡◌, ◌<◌, ◌++◌, map, option_map, IfOk};
ghost use Rattle.jn_places.specs.PlacedView.{placed_file};
ghost use Rattle.jn_heads.specs.Extract as extract;
ghost use Rattle.jn_classtable.specs.Built.{SmallTable};
ghost use Rattle.jn_classtable.specs.Table.{table};
ghost use Rattle.jn_note_words.specs.Worded.{text_at};
ghost use Rattle.jn_phase_notes.specs.Others as others;
ghost use Rattle.jn_phase_notes.specs.Stops.{one_note};
ghost use Rattle.jn_phase_notes.specs.Trees as spec;

use crate::candidates::mention_at;
use crate::members::{clashing, hidden, lacking};
use crate::mentioning::Mention;
use crate::naming::mentions_of;
use crate::places::{first_class, first_field, first_method, first_param_of};
use crate::refused::cause_notes;
use crate::repeated::{Second, seconds_of};
use crate::saying::mention_notes;
use crate::stops::one_note;
use crate::typed::{notes_at, some_typed, types_if};
use jn_base::lists::put;
use jn_base::{Code, FileNo, NameNo, OutOfMemory, Row, Seq, Span};
use jn_classtable::counting::is_small;
use jn_classtable::table::table;
use jn_heads::declarations::Declarations;
use jn_heads::extract::heads;
use jn_heads::head::ClassHead;
use jn_index::index::Index;
use jn_index::indexed::IndexedProgram;
use jn_note_words::words::text_at;
use jn_note_words::{Note, Notes};
use jn_notes::reads::same_span;
use jn_points::Program;
use jn_refused_notes::{Refusal, refusals_of};
use jn_trees::{FileTree, Identifier, Names};
use std::alloc::{AllocError, Global};
use std::thread::Threads;

/// What is read off trees: the second locals, the members that are named, what may not be of the subset, and the notes of types that don't fit.
#[derive(Drop)]
pub struct Gathered {
    pub seconds: Seq<Second>,
    pub mentions: Seq<Mention>,
    pub refusals: Seq<Refusal>,
    pub types: Seq<Note>,
}

/// Reads it off trees; types are looked at where that is wanted.
fn gather<R: Threads + Sync>(
    rt: &R,
    alloc: Global,
    names: &Names,
    trees: &[FileTree],
    typed: bool,
) -> Result<Gathered, OutOfMemory>
    ensures { IfOk result
        (λ gathered. gathered ≡ spec.gathered typed names.now (map placed_file trees.now)) }
{
    let types = types_if(rt, alloc, names, trees, typed)?;
    let seconds = seconds_of(alloc, trees)?;
    let mentions = mentions_of(alloc, trees)?;
    let refusals = refusals_of(alloc, trees)?;
    Ok(Gathered {
        seconds,
        mentions,
        refusals,
        types,
    })
}

/// T1: of a class, a field or a parameter.
fn first_named(heads: &[ClassHead], program: &Program, span: Span) -> Option<Identifier>
    ensures { result ≡ others.first_named heads.now program.now span }
{
    let class = first_class(program, span);
    if class.is_some() {
        return class;
    }
    let field = first_field(program, span);
    if field.is_some() {
        return field;
    }
    first_param_of(heads, span)
}

fn other_by(
    alloc: Global,
    heads: &[ClassHead],
    program: &IndexedProgram,
    span: Span,
    code: Code,
) -> Result<Option<Identifier>, AllocError>
    ensures { IfOk result
        (λ other. other ≡ others.other_by heads.now program.now span code) }
{
    match code {
        Code::T1 => Ok(first_named(heads, program.program(), span)),
        Code::T4 => Ok(first_method(program.program(), span)),
        Code::T5 => clashing(alloc, program, span),
        Code::T6 => Ok(lacking(program, span)),
        Code::T7 => Ok(hidden(program, span)),
        _ => Ok(None),
    }
}

/// A declaration that stands in a file, and elsewhere than the row.
fn elsewhere(span: Span, other: Option<Identifier>) -> Option<Identifier>
    ensures { result ≡ others.elsewhere span other }
{
    let other = other?;
    let nowhere = Span {
        file: FileNo(0),
        from: 0,
        to: 0,
    };
    if same_span(other.span, span) || same_span(other.span, nowhere) {
        None
    } else {
        Some(other)
    }
}

fn words_before(code: Code) -> &'static str
    ensures { result.now ≡ spec.words_before code }
{
    match code {
        Code::T5 => "it doesn't agree with `",
        Code::T7 => "it hides the field `",
        _ => "`",
    }
}

fn words_behind(code: Code) -> &'static str
    ensures { result.now ≡ spec.words_behind code }
{
    match code {
        Code::T1 => "` is first declared at",
        Code::J1 => "` is first declared at",
        Code::T4 => "` with as many parameters is first declared at",
        Code::T6 => "` has no body, as declared at",
        _ => "`, as declared at",
    }
}

/// A text, a name and a text.
pub(crate) fn between(
    alloc: Global,
    front: &str,
    name: &str,
    back: &str,
) -> Result<Vec<u8>, AllocError>
    ensures { IfOk result (λ words. words.items ≡ front.now ++ name.now ++ back.now) }
{
    let mut words = Vec::from_slice(alloc, front.as_bytes())?;
    words.extend_from_slice(name.as_bytes())?;
    words.extend_from_slice(back.as_bytes())?;
    Ok(words)
}

fn other_words(
    alloc: Global,
    names: &Names,
    code: Code,
    name: NameNo,
) -> Result<Vec<u8>, AllocError>
    ensures { IfOk result (λ words. words.items
        ≡ spec.words_before code ++ text_at names.now name.0 ++ spec.words_behind code) }
{
    between(
        alloc,
        words_before(code),
        text_at(names, name),
        words_behind(code),
    )
}

/// The other declaration in words, and where it stands.
fn other_note(
    alloc: Global,
    names: &Names,
    code: Code,
    other: Identifier,
) -> Result<Note, AllocError>
    ensures { IfOk result (λ note. note ≡ spec.other_note names.now code other) }
{
    let words = other_words(alloc, names, code, other.name)?;
    let (joined, ends) = (false, false);
    Ok(Note {
        joined,
        ends,
        words: Seq::of_vec(words),
        span: other.span,
    })
}

/// The note of the other declaration, where there is one.
fn notes_of_other(
    alloc: Global,
    names: &Names,
    code: Code,
    other: Option<Identifier>,
) -> Result<Notes, OutOfMemory>
    ensures { IfOk result
        (λ notes. notes ≡ one_note (option_map (spec.other_note names.now code) other)) }
{
    match other {
        None => one_note(alloc, None),
        Some(other) => {
            let note = other_note(alloc, names, code, other)?;
            one_note(alloc, Some(note))
        }
    }
}

/// The local or parameter that stands where one of its name is declared at a place.
fn first_local(seconds: &[Second], span: Span) -> Option<Identifier>
    ensures { result ≡ spec.first_local seconds.now span }
{
    for second in seconds {
        if same_span(second.span, span) {
            return Some(second.first);
        }
    }
    None
}

/// The notes of a row, by what is declared and named.
fn notes_of_row(
    alloc: Global,
    names: &Names,
    heads: &[ClassHead],
    program: &IndexedProgram,
    gathered: &Gathered,
    row: Row,
) -> Result<Notes, OutOfMemory>
    ensures { IfOk result (λ notes. notes
        ≡ spec.notes_by names.now heads.now program.now gathered.now row.span row.code) }
{
    match row.code {
        Code::J1 => {
            let first = first_local(gathered.seconds.as_slice(), row.span);
            notes_of_other(alloc, names, Code::J1, first)
        }
        Code::J2 => {
            let named = mention_at(gathered.mentions.as_slice(), row.span);
            mention_notes(alloc, names, program.program(), named)
        }
        Code::J5 => cause_notes(alloc, gathered.refusals.as_slice(), row.span),
        Code::J7 => notes_at(alloc, gathered.types.as_slice(), row.span),
        _ => {
            let found = other_by(alloc, heads, program, row.span, row.code)?;
            notes_of_other(alloc, names, row.code, elsewhere(row.span, found))
        }
    }
}

/// The notes of rows, by what is declared and named.
fn notes_of_rows(
    alloc: Global,
    names: &Names,
    heads: &[ClassHead],
    program: &IndexedProgram,
    gathered: &Gathered,
    rows: &[Row],
) -> Result<Vec<Notes>, OutOfMemory>
    ensures { IfOk result (λ notes. notes.items
        ≡ map (λ row. spec.notes_by names.now heads.now program.now gathered.now row.span row.code)
        rows.now) }
{
    let mut list = Vec::new(alloc);
    for row in rows {
        let notes = notes_of_row(alloc, names, heads, program, gathered, *row)?;
        put(&mut list, notes)?;
    }
    Ok(list)
}

/// The notes of rows of small heads.
#[tactic(auto, using(crate::proofs::Tables::table_is_small))]
fn notes_of_declared(
    alloc: Global,
    names: &Names,
    declared: &Declarations,
    gathered: &Gathered,
    rows: &[Row],
) -> Result<Vec<Notes>, OutOfMemory>
    requires { SmallTable declared.now }
    ensures { IfOk result (λ notes. notes.items
        ≡ map (λ row. spec.notes_by names.now declared.now (table declared.now) gathered.now
        row.span row.code) rows.now) }
{
    let program = table(alloc, declared)?;
    let index = Index::new(alloc, &program)?;
    let program = IndexedProgram::of(program, index);
    let heads = declared.heads();
    notes_of_rows(alloc, names, heads, &program, gathered, rows)
}

/// The notes of rows of files that have these trees and names, row by row. Where a row is J7, workers lower the files to their program.
///
/// # Errors
/// No memory was found, or numbers of 32 bits aren't enough for what is declared; the class table has no rows then.
pub fn notes_of_trees<R: Threads + Sync>(
    rt: &R,
    alloc: Global,
    names: &Names,
    trees: &[FileTree],
    rows: &[Row],
) -> Result<Vec<Notes>, OutOfMemory>
    ensures { IfOk result (λ notes. notes.items
        ≡ map (spec.row_notes names.now (map placed_file trees.now)) rows.now) }
{
    let heads = heads(alloc, trees)?;
    if !is_small(heads.as_slice()) {
        return Err(OutOfMemory);
    }
    let declared = Declarations::new(alloc, heads)?;
    let typed = some_typed(rows);
    let gathered = gather(rt, alloc, names, trees, typed)?;
    notes_of_declared(alloc, names, &declared, &gathered, rows)
}
