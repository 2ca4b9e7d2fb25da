//! What a row J2 may mean, in words.
ghost use Rattle.std.specs.Prelude.{◌≡◌, ◌++◌, ◌-◌, codes, decimal, map, take, IfOk};
ghost use Rattle.jn_notes.specs.Noted.{most_shown};
ghost use Rattle.jn_phase_notes.specs.Possible as spec;

use crate::candidates::{Candidate, How, candidates};
use crate::mentioning::Mention;
use crate::stops::one_note;
use crate::trees::between;
use itoa::{Buffer, Integer};
use jn_base::lists::put;
use jn_base::{OutOfMemory, Seq};
use jn_note_words::words::text_at;
use jn_note_words::{Note, Notes};
use jn_points::Program;
use jn_trees::Names;
use std::alloc::{AllocError, Global};

/// The greatest number of declarations that are shown of a row.
const MOST_SHOWN: usize = 8;

/// A number between two texts.
fn counted(alloc: Global, front: &str, count: usize, back: &str) -> Result<Vec<u8>, AllocError>
    ensures { IfOk result (λ words. words.items ≡ front.now ++ decimal count ++ back.now) }
{
    let mut words = Vec::from_slice(alloc, front.as_bytes())?;
    words.extend_from_slice(Buffer::new().format(count).as_bytes())?;
    words.extend_from_slice(back.as_bytes())?;
    Ok(words)
}

fn arguments_words(alloc: Global, count: usize) -> Result<Vec<u8>, AllocError>
    ensures { IfOk result (λ words. words.items ≡ spec.arguments_words count) }
{
    if count == 0 {
        Vec::from_slice(alloc, b"no arguments stand here, and ")
    } else if count == 1 {
        Vec::from_slice(alloc, b"1 argument stands here, and ")
    } else {
        counted(alloc, "", count, " arguments stand here, and ")
    }
}

fn takes_words(alloc: Global, count: usize) -> Result<Vec<u8>, AllocError>
    ensures { IfOk result (λ words. words.items ≡ spec.takes_words count) }
{
    if count == 0 {
        Vec::from_slice(alloc, b" takes no parameters, as declared at")
    } else if count == 1 {
        Vec::from_slice(alloc, b" takes 1 parameter, as declared at")
    } else {
        counted(alloc, " takes ", count, " parameters, as declared at")
    }
}

fn lead_words(alloc: Global, how: How, arguments: usize) -> Result<Vec<u8>, AllocError>
    ensures { IfOk result (λ words. words.items ≡ spec.lead_words how arguments) }
{
    match how {
        How::OtherArity => arguments_words(alloc, arguments),
        How::OtherMaker => arguments_words(alloc, arguments),
        _ => Ok(Vec::new(alloc)),
    }
}

/// A member by its name and its class's.
fn member_words(alloc: Global, name: &str, owner: &str) -> Result<Vec<u8>, AllocError>
    ensures { IfOk result (λ words. words.items
        ≡ codes "`" ++ name.now ++ codes "` of `" ++ owner.now ++ codes "`") }
{
    let mut words = between(alloc, "`", name, "` of `")?;
    words.extend_from_slice(owner.as_bytes())?;
    words.extend_from_slice(b"`")?;
    Ok(words)
}

fn subject_words(alloc: Global, how: How, name: &str, owner: &str) -> Result<Vec<u8>, AllocError>
    ensures { IfOk result (λ words. words.items ≡ spec.subject_words how name.now owner.now) }
{
    match how {
        How::OtherMaker => between(alloc, "the constructor of `", owner, "`"),
        How::AbstractClass => between(alloc, "`", name, "`"),
        How::InterfaceType => between(alloc, "`", name, "`"),
        _ => member_words(alloc, name, owner),
    }
}

fn tail_words(alloc: Global, how: How, params: usize) -> Result<Vec<u8>, AllocError>
    ensures { IfOk result (λ words. words.items ≡ spec.tail_words how params) }
{
    match how {
        How::OtherArity => takes_words(alloc, params),
        How::OtherMaker => takes_words(alloc, params),
        How::StaticMethod => {
            Vec::from_slice(alloc, b" takes as many and is static, as declared at")
        }
        How::AbstractMethod => {
            Vec::from_slice(alloc, b" takes as many and is abstract, as declared at")
        }
        How::ObjectMethod => {
            Vec::from_slice(alloc, b" takes as many and is not static, as declared at")
        }
        How::StaticField => Vec::from_slice(alloc, b" is static, as declared at"),
        How::ObjectField => Vec::from_slice(alloc, b" is not static, as declared at"),
        How::AbstractClass => Vec::from_slice(alloc, b" is abstract, as declared at"),
        How::InterfaceType => Vec::from_slice(alloc, b" is an interface, as declared at"),
    }
}

fn candidate_words(
    alloc: Global,
    names: &Names,
    arguments: usize,
    x: Candidate,
) -> Result<Vec<u8>, AllocError>
    ensures { IfOk result
        (λ words. words.items ≡ (spec.candidate_note names.now arguments x).words) }
{
    let mut words = lead_words(alloc, x.how, arguments)?;
    let subject = subject_words(
        alloc,
        x.how,
        text_at(names, x.name),
        text_at(names, x.owner),
    )?;
    words.extend_from_slice(subject.as_slice())?;
    let tail = tail_words(alloc, x.how, x.params)?;
    words.extend_from_slice(tail.as_slice())?;
    Ok(words)
}

/// A candidate in words, and where it is declared.
fn candidate_note(
    alloc: Global,
    names: &Names,
    arguments: usize,
    x: Candidate,
) -> Result<Note, AllocError>
    ensures { IfOk result (λ note. note ≡ spec.candidate_note names.now arguments x) }
{
    let words = candidate_words(alloc, names, arguments, x)?;
    let (joined, ends) = (false, false);
    Ok(Note {
        joined,
        ends,
        words: Seq::of_vec(words),
        span: x.span,
    })
}

/// As many as are shown.
fn first_shown(found: &[Candidate]) -> &[Candidate]
    ensures { result.now ≡ take most_shown found.now }
{
    if found.len() <= MOST_SHOWN {
        found
    } else {
        &found[..MOST_SHOWN]
    }
}

/// How many more there are.
fn more(count: usize) -> usize
    ensures { result ≡ count - most_shown }
{
    if count <= MOST_SHOWN {
        0
    } else {
        count - MOST_SHOWN
    }
}

/// Each in words.
fn notes_of_each(
    alloc: Global,
    names: &Names,
    arguments: usize,
    found: &[Candidate],
) -> Result<Vec<Note>, AllocError>
    ensures { IfOk result
        (λ notes. notes.items ≡ map (spec.candidate_note names.now arguments) found.now) }
{
    let mut notes = Vec::new(alloc);
    for x in found {
        let note = candidate_note(alloc, names, arguments, *x)?;
        put(&mut notes, note)?;
    }
    Ok(notes)
}

/// The first of them in words, and how many more there are.
fn candidate_notes(
    alloc: Global,
    names: &Names,
    arguments: usize,
    found: &[Candidate],
) -> Result<Notes, AllocError>
    ensures { IfOk result
        (λ notes. notes ≡ spec.candidate_notes names.now arguments found.now) }
{
    let shown = notes_of_each(alloc, names, arguments, first_shown(found))?;
    Ok(Notes {
        shown: Seq::of_vec(shown),
        more: more(found.len()),
    })
}

/// The notes of what is named at a place.
pub(crate) fn mention_notes(
    alloc: Global,
    names: &Names,
    program: &Program,
    mention: Option<Mention>,
) -> Result<Notes, OutOfMemory>
    ensures { IfOk result
        (λ notes. notes ≡ spec.mention_notes names.now program.now mention) }
{
    match mention {
        None => one_note(alloc, None),
        Some(named) => {
            let found = candidates(alloc, program, named)?;
            let notes = candidate_notes(alloc, names, named.arguments, found.as_slice())?;
            Ok(notes)
        }
    }
}
