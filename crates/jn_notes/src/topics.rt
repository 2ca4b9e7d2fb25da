//! The declarations that a row speaks of, and their words.
ghost use Rattle.std.specs.Prelude.{◌≡◌, ◌++◌, IfOk, OnOk, map};
ghost use Rattle.jn_sites.specs.Near.{AreNear};
ghost use Rattle.jn_notes.specs.Spoken as spec;

use crate::changes::overridden_of;
use crate::found::taker_at;
use crate::lefts::put_lefts;
use crate::pairs::{Part, part_of};
use crate::placed::Placed;
use crate::reads::{Sought, same_span, sought_of};
use jn_base::lists::put;
use jn_base::{OutOfMemory, Row, Seq, Span};
use jn_contrib::Overrider;
use jn_note_words::note::Note;
use jn_note_words::owners::Owner;
use jn_note_words::spans::owner_span;
use jn_note_words::words::{add, field_name, owner_words};
use jn_points::Program;
use jn_sigs::Sig;
use jn_trees::Names;
use std::alloc::{AllocError, Global};

/// A declaration that a row speaks of.
#[derive(Clone, Copy, Debug, PartialEq, Eq)]
pub enum Topic {
    /// What takes the row's value.
    Takes(Owner),
    /// What the method at the row overrides, and changes.
    Overridden(Owner),
    /// A field that the constructor at the row leaves unassigned, and the place of a return.
    Unassigned(u32, Span),
}

fn put_taker(topics: &mut Vec<Topic>, owner: Option<Owner>) -> Result<(), AllocError>
    ensures { OnOk result (topics.new.items ≡ topics.old.items ++ spec.takes_by owner) }
{
    match owner {
        None => Ok(()),
        Some(owner) => put(topics, Topic::Takes(owner)),
    }
}

/// What takes the value of a row.
fn put_takes(
    topics: &mut Vec<Topic>,
    placed: &Placed,
    sought: Option<Sought>,
) -> Result<(), AllocError>
    ensures { OnOk result (topics.new.items
        ≡ topics.old.items
        ++ spec.takes_of placed.now.basis.program.now placed.now.basis.sig.now sought
        placed.now.basis.tables.now) }
{
    match sought {
        None => Ok(()),
        Some(sought) => put_taker(topics, taker_at(sought, placed)),
    }
}

fn put_owner(topics: &mut Vec<Topic>, owner: Option<Owner>) -> Result<(), AllocError>
    ensures { OnOk result (topics.new.items ≡ topics.old.items ++ spec.overridden_by owner) }
{
    match owner {
        None => Ok(()),
        Some(owner) => put(topics, Topic::Overridden(owner)),
    }
}

/// What is overridden by the method at a row.
fn put_overridden(
    topics: &mut Vec<Topic>,
    program: &Program,
    sig: &Sig,
    overriders: &[Overrider],
    span: Span,
    part: Option<Part>,
) -> Result<(), AllocError>
    requires overriders { AreNear program.now span overriders.now }
    ensures { OnOk result (topics.new.items
        ≡ topics.old.items ++ spec.overrides_of program.now sig.now span part) }
{
    match part {
        None => Ok(()),
        Some(part) => put_owner(topics, overridden_of(sig, span, part, program, overriders)),
    }
}

/// The declarations that a row speaks of.
///
/// # Errors
/// No memory was found.
pub(crate) fn topics_of(
    alloc: Global,
    placed: &Placed,
    overriders: &[Overrider],
    row: Row,
) -> Result<Vec<Topic>, OutOfMemory>
    requires overriders { AreNear placed.now.basis.program.now row.span overriders.now }
    ensures { IfOk result (λ topics. topics.items
        ≡ spec.topics_of placed.now.basis.program.now placed.now.basis.sig.now row
        placed.now.basis.tables.now) }
{
    let basis = placed.basis;
    let mut topics = Vec::new(alloc);
    put_takes(&mut topics, placed, sought_of(row))?;
    put_overridden(
        &mut topics,
        basis.program,
        basis.sig,
        overriders,
        row.span,
        part_of(row.code),
    )?;
    put_lefts(&mut topics, alloc, &basis, row.span, row.code)?;
    Ok(topics)
}

fn left_words(span: Span, end: Span) -> &'static str
    ensures { result.now ≡ spec.left_words span end }
{
    if same_span(end, span) {
        "` is left unassigned at the end of the constructor at"
    } else {
        "` is left unassigned by the return at"
    }
}

/// What has a slot, between two texts.
fn owned_words(
    alloc: Global,
    program: &Program,
    names: &Names,
    front: &str,
    owner: Owner,
) -> Result<Vec<u8>, AllocError>
    ensures { IfOk result (λ words. words.items
        ≡ spec.owned_words program.now names.now front.now owner) }
{
    let owner = owner_words(alloc, program, names, Some(owner))?;
    let mut words = Vec::from_slice(alloc, front.as_bytes())?;
    words.extend_from_slice(&owner)?;
    add(&mut words, ", as declared at")?;
    Ok(words)
}

fn field_words(
    alloc: Global,
    program: &Program,
    names: &Names,
    span: Span,
    field: u32,
    end: Span,
) -> Result<Vec<u8>, AllocError>
    ensures { IfOk result (λ words. words.items
        ≡ spec.unassigned_words program.now names.now span field end) }
{
    let mut words = Vec::from_slice(alloc, b"the field `")?;
    add(&mut words, field_name(program, names, field))?;
    add(&mut words, left_words(span, end))?;
    Ok(words)
}

/// What a row at the span speaks of, in words.
fn topic_words(
    alloc: Global,
    program: &Program,
    names: &Names,
    span: Span,
    topic: Topic,
) -> Result<Vec<u8>, AllocError>
    ensures { IfOk result (λ words. words.items
        ≡ spec.topic_words program.now names.now span topic) }
{
    match topic {
        Topic::Takes(owner) => owned_words(alloc, program, names, "it goes to ", owner),
        Topic::Overridden(owner) => owned_words(alloc, program, names, "it overrides ", owner),
        Topic::Unassigned(field, end) => field_words(alloc, program, names, span, field, end),
    }
}

fn topic_span(program: &Program, topic: Topic) -> Span
    ensures { result ≡ spec.topic_span program.now topic }
{
    match topic {
        Topic::Takes(owner) => owner_span(program, Some(owner)),
        Topic::Overridden(owner) => owner_span(program, Some(owner)),
        Topic::Unassigned(_, end) => end,
    }
}

/// The note of what a row at the span speaks of.
fn topic_note(
    alloc: Global,
    program: &Program,
    names: &Names,
    span: Span,
    topic: Topic,
) -> Result<Note, AllocError>
    ensures { IfOk result (λ note. note ≡ spec.topic_note program.now names.now span topic) }
{
    let words = topic_words(alloc, program, names, span, topic)?;
    Ok(Note {
        joined: false,
        ends: false,
        words: Seq::of_vec(words),
        span: topic_span(program, topic),
    })
}

/// The notes of these declarations, of which a row at the span speaks.
///
/// # Errors
/// No memory was found.
pub(crate) fn topic_notes(
    alloc: Global,
    program: &Program,
    names: &Names,
    span: Span,
    topics: &[Topic],
) -> Result<Vec<Note>, AllocError>
    ensures { IfOk result (λ notes. notes.items
        ≡ map (spec.topic_note program.now names.now span) topics.now) }
{
    let mut notes = Vec::new(alloc);
    for topic in topics {
        let note = topic_note(alloc, program, names, span, *topic)?;
        put(&mut notes, note)?;
    }
    Ok(notes)
}
