//! The notes of a test or an assignment that something made void.
ghost use Rattle.std.specs.Prelude.{◌≡◌, ◌<◌, [], length, IfOk, None, Some, slice_index_or};
ghost use Rattle.jn_points.specs.Lookup.{method_in, static_of};
ghost use Rattle.jn_voided.specs.Voided.{IsFound};
ghost use Rattle.jn_note_words.specs.declared.leaving.ReadAt.{ReadAt};
ghost use Rattle.jn_notes.specs.Voids as spec;
ghost use Rattle.jn_note_words.specs.Worded.{point_span};

use jn_base::lists::put;
use jn_base::{BodyNo, FieldNo, OutOfMemory, PointNo, RegNo, Seq};
use jn_env::FieldKey;
use jn_note_words::leaving::ReadAt;
use jn_note_words::note::Note;
use jn_note_words::spans::point_span;
use jn_note_words::words::{add, ended_words, field_name, how_made};
use jn_points::Program;
use jn_points::lookup::method_in;
use jn_trees::Names;
use jn_voided::{Voided, Voids, next_voided};
use std::alloc::{AllocError, Global};

/// Whether the object is the body's own.
fn is_this(program: &Program, read: ReadAt) -> bool
    ensures { result ≡ spec.is_this program.now read }
{
    read.object == 0 && !is_static(program, read.body)
}

fn is_static(program: &Program, body: u32) -> bool
    ensures { result ≡ static_of (method_in program.now body) }
{
    match method_in(program, body as usize) {
        None => true,
        Some(info) => info.is_static,
    }
}

fn front_words(program: &Program, read: ReadAt) -> &'static str
    ensures { result.now ≡ spec.front_words program.now read }
{
    if is_this(program, read) {
        "`this."
    } else {
        "the field `"
    }
}

/// Where it was tested or assigned.
fn made_words(
    alloc: Global,
    program: &Program,
    names: &Names,
    read: ReadAt,
    made: PointNo,
) -> Result<Vec<u8>, AllocError>
    ensures { IfOk result
        (λ words. words.items ≡ spec.made_words program.now names.now read made.0) }
{
    let mut words = Vec::from_slice(alloc, front_words(program, read).as_bytes())?;
    add(&mut words, field_name(program, names, read.field))?;
    add(&mut words, how_made(program, read.body, made.0))?;
    Ok(words)
}

fn made_note(
    alloc: Global,
    program: &Program,
    names: &Names,
    read: ReadAt,
    made: PointNo,
) -> Result<Note, AllocError>
    ensures { IfOk result (λ note. note ≡ spec.made_note program.now names.now read made.0) }
{
    let words = made_words(alloc, program, names, read, made)?;
    Ok(Note {
        joined: false,
        ends: false,
        words: Seq::of_vec(words),
        span: point_span(program, read.body, made.0),
    })
}

fn ended_note(
    alloc: Global,
    program: &Program,
    read: ReadAt,
    ended: PointNo,
) -> Result<Note, AllocError>
    ensures { IfOk result (λ note. note ≡ spec.ended_note program.now read ended.0) }
{
    let words = ended_words(program, read.body, ended.0);
    Ok(Note {
        joined: true,
        ends: false,
        words: Seq::of_vec(Vec::from_slice(alloc, words.as_bytes())?),
        span: point_span(program, read.body, ended.0),
    })
}

/// The notes of a pair.
fn pair_notes(
    alloc: Global,
    program: &Program,
    names: &Names,
    read: ReadAt,
    pair: Voided,
) -> Result<Vec<Note>, AllocError>
    ensures { IfOk result
        (λ notes. notes.items ≡ spec.void_notes program.now names.now read (Some pair)) }
{
    let mut notes = Vec::new(alloc);
    put(
        &mut notes,
        made_note(alloc, program, names, read, pair.made)?,
    )?;
    put(&mut notes, ended_note(alloc, program, read, pair.ended)?)?;
    Ok(notes)
}

/// The notes of what was found.
fn void_notes(
    alloc: Global,
    program: &Program,
    names: &Names,
    read: ReadAt,
    found: Option<Voided>,
) -> Result<Vec<Note>, AllocError>
    ensures { IfOk result
        (λ notes. notes.items ≡ spec.void_notes program.now names.now read found) }
{
    match found {
        None => Ok(Vec::new(alloc)),
        Some(pair) => pair_notes(alloc, program, names, read, pair),
    }
}

/// The first pair of a test of the field, or an assignment to it, and what made it void before the read.
fn find_voided(
    alloc: Global,
    voids: &mut Voids,
    read: ReadAt,
) -> Result<Option<Voided>, OutOfMemory>
    requires { read.body < length voids.old.program.bodies }
    ensures same { voids.new ≡ voids.old }
    ensures found { IfOk result (λ found. IsFound voids.old.program voids.old.sig read.body
        (slice_index_or voids.old.tables read.body []) (spec.key_of read) read.point found) }
{
    let body = BodyNo(read.body);
    let key = FieldKey::new(RegNo(read.object), FieldNo(read.field));
    let found = next_voided(alloc, voids, body, key, PointNo(read.point))?;
    Ok(found)
}

/// The notes of a read.
fn voids_of(
    alloc: Global,
    names: &Names,
    voids: &mut Voids,
    read: ReadAt,
) -> Result<Vec<Note>, OutOfMemory>
    requires { read.body < length voids.old.program.bodies }
    ensures same { voids.new ≡ voids.old }
    ensures notes { IfOk result (λ notes.
        spec.AreVoids voids.old.program names.now voids.old.sig voids.old.tables (Some read)
        notes.items) }
{
    let found = find_voided(alloc, voids, read)?;
    let notes = void_notes(alloc, voids.program(), names, read, found)?;
    Ok(notes)
}

/// The notes of what made a test or an assignment void, before the read of a field by which the steps of a chain leave its first registers; none where
/// there is no such read, or nothing made it known there that the field isn't null.
///
/// # Errors
/// No memory was found.
pub(crate) fn find_voids(
    alloc: Global,
    names: &Names,
    voids: &mut Voids,
    read: Option<ReadAt>,
) -> Result<Vec<Note>, OutOfMemory>
    requires { (x : ReadAt) → read ≡ Some x → x.body < length voids.old.program.bodies }
    ensures same { voids.new ≡ voids.old }
    ensures notes { IfOk result (λ notes.
        spec.AreVoids voids.old.program names.now voids.old.sig voids.old.tables read notes.items) }
{
    match read {
        None => Ok(Vec::new(alloc)),
        Some(read) => voids_of(alloc, names, voids, read),
    }
}
