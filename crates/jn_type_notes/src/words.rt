//! What is said of an operand whose type doesn't fit.
ghost use Rattle.std.specs.Prelude.{◌≡◌, ◌++◌, codes, map, IfOk, OnOk};
ghost use Rattle.jn_points.specs.Lookup.{class_info};
ghost use Rattle.jn_type_notes.specs.Wording as spec;

use crate::mismatch::Mismatch;
use jn_base::lists::put;
use jn_base::{ClassNo, Seq};
use jn_basecheck::Want;
use jn_note_words::Note;
use jn_note_words::words::text_at;
use jn_points::lookup::class_info;
use jn_points::{BaseType, Elem, Program};
use jn_trees::Names;
use std::alloc::{AllocError, Global};

fn class_words<'a>(names: &'a Names, program: &Program, class: ClassNo) -> &'a str
    ensures { result.now
        ≡ spec.class_words names.entry.now (class_info program.entry.now class.0) }
{
    match class_info(program, class) {
        None => "",
        Some(info) => text_at(names, info.name),
    }
}

fn elem_words<'a>(names: &'a Names, program: &Program, elem: Elem) -> &'a str
    ensures { result.now ≡ spec.elem_words names.entry.now program.entry.now elem }
{
    match elem {
        Elem::Int => "int",
        Elem::Bool => "boolean",
        Elem::Ref(class) => class_words(names, program, class),
    }
}

/// The words of a type but an array's brackets.
fn front_words<'a>(names: &'a Names, program: &Program, base: BaseType) -> &'a str
    ensures { result.now ≡ spec.front_words names.entry.now program.entry.now base }
{
    match base {
        BaseType::Int => "int",
        BaseType::Bool => "boolean",
        BaseType::Void => "void",
        BaseType::Null => "null",
        BaseType::Ref(class) => class_words(names, program, class),
        BaseType::Array(elem, _) => elem_words(names, program, elem),
    }
}

fn back_words(base: BaseType) -> &'static str
    ensures { result.now ≡ spec.back_words base }
{
    match base {
        BaseType::Array(_, _) => "[]",
        _ => "",
    }
}

/// A type as a word of code.
#[tactic(auto, unfolding(crate::specs::Wording::quoted))]
fn quoted(
    alloc: Global,
    names: &Names,
    program: &Program,
    base: BaseType,
) -> Result<Vec<u8>, AllocError>
    ensures { IfOk result (λ words. words.items ≡ spec.quoted names.now program.now base) }
{
    let mut words = Vec::from_slice(alloc, b"`")?;
    words.extend_from_slice(front_words(names, program, base).as_bytes())?;
    words.extend_from_slice(back_words(base).as_bytes())?;
    words.extend_from_slice(b"`")?;
    Ok(words)
}

fn want_words(
    alloc: Global,
    names: &Names,
    program: &Program,
    want: Want,
) -> Result<Vec<u8>, AllocError>
    ensures { IfOk result (λ words. words.items ≡ spec.want_words names.now program.now want) }
{
    match want {
        Want::Within(base) => quoted(alloc, names, program, base),
        Want::Same(base) => quoted(alloc, names, program, base),
        Want::Primitive => Vec::from_slice(alloc, b"an `int` or a `boolean`"),
        Want::Reference => Vec::from_slice(alloc, b"an object or an array"),
        Want::Elements => Vec::from_slice(alloc, b"an array"),
        Want::Joinable => Vec::from_slice(alloc, b"a `String`, an `int`, a `boolean` or `null`"),
        Want::Printable => Vec::from_slice(alloc, b"a `String`, an `int` or a `boolean`"),
        Want::Valued => Vec::from_slice(alloc, b"a value"),
    }
}

fn mismatch_words(
    alloc: Global,
    names: &Names,
    program: &Program,
    mismatch: Mismatch,
) -> Result<Vec<u8>, AllocError>
    ensures { IfOk result
        (λ words. words.items ≡ (spec.mismatch_note names.now program.now mismatch).words) }
{
    let mut words = quoted(alloc, names, program, mismatch.found)?;
    words.extend_from_slice(b" is found where ")?;
    let wanted = want_words(alloc, names, program, mismatch.want)?;
    words.extend_from_slice(wanted.as_slice())?;
    words.extend_from_slice(b" is wanted at")?;
    Ok(words)
}

fn mismatch_note(
    alloc: Global,
    names: &Names,
    program: &Program,
    mismatch: Mismatch,
) -> Result<Note, AllocError>
    ensures { IfOk result (λ note. note ≡ spec.mismatch_note names.now program.now mismatch) }
{
    let words = mismatch_words(alloc, names, program, mismatch)?;
    let (joined, ends) = (false, false);
    Ok(Note {
        joined,
        ends,
        words: Seq::of_vec(words),
        span: mismatch.span,
    })
}

/// Each in words.
///
/// # Errors
/// No memory was found.
pub(crate) fn notes_of_each(
    alloc: Global,
    names: &Names,
    program: &Program,
    mismatches: &[Mismatch],
) -> Result<Vec<Note>, AllocError>
    ensures { IfOk result
        (λ notes. notes.items ≡ map (spec.mismatch_note names.now program.now) mismatches.now) }
{
    let mut notes = Vec::new(alloc);
    for mismatch in mismatches {
        let note = mismatch_note(alloc, names, program, *mismatch)?;
        put(&mut notes, note)?;
    }
    Ok(notes)
}
