//! From files to what is shown at a position of one of them.
ghost use Rattle.std.specs.Prelude.{◌≡◌, IfOk, Some, filter, option_map};
ghost use Rattle.jn_recheck.specs.Files.{is_named, place_of};
ghost use Rattle.jn_lsp_hover.specs.Declarations as there;
ghost use Rattle.jn_lsp_hover.specs.Hovered as spec;
ghost use Rattle.jn_lsp_hover.specs.Spots.{IsNarrowestOf, is_there, spots_of};
ghost use Rattle.jn_lsp_hover.specs.Values.{qual_of as qual_there};

use crate::declared::{Declared, declared_at};
use crate::search::narrowest;
use crate::sought::Sought;
use crate::spot::Spot;
use crate::values::qual_of;
use crate::words::{qual_words, slot_words};
use jn_base::{Infer, OutOfMemory, Seq, SlotNo, Span};
use jn_front::SourceFile;
use jn_heads::ClassHead;
use jn_heads::extract::heads;
use jn_lsp_solved::related::all_related;
use jn_lsp_solved::texts::text_at;
use jn_lsp_solved::{Solved, Traced, find_solved};
use jn_lsp_text::{Encoding, Hover, Position, SmallText, offset_of, range_of};
use jn_note_words::Note;
use jn_quals::Qual;
use jn_recheck::FileSet;
use jn_sharing::{Gate, Workers};
use std::alloc::Global;
use std::thread::Threads;

/// What is asked for: a position of the file of a name.
#[derive(Clone, Copy)]
struct Asked<'a> {
    name: &'a str,
    position: Position,
}

// ---- what stands at a byte

fn value_hover(
    alloc: Global,
    encoding: Encoding,
    text: &SmallText,
    span: Span,
    qual: Qual,
) -> Result<Hover, OutOfMemory>
    ensures { IfOk result (λ hover. hover ≡ spec.value_hover encoding text.now span qual) }
{
    Ok(Hover {
        range: range_of(encoding, text.bytes(), span.from, span.to),
        words: qual_words(alloc, qual)?,
        related: Seq::new(alloc),
    })
}

/// What a value may be.
fn qual_at(alloc: Global, solved: &Solved, spot: Spot) -> Result<Option<Qual>, OutOfMemory>
    ensures { IfOk result (λ qual. qual
        ≡ qual_there solved.now.program solved.now.sig solved.now.tables spot) }
{
    let parts = solved.parts();
    qual_of(alloc, parts.program, parts.sig, parts.tables, spot)
}

fn of_spot(
    alloc: Global,
    solved: &Solved,
    text: &SmallText,
    spot: Spot,
) -> Result<Option<Hover>, OutOfMemory>
    ensures { IfOk result (λ hover. hover
        ≡ option_map (spec.value_hover solved.now.encoding text.now spot.span)
        (qual_there solved.now.program solved.now.sig solved.now.tables spot)) }
{
    let encoding = solved.parts().encoding;
    match qual_at(alloc, solved, spot)? {
        None => Ok(None),
        Some(qual) => Ok(Some(value_hover(alloc, encoding, text, spot.span, qual)?)),
    }
}

/// What is shown of a slot, whose name stands at the span, with these notes.
fn slot_hover(
    alloc: Global,
    solved: &Solved,
    text: &SmallText,
    span: Span,
    slot: SlotNo,
    notes: &[Note],
) -> Result<Hover, OutOfMemory>
    ensures { IfOk result (λ hover. hover
        ≡ spec.slot_hover solved.now.encoding solved.now.files solved.now.names solved.now.program
        solved.now.sig solved.now.tables text.now span slot.0 notes.now) }
{
    let parts = solved.parts();
    Ok(Hover {
        range: range_of(parts.encoding, text.bytes(), span.from, span.to),
        words: slot_words(
            alloc,
            parts.program,
            parts.names,
            parts.owners,
            slot.0,
            parts.sig.get(slot),
        )?,
        related: all_related(alloc, parts.encoding, parts.files, notes)?,
    })
}

fn of_slot(
    alloc: Global,
    solved: &Solved,
    text: &SmallText,
    span: Span,
    slot: SlotNo,
) -> Result<Option<Hover>, OutOfMemory>
    ensures { IfOk result (λ hover.
        spec.IsOfSlot solved.now.encoding solved.now.files solved.now.names solved.now.program
        solved.now.sig solved.now.tables text.now span (Some slot) hover) }
{
    let traced = Traced::new(alloc, solved)?;
    let notes = traced.reasons_of(alloc, slot.0)?;
    let hover = slot_hover(alloc, solved, text, span, slot, &notes)?;
    Ok(Some(hover))
}

fn of_declared(
    alloc: Global,
    solved: &Solved,
    text: &SmallText,
    declared: Option<Declared>,
) -> Result<Option<Hover>, OutOfMemory>
    ensures { IfOk result (λ hover.
        spec.IsOfDeclared solved.now.encoding solved.now.files solved.now.names solved.now.program
        solved.now.sig solved.now.tables text.now declared hover) }
{
    match declared {
        None => Ok(None),
        Some(one) => match one.slot {
            None => Ok(None),
            Some(slot) => of_slot(alloc, solved, text, one.span, slot),
        },
    }
}

/// The narrowest value at a byte.
fn spot_at(solved: &Solved, file: usize, text: &[u8], offset: usize) -> Option<Spot>
    ensures { IsNarrowestOf
        (filter (is_there solved.now.program file text.now offset) (spots_of solved.now.program)) result }
{
    let parts = solved.parts();
    narrowest(&Sought {
        program: parts.program,
        file,
        text,
        offset,
    })
}

/// The declaration whose name has a byte.
fn declaration_at(
    solved: &Solved,
    heads: &[ClassHead],
    file: usize,
    offset: usize,
) -> Option<Declared>
    ensures { result ≡ there.declared_at file offset (there.declared_in heads.now solved.now.program) }
{
    let parts = solved.parts();
    declared_at(file, offset, heads, parts.program)
}

fn at_byte(
    alloc: Global,
    solved: &Solved,
    heads: &[ClassHead],
    file: usize,
    text: &SmallText,
    offset: usize,
) -> Result<Option<Hover>, OutOfMemory>
    ensures { IfOk result (λ hover.
        spec.IsAtByte solved.now.encoding solved.now.files solved.now.names solved.now.program
        solved.now.sig solved.now.tables heads.now file text.now offset hover) }
{
    match spot_at(solved, file, text.bytes(), offset) {
        None => {
            let declared = declaration_at(solved, heads, file, offset);
            of_declared(alloc, solved, text, declared)
        }
        Some(spot) => of_spot(alloc, solved, text, spot),
    }
}

// ---- what stands at a position

fn is_named(file: &SourceFile, name: &str) -> bool
    ensures { result ≡ is_named name.now file.now }
{
    file.name.as_str() == name
}

/// Where the file of a name stands.
#[tactic(auto, using(jn_recheck::proofs::Going::place_found, jn_recheck::proofs::Going::place_later))]
fn place_of(files: &[SourceFile], name: &str) -> Option<usize>
    ensures { result ≡ place_of name.now files.now }
{
    for at in 0..files.len() {
        if is_named(&files[at], name) {
            return Some(at);
        }
    }
    None
}

fn at_place(
    alloc: Global,
    solved: &Solved,
    heads: &[ClassHead],
    position: Position,
    place: Option<usize>,
) -> Result<Option<Hover>, OutOfMemory>
    ensures { IfOk result (λ hover.
        spec.IsAtPlace solved.now.encoding solved.now.files solved.now.names solved.now.program
        solved.now.sig solved.now.tables heads.now position place hover) }
{
    match place {
        None => Ok(None),
        Some(file) => {
            let parts = solved.parts();
            let text = text_at(parts.files, file);
            let offset = offset_of(parts.encoding, text.bytes(), position);
            at_byte(alloc, solved, heads, file, &text, offset)
        }
    }
}

// ---- of files

/// Of solved files.
fn of_solved(alloc: Global, solved: &Solved, asked: &Asked) -> Result<Option<Hover>, OutOfMemory>
    ensures { IfOk result (λ hover.
        spec.IsHover solved.now.infer solved.now.encoding solved.now.files asked.now.name.now asked.now.position hover) }
{
    solved.facts();
    let parts = solved.parts();
    let heads = heads(alloc, parts.trees)?;
    let place = place_of(parts.files.as_slice(), asked.name);
    let hover = at_place(alloc, solved, heads.as_slice(), asked.position, place)?;
    Ok(hover)
}

/// What is shown at a position of the file of a name, among files whose program is inferred anew by so many workers, where these members are
/// inferred, and positions count in this unit. A worker enters the gate when it takes a file, or infers.
///
/// Of all texts that a point reads or makes, the narrowest one at the position counts, the first of these by body and point: it is told whether the
/// value may be null there, and whether it may be under construction. Where there is no such text, but the name of a field, a method or a parameter
/// that is declared there, it is told what its slot has, whether that is inferred, and the notes of the first chain of each bit
/// ([`jn_notes::explain::notes_from`]). A method's name has the slot of what it gives.
///
/// Nothing is shown of values that are no references, or that no run comes to, nor where the files are refused before their rules. Whether the rules
/// are kept doesn't matter.
///
/// # Errors
/// No memory was found.
pub fn hover_for<R: Threads + Sync, G: Gate + Sync>(
    rt: &R,
    gate: &G,
    alloc: Global,
    workers: Workers,
    infer: Infer,
    encoding: Encoding,
    files: &FileSet,
    name: &str,
    position: Position,
) -> Result<Option<Hover>, OutOfMemory>
    ensures { IfOk result (λ hover. spec.IsHover infer encoding files.now name.now position hover) }
{
    match find_solved(rt, gate, alloc, workers, infer, encoding, files)? {
        None => Ok(None),
        Some(solved) => of_solved(alloc, &solved, &Asked { name, position }),
    }
}
