//! Places in files that were read, asked for in no order.
ghost use Rattle.std.specs.Prelude.{◌≡◌, ◌≤◌, All, Some, IfOk, length};
ghost use Rattle.jn_base.specs.Place.{place_in};
ghost use Rattle.jn_command.specs.Shown.{note_of_file};
ghost use Rattle.jn_diag.specs.Sweep.{IsPosition};

use jn_base::{FileNo, OutOfMemory, Place, Seq, Span, Text};
use jn_diag::{Position, place_behind};
use jn_front::SourceRead;
use jn_reporters::ShownNote;
use std::alloc::Global;
use std::marker::Model;

/// How many bytes stand between two marks.
const STEP: u32 = 1024;

/// A file that was read, with a position for each so many bytes, so that a place costs a short sweep from the one before it, wherever it
/// stands. Contracts see what was read.
#[derive(Drop)]
pub(crate) struct MarkedFile<'a> {
    read: &'a SourceRead,
    marks: Vec<Position>,
}

impl<'a> Model for MarkedFile<'a> {
    ghost use Rattle.std.specs.Prelude.{All, ◌≤◌, length};
    ghost use Rattle.jn_diag.specs.Sweep.{IsPosition};
    ghost use Rattle.jn_front.specs.declared.source.SourceRead.{SourceRead};

    ghost Value = { SourceRead };

    ghost view = { λ a. a.read.now };

    ghost invariant = { λ a. (length a.read.now.file.bytes ≤ 1048576) × All (IsPosition a.read.now.file.bytes) a.marks.items };
}

/// A position for each so many bytes of the text.
fn marks_of(alloc: Global, text: &[u8]) -> Result<Vec<Position>, OutOfMemory>
    requires { length text.now ≤ 1048576 }
    ensures { IfOk result (λ marks. All (IsPosition text.now) marks.items) }
{
    let mut marks = Vec::new(alloc);
    let mut position = Position::start();
    let mut at = 0;
    while at as usize <= text.len() {
        go_to(text, &mut position, at);
        if marks.push(position).is_err() {
            return Err(OutOfMemory);
        }
        at += STEP;
    }
    Ok(marks)
}

/// The position goes to this byte.
fn go_to(text: &[u8], position: &mut Position, at: u32)
    requires small { length text.now ≤ 1048576 }
    requires within { at ≤ length text.now }
    requires is { IsPosition text.now position.old }
    ensures { IsPosition text.now position.new }
{
    let _place = place_behind(
        text,
        position,
        &Span {
            file: FileNo(0),
            from: at,
            to: at,
        },
    );
}

/// The mark of this number, or the beginning of the text, of which only the clauses speak.
fn mark_at(text: &[u8], marks: &[Position], number: usize) -> Position
    requires { All (IsPosition text.now) marks.now }
    ensures { IsPosition text.now result }
{
    let _text = text;
    if number < marks.len() {
        marks[number]
    } else {
        Position::start()
    }
}

/// The place of the first byte of `at`, swept to from the mark before it.
fn place_from(text: &[u8], marks: &[Position], at: &Span) -> Place
    requires small { length text.now ≤ 1048576 }
    requires within { at.now.from ≤ length text.now }
    requires marks { All (IsPosition text.now) marks.now }
    ensures { result ≡ place_in text.now at.now }
{
    let mut position = mark_at(text, marks, (at.from / STEP) as usize);
    place_behind(text, &mut position, at)
}

impl<'a> MarkedFile<'a> {
    pub(crate) fn new(alloc: Global, read: &'a SourceRead) -> Result<MarkedFile<'a>, OutOfMemory>
        ensures { IfOk result (λ file. file ≡ read.now) }
    {
        let marks = marks_of(alloc, read.file.bytes.as_slice())?;
        Ok(MarkedFile { read, marks })
    }

    /// The note that tells these words of a place in the file, at its first byte, whether it goes on with the one before it, and whether a chain of
    /// causes ends there.
    pub(crate) fn note(
        &self,
        alloc: Global,
        joined: bool,
        ends: bool,
        words: &[u8],
        span: &Span,
    ) -> Result<ShownNote, OutOfMemory>
        ensures { IfOk result
            (λ note. note ≡ note_of_file (Some self.now.file) joined ends words.now span.now) }
    {
        let text = self.read.file.bytes.as_slice();
        let at = Span {
            file: span.file,
            from: span.from.min(text.len() as u32),
            to: span.to,
        };
        let place = place_from(text, &self.marks, &at);
        Ok(ShownNote {
            text: Seq::of_vec(Vec::from_slice(alloc, words)?),
            name: Text::of_str(alloc, self.read.file.name.as_str())?,
            line: place.line,
            col: place.col,
            joined,
            ends,
        })
    }
}

/// The files, each with its marks.
pub(crate) fn marked<'a>(
    alloc: Global,
    reads: &'a [SourceRead],
) -> Result<Vec<MarkedFile<'a>>, OutOfMemory>
    ensures { IfOk result (λ files. files.items ≡ reads.now) }
{
    let mut files = Vec::new(alloc);
    for read in reads {
        let file = MarkedFile::new(alloc, read)?;
        if files.push(file).is_err() {
            return Err(OutOfMemory);
        }
    }
    Ok(files)
}
