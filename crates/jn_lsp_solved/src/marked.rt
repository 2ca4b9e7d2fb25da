//! Files among which many places are asked for.
ghost use Rattle.std.specs.Prelude.{◌≡◌, IfOk, slice_index_or};
ghost use Rattle.jn_lsp_solved.specs.Marking.{AreMarks};
ghost use Rattle.jn_lsp_solved.specs.Related.{no_file};
ghost use Rattle.jn_lsp_text.specs.Ranges.{range_at};

use crate::texts::text_at;
use jn_base::OutOfMemory;
use jn_base::lists::put;
use jn_front::SourceFile;
use jn_lsp_text::{Encoding, Marks, Range, range_of};
use jn_recheck::FileSet;
use std::alloc::Global;
use std::marker::Model;

/// Files, each with the marks of its text, and the encoding in whose units positions count: so a range costs a short count, wherever it stands.
/// Contracts see the files and the encoding.
#[derive(Drop)]
pub struct Marked<'a> {
    encoding: Encoding,
    files: &'a FileSet,
    marks: Vec<Marks<'a>>,
}

impl<'a> Model for Marked<'a> {
    ghost use Rattle.jn_lsp_solved.specs.Marking.{AreMarks, CountedFiles};

    ghost Value = { CountedFiles };

    ghost view = { λ m. record { encoding = m.encoding; files = m.files.now } };

    ghost invariant = { λ m. AreMarks m.encoding m.files.now m.marks.items };
}

/// The marks of each file.
#[tactic(auto, using(crate::proofs::Marking::mark_more, crate::proofs::Marking::are_marks))]
fn marks_of<'a>(
    alloc: Global,
    encoding: Encoding,
    files: &'a FileSet,
) -> Result<Vec<Marks<'a>>, OutOfMemory>
    ensures { IfOk result (λ marks. AreMarks encoding files.now marks.items) }
{
    let mut marks = Vec::new(alloc);
    for file in files.as_slice() {
        put(
            &mut marks,
            Marks::new(alloc, encoding, file.bytes.as_slice())?,
        )?;
    }
    Ok(marks)
}

/// The marks of each file; none where few places are asked for.
#[tactic(auto, using(crate::proofs::Marking::no_marks))]
fn marks_for<'a>(
    alloc: Global,
    encoding: Encoding,
    files: &'a FileSet,
    many: bool,
) -> Result<Vec<Marks<'a>>, OutOfMemory>
    ensures { IfOk result (λ marks. AreMarks encoding files.now marks.items) }
{
    if many {
        marks_of(alloc, encoding, files)
    } else {
        Ok(Vec::new(alloc))
    }
}

impl<'a> Marked<'a> {
    /// Files among which places are asked for. Where they aren't many, no marks are made, since these cost a sweep over all texts.
    ///
    /// # Errors
    /// No memory was found.
    pub fn new(
        alloc: Global,
        encoding: Encoding,
        files: &'a FileSet,
        many: bool,
    ) -> Result<Marked<'a>, OutOfMemory>
        ensures { IfOk result (λ marked. marked ≡ record { encoding = encoding; files = files.now }) }
    {
        let marks = marks_for(alloc, encoding, files, many)?;
        Ok(Marked {
            encoding,
            files,
            marks,
        })
    }

    /// The files.
    pub fn files(&self) -> &'a [SourceFile]
        ensures { result.now ≡ self.now.files }
    {
        self.files.as_slice()
    }

    /// The files as a set.
    pub fn file_set(&self) -> &'a FileSet
        ensures { result.now ≡ self.now.files }
    {
        self.files
    }

    /// The encoding.
    pub fn encoding(&self) -> Encoding
        ensures { result ≡ self.now.encoding }
    {
        self.encoding
    }

    /// The range of bytes in the file of this number, counted from its begin.
    fn counted(&self, file: usize, from: u32, to: u32) -> Range
        ensures { result ≡ range_at self.now.encoding (slice_index_or self.now.files file no_file).bytes from to }
    {
        range_of(self.encoding, text_at(self.files, file).bytes(), from, to)
    }

    /// The range of the bytes from `from` up to, and without, `to`, in the file of this number; where there is no such file, that of an empty text.
    pub fn range(&self, file: usize, from: u32, to: u32) -> Range
        ensures { result ≡ range_at self.now.encoding (slice_index_or self.now.files file no_file).bytes from to }
    {
        match self.marks.get(file) {
            None => self.counted(file, from, to),
            Some(marks) => marks.range(from, to),
        }
    }
}
