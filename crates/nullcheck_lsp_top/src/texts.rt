//! Files that are read.
ghost use Rattle.std.specs.Prelude.{◌≡◌, ◌+◌, ◌∷◌, [], IfOk, OnOk, map, option_map, take};
ghost use Rattle.jn_front.specs.Files.{file_limit};
ghost use Rattle.jn_lsp.specs.Stand.{spaces};
ghost use Rattle.jn_outside.specs.Gave.{GivesLittle};
ghost use Rattle.nullcheck_lsp_top.specs.Reading.{AreRead, AreTaken, IsText, ReadsFirst, ReadsMore, is_many, nameless_text, names_taken, source};

use crate::warning::MOST;
use jn_base::{Fail, OutOfMemory, Seq, Text};
use jn_front::SourceFile;
use jn_outside::{Files, ReadFail, read_whole};
use std::alloc::{AllocError, Global};

/// The greatest number of bytes of a file that is checked.
const LIMIT: u32 = 1_048_576;

/// So many spaces.
fn spaces_of(alloc: Global, count: usize) -> Result<Vec<u8>, AllocError>
    ensures { IfOk result (λ text. text.items ≡ spaces count) }
{
    Ok(vec![in alloc; b' '; count]?)
}

/// The text of the file of this name: of one that is too large spaces, one more than a file may have, so that its row is that of the limit.
/// None where the file can't be read.
fn text_of<F: Files>(
    alloc: Global,
    files: &mut F,
    name: &str,
) -> Result<Option<Vec<u8>>, OutOfMemory>
    ensures held { F.held files.new ≡ F.held files.old }
    ensures read { IfOk result (λ text. IsText (F.held files.old) name.now
        (source (F.gave files.old) (F.faults files.old))
        (source (F.gave files.new) (F.faults files.new)) (option_map (λ bytes. bytes.items) text)) }
    ensures little { GivesLittle name.now (file_limit + 1) (F.gave files.old) (F.gave files.new) }
{
    match read_whole(alloc, files, name, LIMIT) {
        Ok(text) => Ok(Some(text)),
        Err(Fail::Refused(ReadFail::TooLarge)) => Ok(Some(spaces_of(alloc, 1_048_577)?)),
        Err(Fail::Refused(ReadFail::Failed)) => Ok(None),
        Err(Fail::OutOfMemory) => Err(OutOfMemory),
    }
}

/// What was read: the files, and the names of those that can't be read.
#[derive(Drop)]
pub struct Reads {
    pub files: Seq<SourceFile>,
    pub lost: Seq<Text>,
}

/// Reads the file of this name, and puts it after the others.
fn read_one<F: Files>(
    alloc: Global,
    files: &mut F,
    name: &Text,
    reads: &mut Reads,
) -> Result<(), OutOfMemory>
    ensures held { F.held files.new ≡ F.held files.old }
    ensures reads { OnOk result (ReadsMore (F.held files.old) (name.now ∷ [])
        (source (F.gave files.old) (F.faults files.old))
        (source (F.gave files.new) (F.faults files.new))
        reads.old.files reads.new.files reads.old.lost reads.new.lost) }
    ensures little { GivesLittle name.now (file_limit + 1) (F.gave files.old) (F.gave files.new) }
{
    let copy = name.copy(alloc)?;
    match text_of(alloc, files, name.as_str())? {
        Some(text) => reads.files.push(SourceFile {
            name: copy,
            bytes: Seq::of_vec(text),
        })?,
        None => reads.lost.push(copy)?,
    }
    Ok(())
}

/// Reads the files of these names, one after the other.
fn read_files<F: Files>(alloc: Global, files: &mut F, names: &[Text]) -> Result<Reads, OutOfMemory>
    ensures held { F.held files.new ≡ F.held files.old }
    ensures read { IfOk result (λ reads. AreRead (F.held files.old) names.now
        (source (F.gave files.old) (F.faults files.old))
        (source (F.gave files.new) (F.faults files.new)) reads.files reads.lost) }
    ensures first { ReadsFirst (F.held files.old) names.now
        (source (F.gave files.old) (F.faults files.old)) (F.gave files.new) }
{
    let mut reads = Reads {
        files: Seq::new(alloc),
        lost: Seq::new(alloc),
    };
    for name in names {
        read_one(alloc, files, name, &mut reads)?;
    }
    Ok(reads)
}

/// Files of these names without texts.
fn without_texts(alloc: Global, names: &[Text]) -> Result<Seq<SourceFile>, AllocError>
    ensures { IfOk result (λ files. files ≡ map nameless_text names.now) }
{
    let mut files = Seq::new(alloc);
    for name in names {
        files.push(SourceFile {
            name: name.copy(alloc)?,
            bytes: Seq::new(alloc),
        })?;
    }
    Ok(files)
}

/// Whether there are more names than files that are checked.
pub(crate) fn is_many(names: &[Text]) -> bool
    ensures { result ≡ is_many names.now }
{
    names.len() > MOST
}

/// The first 65 names.
fn first_names(names: &[Text]) -> &[Text]
    ensures { result.now ≡ take 65 names.now }
{
    &names[..names.len().min(65)]
}

/// The files of these names: where they are too many none is read, and the first 65 stand without their texts.
#[tactic(auto, using(crate::proofs::Starting::reads_none, crate::proofs::Starting::reads_taken))]
pub(crate) fn take_files<F: Files>(
    alloc: Global,
    files: &mut F,
    many: bool,
    names: &[Text],
) -> Result<Reads, OutOfMemory>
    ensures held { F.held files.new ≡ F.held files.old }
    ensures taken { IfOk result (λ reads. AreTaken (F.held files.old) many names.now
        (source (F.gave files.old) (F.faults files.old))
        (source (F.gave files.new) (F.faults files.new)) reads.files reads.lost) }
    ensures first { ReadsFirst (F.held files.old) (names_taken many names.now)
        (source (F.gave files.old) (F.faults files.old)) (F.gave files.new) }
{
    if many {
        return Ok(Reads {
            files: without_texts(alloc, first_names(names))?,
            lost: Seq::new(alloc),
        });
    }
    read_files(alloc, files, names)
}
