//! The files that change.
ghost use Rattle.std.specs.Prelude.{◌≡◌, ◌++◌, bytes_eq, IfOk};
ghost use Rattle.jn_front.specs.Files.{files_of_reads};
ghost use Rattle.nullcheck_annotate_top.specs.Changes as spec;

use jn_base::lists::put;
use jn_base::{OutOfMemory, Seq, Text};
use jn_diff::file_diff;
use jn_front::{SourceFile, SourceRead};
use jn_targets::Replaced;
use std::alloc::{AllocError, Global};

/// A file that changes.
#[derive(Drop)]
pub struct Change {
    pub name: Text,
    /// Its text as it was read.
    pub old: Seq<u8>,
    pub new: Seq<u8>,
}

/// Whether the bytes are the same.
fn are_same(old: &[u8], new: &[u8]) -> bool
    ensures { result ≡ bytes_eq old.now new.now }
{
    old == new
}

/// The file with its new text.
fn changed_file(alloc: Global, file: &SourceFile, new: &Seq<u8>) -> Result<Change, AllocError>
    ensures { IfOk result
        (λ c. c ≡ record { name = file.now.name; old = file.now.bytes; new = new.now }) }
{
    Ok(Change {
        name: file.name.copy(alloc)?,
        old: file.bytes.copy(alloc)?,
        new: new.copy(alloc)?,
    })
}

/// Puts the file after the others, where its new text is another one.
fn put_change(
    alloc: Global,
    changes: &mut Vec<Change>,
    file: &SourceFile,
    new: &Seq<u8>,
) -> Result<(), AllocError>
    ensures { IfOk result
        (λ u. changes.new.items ≡ changes.old.items ++ spec.change_if file.now new.now) }
{
    if are_same(file.bytes.as_slice(), new.as_slice()) {
        return Ok(());
    }
    put(changes, changed_file(alloc, file, new)?)
}

/// The files that were read whose new text is another one, in their order.
#[tactic(auto, using(crate::proofs::Changing::next_change))]
pub(crate) fn changes(
    alloc: Global,
    reads: &[SourceRead],
    texts: &[Seq<u8>],
) -> Result<Vec<Change>, AllocError>
    ensures { IfOk result
        (λ cs. cs.items ≡ spec.changes (files_of_reads reads.now) texts.now) }
{
    let mut changes = Vec::new(alloc);
    let mut texts = texts;
    for read in reads {
        match texts {
            [] => return Ok(changes),
            [text, more @ ..] => {
                put_change(alloc, &mut changes, &read.file, text)?;
                texts = more;
            }
        }
    }
    Ok(changes)
}

/// Puts the diff of a file after those of others.
fn put_diff(alloc: Global, text: &mut Vec<u8>, change: &Change) -> Result<(), OutOfMemory>
    ensures { IfOk result
        (λ u. text.new.items ≡ text.old.items ++ spec.change_diff change.now) }
{
    let diff = file_diff(
        alloc,
        change.name.as_str(),
        change.old.as_slice(),
        change.new.as_slice(),
    )?;
    text.extend_from_slice(&diff)?;
    Ok(())
}

/// The unified diff of all files that change.
pub(crate) fn diffs(alloc: Global, changes: &[Change]) -> Result<Vec<u8>, OutOfMemory>
    ensures { IfOk result (λ text. text.items ≡ spec.diffs changes.now) }
{
    let mut text = Vec::new(alloc);
    for change in changes {
        put_diff(alloc, &mut text, change)?;
    }
    Ok(text)
}

fn replaced_by(alloc: Global, change: &Change) -> Result<Replaced, AllocError>
    ensures { IfOk result (λ r. r ≡ spec.replaced_by change.now) }
{
    Ok(Replaced {
        name: change.name.copy(alloc)?,
        bytes: change.new.copy(alloc)?,
    })
}

/// The files as they are replaced.
pub(crate) fn replacements(alloc: Global, changes: &[Change]) -> Result<Vec<Replaced>, AllocError>
    ensures { IfOk result (λ rs. rs.items ≡ spec.replacements changes.now) }
{
    let mut files = Vec::new(alloc);
    for change in changes {
        put(&mut files, replaced_by(alloc, change)?)?;
    }
    Ok(files)
}
