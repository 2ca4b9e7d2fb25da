//! What is kept of the files whose texts stayed.
ghost use Rattle.std.specs.Prelude.{◌≡◌, ◌<◌, ℕ, true, false, None, Some, length, get_or, slice_get, IfOk};
ghost use Rattle.jn_front.specs.declared.source.SourceFile.{SourceFile as FileOf};
ghost use Rattle.jn_front.specs.Files.{files_of_reads};
ghost use Rattle.jn_kept_trees.specs.declared.kept.KeptTree.{KeptTree as KeptTreeOf};
ghost use Rattle.jn_kept_trees.specs.KeptTrees.{AreKeptTrees, IsKeptOrNone, StayKept};
ghost use Rattle.jn_kept_trees.specs.Staying.{WereKept};

use crate::kept::KeptTree;
use jn_base::OutOfMemory;
use jn_base::lists::put;
use jn_front::{SourceFile, SourceRead};
use std::alloc::Global;

fn are_same_bytes(one: &[u8], other: &[u8]) -> bool
    ensures same { result ≡ true → one.now ≡ other.now }
    ensures apart { result ≡ false → one.now ≡ other.now → ⊥ }
{
    one == other
}

/// Whether the file at this place had this file's text.
fn had_text(last: &[SourceFile], at: usize, file: &SourceFile) -> bool
    ensures had { result ≡ true
        → (old : FileOf) × (slice_get last.now at ≡ Some old) × (old.bytes ≡ file.now.bytes) }
    ensures other { result ≡ false
        → (old : FileOf) → slice_get last.now at ≡ Some old → old.bytes ≡ file.now.bytes → ⊥ }
{
    if at < last.len() {
        are_same_bytes(last[at].bytes.as_slice(), file.bytes.as_slice())
    } else {
        false
    }
}

/// Takes out what is kept at this place.
fn take_at(trees: &mut Vec<Option<KeptTree>>, at: usize) -> Option<KeptTree>
    ensures taken { result ≡ get_or trees.old.items at None }
    ensures others { (n : ℕ) → at < n → get_or trees.new.items n None ≡ get_or trees.old.items n None }
{
    if at < trees.len() {
        trees[at].take()
    } else {
        None
    }
}

/// What is kept of the file at this place, where its text stayed.
fn still_kept_at(
    trees: &mut Vec<Option<KeptTree>>,
    last: &[SourceFile],
    read: &SourceRead,
    at: usize,
) -> Option<KeptTree>
    requires { (file : FileOf) → slice_get last.now at ≡ Some file
        → IsKeptOrNone at file (get_or trees.old.items at None) }
    ensures kept { IsKeptOrNone at read.now.file result }
    ensures stays { (old : FileOf) → slice_get last.now at ≡ Some old
        → old.bytes ≡ read.now.file.bytes → result ≡ get_or trees.old.items at None }
    ensures before { (one : KeptTreeOf) → result ≡ Some one
        → get_or trees.old.items at None ≡ Some one }
    ensures others { (n : ℕ) → at < n → get_or trees.new.items n None ≡ get_or trees.old.items n None }
{
    if had_text(last, at, &read.file) {
        take_at(trees, at)
    } else {
        None
    }
}

/// What is kept of the files, of which these were read, where each of them has the text that the file at its place had.
///
/// # Errors
/// No memory was found.
pub fn still_kept(
    alloc: Global,
    trees: Vec<Option<KeptTree>>,
    last: &[SourceFile],
    reads: &[SourceRead],
) -> Result<Vec<Option<KeptTree>>, OutOfMemory>
    requires { AreKeptTrees last.now trees.items }
    ensures long { IfOk result (λ kept. length kept.items ≡ length reads.now) }
    ensures kept { IfOk result (λ kept. AreKeptTrees (files_of_reads reads.now) kept.items) }
    ensures stay { IfOk result
        (λ kept. StayKept last.now trees.items (files_of_reads reads.now) kept.items) }
    ensures before { IfOk result (λ kept. WereKept trees.items kept.items) }
{
    let mut trees = trees;
    let mut kept = Vec::new(alloc);
    for at in 0..reads.len() {
        let one = still_kept_at(&mut trees, last, &reads[at], at);
        put(&mut kept, one)?;
    }
    Ok(kept)
}
