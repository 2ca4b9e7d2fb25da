//! Folders in memory, which tell all and fail where they are told to.
ghost use Rattle.std.specs.Prelude.{◌≡◌, ◌≤◌, [], Some, IfOk, OnErr, option_map};
ghost use Rattle.jn_outside.specs.Causes.{Rose};
ghost use Rattle.jn_folder.specs.Listing.{CannotList, entries_at, real_at};
ghost use Rattle.jn_folder.specs.Listing as spec;

use crate::folder::Folder;
use crate::listed::{Entry, Kind, Listed, real_entries, with_listed};
use jn_base::{Fail, OutOfMemory, Text};
use jn_outside::{Failed, Told};
use std::alloc::{AllocError, Global};

/// Folders in memory. Of folders of one path the first counts; it is where its first entry of the kind `Real` says.
#[derive(Drop)]
pub struct MemFolder {
    folders: Vec<Listed>,
    /// The number, from 1, of the call that fails; 0 where none does.
    failing: u64,
    calls: u64,
    faults: u64,
    told: Told<Listed>,
}

impl MemFolder {
    /// Folders of which the call of this number fails, from 1; 0 where none does. A call for a path that isn't there fails, too.
    pub fn new(folders: Vec<Listed>, failing: u64) -> MemFolder
        ensures folders { result.folders ≡ folders }
        ensures failing { result.failing ≡ failing }
        ensures faults { result.faults ≡ 0 }
        ensures told { result.told.items ≡ [] }
    {
        MemFolder {
            folders,
            failing,
            calls: 0,
            faults: 0,
            told: Told::none(),
        }
    }

    /// The entries of the folder of this path, where it is there.
    fn find(&self, path: &str) -> Option<&[Entry]>
        ensures { option_map (λ entries. entries.now) result ≡ entries_at self.now.folders.items path.now }
    {
        found(self.folders.as_slice(), path)
    }
}

/// The entries of the first of these folders that has this path.
fn found<'a>(folders: &'a [Listed], path: &str) -> Option<&'a [Entry]>
    ensures { option_map (λ entries. entries.now) result ≡ entries_at folders.now path.now }
{
    for folder in folders {
        if folder.path.as_str() == path {
            return Some(folder.entries.as_slice());
        }
    }
    None
}

/// A copy of the entries.
fn copied(alloc: Global, entries: &[Entry]) -> Result<Vec<Entry>, AllocError>
    ensures { IfOk result (λ copy. copy.items ≡ entries.now) }
{
    let mut copy = Vec::new(alloc);
    for entry in entries {
        copy.push(entry.copy(alloc)?)?;
    }
    Ok(copy)
}

fn is_real(kind: Kind) -> bool
    ensures { result ≡ spec.is_real kind }
{
    match kind {
        Kind::Real => true,
        _ => false,
    }
}

/// Where the entries say that their folder really is.
fn real_in(alloc: Global, entries: &[Entry]) -> Result<Option<Text>, AllocError>
    ensures { IfOk result (λ real. real ≡ spec.real_in entries.now) }
{
    for entry in entries {
        if is_real(entry.kind) {
            return Ok(Some(entry.name.copy(alloc)?));
        }
    }
    Ok(None)
}

/// Where the first of these folders that has this path really is.
fn real_at(alloc: Global, folders: &[Listed], path: &str) -> Result<Option<Text>, AllocError>
    ensures { IfOk result (λ real. real ≡ spec.real_at folders.now path.now) }
{
    match found(folders, path) {
        None => Ok(None),
        Some(entries) => real_in(alloc, entries),
    }
}

impl Folder for MemFolder {
    ghost told = { λ s. s.told.items };

    ghost faults = { λ s. s.faults };

    fn entries(&mut self, alloc: Global, path: &str) -> Result<Vec<Entry>, Fail<Failed>>
        ensures listed { IfOk result
            (λ entries. self.new.told.items ≡ spec.with_listed self.old.told.items path.now entries.items) }
        ensures spared { OnErr result (self.new.told.items ≡ self.old.told.items) }
        ensures later { self.old.faults ≤ self.new.faults }
        ensures failed { CannotList result → Rose self.old.faults self.new.faults }
        ensures kept { (CannotList result → ⊥) → self.new.faults ≡ self.old.faults }
        ensures folders { self.new.folders ≡ self.old.folders }
        ensures held { IfOk result
            (λ entries. Some entries.items ≡ entries_at self.old.folders.items path.now) }
    {
        self.calls = self.calls.saturating_add(1);
        if self.calls == self.failing {
            self.faults = self.faults.saturating_add(1);
            return Err(Fail::Refused(Failed));
        }
        let Some(entries) = self.find(path) else {
            self.faults = self.faults.saturating_add(1);
            return Err(Fail::Refused(Failed));
        };
        match copied(alloc, entries) {
            Ok(entries) => {
                self.told = with_listed(&self.told, path, &entries);
                Ok(entries)
            }
            Err(_) => Err(Fail::OutOfMemory),
        }
    }

    fn real(&mut self, alloc: Global, path: &str) -> Result<Option<Text>, OutOfMemory>
        ensures said { IfOk result
            (λ real. self.new.told.items ≡ spec.with_real self.old.told.items path.now real) }
        ensures spared { OnErr result (self.new.told.items ≡ self.old.told.items) }
        ensures kept { self.new.faults ≡ self.old.faults }
        ensures folders { self.new.folders ≡ self.old.folders }
        ensures held { IfOk result (λ real. real ≡ real_at self.old.folders.items path.now) }
    {
        let real = real_at(alloc, self.folders.as_slice(), path)?;
        let entries = real_entries(alloc, &real)?;
        self.told = with_listed(&self.told, path, &entries);
        Ok(real)
    }
}
