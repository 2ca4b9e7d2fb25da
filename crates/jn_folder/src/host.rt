//! The folders of the host. They tell what their calls listed; what a folder holds no call can tell.
ghost use Rattle.std.specs.Prelude.{◌≡◌, []};

use crate::folder::Folder;
use crate::listed::{Entry, Kind, Listed, real_entries, with_listed};
use jn_base::{Fail, OutOfMemory, Text};
use jn_outside::{Failed, Told};
use std::alloc::Global;
use std::fs::{DirEntry, FileType, ReadDir};
use std::io::ErrorKind;
use std::{fs, io, rt};

/// The folders of the host. Its count of faults rises where a folder can't be listed.
#[derive(Drop)]
pub struct HostFolder<'a, R: rt::Files> {
    rt: &'a R,
    faults: u64,
    told: Told<Listed>,
}

impl<'a, R: rt::Files> HostFolder<'a, R> {
    /// Folders with no fault counted, of which none was listed.
    pub fn new(rt: &'a R) -> HostFolder<'a, R>
        ensures faults { result.faults ≡ 0 }
        ensures told { result.told.items ≡ [] }
    {
        HostFolder {
            rt,
            faults: 0,
            told: Told::none(),
        }
    }
}

/// What stands under an entry; a link isn't followed.
fn kind_of(about: FileType) -> Kind {
    if about.is_dir() {
        Kind::Folder
    } else if about.is_file() {
        Kind::File
    } else {
        Kind::Other
    }
}

/// The entry as it is; one that is gone by now stands as something else than a file or a folder.
fn entry_of<R: rt::Files>(alloc: Global, entry: &DirEntry<R>) -> io::Result<Entry> {
    let name = Text::of_str(alloc, entry.file_name())?;
    let kind = match entry.file_type() {
        Ok(about) => kind_of(about),
        Err(_) => Kind::Other,
    };
    Ok(Entry { name, kind })
}

/// An entry whose name is no text.
fn unnamed(alloc: Global) -> io::Result<Entry> {
    let name = Text::of_str(alloc, "")?;
    Ok(Entry {
        name,
        kind: Kind::Unnamed,
    })
}

/// Reads the entries to their end.
fn read_entries<R: rt::Files + Clone + Drop>(
    alloc: Global,
    listing: ReadDir<R>,
) -> io::Result<Vec<Entry>> {
    let mut entries = Vec::new(alloc);
    for entry in listing {
        match entry {
            Ok(entry) => entries.push(entry_of(alloc, &entry)?)?,
            Err(reason) if reason.kind() == ErrorKind::InvalidFilename => {
                entries.push(unnamed(alloc)?)?;
            }
            Err(reason) => return Err(reason),
        }
    }
    Ok(entries)
}

/// The entries of the host's folder of this path.
fn entries_of<R: rt::Files + AllocGlobal + Clone + Drop>(
    rt: &R,
    alloc: Global,
    path: &str,
) -> io::Result<Vec<Entry>> {
    read_entries(alloc, fs::read_dir(rt, path)?)
}

/// The whole path of the host's folder of this path, without links.
fn real_of<R: rt::Files + AllocGlobal>(rt: &R, alloc: Global, path: &str) -> io::Result<Text> {
    let real = fs::canonicalize(rt, path)?;
    Ok(Text::of_str(alloc, real.as_str())?)
}

impl<'a, R: rt::Files + AllocGlobal + Clone + Drop> Folder for HostFolder<'a, R> {
    ghost told = { λ s. s.told.items };

    ghost faults = { λ s. s.faults };

    fn entries(&mut self, alloc: Global, path: &str) -> Result<Vec<Entry>, Fail<Failed>> {
        match entries_of(self.rt, alloc, path) {
            Ok(entries) => {
                self.told = with_listed(&self.told, path, &entries);
                Ok(entries)
            }
            Err(reason) if reason.kind() == ErrorKind::OutOfMemory => Err(Fail::OutOfMemory),
            Err(_) => {
                self.faults = self.faults.saturating_add(1);
                Err(Fail::Refused(Failed))
            }
        }
    }

    fn real(&mut self, alloc: Global, path: &str) -> Result<Option<Text>, OutOfMemory> {
        let real = match real_of(self.rt, alloc, path) {
            Ok(real) => Some(real),
            Err(reason) if reason.kind() == ErrorKind::OutOfMemory => return Err(OutOfMemory),
            Err(_) => None,
        };
        let entries = real_entries(alloc, &real)?;
        self.told = with_listed(&self.told, path, &entries);
        Ok(real)
    }
}
