//! The files of a session as a set: each has a name of its own.
ghost use Rattle.std.specs.Prelude.{◌≡◌, ◌≢◌, ◌≤◌, ◌↔◌, [], None, OnErr, OnOk, length, true};
ghost use Rattle.jn_recheck.specs.Files.{AllFit, HaveOwnNames, place_of, with_file, without_file};

use crate::files::{copy_files, remove_file, set_file};
use jn_base::OutOfMemory;
use jn_front::SourceFile;
use std::alloc::Global;
use std::marker::Model;

/// Files of which no two have one name, and none more than 1,048,577 bytes, in the order in which their names came. Contracts see the list.
#[derive(Drop)]
pub struct FileSet {
    items: Vec<SourceFile>,
}

impl Model for FileSet {
    ghost use Rattle.std.specs.Prelude.{List};
    ghost use Rattle.jn_front.specs.declared.source.SourceFile.{SourceFile as FileOf};
    ghost use Rattle.jn_recheck.specs.Files.{AllFit, HaveOwnNames};

    ghost Value = { List FileOf };

    ghost view = { λ s. s.items.items };

    ghost invariant = { λ s. AllFit s.items.items × HaveOwnNames s.items.items };
}

impl FileSet {
    /// No files.
    pub(crate) fn new(alloc: Global) -> FileSet
        ensures { result ≡ [] }
    {
        FileSet {
            items: Vec::new(alloc),
        }
    }

    /// These files.
    pub fn of(items: Vec<SourceFile>) -> FileSet
        requires fit { AllFit items.items }
        requires distinct { HaveOwnNames items.items }
        ensures { result ≡ items.items }
    {
        FileSet { items }
    }

    /// The files, no longer as a set.
    pub fn into_vec(self) -> Vec<SourceFile>
        ensures { result.items ≡ self }
    {
        self.items
    }

    /// The files.
    pub fn as_slice(&self) -> &[SourceFile]
        ensures are { result.now ≡ self.now }
        ensures fit { AllFit result.now }
        ensures distinct { HaveOwnNames result.now }
    {
        self.items.as_slice()
    }

    /// Gives a known name its new text in its place, and puts a new name last. On want of memory the files are as before.
    pub(crate) fn set(&mut self, alloc: Global, name: &str, text: &[u8]) -> Result<(), OutOfMemory>
        requires { length text.now ≤ 1048577 }
        ensures set { OnOk result (self.new ≡ with_file name.now text.now self.old) }
        ensures unchanged { OnErr result (self.new ≡ self.old) }
    {
        set_file(alloc, &mut self.items, name, text)
    }

    /// Removes the file of this name, where it is there.
    pub(crate) fn remove(&mut self, name: &str) -> bool
        ensures removed { self.new ≡ without_file name.now self.old }
        ensures there { (result ≡ true) ↔ (place_of name.now self.old ≢ None) }
    {
        remove_file(&mut self.items, name)
    }

    /// Has copies of these files in place of all that were there. On want of memory the files are as before.
    pub(crate) fn replace(&mut self, alloc: Global, files: &FileSet) -> Result<(), OutOfMemory>
        ensures are { OnOk result (self.new ≡ files.now) }
        ensures unchanged { OnErr result (self.new ≡ self.old) }
    {
        self.items = copy_files(alloc, files.as_slice())?;
        Ok(())
    }
}
