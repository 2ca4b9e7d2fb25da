//! What a folder lists.
ghost use Rattle.std.specs.Prelude.{◌≡◌, IfOk};
ghost use Rattle.jn_folder.specs.Listing as spec;

use jn_base::{Seq, Text};
use jn_outside::{Tells, Told};
use std::alloc::{AllocError, Global};

/// What stands under a name.
#[derive(Clone, Copy, Debug, PartialEq, Eq)]
pub enum Kind {
    /// A file with bytes.
    File,
    /// A folder.
    Folder,
    /// Something else, as a link, which isn't followed.
    Other,
    /// Something whose name is no text. The entry has an empty name.
    Unnamed,
    /// The folder itself, where it really is: the entry's name is its whole path without links.
    Real,
}

/// A name in a folder, and what stands under it.
#[derive(Drop)]
pub struct Entry {
    /// The name within the folder.
    pub name: Text,
    pub kind: Kind,
}

impl Entry {
    pub fn copy(&self, alloc: Global) -> Result<Entry, AllocError>
        ensures { IfOk result (λ entry. entry ≡ self.now) }
    {
        Ok(Entry {
            name: self.name.copy(alloc)?,
            kind: self.kind,
        })
    }
}

/// A folder's path, and the entries that it listed.
#[derive(Drop)]
pub struct Listed {
    pub path: Text,
    pub entries: Seq<Entry>,
}

/// What was listed, and a folder that is listed now.
#[derive(Drop)]
struct Behind<'a> {
    before: &'a Told<Listed>,
    path: &'a str,
    entries: &'a [Entry],
}

/// The entry by which a folder says where it really is; none where that can't be said.
pub fn real_entries(alloc: Global, real: &Option<Text>) -> Result<Vec<Entry>, AllocError>
    ensures { IfOk result (λ entries. entries.items ≡ spec.real_entries real.now) }
{
    let mut entries = Vec::new(alloc);
    if let Some(real) = real {
        entries.push(Entry {
            name: real.copy(alloc)?,
            kind: Kind::Real,
        })?;
    }
    Ok(entries)
}

struct List;

impl<'a> Tells<Behind<'a>, Listed> for List {
    ghost use Rattle.jn_folder.specs.Listing.{with_listed};

    ghost told = { λ x. with_listed x.before.now.items x.path.now x.entries.now };
}

/// What was listed when this folder is, too.
pub fn with_listed(before: &Told<Listed>, path: &str, entries: &[Entry]) -> Told<Listed>
    ensures { result.items ≡ spec.with_listed before.now.items path.now entries.now }
{
    Told::of::<Behind<'_>, List>(&Behind {
        before,
        path,
        entries,
    })
}
