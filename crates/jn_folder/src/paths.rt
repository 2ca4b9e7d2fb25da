//! Names in folders, and their paths.
ghost use Rattle.std.specs.Prelude.{◌≡◌, ◌++◌, [], codes, eqb, IfOk, OnOk};
ghost use Rattle.std.specs.List.{ends_with};
ghost use Rattle.jn_folder.specs.Listing as spec;

use crate::listed::{Entry, Kind};
use jn_base::Text;
use std::alloc::{AllocError, Global};

/// Whether the name begins with a dot.
fn is_hidden(name: &str) -> bool
    ensures { result ≡ spec.is_hidden name.now }
{
    match name.as_bytes() {
        [b'.', ..] => true,
        _ => false,
    }
}

/// Whether the name ends in `.java`.
fn is_java(name: &str) -> bool
    ensures { result ≡ spec.is_java name.now }
{
    name.as_bytes().ends_with(b".java")
}

/// The path of a name in the folder of this path: after it and a slash, where it ends with none.
pub fn joined(alloc: Global, path: &str, name: &str) -> Result<Text, AllocError>
    ensures { IfOk result (λ whole. whole ≡ spec.joined path.now name.now) }
{
    let mut whole = String::from_str(alloc, path)?;
    if !path.as_bytes().ends_with(b"/") {
        whole.push_str("/")?;
    }
    whole.push_str(name)?;
    Ok(Text::of_string(whole))
}

/// The path of the Java file that the entry is, put after the others.
fn put_file(
    alloc: Global,
    path: &str,
    entry: &Entry,
    files: &mut Vec<Text>,
) -> Result<(), AllocError>
    ensures { OnOk result
        (files.new.items ≡ files.old.items ++ spec.file_at path.now entry.now.name entry.now.kind) }
{
    let name = entry.name.as_str();
    match entry.kind {
        Kind::File if !is_hidden(name) && is_java(name) => {
            files.push(joined(alloc, path, name)?)?;
            Ok(())
        }
        _ => Ok(()),
    }
}

/// Whether the name is one of these.
pub fn is_among(names: &[Text], name: &str) -> bool
    ensures { result ≡ spec.is_among names.now name.now }
{
    names.iter().any(|other| other.as_str() == name)
}

/// Whether the name is hidden, or one of those that are left out.
pub fn is_skipped(skipped: &[Text], name: &str) -> bool
    ensures { result ≡ spec.is_skipped skipped.now name.now }
{
    is_hidden(name) || is_among(skipped, name)
}

/// Puts the name after the others, where it isn't one of them.
fn put_name(names: &mut Vec<Text>, name: Text) -> Result<(), AllocError>
    ensures { OnOk result (names.new.items ≡ spec.with_name names.old.items name) }
{
    if is_among(names.as_slice(), name.as_str()) {
        return Ok(());
    }
    names.push(name)?;
    Ok(())
}

/// The names, each where it stands first.
pub fn each_once(alloc: Global, names: &[Text]) -> Result<Vec<Text>, AllocError>
    ensures { IfOk result (λ once. once.items ≡ spec.each_once names.now) }
{
    let mut once = Vec::new(alloc);
    for name in names {
        put_name(&mut once, name.copy(alloc)?)?;
    }
    Ok(once)
}

/// The path of the folder that the entry is, put after the others, where it isn't left out.
fn put_folder(
    alloc: Global,
    skipped: &[Text],
    path: &str,
    entry: &Entry,
    folders: &mut Vec<Text>,
) -> Result<(), AllocError>
    ensures { OnOk result (folders.new.items
        ≡ folders.old.items ++ spec.folder_at skipped.now path.now entry.now.name entry.now.kind) }
{
    let name = entry.name.as_str();
    match entry.kind {
        Kind::Folder if !is_skipped(skipped, name) => {
            folders.push(joined(alloc, path, name)?)?;
            Ok(())
        }
        _ => Ok(()),
    }
}

/// The folder's own path, put after the others, where the entry's name is no text.
fn put_unnamed(
    alloc: Global,
    path: &str,
    entry: &Entry,
    unnamed: &mut Vec<Text>,
) -> Result<(), AllocError>
    ensures { OnOk result
        (unnamed.new.items ≡ unnamed.old.items ++ spec.unnamed_at path.now entry.now.kind) }
{
    match entry.kind {
        Kind::Unnamed => {
            unnamed.push(Text::of_str(alloc, path)?)?;
            Ok(())
        }
        _ => Ok(()),
    }
}

/// Puts the paths of the Java files, and of the folders, that a folder lists after the others, and its own where it lists a name that is
/// no text.
pub(crate) fn put_entries(
    alloc: Global,
    skipped: &[Text],
    path: &str,
    entries: &[Entry],
    files: &mut Vec<Text>,
    folders: &mut Vec<Text>,
    unnamed: &mut Vec<Text>,
) -> Result<(), AllocError>
    ensures files { OnOk result
        (files.new.items ≡ files.old.items ++ spec.files_in path.now entries.now) }
    ensures folders { OnOk result
        (folders.new.items ≡ folders.old.items ++ spec.folders_in skipped.now path.now entries.now) }
    ensures unnamed { OnOk result
        (unnamed.new.items ≡ unnamed.old.items ++ spec.unnamed_in path.now entries.now) }
{
    for entry in entries {
        put_file(alloc, path, entry, files)?;
        put_folder(alloc, skipped, path, entry, folders)?;
        put_unnamed(alloc, path, entry, unnamed)?;
    }
    Ok(())
}
