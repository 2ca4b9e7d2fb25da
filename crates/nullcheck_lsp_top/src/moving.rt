//! Folders that are put into a workspace and taken out of it.
ghost use Rattle.std.specs.Prelude.{◌≡◌, ◌++◌, IfOk, OnOk};
ghost use Rattle.std.specs.List.{flat_map};
ghost use Rattle.nullcheck_lsp_top.specs.Looking as spec;

use crate::client::{Home, Root, copy_texts, unasked};
use crate::placing::all_paths;
use jn_base::{Seq, Text};
use jn_folder::{each_once, is_among};
use jn_lsp_text::Message;
use std::alloc::{AllocError, Global};

/// Where the files are after a message that comes while the server serves, where that says so: after a change of the folders
/// (`workspace/didChangeWorkspaceFolders`) these are those before without the removed ones, and then the added ones that aren't among
/// them.
pub(crate) fn root_by(
    alloc: Global,
    root: &Root,
    message: &Message,
) -> Result<Option<Root>, AllocError>
    ensures { IfOk result (λ told. told ≡ spec.root_by root.now message.now) }
{
    match message {
        Message::ChangedFolders { added, removed } => {
            let moved = root_behind(alloc, root, added.as_slice(), removed.as_slice())?;
            Ok(Some(moved))
        }
        _ => Ok(None),
    }
}

fn root_behind(
    alloc: Global,
    root: &Root,
    added: &[Text],
    removed: &[Text],
) -> Result<Root, AllocError>
    ensures { IfOk result (λ moved. moved ≡ spec.root_behind root.now added.now removed.now) }
{
    let added = all_paths(alloc, &None, added)?;
    let removed = all_paths(alloc, &None, removed)?;
    root_moved(alloc, root, added.as_slice(), removed.as_slice())
}

/// Where the files are after folders of these plain paths were put in and taken out.
fn root_moved(
    alloc: Global,
    root: &Root,
    added: &[Text],
    removed: &[Text],
) -> Result<Root, AllocError>
    ensures { IfOk result (λ moved. moved ≡ spec.root_moved root.now added.now removed.now) }
{
    let paths = paths_behind(alloc, root.folders.as_slice(), added, removed)?;
    Ok(Root {
        folders: unasked(alloc, paths.as_slice())?,
        watched: root.watched,
        files: copy_texts(alloc, root.files.as_slice())?,
        exclude: copy_texts(alloc, root.exclude.as_slice())?,
        left: left_behind(alloc, root, removed)?,
    })
}

/// The paths of the folders after a change: those before that aren't removed, then those of the added ones, each once.
fn paths_behind(
    alloc: Global,
    homes: &[Home],
    added: &[Text],
    removed: &[Text],
) -> Result<Vec<Text>, AllocError>
    ensures { IfOk result (λ paths. paths.items ≡ spec.paths_behind homes.now added.now removed.now) }
{
    let mut paths = staying(alloc, homes, removed)?;
    for path in added {
        let copy = path.copy(alloc)?;
        paths.push(copy)?;
    }
    each_once(alloc, paths.as_slice())
}

/// The paths of those folders that aren't removed.
fn staying(alloc: Global, homes: &[Home], removed: &[Text]) -> Result<Vec<Text>, AllocError>
    ensures { IfOk result (λ paths. paths.items ≡ flat_map (spec.stays removed.now) homes.now) }
{
    let mut paths = Vec::new(alloc);
    for home in homes {
        put_staying(alloc, home, removed, &mut paths)?;
    }
    Ok(paths)
}

fn put_staying(
    alloc: Global,
    home: &Home,
    removed: &[Text],
    paths: &mut Vec<Text>,
) -> Result<(), AllocError>
    ensures { OnOk result (paths.new.items ≡ paths.old.items ++ spec.stays removed.now home.now) }
{
    if is_among(removed, home.path.as_str()) {
        return Ok(());
    }
    let path = home.path.copy(alloc)?;
    paths.push(path)?;
    Ok(())
}

/// The folders that were left, and now those that are removed.
fn left_behind(alloc: Global, root: &Root, removed: &[Text]) -> Result<Seq<Home>, AllocError>
    ensures { IfOk result (λ homes. homes ≡ root.now.left ++ flat_map (spec.leaves removed.now) root.now.folders) }
{
    let mut homes = copy_homes(alloc, root.left.as_slice())?;
    put_leaving(alloc, root.folders.as_slice(), removed, &mut homes)?;
    Ok(homes)
}

fn copy_homes(alloc: Global, homes: &[Home]) -> Result<Seq<Home>, AllocError>
    ensures { IfOk result (λ copies. copies ≡ homes.now) }
{
    let mut copies = Seq::new(alloc);
    for home in homes {
        let copy = copy_home(alloc, home)?;
        copies.push(copy)?;
    }
    Ok(copies)
}

/// Puts those of these folders that are removed after the others.
fn put_leaving(
    alloc: Global,
    folders: &[Home],
    removed: &[Text],
    homes: &mut Seq<Home>,
) -> Result<(), AllocError>
    ensures { OnOk result (homes.new ≡ homes.old ++ flat_map (spec.leaves removed.now) folders.now) }
{
    for home in folders {
        put_removed(alloc, home, removed, homes)?;
    }
    Ok(())
}

fn put_removed(
    alloc: Global,
    home: &Home,
    removed: &[Text],
    homes: &mut Seq<Home>,
) -> Result<(), AllocError>
    ensures { OnOk result (homes.new ≡ homes.old ++ spec.leaves removed.now home.now) }
{
    if !is_among(removed, home.path.as_str()) {
        return Ok(());
    }
    let copy = copy_home(alloc, home)?;
    homes.push(copy)
}

/// The same folder once more.
fn copy_home(alloc: Global, home: &Home) -> Result<Home, AllocError>
    ensures { IfOk result (λ copy. copy ≡ home.now) }
{
    let real = copy_real(alloc, &home.real)?;
    let path = home.path.copy(alloc)?;
    Ok(Home { path, real })
}

fn copy_real(alloc: Global, real: &Option<Text>) -> Result<Option<Text>, AllocError>
    ensures { IfOk result (λ copy. copy ≡ real.now) }
{
    match real {
        None => Ok(None),
        Some(path) => Ok(Some(path.copy(alloc)?)),
    }
}
