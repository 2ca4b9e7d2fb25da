//! The files of a workspace.
ghost use Rattle.std.specs.Prelude.{◌≡◌, ℕ, List, [], IfOk, OnErr, OnOk, Option, Some};
ghost use Rattle.jn_folder.specs.Listing.{with_real};
ghost use Rattle.jn_folder.specs.Walking.{BeginsWalk};
ghost use Rattle.nullcheck_lsp_top.specs.Looking as spec;

use crate::client::{Home, Root};
use crate::placing::files_named;
use crate::texts::{is_many, take_files};
use crate::warning::warnings_of;
use jn_base::{OutOfMemory, Seq, Text};
use jn_folder::{Folder, Walked, order, walk};
use jn_front::SourceFile;
use jn_outside::Files;
use std::alloc::{AllocError, Global};

/// What a search of no folder finds.
fn nothing(alloc: Global) -> Walked
    ensures { spec.finds result.names.items result.missed.items result.unnamed.items ≡ spec.finds [] [] [] }
{
    Walked {
        names: Vec::new(alloc),
        missed: Vec::new(alloc),
        unnamed: Vec::new(alloc),
    }
}

/// Puts what was found in one more folder after what was found before.
fn put_found(found: &mut Walked, more: Walked) -> Result<(), AllocError>
    ensures { OnOk result (spec.finds found.new.names.items found.new.missed.items found.new.unnamed.items
        ≡ spec.beside (spec.finds found.old.names.items found.old.missed.items found.old.unnamed.items)
        (spec.finds more.names.items more.missed.items more.unnamed.items)) }
{
    let Walked {
        mut names,
        mut missed,
        mut unnamed,
    } = more;
    found.names.append(&mut names)?;
    found.missed.append(&mut missed)?;
    found.unnamed.append(&mut unnamed)?;
    Ok(())
}

/// The Java files below a folder, put after what was found before.
fn find_below<D: Folder>(
    alloc: Global,
    exclude: &[Text],
    home: &Home,
    folder: &mut D,
    found: &mut Walked,
) -> Result<(), OutOfMemory>
    ensures below { OnOk result (spec.IsBesideBelow exclude.now home.now.path
        (spec.listing (D.told folder.old) (D.faults folder.old))
        (spec.listing (D.told folder.new) (D.faults folder.new))
        (spec.finds found.old.names.items found.old.missed.items found.old.unnamed.items)
        (spec.finds found.new.names.items found.new.missed.items found.new.unnamed.items)) }
    ensures begins { BeginsWalk exclude.now home.now.path (D.faults folder.old) (D.told folder.old) (D.told folder.new) }
{
    let more = walk(alloc, folder, exclude, home.path.as_str())?;
    put_found(found, more)?;
    Ok(())
}

/// The Java files below each of these folders, one after the other.
fn find_in_folders<D: Folder>(
    alloc: Global,
    exclude: &[Text],
    homes: &[Home],
    folder: &mut D,
) -> Result<Walked, OutOfMemory>
    ensures found { IfOk result (λ found. spec.AreInFolders exclude.now homes.now
        (spec.listing (D.told folder.old) (D.faults folder.old))
        (spec.listing (D.told folder.new) (D.faults folder.new))
        (spec.finds found.names.items found.missed.items found.unnamed.items)) }
    ensures begins { spec.BeginsInFolders exclude.now homes.now
        (spec.listing (D.told folder.old) (D.faults folder.old))
        (spec.listing (D.told folder.new) (D.faults folder.new)) }
{
    let mut found = nothing(alloc);
    for home in homes {
        find_below(alloc, exclude, home, folder, &mut found)?;
    }
    Ok(found)
}

/// The Java files of all folders, each once, in the order of their bytes.
fn find_all<D: Folder>(alloc: Global, root: &Root, folder: &mut D) -> Result<Walked, OutOfMemory>
    ensures found { IfOk result (λ found. spec.AreOfFolders root.now
        (spec.listing (D.told folder.old) (D.faults folder.old))
        (spec.listing (D.told folder.new) (D.faults folder.new))
        found.names.items found.missed.items found.unnamed.items) }
    ensures begins { spec.BeginsInFolders root.now.exclude root.now.folders
        (spec.listing (D.told folder.old) (D.faults folder.old))
        (spec.listing (D.told folder.new) (D.faults folder.new)) }
{
    let mut found = find_in_folders(
        alloc,
        root.exclude.as_slice(),
        root.folders.as_slice(),
        folder,
    )?;
    order(&mut found.names)?;
    Ok(found)
}

/// The paths of the workspace's files: those that the settings name, else the Java files of the folders.
fn find<D: Folder>(alloc: Global, root: &Root, folder: &mut D) -> Result<Walked, OutOfMemory>
    ensures found { IfOk result (λ found. spec.AreNamedBy root.now root.now.files
        (spec.listing (D.told folder.old) (D.faults folder.old))
        (spec.listing (D.told folder.new) (D.faults folder.new))
        found.names.items found.missed.items found.unnamed.items) }
    ensures begins { spec.BeginsNamed root.now root.now.files
        (spec.listing (D.told folder.old) (D.faults folder.old))
        (spec.listing (D.told folder.new) (D.faults folder.new)) }
{
    match root.files.as_slice() {
        [] => find_all(alloc, root, folder),
        _ => Ok(Walked {
            names: files_named(alloc, root)?,
            missed: Vec::new(alloc),
            unnamed: Vec::new(alloc),
        }),
    }
}

/// The folder with where it really is, where the host says so.
fn real_home<D: Folder>(alloc: Global, home: &Home, folder: &mut D) -> Result<Home, OutOfMemory>
    ensures is { IfOk result (λ made. (real : Option (List ℕ)) × (made ≡ spec.home_at home.now.path real)
        × (D.told folder.new ≡ with_real (D.told folder.old) home.now.path real)) }
    ensures spared { OnErr result (D.told folder.new ≡ D.told folder.old) }
    ensures kept { D.faults folder.new ≡ D.faults folder.old }
{
    let path = home.path.copy(alloc)?;
    let real = folder.real(alloc, path.as_str())?;
    Ok(Home { path, real })
}

/// The folders with where they really are.
fn real_homes<D: Folder>(
    alloc: Global,
    homes: &[Home],
    folder: &mut D,
) -> Result<Seq<Home>, OutOfMemory>
    ensures are { IfOk result (λ after. spec.AreReal homes.now after
        (spec.listing (D.told folder.old) (D.faults folder.old))
        (spec.listing (D.told folder.new) (D.faults folder.new))) }
    ensures first { spec.AreRealFirst homes.now
        (spec.listing (D.told folder.old) (D.faults folder.old))
        (spec.listing (D.told folder.new) (D.faults folder.new)) }
{
    let mut after = Seq::new(alloc);
    for home in homes {
        let made = real_home(alloc, home, folder)?;
        after.push(made)?;
    }
    Ok(after)
}

fn rooted(homes: Seq<Home>, root: Root) -> Root
    ensures { result ≡ spec.rooted homes root }
{
    let Root {
        watched,
        files,
        exclude,
        left,
        ..
    } = root;
    Root {
        folders: homes,
        watched,
        files,
        exclude,
        left,
    }
}

/// Where the files are, with what the folders say of where they really are.
fn traced_root<D: Folder>(alloc: Global, root: Root, folder: &mut D) -> Result<Root, OutOfMemory>
    ensures traces { IfOk result (λ made. spec.AreTraced (Some root) (Some made)
        (spec.listing (D.told folder.old) (D.faults folder.old))
        (spec.listing (D.told folder.new) (D.faults folder.new))) }
    ensures first { spec.AreRealFirst root.folders
        (spec.listing (D.told folder.old) (D.faults folder.old))
        (spec.listing (D.told folder.new) (D.faults folder.new)) }
{
    match real_homes(alloc, root.folders.as_slice(), folder) {
        Ok(homes) => Ok(rooted(homes, root)),
        Err(_) => {
            drop(root);
            Err(OutOfMemory)
        }
    }
}

/// Where the files are, where that is told, with what the folders say of where they really are.
pub(crate) fn traced_where<D: Folder>(
    alloc: Global,
    told: Option<Root>,
    folder: &mut D,
) -> Result<Option<Root>, OutOfMemory>
    ensures traces { IfOk result (λ made. spec.AreTraced told made
        (spec.listing (D.told folder.old) (D.faults folder.old))
        (spec.listing (D.told folder.new) (D.faults folder.new))) }
    ensures first { spec.AreTracedFirst told
        (spec.listing (D.told folder.old) (D.faults folder.old))
        (spec.listing (D.told folder.new) (D.faults folder.new)) }
{
    match told {
        None => Ok(None),
        Some(root) => match traced_root(alloc, root, folder) {
            Ok(made) => Ok(Some(made)),
            Err(_) => Err(OutOfMemory),
        },
    }
}

/// The files of a workspace, and warnings of those that aren't there.
#[derive(Drop)]
pub struct Found {
    pub files: Seq<SourceFile>,
    pub warnings: Seq<Text>,
}

/// Reads the workspace's files: of more than 64 none, as then there are too many.
pub(crate) fn read_workspace<F: Files, D: Folder>(
    alloc: Global,
    root: &Root,
    files: &mut F,
    folder: &mut D,
) -> Result<Found, OutOfMemory>
    ensures held { F.held files.new ≡ F.held files.old }
    ensures found { IfOk result (λ found. spec.IsFound (F.held files.old) root.now
        (spec.outside (D.told folder.old) (D.faults folder.old) (F.gave files.old) (F.faults files.old))
        (spec.outside (D.told folder.new) (D.faults folder.new) (F.gave files.new) (F.faults files.new))
        found.files found.warnings) }
    ensures starts { spec.Starts (F.held files.old) root.now
        (spec.outside (D.told folder.old) (D.faults folder.old) (F.gave files.old) (F.faults files.old))
        (spec.outside (D.told folder.new) (D.faults folder.new) (F.gave files.new) (F.faults files.new)) }
{
    let found = find(alloc, root, folder)?;
    let many = is_many(&found.names);
    let reads = take_files(alloc, files, many, &found.names)?;
    let warnings = warnings_of(
        alloc,
        found.names.len(),
        &found.missed,
        &found.unnamed,
        reads.lost.as_slice(),
    )?;
    Ok(Found {
        files: reads.files,
        warnings,
    })
}
