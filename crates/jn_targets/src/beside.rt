//! A file of the host is replaced by a whole file beside it, which takes its name.
//!
//! The file beside it is held by a lock while it is filled. So what a run left that was ended is known: no process holds it, and the next
//! run removes it.
use std::alloc::Global;
use std::fs::{File, Metadata, TryLockError};
use std::io::{ErrorKind, Read, Write};
use std::os::unix::fs::{MetadataExt, lchown};
use std::path::AsPath;
use std::{fs, io, rt};

/// What stands after a name in that of the file beside it.
const BESIDE: &str = ".nullcheck";

/// Why a file wasn't replaced.
#[derive(Drop)]
pub(crate) struct Hindrance {
    pub(crate) reason: io::Error,
    /// The file beside it that stands in the way, where one does.
    pub(crate) left: Option<String>,
}

impl From<io::Error> for Hindrance {
    fn from(reason: io::Error) -> Hindrance {
        Hindrance { reason, left: None }
    }
}

/// The name leads to what can't be replaced.
fn special() -> io::Error {
    io::Error::new(ErrorKind::InvalidInput, "it is no plain file")
}

/// What is there is another file.
fn other() -> io::Error {
    io::Error::new(
        ErrorKind::InvalidData,
        "it is there, and doesn't begin as what is to be written",
    )
}

/// Another run is at work on the same file.
fn taken() -> io::Error {
    io::Error::new(ErrorKind::WouldBlock, "another run replaces it")
}

/// The name of the file beside the one of this name.
fn beside(alloc: Global, name: &str) -> io::Result<String> {
    let mut beside = String::from_str(alloc, name)?;
    beside.push_str(BESIDE)?;
    Ok(beside)
}

/// What the host says of what stands at this name itself; none where nothing does.
fn standing<R: rt::Files>(rt: &R, name: &str) -> io::Result<Option<Metadata>> {
    match fs::symlink_metadata(rt, name) {
        Ok(about) => Ok(Some(about)),
        Err(reason) if reason.kind() == ErrorKind::NotFound => Ok(None),
        Err(reason) => Err(reason),
    }
}

/// The name of the file to which this name leads; the name itself where nothing stands there.
fn place_of<R: rt::Files>(rt: &R, alloc: Global, name: &str) -> io::Result<String> {
    if standing(rt, name)?.is_none() {
        return Ok(String::from_str(alloc, name)?);
    }
    let place = rt.canonicalize(alloc, name)?;
    Ok(String::from_str(alloc, place.path_text())?)
}

/// What the host says of the plain file of this name; none where nothing stands there. It fails where something else does.
fn plain_file<R: rt::Files>(rt: &R, name: &str) -> io::Result<Option<Metadata>> {
    match standing(rt, name)? {
        Some(about) if !about.is_file() => Err(special()),
        about => Ok(about),
    }
}

/// Takes the lock on an open file. It fails where another process has it.
fn lock(file: &File) -> io::Result<()> {
    match file.try_lock() {
        Ok(()) => Ok(()),
        Err(TryLockError::WouldBlock) => Err(taken()),
        Err(TryLockError::Error(reason)) => Err(reason),
    }
}

/// Fails where the open file isn't the one of this name any more.
fn check_name<R: rt::Files>(rt: &R, file: &File, name: &str) -> io::Result<()> {
    let open = file.metadata()?;
    let named = fs::symlink_metadata(rt, name)?;
    if open.dev() == named.dev() && open.ino() == named.ino() {
        Ok(())
    } else {
        Err(taken())
    }
}

/// Removes the plain file of this name, unless a process holds it.
fn remove_left<R: rt::Files<File = File>>(rt: &R, name: &str) -> io::Result<()> {
    plain_file(rt, name)?;
    let file = File::open(rt, name)?;
    lock(&file)?;
    check_name(rt, &file, name)?;
    fs::remove_file(rt, name)
}

/// What can't be removed stands in the way, unless another run holds it.
fn in_the_way(alloc: Global, name: &str, reason: io::Error) -> Hindrance {
    let left = if reason.kind() == ErrorKind::WouldBlock {
        None
    } else {
        String::from_str(alloc, name).ok()
    };
    Hindrance { reason, left }
}

/// A new file of this name. What a run that was ended left there is removed before.
fn new_file<R: rt::Files<File = File>>(
    rt: &R,
    alloc: Global,
    name: &str,
) -> Result<File, Hindrance> {
    match File::create_new(rt, name) {
        Ok(file) => Ok(file),
        Err(reason) if reason.kind() == ErrorKind::AlreadyExists => {
            if let Err(reason) = remove_left(rt, name) {
                return Err(in_the_way(alloc, name, reason));
            }
            Ok(File::create_new(rt, name)?)
        }
        Err(reason) => Err(Hindrance::from(reason)),
    }
}

/// Takes the lock on a new file of this name. Where the file system has no locks, the file is removed.
fn hold_new<R: rt::Files>(rt: &R, file: &File, name: &str) -> io::Result<()> {
    match lock(file) {
        Ok(()) => check_name(rt, file, name),
        Err(reason) if reason.kind() == ErrorKind::WouldBlock => Err(reason),
        Err(reason) => {
            let _removed = fs::remove_file(rt, name);
            Err(reason)
        }
    }
}

/// Gives the file of this name the owner and the group of the old one, as far as the process may.
fn keep_owner<R: rt::Files>(rt: &R, name: &str, old: &Metadata) {
    let group = lchown(rt, name, None, Some(old.gid()));
    let owner = lchown(rt, name, Some(old.uid()), None);
    let _kept = (group, owner);
}

/// Writes the bytes into a new file, with the owner and the rights of the old one where there is one, up to the disk, and gives it the name.
fn fill_and_rename<R: rt::Files<File = File>>(
    rt: &R,
    file: &mut File,
    beside: &str,
    name: &str,
    old: Option<&Metadata>,
    bytes: &[u8],
) -> io::Result<()> {
    if let Some(old) = old {
        keep_owner(rt, beside, old);
        file.set_permissions(old.permissions())?;
    }
    file.write_all(bytes)?;
    file.sync_all()?;
    fs::rename(rt, beside, name)
}

/// Gives the file of this name these bytes: a new file beside it is filled and takes its name in one step, or is removed. Where the name
/// is a link, the file to which it leads is replaced; where nothing stands there, the file is there after the call; what is no plain file
/// is refused.
pub(crate) fn replace_file<R: rt::Files<File = File>>(
    rt: &R,
    alloc: Global,
    name: &str,
    bytes: &[u8],
) -> Result<(), Hindrance> {
    let place = place_of(rt, alloc, name)?;
    let old = plain_file(rt, place.as_str())?;
    let beside = beside(alloc, place.as_str())?;
    let mut file = new_file(rt, alloc, beside.as_str())?;
    hold_new(rt, &file, beside.as_str())?;
    let done = fill_and_rename(
        rt,
        &mut file,
        beside.as_str(),
        place.as_str(),
        old.as_ref(),
        bytes,
    );
    if done.is_err() {
        let _removed = fs::remove_file(rt, beside.as_str());
    }
    Ok(done?)
}

/// Fails where the open file doesn't begin so.
fn check_open(file: &mut File, front: &[u8]) -> io::Result<()> {
    for byte in front {
        let mut next = [0u8; 1];
        if file.read(&mut next)? == 0 || next[0] != *byte {
            return Err(other());
        }
    }
    Ok(())
}

/// Fails where a file of this name is there that doesn't begin so.
pub(crate) fn check_front<R: rt::Files<File = File>>(
    rt: &R,
    alloc: Global,
    name: &str,
    front: &[u8],
) -> io::Result<()> {
    let place = place_of(rt, alloc, name)?;
    if plain_file(rt, place.as_str())?.is_none() {
        return Ok(());
    }
    let mut file = File::open(rt, place.as_str())?;
    check_open(&mut file, front)
}
