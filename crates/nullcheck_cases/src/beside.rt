//! What lies beside a table.
use std::alloc::{AllocError, Global};
use std::{fs, io};

/// The path of the file of this name in the folder.
fn path_in(alloc: Global, folder: &str, name: &str) -> Result<String, AllocError> {
    let mut path = String::from_str(alloc, folder)?;
    path.push('/')?;
    path.push_str(name)?;
    Ok(path)
}

/// The bytes of the file of this name in the folder.
pub fn read_in(rt: &HostRuntime, folder: &str, name: &str) -> io::Result<Vec<u8>> {
    let path = path_in(rt.alloc(), folder, name)?;
    fs::read(rt, path.as_str())
}

/// The text of the file of this name in the folder.
pub fn read_text_in(rt: &HostRuntime, folder: &str, name: &str) -> io::Result<String> {
    let path = path_in(rt.alloc(), folder, name)?;
    fs::read_to_string(rt, path.as_str())
}
