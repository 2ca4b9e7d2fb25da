//! The files of a case, read as the top call reads them.
ghost use Rattle.std.specs.Prelude.{◌≤◌, IfOk, IfSome, List, length};
ghost use Rattle.jn_front.specs.Files.{AreReads};
ghost use Rattle.jn_front.specs.declared.source.SourceFile.{SourceFile as SpecFile};

use crate::held::held_files;
use jn_cli::Command;
use jn_front::{SourceRead, read_all};
use jn_outside::MemFiles;
use std::alloc::{AllocError, Global};
use std::io;

/// The most files.
const FILES: usize = 64;

/// The names of the files of a command.
pub fn file_names(alloc: Global, command: &Command) -> Result<Vec<String>, AllocError> {
    let mut names = Vec::new(alloc);
    for name in command.files.as_slice() {
        names.push(name.as_str().to_string(alloc)?)?;
    }
    Ok(names)
}

/// The files of these names, which stand beside the tables; None where one isn't there, or where there are more than 64.
pub fn reads_of(rt: &HostRuntime, names: &[String]) -> io::Result<Option<Vec<SourceRead>>>
    ensures few { IfOk result (λ found. IfSome found (λ reads. length reads.items ≤ 64)) }
    ensures read { IfOk result
        (λ found. IfSome found (λ reads. (files : List SpecFile) × AreReads reads.items files)) }
{
    let alloc = rt.alloc();
    let held = held_files(rt, names, 0, u32::MAX)?;
    let mut files = MemFiles::new(alloc, held, Vec::new(alloc));
    let Ok(reads) = read_all(alloc, &mut files, names) else {
        return Ok(None);
    };
    if reads.len() > FILES {
        return Ok(None);
    }
    Ok(Some(reads))
}
