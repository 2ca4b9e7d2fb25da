//! The program that a command makes in place of files.
ghost use Rattle.std.specs.Prelude.{◌≡◌, IfOk};
ghost use Rattle.jn_front.specs.Files.{IsReadOf};
ghost use Rattle.jn_command.specs.Made.{made_file, made_line};

use itoa::{Buffer, Integer};
use jn_base::{OutOfMemory, Seq, Text};
use jn_front::{SourceFile, SourceRead};
use std::alloc::{AllocError, Global};

/// The greatest number of bytes of a file that is checked.
const LIMIT: usize = 1_048_576;

/// The line that tells how large the program is; nothing before a report that is one document.
pub fn made_line(
    alloc: Global,
    document: bool,
    classes: u32,
    size: usize,
) -> Result<Vec<u8>, AllocError>
    ensures { IfOk result (λ line. line.items ≡ made_line document classes size) }
{
    if document {
        return Ok(Vec::new(alloc));
    }
    let mut line = Vec::from_slice(alloc, b"generated ")?;
    line.extend_from_slice(Buffer::new().format(classes).as_bytes())?;
    line.extend_from_slice(b" classes, ")?;
    line.extend_from_slice(Buffer::new().format(size).as_bytes())?;
    line.extend_from_slice(b" bytes\n")?;
    Ok(line)
}

/// The program of this text, as it is read.
pub fn made_read(alloc: Global, text: Vec<u8>) -> Result<SourceRead, OutOfMemory>
    ensures { IfOk result (λ read. IsReadOf read (made_file text.items)) }
{
    let name = Text::of_str(alloc, "Gen.java")?;
    let whole = text.len() <= LIMIT;
    let bytes = if whole { text } else { Vec::new(alloc) };
    Ok(SourceRead {
        file: SourceFile {
            name,
            bytes: Seq::of_vec(bytes),
        },
        whole,
    })
}
