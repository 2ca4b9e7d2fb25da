//! A recorded session: what lies in the workspace, and what the client sends. Each line is one of
//!
//! - `hold PATH FILE`: the bytes of a file that lies beside the tables stand under this path,
//! - `list PATH NAME..`: a folder has these entries; `NAME/` is a folder, `NAME@` something else, `?` one whose name is
//!   no text, any other a file; `>PATH` says where the folder really is,
//! - `raw TEXT`: the client sends this text, where `\r`, `\n` and `\!` are the bytes 13, 10 and 255, which is none of UTF-8,
//! - `fill N`: the client sends so many spaces,
//! - anything else: the client sends this line as a body, after a header.
use crate::beside::{read_in, read_text_in};
use crate::sessions::FOLDER;
use jn_base::{Seq, Text};
use jn_folder::{Entry, Kind, Listed};
use jn_lsp_frames::frame_of;
use jn_outside::MemFile;
use std::alloc::{AllocError, Global};
use std::io;

#[derive(Drop)]
pub struct Recorded {
    pub held: Vec<MemFile>,
    pub folders: Vec<Listed>,
    pub sent: Vec<u8>,
}

/// Holds the bytes of a file under a path.
fn hold(rt: &HostRuntime, recorded: &mut Recorded, rest: &str) -> io::Result<()> {
    if let Some((path, file)) = rest.split_once(' ') {
        let bytes = read_in(rt, FOLDER, file)?;
        let name = String::from_str(rt.alloc(), path)?;
        recorded.held.push(MemFile { name, bytes })?;
    }
    Ok(())
}

/// The entry of a word.
fn entry_of(alloc: Global, word: &str) -> Result<Entry, AllocError> {
    let (name, kind) = if word == "?" {
        ("", Kind::Unnamed)
    } else if let Some(path) = word.strip_prefix(">") {
        (path, Kind::Real)
    } else if let Some(name) = word.strip_suffix('/') {
        (name, Kind::Folder)
    } else if let Some(name) = word.strip_suffix('@') {
        (name, Kind::Other)
    } else {
        (word, Kind::File)
    };
    Ok(Entry {
        name: Text::of_str(alloc, name)?,
        kind,
    })
}

/// Lists the entries of a folder.
fn list(alloc: Global, recorded: &mut Recorded, rest: &str) -> Result<(), AllocError> {
    let mut words = rest.split_whitespace();
    if let Some(path) = words.next() {
        let mut entries = Seq::new(alloc);
        for word in words {
            entries.push(entry_of(alloc, word)?)?;
        }
        let path = Text::of_str(alloc, path)?;
        recorded.folders.push(Listed { path, entries })?;
    }
    Ok(())
}

/// The byte that stands after a backslash as this one.
fn escaped_as(byte: u8) -> u8 {
    match byte {
        b'r' => b'\r',
        b'n' => b'\n',
        _ => 255,
    }
}

/// Sends a text, where `\r`, `\n` and `\!` are the bytes 13, 10 and 255.
fn send_raw(recorded: &mut Recorded, text: &str) -> Result<(), AllocError> {
    let mut escaped = false;
    for byte in text.bytes() {
        if escaped {
            recorded.sent.push(escaped_as(byte))?;
            escaped = false;
        } else if byte == b'\\' {
            escaped = true;
        } else {
            recorded.sent.push(byte)?;
        }
    }
    Ok(())
}

/// Sends so many spaces.
fn fill(alloc: Global, recorded: &mut Recorded, count: u32) -> Result<(), AllocError> {
    let spaces = vec![in alloc; b' '; count as usize]?;
    recorded.sent.extend_from_slice(&spaces)
}

/// Sends a body after its header.
fn send(alloc: Global, recorded: &mut Recorded, body: &str) -> Result<(), AllocError> {
    let frame = frame_of(alloc, body.as_bytes())?;
    recorded.sent.extend_from_slice(&frame)
}

/// Takes a line into the session.
fn take(rt: &HostRuntime, recorded: &mut Recorded, line: &str) -> io::Result<()> {
    let alloc = rt.alloc();
    if let Some(rest) = line.strip_prefix("hold ") {
        hold(rt, recorded, rest)
    } else if let Some(rest) = line.strip_prefix("list ") {
        Ok(list(alloc, recorded, rest)?)
    } else if let Some(text) = line.strip_prefix("raw ") {
        Ok(send_raw(recorded, text)?)
    } else if let Some(digits) = line.strip_prefix("fill ") {
        Ok(fill(alloc, recorded, digits.parse().unwrap_or(0))?)
    } else {
        Ok(send(alloc, recorded, line)?)
    }
}

/// The session of the file of this name.
pub fn read_session(rt: &HostRuntime, name: &str) -> io::Result<Recorded> {
    let alloc = rt.alloc();
    let mut recorded = Recorded {
        held: Vec::new(alloc),
        folders: Vec::new(alloc),
        sent: Vec::new(alloc),
    };
    let text = read_text_in(rt, FOLDER, name)?;
    for line in text.lines() {
        take(rt, &mut recorded, line)?;
    }
    Ok(recorded)
}
