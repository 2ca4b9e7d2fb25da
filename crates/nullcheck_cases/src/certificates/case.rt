//! A case is one line: the words of a command. Ten words set what lies around it: `hex=FILE` gives the certificate `CERT` the bytes
//! that FILE writes in hexadecimal digits, and `zeros=N` so many zero bytes; `set=AT:VALUE` changes a byte of it, `cut=N` leaves
//! its first N bytes and `more=N` puts N zero bytes after them; `read=N` has the Nth call on the source fail, `write=N` the Nth
//! write, `store=N` the Nth file that is put in place, and `room=N` gives the sink room for N bytes. `special=NAME` says that the name
//! leads to no plain file. `times=N` takes the last word N times.
use crate::around::{ROOM, number, text_after};
use crate::beside::read_text_in;
use crate::certificates::FOLDER;
use jn_base::Text;
use std::alloc::{AllocError, Global};
use std::io;

/// The most that a number of a case counts.
const LARGEST: u32 = 70_000_000;

/// A certificate, words and calls that fail.
#[derive(Drop)]
pub struct Case {
    pub words: Vec<String>,
    /// The bytes of the certificate, where there is one.
    pub cert: Option<Vec<u8>>,
    /// The calls on the source that fail, from 1.
    pub reads: Vec<u32>,
    /// The writes that fail, from 1.
    pub writes: Vec<u32>,
    /// The file that isn't put in place, from 1; 0 where all are.
    pub store: u32,
    /// Names that lead to no plain file.
    pub special: Vec<Text>,
    pub room: u32,
}

/// The bytes that a text writes, two digits each, without what stands after a `#` in its line.
fn bytes_of(rt: &HostRuntime, text: &str) -> Result<Vec<u8>, AllocError> {
    let mut bytes = Vec::new(rt.alloc());
    for line in text.lines() {
        let digits = match line.split_once('#') {
            Some((front, _)) => front,
            None => line,
        };
        for word in digits.split_whitespace() {
            if let Ok(byte) = u8::from_str_radix(word, 16) {
                bytes.push(byte)?;
            }
        }
    }
    Ok(bytes)
}

/// Changes the byte that the word names: `AT:VALUE`.
fn set(bytes: &mut Vec<u8>, word: &str) {
    if let Some((at, value)) = word.split_once(':') {
        if let (Ok(at), Ok(value)) = (at.parse::<usize>(), value.parse::<u8>()) {
            if let Some(byte) = bytes.get_mut(at) {
                *byte = value;
            }
        }
    }
}

/// Whether the word changes the certificate, which is done then.
fn take_change(case: &mut Case, word: &str) -> Result<bool, AllocError> {
    let Some(bytes) = &mut case.cert else {
        return Ok(false);
    };
    if let Some(change) = text_after(word, "set") {
        set(bytes, change);
    } else if let Some(count) = number(word, "cut") {
        bytes.truncate(count as usize);
    } else if let Some(count) = number(word, "more") {
        for _ in 0..count.min(LARGEST) {
            bytes.push(0)?;
        }
    } else {
        return Ok(false);
    }
    Ok(true)
}

/// Whether the word says which call fails or how much room there is, which is put into the case then.
fn take_failure(alloc: Global, case: &mut Case, word: &str) -> Result<bool, AllocError> {
    if let Some(call) = number(word, "read") {
        case.reads.push(call)?;
    } else if let Some(call) = number(word, "write") {
        case.writes.push(call)?;
    } else if let Some(call) = number(word, "store") {
        case.store = call;
    } else if let Some(room) = number(word, "room") {
        case.room = room;
    } else if let Some(name) = text_after(word, "special") {
        case.special.push(Text::of_str(alloc, name)?)?;
    } else {
        return Ok(false);
    }
    Ok(true)
}

/// Whether the word gives the certificate, which is put into the case then.
fn take_cert(rt: &HostRuntime, case: &mut Case, word: &str) -> io::Result<bool> {
    if let Some(name) = text_after(word, "hex") {
        let digits = read_text_in(rt, FOLDER, name)?;
        case.cert = Some(bytes_of(rt, digits.as_str())?);
    } else if let Some(count) = number(word, "zeros") {
        case.cert = Some(vec![in rt.alloc(); 0u8; count.min(LARGEST) as usize]?);
    } else {
        return Ok(false);
    }
    Ok(true)
}

/// Takes the last word so often.
fn take_often(case: &mut Case, times: u32) -> Result<(), AllocError> {
    if let Some(word) = case.words.pop() {
        for _ in 0..times.min(LARGEST) {
            case.words.push(word.clone()?)?;
        }
    }
    Ok(())
}

pub fn case_of(rt: &HostRuntime, line: &str) -> io::Result<Case> {
    let alloc = rt.alloc();
    let mut case = Case {
        words: Vec::new(alloc),
        cert: None,
        reads: Vec::new(alloc),
        writes: Vec::new(alloc),
        store: 0,
        special: Vec::new(alloc),
        room: ROOM,
    };
    for word in line.split_whitespace() {
        if take_cert(rt, &mut case, word)?
            || take_change(&mut case, word)?
            || take_failure(alloc, &mut case, word)?
        {
            continue;
        }
        if let Some(times) = number(word, "times") {
            take_often(&mut case, times)?;
        } else {
            case.words.push(word.to_string(alloc)?)?;
        }
    }
    Ok(case)
}
