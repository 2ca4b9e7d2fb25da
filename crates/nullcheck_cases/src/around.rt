//! What lies around a command: the words that set it, the calls that fail, and what is written.
use jn_outside::MemSink;
use std::alloc::{AllocError, Global};

/// The most bytes that one write takes, where a case doesn't say it.
pub const MOST: u32 = 1000;

/// The room of a sink, where a case doesn't say it.
pub const ROOM: u32 = 100_000;

/// The room of a sink of a program that writes more.
pub const WIDE: u32 = 1_000_000;

/// The text after the name, where the word is of the form `NAME=TEXT`.
pub fn text_after<'a>(word: &'a str, name: &str) -> Option<&'a str> {
    match word.split_once('=') {
        Some((front, rest)) if front == name => Some(rest),
        _ => None,
    }
}

/// The number after the name, where the word is of that form.
pub fn number(word: &str, name: &str) -> Option<u32> {
    text_after(word, name)?.parse().ok()
}

/// Calls of which the one of this number fails; 0 where none does.
pub fn failing(alloc: Global, call: u32) -> Result<Vec<u32>, AllocError> {
    let mut calls = Vec::new(alloc);
    if call > 0 {
        calls.push(call)?;
    }
    Ok(calls)
}

/// A sink of which the writes of these numbers fail, of which one takes at most so many bytes, with room for so many.
pub fn sink_of(
    alloc: Global,
    failing: Vec<u32>,
    most: u32,
    room: u32,
) -> Result<MemSink, AllocError> {
    match MemSink::new(alloc, failing, most.max(1), room) {
        Ok(sink) => Ok(sink),
        Err(_) => Err(AllocError),
    }
}
