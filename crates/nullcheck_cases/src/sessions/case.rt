//! A case is one line: the name of a recorded session. Five words set what lies around it: `in=N`, `read=N`, `list=N` and `write=N` have the
//! Nth call on the input, the files, the folders and the output fail, and `most=N` lets one read of the input give at most N bytes. `word=W`
//! is a word of the command line; several stand there in their order.
use crate::around::number;
use std::alloc::{AllocError, Global};

/// The most bytes that one read gives where nothing is set.
const MOST: u32 = 1_000_000;

#[derive(Drop)]
pub struct Case {
    pub name: String,
    /// The words of the command line.
    pub words: Vec<String>,
    /// The read of the input that fails, from 1; 0 where none does.
    pub input: u32,
    /// The call on the files that fails, from 1; 0 where none does.
    pub read: u32,
    /// The call on the folders that fails, from 1; 0 where none does.
    pub list: u32,
    /// The write that fails, from 1; 0 where none does.
    pub write: u32,
    /// The most bytes that one read of the input gives.
    pub most: u32,
}

/// Takes the word into the case.
fn take(alloc: Global, case: &mut Case, word: &str) -> Result<(), AllocError> {
    if let Some(call) = number(word, "in") {
        case.input = call;
    } else if let Some(call) = number(word, "read") {
        case.read = call;
    } else if let Some(call) = number(word, "list") {
        case.list = call;
    } else if let Some(call) = number(word, "write") {
        case.write = call;
    } else if let Some(most) = number(word, "most") {
        case.most = most;
    } else if let Some(text) = word.strip_prefix("word=") {
        case.words.push(String::from_str(alloc, text)?)?;
    } else {
        case.name = String::from_str(alloc, word)?;
    }
    Ok(())
}

pub fn case_of(alloc: Global, line: &str) -> Result<Case, AllocError> {
    let mut case = Case {
        name: String::new(alloc),
        words: Vec::new(alloc),
        input: 0,
        read: 0,
        list: 0,
        write: 0,
        most: MOST,
    };
    for word in line.split_whitespace() {
        take(alloc, &mut case, word)?;
    }
    Ok(case)
}
