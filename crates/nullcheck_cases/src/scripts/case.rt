//! A case is one line: the words of a command. Three words set what lies around it: `read=N` has the Nth call on the source fail, `write=N`
//! the Nth write, and `anew` carries out the script by a session alone, and prints at each check how often a body's rows
//! were made anew, and at all but the first how often a worker took a file, or a body where all are solved anew.
use crate::around::number;
use std::alloc::{AllocError, Global};

#[derive(Drop)]
pub struct Case {
    pub words: Vec<String>,
    /// The call on the source that fails, from 1; 0 where none does.
    pub read: u32,
    /// The write that fails, from 1; 0 where none does.
    pub write: u32,
    pub anew: bool,
}

/// Takes the word into the case.
fn take(alloc: Global, case: &mut Case, word: &str) -> Result<(), AllocError> {
    if let Some(call) = number(word, "read") {
        case.read = call;
    } else if let Some(call) = number(word, "write") {
        case.write = call;
    } else if word == "anew" {
        case.anew = true;
    } else {
        case.words.push(String::from_str(alloc, word)?)?;
    }
    Ok(())
}

pub fn case_of(alloc: Global, line: &str) -> Result<Case, AllocError> {
    let mut case = Case {
        words: Vec::new(alloc),
        read: 0,
        write: 0,
        anew: false,
    };
    for word in line.split_whitespace() {
        take(alloc, &mut case, word)?;
    }
    Ok(case)
}
