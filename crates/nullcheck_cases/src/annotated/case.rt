//! A case is one line: the words of a command. Five words set what lies around it: `read=N` has the Nth call on the source fail,
//! `write=N` the Nth write and `replace=N` the Nth file that is replaced, `special=NAME` has the name lead to what is no plain file, and
//! `again` takes the words once more over the files as they are then, with their report before and after. `%` stands for a tab in a name.
use crate::around::{number, text_after};
use std::alloc::{AllocError, Global};

#[derive(Drop)]
pub struct Case {
    pub words: Vec<String>,
    /// The words that name files, and the choice of what is inferred.
    pub files: Vec<String>,
    /// The call on the source that fails, from 1; 0 where none does.
    pub read: u32,
    /// The write that fails, from 1; 0 where none does.
    pub write: u32,
    /// The replacement that fails, from 1; 0 where none does.
    pub replace: u32,
    /// The names that lead to what is no plain file.
    pub special: Vec<String>,
    pub again: bool,
}

/// Whether the word says what is done with the files.
fn is_mode(word: &str) -> bool {
    word == "--imports" || word == "--terse" || word == "--write" || word == "--check"
}

/// Whether the word sets what lies around the command, which is put into the case then.
fn take_setting(case: &mut Case, word: &str) -> bool {
    if let Some(call) = number(word, "read") {
        case.read = call;
    } else if let Some(call) = number(word, "write") {
        case.write = call;
    } else if let Some(call) = number(word, "replace") {
        case.replace = call;
    } else if word == "again" {
        case.again = true;
    } else {
        return false;
    }
    true
}

/// Takes the word into the case.
fn take(alloc: Global, case: &mut Case, word: &str) -> Result<(), AllocError> {
    if take_setting(case, word) {
        return Ok(());
    }
    if let Some(name) = text_after(word, "special") {
        case.special.push(String::from_str(alloc, name)?)?;
        return Ok(());
    }
    let word = word.replace(alloc, "%", "\t")?;
    if !is_mode(word.as_str()) {
        case.files.push(word.clone()?)?;
    }
    case.words.push(word)?;
    Ok(())
}

pub fn case_of(alloc: Global, line: &str) -> Result<Case, AllocError> {
    let mut case = Case {
        words: Vec::new(alloc),
        files: Vec::new(alloc),
        read: 0,
        write: 0,
        replace: 0,
        special: Vec::new(alloc),
        again: false,
    };
    for word in line.split_whitespace() {
        take(alloc, &mut case, word)?;
    }
    Ok(case)
}
