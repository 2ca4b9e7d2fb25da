//! A program before its host.
ghost use Rattle.std.specs.Prelude.{◌≡◌};
ghost use Rattle.jn_host.specs.Ends as spec;

use jn_base::OutOfMemory;
use jn_outside::HostFault;
use std::alloc::Global;
use std::env::{self, Env};
use std::fmt::Display;
use std::io::{self, ErrorKind};

/// Why there are no words to go by.
#[derive(Clone, Copy, Debug, PartialEq, Eq)]
pub enum NoWords {
    /// No memory was found for them.
    OutOfMemory,
    /// One of them isn't text.
    NotText,
}

impl NoWords {
    /// The number with which the program then ends.
    pub fn number(self) -> u8
        ensures { result ≡ spec.number self }
    {
        match self {
            NoWords::OutOfMemory => 7,
            NoWords::NotText => 8,
        }
    }
}

/// The host of a program, under whose name it speaks on standard error.
#[derive(Drop)]
pub struct Host<'a, R> {
    rt: &'a R,
    name: &'a str,
}

impl<'a, R: Env + Alloc<A = Global> + Eprint> Host<'a, R> {
    /// The host of the program of this name.
    pub fn new(rt: &'a R, name: &'a str) -> Host<'a, R> {
        Host { rt, name }
    }

    /// What the program runs on.
    pub fn rt(&self) -> &'a R {
        self.rt
    }

    /// Says a line.
    pub fn say<D: Display + Drop>(&self, line: D) {
        let name = self.name;
        let _said = eprintln!(self.rt; "{name}: {line}");
    }

    /// Says that no memory was found.
    pub fn no_memory(&self) {
        self.say("no memory was found");
    }

    /// Says why words are no command's, or that no memory was found to say it.
    pub fn refused(&self, reason: Result<String, OutOfMemory>) {
        match reason {
            Ok(reason) => self.say(reason),
            Err(OutOfMemory) => self.no_memory(),
        }
    }

    /// Says what can't be done with a file, how the file is then, and why.
    pub fn cannot(&self, call: &str, name: &Option<String>, state: &str, reason: io::Error) {
        let name = match name {
            Some(name) => name.as_str(),
            None => "a file",
        };
        self.say(format_args!("can't {call} {name}{state}: {reason}"));
    }

    /// Says which file is to be removed, where one stands in the way.
    pub fn in_the_way(&self, file: &Option<String>) {
        if let Some(file) = file {
            let file = file.as_str();
            self.say(format_args!("{file} stands in the way: remove it"));
        }
    }

    /// Says which file couldn't be opened or read, and why.
    pub fn cannot_read(&self, fault: Option<&HostFault>) {
        let Some(fault) = fault else {
            return self.say("a file can't be read");
        };
        let call = if fault.opening { "open" } else { "read" };
        self.cannot(call, &fault.name, "", fault.reason);
    }

    /// Says why standard input can't be read.
    pub fn cannot_hear(&self, reason: Option<io::Error>) {
        match reason {
            Some(reason) => self.say(format_args!("can't read standard input: {reason}")),
            None => self.say("can't read standard input"),
        }
    }

    /// Says why standard output can't be written.
    pub fn cannot_write(&self, reason: Option<io::Error>) {
        match reason {
            Some(reason) => self.say(format_args!("can't write to standard output: {reason}")),
            None => self.say("can't write to standard output"),
        }
    }

    /// The words after the program's name.
    ///
    /// # Errors
    ///
    /// A word isn't text, or no memory was found for them; a line says which.
    pub fn words(&self) -> Result<Vec<String>, NoWords> {
        match listed(self.rt) {
            Ok(words) => Ok(words),
            Err(error) if error.kind() == ErrorKind::OutOfMemory => {
                self.no_memory();
                Err(NoWords::OutOfMemory)
            }
            Err(_) => {
                self.say("a word of the command line isn't text");
                Err(NoWords::NotText)
            }
        }
    }
}

/// The words after the program's name.
fn listed<R: Env + Alloc<A = Global>>(rt: &R) -> io::Result<Vec<String>> {
    let mut words = Vec::new(rt.alloc());
    for word in env::args(rt)?.skip(1) {
        words.push(word)?;
    }
    Ok(words)
}
