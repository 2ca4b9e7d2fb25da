//! A text that grows. A want of memory is kept until the end, so that what writes has no `?` and is proved in a moment.
use jn_base::OutOfMemory;
use std::alloc::Global;

/// A text that grows.
#[derive(Drop)]
pub struct Page {
    text: String,
    alloc: Global,
    is_short: bool,
}

impl Page {
    pub fn new(alloc: Global) -> Page {
        Page {
            text: String::new(alloc),
            alloc,
            is_short: false,
        }
    }

    pub fn push(&mut self, text: &str) {
        if self.text.push_str(text).is_err() {
            self.is_short = true;
        }
    }

    pub fn alloc(&self) -> Global {
        self.alloc
    }

    /// No memory was found for something that is to be shown.
    pub fn fail(&mut self) {
        self.is_short = true;
    }

    pub fn number(&mut self, value: u32) {
        match format!(in self.alloc; "{value}") {
            Ok(text) => self.push(text.as_str()),
            Err(_) => self.is_short = true,
        }
    }

    pub fn integer(&mut self, value: i32) {
        match format!(in self.alloc; "{value}") {
            Ok(text) => self.push(text.as_str()),
            Err(_) => self.is_short = true,
        }
    }

    /// The text, if memory was found for all of it.
    pub fn finish(self) -> Result<String, OutOfMemory> {
        let Page { text, is_short, .. } = self;
        if is_short { Err(OutOfMemory) } else { Ok(text) }
    }
}
