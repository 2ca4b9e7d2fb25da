//! A text that grows. A want of memory is kept until the end, so that what writes has no `?` and is proved in a moment.
use jn_base::{OutOfMemory, Span};
use std::alloc::Global;

/// What is shown of a tree.
#[derive(Clone, Copy)]
pub enum Shown {
    /// Its shape.
    Shapes,
    /// Its shape, and before each node and each name `from..to:`, the bytes that it takes.
    Places,
    /// Two dots.
    Nothing,
}

/// A text that grows.
#[derive(Drop)]
pub struct Page {
    text: String,
    alloc: Global,
    shown: Shown,
    is_short: bool,
}

impl Page {
    pub fn new(alloc: Global, shown: Shown) -> Page {
        Page {
            text: String::new(alloc),
            alloc,
            shown,
            is_short: false,
        }
    }

    pub fn push(&mut self, text: &str) {
        if self.text.push_str(text).is_err() {
            self.is_short = true;
        }
    }

    pub fn put(&mut self, texts: &[&str]) {
        if !matches!(self.shown, Shown::Nothing) {
            for text in texts {
                self.push(text);
            }
        }
    }

    pub fn number(&mut self, value: u32) {
        match format!(in self.alloc; "{value}") {
            Ok(text) => self.put(&[text.as_str()]),
            Err(_) => self.is_short = true,
        }
    }

    /// The bytes of a node, where they are shown.
    pub fn place(&mut self, span: Span) {
        if matches!(self.shown, Shown::Places) {
            self.number(span.from);
            self.push("..");
            self.number(span.to);
            self.push(":");
        }
    }

    /// The text, if memory was found for all of it.
    pub fn finish(self) -> Result<String, OutOfMemory> {
        let mut page = self;
        if matches!(page.shown, Shown::Nothing) {
            page.push("..");
        }
        let Page { text, is_short, .. } = page;
        if is_short { Err(OutOfMemory) } else { Ok(text) }
    }
}
