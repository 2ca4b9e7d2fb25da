//! The bytes of a case's text: ¶ is the end of a line, «N» the byte of that number, and «N TEXT» the text N times.
use jn_base::OutOfMemory;
use std::alloc::{AllocError, Global};

/// The most times that a text is repeated.
const MOST: u32 = 1000;

/// Bytes that grow. A want of memory is kept until the end.
#[derive(Drop)]
struct Source {
    bytes: Vec<u8>,
    is_short: bool,
}

impl Source {
    fn push(&mut self, text: &[u8]) {
        if self.bytes.extend_from_slice(text).is_err() {
            self.is_short = true;
        }
    }

    /// What stands between the marks.
    fn push_marked(&mut self, marked: &str) {
        match marked.split_once(' ') {
            None => {
                if let Ok(byte) = marked.parse::<u8>() {
                    self.push(&[byte]);
                }
            }
            Some((digits, text)) => {
                if let Ok(times) = digits.parse::<u32>() {
                    for _ in 0..times.min(MOST) {
                        self.push(text.as_bytes());
                    }
                }
            }
        }
    }

    fn push_text(&mut self, text: &str) {
        for part in text.split('«') {
            match part.split_once('»') {
                None => self.push(part.as_bytes()),
                Some((marked, rest)) => {
                    self.push_marked(marked);
                    self.push(rest.as_bytes());
                }
            }
        }
    }
}

fn bytes_of(alloc: Global, before: &str, text: &str, behind: &str) -> Result<Vec<u8>, OutOfMemory> {
    let mut source = Source {
        bytes: Vec::new(alloc),
        is_short: false,
    };
    source.push(before.as_bytes());
    source.push_text(text);
    source.push(behind.as_bytes());
    let Source { bytes, is_short } = source;
    if is_short {
        Err(OutOfMemory)
    } else {
        Ok(bytes)
    }
}

fn lines_of(alloc: Global, text: &str) -> Result<String, AllocError> {
    text.replace(alloc, "¶", "\n")
}

/// The bytes of the text that a case of this kind reads: itself, or the file around it.
pub fn source_of(alloc: Global, kind: &str, text: &str) -> Result<Vec<u8>, OutOfMemory> {
    let text = lines_of(alloc, text)?;
    let (before, behind) = match kind {
        "field" => ("class A {\n\n  int x = ", ";\n}\n"),
        "method" => ("class A {\n  void f() {\n    ", "\n  }\n}\n"),
        _ => ("", ""),
    };
    bytes_of(alloc, before, &text, behind)
}
