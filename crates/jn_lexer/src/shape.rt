//! What a scan finds at the front of a text.
use jn_base::Code;
use jn_trees::TokenKind;

/// What a token's word is.
#[derive(Clone, Copy, Debug, PartialEq, Eq)]
pub enum Shape {
    /// An identifier.
    Word,
    /// A string with its quotes.
    Quoted,
    /// A number, by its value.
    Number(u32),
    /// A token that has one spelling.
    Fixed(TokenKind),
}

/// A token at the front of a text, and how many characters it has.
#[derive(Clone, Copy, Debug, PartialEq, Eq)]
pub struct Found {
    pub shape: Shape,
    pub count: usize,
}

/// A fault, and how many characters of the text stand before it.
#[derive(Clone, Copy, Debug, PartialEq, Eq)]
pub struct Fault {
    pub code: Code,
    pub before: usize,
}

/// What stands at the front of a text where a token may begin.
#[derive(Clone, Copy, Debug, PartialEq, Eq)]
pub enum Step {
    /// White space or a comment, of so many characters.
    Of(usize),
    /// Neither.
    Ends,
    /// A comment that isn't closed.
    Opens,
}

/// The next token of a text: how many characters of white space and comments stand before it, how many are its own, and the bytes of the file from which and up to which it goes.
#[derive(Clone, Copy, Debug, PartialEq, Eq)]
pub struct Spelled {
    pub shape: Shape,
    pub gap: usize,
    pub count: usize,
    pub from: u32,
    pub to: u32,
}
