//! Notes.
use jn_base::{Seq, Span};

/// A note below a row: its words, and the bytes of the text that it points to. The words end before the place. One that is joined goes on with the line
/// of the note before it; where one ends, a chain of causes does.
#[derive(Drop)]
pub struct Note {
    pub joined: bool,
    pub ends: bool,
    pub words: Seq<u8>,
    pub span: Span,
}

/// The notes that are shown of a row: at most 8 of the declarations that it speaks of, those of a fact that something made void, and at most 8 of where its
/// qualifier comes from, of which the last is where the chain ends; and how many more there are of the first or else of the last of these. Those that are left
/// out of a chain stand before its end.
#[derive(Drop)]
pub struct Notes {
    pub shown: Seq<Note>,
    pub more: usize,
}
