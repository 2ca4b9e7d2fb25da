//! What becomes of the text of one file.
use jn_base::Row;
use jn_trees::{FileTree, Names};

/// What became of a file's text, which was lexed with names of its own, the known ones first.
#[derive(Drop)]
pub enum Outcome {
    /// Its first lexical fault.
    Lexical(Row),
    /// Its syntax row.
    Syntax(Row),
    /// Its names in the order of their numbers, and its tree with their numbers.
    Tree { names: Names, tree: FileTree },
}
