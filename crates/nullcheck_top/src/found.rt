//! What a check of files finds.

use jn_accept::Accepted;
use jn_command::Report;
use jn_index::BaseTyped;
use jn_sigs::Sig;
use jn_trees::{FileTree, Names};

/// The report of files, and their program where they have one.
#[derive(Drop)]
pub struct Found {
    pub report: Report,
    /// The program of accepted files.
    pub accepted: Option<Accepted>,
    /// The program of files that break a rule, and its least signature.
    pub rejected: Option<(BaseTyped, Sig)>,
}

/// What is found of files, and what was read off their texts on the way, of which the trees are needed no more: whoever has the files
/// checked gives them back, or leaves them to the process's end.
#[derive(Drop)]
pub struct CheckedFiles {
    pub found: Found,
    /// The texts of their names and strings, by number; none where the files have no trees.
    pub names: Names,
    /// The trees of the files; none where some file has none.
    pub trees: Vec<FileTree>,
}
