//! What is kept of files' texts.
use jn_base::NameNo;
use jn_trees::{FileTree, Names};

/// What is kept of a file's text: its names and its tree.
#[derive(Drop)]
pub struct KeptTree {
    /// Its names in the order of their numbers, the known ones first.
    pub own: Names,
    /// The number that each of them has in the tree; none where these are their own.
    pub numbers: Option<Vec<NameNo>>,
    /// Its tree, each node where its tokens stand.
    pub tree: FileTree,
}
