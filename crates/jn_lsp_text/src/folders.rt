//! Folders of a workspace.
use jn_base::{Seq, Text};

/// The folders of a client's workspace.
#[derive(Drop)]
pub struct Folders {
    /// Their paths, in the client's order (`workspaceFolders`; without any, `rootUri` or `rootPath`).
    pub paths: Seq<Text>,
    /// Whether the client watches files in them where it is asked to
    /// (`capabilities.workspace.didChangeWatchedFiles.dynamicRegistration`).
    pub watched: bool,
}
