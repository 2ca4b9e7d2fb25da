//! What a client sends.
use crate::Range;
use crate::choice::Choice;
use crate::encoding::Encoding;
use crate::folders::Folders;
use crate::id::Id;
use crate::markup::Markup;
use crate::position::Position;
use jn_base::{Seq, Text};

/// A change of a document's text (TextDocumentContentChangeEvent).
#[derive(Drop)]
pub enum Change {
    /// The text is now this one.
    Whole(Seq<u8>),
    /// The text of the range is now this one.
    Part { range: Range, text: Seq<u8> },
}

/// A message of a client (Language Server Protocol 3.17), or why a body is none.
#[derive(Drop)]
pub enum Message {
    /// `initialize`: the workspace's folders, the members that are inferred by the settings (`initializationOptions.infer`), the names of
    /// files by the settings (`initializationOptions.files`), each whole or relative to the first folder, the names of folders that are left
    /// out (`initializationOptions.exclude`), how the client shows what stands at a position
    /// (`capabilities.textDocument.hover.contentFormat`), the unit of positions from then on: `utf-8` where the client offers that
    /// (`capabilities.general.positionEncodings`), else `utf-16`, and whether the client shows that work goes on where the server announces it
    /// (`capabilities.window.workDoneProgress`).
    Initialize {
        id: Id,
        folders: Folders,
        infer: Choice,
        files: Seq<Text>,
        exclude: Seq<Text>,
        markup: Markup,
        encoding: Encoding,
        progress: bool,
    },
    /// `initialized`.
    Initialized,
    /// `textDocument/didOpen`: the text is its bytes in UTF-8, and has a version where a whole number is said.
    DidOpen {
        name: Text,
        version: Option<i64>,
        text: Seq<u8>,
    },
    /// `textDocument/didChange`: the changes, each of the text after the one before, and the version of the text after them.
    DidChange {
        name: Text,
        version: Option<i64>,
        changes: Seq<Change>,
    },
    /// `textDocument/didSave`.
    DidSave {
        name: Text,
    },
    /// `textDocument/didClose`.
    DidClose {
        name: Text,
    },
    /// `workspace/didChangeWatchedFiles`.
    WatchedFiles,
    /// `textDocument/codeAction`.
    CodeAction {
        id: Id,
        name: Text,
        range: Range,
    },
    /// `textDocument/inlayHint`.
    InlayHint {
        id: Id,
        name: Text,
        range: Range,
    },
    /// `textDocument/hover`.
    Hover {
        id: Id,
        name: Text,
        position: Position,
    },
    /// `shutdown`.
    Shutdown {
        id: Id,
    },
    /// `exit`.
    Exit,
    /// A notification that the server has no use for (as `$/cancelRequest`), or a response.
    Ignored,
    /// A request that the server doesn't know.
    Unknown {
        id: Id,
    },
    /// `textDocument/didOpen` or `didChange` whose text or changes aren't as the protocol has them.
    BadDocument {
        name: Text,
    },
    /// A request, or a notification, which has no id, whose parameters aren't as the protocol has them. Such a notification is about a
    /// document that it doesn't name.
    BadParams {
        id: Option<Id>,
    },
    /// JSON, but no message of JSON-RPC 2.0.
    NoMessage,
    /// No JSON.
    NoJson,
    /// A header without a legal Content-Length.
    BadHeader,
    /// A body of more bytes than the limit.
    TooLarge,
    /// `workspace/didChangeWorkspaceFolders`: the paths of the folders that are in the workspace from now on, and of those that are no longer.
    ChangedFolders {
        added: Seq<Text>,
        removed: Seq<Text>,
    },
}
