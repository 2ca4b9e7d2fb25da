//! What the server sends.
use crate::encoding::Encoding;
use crate::id::Id;
use crate::markup::Markup;
use crate::{Position, Range};
use jn_base::{Code, Seq, Text};

/// Why a request is refused: the error codes of JSON-RPC 2.0 (section 5.1) and of the protocol.
#[derive(Clone, Copy, Debug, PartialEq, Eq)]
pub enum Failure {
    /// ParseError, -32700.
    Parse,
    /// InvalidRequest, -32600.
    Request,
    /// MethodNotFound, -32601.
    Method,
    /// InvalidParams, -32602.
    Params,
    /// ServerNotInitialized, -32002.
    NotInitialized,
}

/// What a diagnostic says.
#[derive(Drop)]
pub enum Said {
    /// A row of the report, an error: message and cure are the code's.
    Row(Code),
    /// Why the file isn't checked, in words: information.
    Unchecked(Text),
}

/// What is said at a place of the text.
#[derive(Drop)]
pub struct Diagnostic {
    pub range: Range,
    pub said: Said,
    /// Places that tell why.
    pub related: Seq<Related>,
}

/// A place of a file, and what it has to do with a diagnostic, in words.
#[derive(Drop)]
pub struct Related {
    pub name: Text,
    pub range: Range,
    pub words: Text,
}

/// An edit of one file that a client may make: a title, what it mends, and insertions into the text as it stands.
#[derive(Drop)]
pub struct Action {
    pub title: Text,
    /// The diagnostics of the rows for which it is offered (CodeAction, `diagnostics`).
    pub diagnostics: Seq<Diagnostic>,
    pub name: Text,
    pub insertions: Seq<Insertion>,
}

/// A text that is put in at a position.
#[derive(Drop)]
pub struct Insertion {
    pub at: Position,
    pub text: Text,
}

/// Words that an editor shows at a position of a text in which they aren't written (InlayHint).
#[derive(Drop)]
pub struct Hint {
    pub at: Position,
    /// The words, without the space before them and the one after them.
    pub label: Text,
    /// A space stands before them (`paddingLeft`).
    pub space_before: bool,
    /// A space stands after them (`paddingRight`).
    pub space_behind: bool,
    /// Places that tell why (`tooltip`).
    pub related: Seq<Related>,
}

/// What is shown of a range of a text (Hover): in words, and places that tell why.
#[derive(Drop)]
pub struct Hover {
    pub range: Range,
    pub words: Text,
    pub related: Seq<Related>,
}

/// A message of the server (Language Server Protocol 3.17).
#[derive(Drop)]
pub enum Reply {
    /// The answer to `initialize`: what the server can do, and the unit of positions from then on (`positionEncoding`).
    Capabilities {
        id: Id,
        encoding: Encoding,
    },
    /// The answer to a request without a result (`shutdown`).
    Done {
        id: Id,
    },
    /// The answer to a request that is refused. There is no id where none was read.
    Refusal {
        id: Option<Id>,
        failure: Failure,
    },
    /// `textDocument/publishDiagnostics`: all that is told of the file from now on, and the version of its text, where it is open with one.
    Publish {
        name: Text,
        version: Option<i64>,
        diagnostics: Seq<Diagnostic>,
    },
    /// `window/showMessage`: a warning.
    Show {
        words: Text,
    },
    /// `client/registerCapability`: a request to tell of Java files that change (`workspace/didChangeWatchedFiles`).
    Watch,
    /// The answer to `textDocument/codeAction`.
    Actions {
        id: Id,
        actions: Seq<Action>,
    },
    /// The answer to `textDocument/inlayHint`.
    Hints {
        id: Id,
        hints: Seq<Hint>,
    },
    /// The answer to `textDocument/hover`: in this form, where anything is shown.
    Hovered {
        id: Id,
        markup: Markup,
        hover: Option<Hover>,
    },
    /// `window/workDoneProgress/create`: a request to take what is said of the work of this number. The number is the request's id, too.
    Announce {
        number: u32,
    },
    /// `$/progress` where the work of this number begins (WorkDoneProgressBegin): files are checked.
    Begin {
        number: u32,
    },
    /// `$/progress` where the work of this number ended (WorkDoneProgressEnd).
    End {
        number: u32,
    },
}
