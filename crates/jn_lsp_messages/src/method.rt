//! Methods of requests and notifications.
ghost use Rattle.std.specs.Prelude.{◌≡◌};
ghost use Rattle.jn_lsp_messages.specs.Methods as spec;

/// A method that the server knows (Language Server Protocol 3.17), by the protocol's name of it.
#[derive(Clone, Copy, Debug, PartialEq, Eq)]
pub enum Method {
    /// `initialize`.
    Initialize,
    /// `initialized`.
    Initialized,
    /// `textDocument/didOpen`.
    DidOpen,
    /// `textDocument/didChange`.
    DidChange,
    /// `textDocument/didSave`.
    DidSave,
    /// `textDocument/didClose`.
    DidClose,
    /// `workspace/didChangeWatchedFiles`.
    WatchedFiles,
    /// `textDocument/codeAction`.
    CodeAction,
    /// `textDocument/inlayHint`.
    InlayHint,
    /// `textDocument/hover`.
    Hover,
    /// `shutdown`.
    Shutdown,
    /// `exit`.
    Exit,
    /// Any other.
    Other,
    /// `workspace/didChangeWorkspaceFolders`.
    ChangedFolders,
}

/// The method of a name.
#[tactic(auto, unfolding(crate::specs::Methods::method_of))]
pub fn method_of(name: &str) -> Method
    ensures { result ≡ spec.method_of name.now }
{
    match name {
        "initialize" => Method::Initialize,
        "initialized" => Method::Initialized,
        "textDocument/didOpen" => Method::DidOpen,
        "textDocument/didChange" => Method::DidChange,
        "textDocument/didSave" => Method::DidSave,
        "textDocument/didClose" => Method::DidClose,
        "workspace/didChangeWatchedFiles" => Method::WatchedFiles,
        "textDocument/codeAction" => Method::CodeAction,
        "textDocument/inlayHint" => Method::InlayHint,
        "textDocument/hover" => Method::Hover,
        "shutdown" => Method::Shutdown,
        "exit" => Method::Exit,
        "workspace/didChangeWorkspaceFolders" => Method::ChangedFolders,
        _ => Method::Other,
    }
}
