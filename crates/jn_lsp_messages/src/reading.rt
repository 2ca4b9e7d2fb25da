//! Bodies as messages.
ghost use Rattle.std.specs.Prelude.{◌≡◌, Some, None, codes, IfOk, MatchOption};
ghost use Rattle.serde_json.specs.View.{view};
ghost use Rattle.jn_lsp_messages.specs.Incoming as spec;

use crate::folders::{added_in, folders_in, removed_in};
use crate::method::{Method, method_of};
use crate::params::{
    changes_in, document_name, document_text, document_version, encoding_in, exclude_in, files_in,
    infer_in, markup_in, named_position, named_range, progress_in, text_in,
};
use jn_base::{OutOfMemory, Text};
use jn_lsp_text::{Id, Message};
use serde_json::Value;
use std::alloc::Global;

/// Which message a body is (JSON-RPC 2.0; Language Server Protocol 3.17).
pub fn read_message(alloc: Global, body: &[u8]) -> Result<Message, OutOfMemory>
    ensures { IfOk result (spec.IsMessage body.now) }
{
    match parse(alloc, body)? {
        None => Ok(Message::NoJson),
        Some(value) => message_of(alloc, &value),
    }
}

/// The JSON that a body is.
fn parse(alloc: Global, body: &[u8]) -> Result<Option<Value>, OutOfMemory>
    ensures { IfOk result (λ found.
        MatchOption found (spec.IsNoJson body.now) (λ v. spec.IsJson body.now (view v))) }
{
    match Value::from_slice(alloc, body) {
        Ok(value) => Ok(Some(value)),
        Err(error) => {
            if error.is_memory() {
                Err(OutOfMemory)
            } else {
                Ok(None)
            }
        }
    }
}

#[tactic(auto, unfolding(crate::specs::Incoming::message_of))]
fn message_of(alloc: Global, body: &Value) -> Result<Message, OutOfMemory>
    ensures { IfOk result (λ m. m ≡ spec.message_of (view body.now)) }
{
    if !is_version(body) {
        return Ok(Message::NoMessage);
    }
    match body.get("id") {
        None => without_id(alloc, body),
        Some(id) => by_id(alloc, id, body),
    }
}

fn is_version(body: &Value) -> bool
    ensures { result ≡ spec.is_version (spec.text_in (codes "jsonrpc") (view body.now)) }
{
    match text_in(body, "jsonrpc") {
        None => false,
        Some(version) => version == "2.0",
    }
}

fn without_id(alloc: Global, body: &Value) -> Result<Message, OutOfMemory>
    ensures { IfOk result (λ m. m ≡ spec.by_id None (view body.now)) }
{
    match text_in(body, "method") {
        None => Ok(response(body)),
        Some(method) => notification(alloc, method_of(method), body),
    }
}

fn by_id(alloc: Global, id: &Value, body: &Value) -> Result<Message, OutOfMemory>
    ensures { IfOk result (λ m. m ≡ spec.by_id (Some (view id.now)) (view body.now)) }
{
    match id_of(alloc, id)? {
        None => Ok(Message::NoMessage),
        Some(id) => with_id(alloc, id, body),
    }
}

fn with_id(alloc: Global, id: Id, body: &Value) -> Result<Message, OutOfMemory>
    ensures { IfOk result (λ m.
        m ≡ spec.with_id (Some id) (spec.text_in (codes "method") (view body.now)) (view body.now)) }
{
    match text_in(body, "method") {
        None => Ok(response(body)),
        Some(method) => request(alloc, method_of(method), id, body),
    }
}

fn response(body: &Value) -> Message
    ensures { result ≡ spec.response (view body.now) }
{
    if body.get("result").is_some() || body.get("error").is_some() {
        Message::Ignored
    } else {
        Message::NoMessage
    }
}

fn id_of(alloc: Global, value: &Value) -> Result<Option<Id>, OutOfMemory>
    ensures { IfOk result (λ id. id ≡ spec.id_of (view value.now)) }
{
    if let Some(number) = value.as_i64() {
        return Ok(Some(Id::Number(number)));
    }
    match value.as_str() {
        None => Ok(None),
        Some(text) => Ok(Some(Id::Text(Text::of_str(alloc, text)?))),
    }
}

fn notification(alloc: Global, method: Method, body: &Value) -> Result<Message, OutOfMemory>
    ensures { IfOk result (λ m. m ≡ spec.notification method (view body.now)) }
{
    match method {
        Method::Initialized => Ok(Message::Initialized),
        Method::DidOpen => did_open(alloc, body),
        Method::DidChange => did_change(alloc, body),
        Method::DidSave => did_save(alloc, body),
        Method::DidClose => did_close(alloc, body),
        Method::WatchedFiles => Ok(Message::WatchedFiles),
        Method::ChangedFolders => did_change_folders(alloc, body),
        Method::Exit => Ok(Message::Exit),
        Method::Initialize
        | Method::CodeAction
        | Method::InlayHint
        | Method::Hover
        | Method::Shutdown
        | Method::Other => Ok(Message::Ignored),
    }
}

fn did_open(alloc: Global, body: &Value) -> Result<Message, OutOfMemory>
    ensures { IfOk result (λ m. m ≡ spec.notification Method.DidOpen (view body.now)) }
{
    let Some(name) = document_name(alloc, body)? else {
        return Ok(Message::BadParams { id: None });
    };
    match document_text(alloc, body)? {
        None => Ok(Message::BadDocument { name }),
        Some(text) => Ok(Message::DidOpen {
            name,
            version: document_version(body),
            text,
        }),
    }
}

fn did_change(alloc: Global, body: &Value) -> Result<Message, OutOfMemory>
    ensures { IfOk result (λ m. m ≡ spec.notification Method.DidChange (view body.now)) }
{
    let Some(name) = document_name(alloc, body)? else {
        return Ok(Message::BadParams { id: None });
    };
    match changes_in(alloc, body)? {
        None => Ok(Message::BadDocument { name }),
        Some(changes) => Ok(Message::DidChange {
            name,
            version: document_version(body),
            changes,
        }),
    }
}

fn did_save(alloc: Global, body: &Value) -> Result<Message, OutOfMemory>
    ensures { IfOk result (λ m. m ≡ spec.notification Method.DidSave (view body.now)) }
{
    match document_name(alloc, body)? {
        None => Ok(Message::BadParams { id: None }),
        Some(name) => Ok(Message::DidSave { name }),
    }
}

fn did_close(alloc: Global, body: &Value) -> Result<Message, OutOfMemory>
    ensures { IfOk result (λ m. m ≡ spec.notification Method.DidClose (view body.now)) }
{
    match document_name(alloc, body)? {
        None => Ok(Message::BadParams { id: None }),
        Some(name) => Ok(Message::DidClose { name }),
    }
}

fn did_change_folders(alloc: Global, body: &Value) -> Result<Message, OutOfMemory>
    ensures { IfOk result (λ m. m ≡ spec.notification Method.ChangedFolders (view body.now)) }
{
    let Some(added) = added_in(alloc, body)? else {
        return Ok(Message::BadParams { id: None });
    };
    match removed_in(alloc, body)? {
        None => Ok(Message::BadParams { id: None }),
        Some(removed) => Ok(Message::ChangedFolders { added, removed }),
    }
}

fn request(alloc: Global, method: Method, id: Id, body: &Value) -> Result<Message, OutOfMemory>
    ensures { IfOk result (λ m. m ≡ spec.request method id (view body.now)) }
{
    match method {
        Method::Initialize => initialize(alloc, id, body),
        Method::CodeAction => code_action(alloc, id, body),
        Method::InlayHint => inlay_hint(alloc, id, body),
        Method::Hover => hover(alloc, id, body),
        Method::Shutdown => Ok(Message::Shutdown { id }),
        Method::Initialized
        | Method::DidOpen
        | Method::DidChange
        | Method::DidSave
        | Method::DidClose
        | Method::WatchedFiles
        | Method::ChangedFolders
        | Method::Exit
        | Method::Other => Ok(Message::Unknown { id }),
    }
}

fn initialize(alloc: Global, id: Id, body: &Value) -> Result<Message, OutOfMemory>
    ensures { IfOk result (λ m. m ≡ spec.request Method.Initialize id (view body.now)) }
{
    let infer = infer_in(body);
    let markup = markup_in(body);
    let encoding = encoding_in(body);
    let progress = progress_in(body);
    let Some(folders) = folders_in(alloc, body)? else {
        return Ok(Message::BadParams { id: Some(id) });
    };
    let Some(files) = files_in(alloc, body)? else {
        return Ok(Message::BadParams { id: Some(id) });
    };
    match exclude_in(alloc, body)? {
        None => Ok(Message::BadParams { id: Some(id) }),
        Some(exclude) => Ok(Message::Initialize {
            id,
            folders,
            infer,
            files,
            exclude,
            markup,
            encoding,
            progress,
        }),
    }
}

fn code_action(alloc: Global, id: Id, body: &Value) -> Result<Message, OutOfMemory>
    ensures { IfOk result (λ m. m ≡ spec.request Method.CodeAction id (view body.now)) }
{
    let Some(name) = document_name(alloc, body)? else {
        return Ok(Message::BadParams { id: Some(id) });
    };
    match named_range(body) {
        None => Ok(Message::BadParams { id: Some(id) }),
        Some(range) => Ok(Message::CodeAction { id, name, range }),
    }
}

fn inlay_hint(alloc: Global, id: Id, body: &Value) -> Result<Message, OutOfMemory>
    ensures { IfOk result (λ m. m ≡ spec.request Method.InlayHint id (view body.now)) }
{
    let Some(name) = document_name(alloc, body)? else {
        return Ok(Message::BadParams { id: Some(id) });
    };
    match named_range(body) {
        None => Ok(Message::BadParams { id: Some(id) }),
        Some(range) => Ok(Message::InlayHint { id, name, range }),
    }
}

fn hover(alloc: Global, id: Id, body: &Value) -> Result<Message, OutOfMemory>
    ensures { IfOk result (λ m. m ≡ spec.request Method.Hover id (view body.now)) }
{
    let Some(name) = document_name(alloc, body)? else {
        return Ok(Message::BadParams { id: Some(id) });
    };
    match named_position(body) {
        None => Ok(Message::BadParams { id: Some(id) }),
        Some(position) => Ok(Message::Hover { id, name, position }),
    }
}
