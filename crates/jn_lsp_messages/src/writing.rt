//! Replies as bodies.
ghost use Rattle.std.specs.Prelude.{◌≡◌, IfOk, codes};
ghost use Rattle.serde_json.specs.View.{view};
ghost use Rattle.serde_json.specs.Written.{compact_text};
ghost use Rattle.jn_lsp_messages.specs.Incoming.{IsJson};
ghost use Rattle.jn_lsp_messages.specs.Outgoing as spec;

use crate::actions::actions_value;
use crate::diagnostics::diagnostics_value;
use crate::hints::hints_value;
use crate::hovers::hover_value;
use crate::progress::{announce_value, begin_value, end_value, progress_value};
use crate::uri::uri_of;
use crate::watching::watch_value;
use jn_base::{OutOfMemory, Text};
use jn_lsp_text::{Diagnostic, Encoding, Failure, Id, Reply};
use serde_json::{Value, json};
use std::alloc::{AllocError, Global};

/// The version of the server (InitializeResult, `serverInfo`).
const VERSION: &str = "0.1.0";

/// The body of a reply (JSON-RPC 2.0; Language Server Protocol 3.17): JSON without spaces that reads as what the reply tells. `address`
/// is the address of docs/CODES.md, an absolute URI without a fragment: where it is given, each diagnostic links to its code's text there
/// (`codeDescription`, shown by clients that declare `codeDescriptionSupport`).
///
/// # Errors
/// No memory was found.
pub fn write_reply(
    alloc: Global,
    address: &Option<Text>,
    reply: &Reply,
) -> Result<Vec<u8>, OutOfMemory>
    ensures reads { IfOk result (λ body. IsJson body.items (spec.data_of address.now reply.now)) }
    ensures text { IfOk result
        (λ body. body.items ≡ compact_text (spec.data_of address.now reply.now)) }
{
    let value = reply_value(alloc, address, reply)?;
    Ok(value.to_vec(alloc)?)
}

fn reply_value(alloc: Global, address: &Option<Text>, reply: &Reply) -> Result<Value, OutOfMemory>
    ensures { IfOk result (λ v. view v ≡ spec.data_of address.now reply.now) }
{
    match reply {
        Reply::Capabilities { id, encoding } => capabilities(alloc, id, *encoding),
        Reply::Done { id } => Ok(answer(alloc, id, Value::Null)?),
        Reply::Refusal { id, failure } => Ok(refusal(alloc, id, *failure)?),
        Reply::Publish {
            name,
            version,
            diagnostics,
        } => publish(
            alloc,
            address,
            name.as_str(),
            *version,
            diagnostics.as_slice(),
        ),
        Reply::Show { words } => Ok(show(alloc, words.as_str())?),
        Reply::Watch => Ok(watch_value(alloc)?),
        Reply::Actions { id, actions } => {
            let actions = actions_value(alloc, address, actions.as_slice())?;
            Ok(answer(alloc, id, actions)?)
        }
        Reply::Hints { id, hints } => {
            let hints = hints_value(alloc, hints.as_slice())?;
            Ok(answer(alloc, id, hints)?)
        }
        Reply::Hovered { id, markup, hover } => {
            let hover = hover_value(alloc, *markup, hover)?;
            Ok(answer(alloc, id, hover)?)
        }
        Reply::Announce { number } => Ok(announce_value(alloc, *number)?),
        Reply::Begin { number } => {
            let said = begin_value(alloc)?;
            Ok(progress(alloc, *number, said)?)
        }
        Reply::End { number } => {
            let said = end_value(alloc)?;
            Ok(progress(alloc, *number, said)?)
        }
    }
}

#[tactic(auto, unfolding(crate::specs::Outgoing::answer_data))]
fn answer(alloc: Global, id: &Id, value: Value) -> Result<Value, AllocError>
    ensures { IfOk result (λ v. view v ≡ spec.answer_data id.now (view value)) }
{
    let id = id_value(alloc, id)?;
    json!(in alloc; {"id": id, "jsonrpc": "2.0", "result": value})
}

fn id_value(alloc: Global, id: &Id) -> Result<Value, AllocError>
    ensures { IfOk result (λ v. view v ≡ spec.id_data id.now) }
{
    match id {
        Id::Number(number) => Ok(Value::from(*number)),
        Id::Text(text) => Value::try_from_str(alloc, text.as_str()),
    }
}

fn id_or_null(alloc: Global, id: &Option<Id>) -> Result<Value, AllocError>
    ensures { IfOk result (λ v. view v ≡ spec.id_or_null id.now) }
{
    match id {
        None => Ok(Value::Null),
        Some(id) => id_value(alloc, id),
    }
}

#[tactic(auto, unfolding(crate::specs::Outgoing::notice_data))]
fn notice(alloc: Global, method: &str, params: Value) -> Result<Value, AllocError>
    ensures { IfOk result (λ v. view v ≡ spec.notice_data method.now (view params)) }
{
    json!(in alloc; {"jsonrpc": "2.0", "method": method, "params": params})
}

#[tactic(auto, unfolding(crate::specs::Outgoing::refusal_data))]
fn refusal(alloc: Global, id: &Option<Id>, failure: Failure) -> Result<Value, AllocError>
    ensures { IfOk result (λ v. view v ≡ spec.refusal_data id.now failure) }
{
    let error = error_value(alloc, failure)?;
    let id = id_or_null(alloc, id)?;
    json!(in alloc; {"error": error, "id": id, "jsonrpc": "2.0"})
}

#[tactic(auto, unfolding(crate::specs::Outgoing::error_data))]
fn error_value(alloc: Global, failure: Failure) -> Result<Value, AllocError>
    ensures { IfOk result (λ v. view v ≡ spec.error_data failure) }
{
    json!(in alloc; {"code": failure_code(failure), "message": failure_words(failure)})
}

fn failure_code(failure: Failure) -> i32
    ensures { result ≡ spec.failure_code failure }
{
    match failure {
        Failure::Parse => -32700,
        Failure::Request => -32600,
        Failure::Method => -32601,
        Failure::Params => -32602,
        Failure::NotInitialized => -32002,
    }
}

fn failure_words(failure: Failure) -> &'static str
    ensures { result.now ≡ spec.failure_words failure }
{
    match failure {
        Failure::Parse => "this is no JSON, or has no legal header",
        Failure::Request => "this is no request that can be taken now",
        Failure::Method => "this method isn't known",
        Failure::Params => "the parameters aren't as the protocol has them",
        Failure::NotInitialized => "initialize comes first",
    }
}

/// The answer to `initialize`.
fn capabilities(alloc: Global, id: &Id, encoding: Encoding) -> Result<Value, OutOfMemory>
    ensures { IfOk result (λ v. view v ≡ spec.answer_data id.now (spec.initialize_data encoding)) }
{
    let value = initialize_value(alloc, encoding)?;
    Ok(answer(alloc, id, value)?)
}

#[tactic(auto, unfolding(crate::specs::Outgoing::initialize_data, crate::specs::Outgoing::server_data))]
fn initialize_value(alloc: Global, encoding: Encoding) -> Result<Value, AllocError>
    ensures { IfOk result (λ v. view v ≡ spec.initialize_data encoding) }
{
    let capabilities = capabilities_value(alloc, encoding)?;
    json!(in alloc; {"capabilities": capabilities, "serverInfo": {"name": "nullcheck_lsp", "version": VERSION}})
}

fn encoding_name(encoding: Encoding) -> &'static str
    ensures { result.now ≡ spec.encoding_name encoding }
{
    match encoding {
        Encoding::Utf16 => "utf-16",
        Encoding::Utf8 => "utf-8",
    }
}

#[tactic(auto, unfolding(crate::specs::Outgoing::capabilities_data))]
fn capabilities_value(alloc: Global, encoding: Encoding) -> Result<Value, AllocError>
    ensures { IfOk result (λ v. view v ≡ spec.capabilities_data encoding) }
{
    let kinds = kinds_value(alloc)?;
    let sync = sync_value(alloc)?;
    let workspace = workspace_value(alloc)?;
    json!(in alloc; {"codeActionProvider": kinds, "hoverProvider": true, "inlayHintProvider": true, "positionEncoding": encoding_name(encoding), "textDocumentSync": sync, "workspace": workspace})
}

#[tactic(auto, unfolding(crate::specs::Outgoing::kinds_data))]
fn kinds_value(alloc: Global) -> Result<Value, AllocError>
    ensures { IfOk result (λ v. view v ≡ spec.kinds_data) }
{
    json!(in alloc; {"codeActionKinds": ["quickfix"]})
}

#[tactic(auto, unfolding(crate::specs::Outgoing::workspace_data))]
fn workspace_value(alloc: Global) -> Result<Value, AllocError>
    ensures { IfOk result (λ v. view v ≡ spec.workspace_data) }
{
    json!(in alloc; {"workspaceFolders": {"changeNotifications": true, "supported": true}})
}

#[tactic(auto, unfolding(crate::specs::Outgoing::sync_data))]
fn sync_value(alloc: Global) -> Result<Value, AllocError>
    ensures { IfOk result (λ v. view v ≡ spec.sync_data) }
{
    json!(in alloc; {"change": 2u32, "openClose": true, "save": true})
}

fn publish(
    alloc: Global,
    address: &Option<Text>,
    name: &str,
    version: Option<i64>,
    diagnostics: &[Diagnostic],
) -> Result<Value, OutOfMemory>
    ensures { IfOk result (λ v.
        view v ≡ spec.notice_data (codes "textDocument/publishDiagnostics") (spec.published_data address.now name.now version diagnostics.now)) }
{
    let params = published(alloc, address, name, version, diagnostics)?;
    Ok(notice(alloc, "textDocument/publishDiagnostics", params)?)
}

#[tactic(auto, unfolding(crate::specs::Outgoing::published_data))]
fn published(
    alloc: Global,
    address: &Option<Text>,
    name: &str,
    version: Option<i64>,
    diagnostics: &[Diagnostic],
) -> Result<Value, OutOfMemory>
    ensures { IfOk result
        (λ v. view v ≡ spec.published_data address.now name.now version diagnostics.now) }
{
    let uri = uri_of(alloc, name)?;
    let diagnostics = diagnostics_value(alloc, address, diagnostics)?;
    match version {
        None => Ok(json!(in alloc; {"diagnostics": diagnostics, "uri": uri.as_str()})?),
        Some(version) => Ok(
            json!(in alloc; {"diagnostics": diagnostics, "uri": uri.as_str(), "version": version})?,
        ),
    }
}

fn show(alloc: Global, words: &str) -> Result<Value, AllocError>
    ensures { IfOk result (λ v.
        view v ≡ spec.notice_data (codes "window/showMessage") (spec.shown_data words.now)) }
{
    let params = shown(alloc, words)?;
    notice(alloc, "window/showMessage", params)
}

#[tactic(auto, unfolding(crate::specs::Outgoing::shown_data))]
fn shown(alloc: Global, words: &str) -> Result<Value, AllocError>
    ensures { IfOk result (λ v. view v ≡ spec.shown_data words.now) }
{
    json!(in alloc; {"message": words, "type": 2u32})
}

fn progress(alloc: Global, number: u32, said: Value) -> Result<Value, AllocError>
    ensures { IfOk result (λ v.
        view v ≡ spec.notice_data (codes "$/progress") (spec.progress_data number (view said))) }
{
    let params = progress_value(alloc, number, said)?;
    notice(alloc, "$/progress", params)
}
