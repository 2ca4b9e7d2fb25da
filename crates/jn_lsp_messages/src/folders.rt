//! The folders of a workspace, as messages name them.
ghost use Rattle.std.specs.Prelude.{◌≡◌, IfOk, option_to_list};
ghost use Rattle.serde_json.specs.Find.{as_bool};
ghost use Rattle.serde_json.specs.View.{items_view, view};
ghost use Rattle.jn_lsp_messages.specs.Incoming as spec;

use crate::params::{name_at, text_at, text_in};
use crate::uri::name_of;
use jn_base::{OutOfMemory, Seq, Text};
use jn_lsp_text::Folders;
use serde_json::Value;
use std::alloc::Global;

/// The workspace's folders by `initialize`.
#[tactic(auto, unfolding(crate::specs::Incoming::folders_in))]
pub(crate) fn folders_in(alloc: Global, body: &Value) -> Result<Option<Folders>, OutOfMemory>
    ensures { IfOk result (λ folders. folders ≡ spec.folders_in (view body.now)) }
{
    match paths_in(alloc, body)? {
        None => Ok(None),
        Some(paths) => Ok(Some(folders_of(alloc, body, paths)?)),
    }
}

fn folders_of(alloc: Global, body: &Value, paths: Seq<Text>) -> Result<Folders, OutOfMemory>
    ensures { IfOk result (λ folders. folders ≡ spec.folders_of (view body.now) paths) }
{
    let paths = or_root(alloc, body, paths)?;
    Ok(Folders {
        paths,
        watched: watched_in(body),
    })
}

/// These paths; without any that of the root, where one is named.
fn or_root(alloc: Global, body: &Value, paths: Seq<Text>) -> Result<Seq<Text>, OutOfMemory>
    ensures { IfOk result (λ all. all ≡ spec.or_root (spec.root_in (view body.now)) paths) }
{
    match paths.as_slice() {
        [] => root_alone(alloc, body),
        _ => Ok(paths),
    }
}

fn root_alone(alloc: Global, body: &Value) -> Result<Seq<Text>, OutOfMemory>
    ensures { IfOk result (λ all. all ≡ option_to_list (spec.root_in (view body.now))) }
{
    let mut paths = Seq::new(alloc);
    if let Some(root) = root_in(alloc, body)? {
        paths.push(root)?;
    }
    Ok(paths)
}

#[tactic(auto, unfolding(crate::specs::Incoming::root_in))]
fn root_in(alloc: Global, body: &Value) -> Result<Option<Text>, OutOfMemory>
    ensures { IfOk result (λ folder. folder ≡ spec.root_in (view body.now)) }
{
    match name_at(alloc, body, "/params/rootUri")? {
        Some(folder) => Ok(Some(folder)),
        None => root_path(alloc, body),
    }
}

#[tactic(auto, unfolding(crate::specs::Incoming::root_path))]
fn root_path(alloc: Global, body: &Value) -> Result<Option<Text>, OutOfMemory>
    ensures { IfOk result (λ folder. folder ≡ spec.root_path (view body.now)) }
{
    match text_at(body, "/params/rootPath") {
        None => Ok(None),
        Some(path) => Ok(Some(Text::of_str(alloc, path)?)),
    }
}

/// The paths of the folders that are named, none where none are.
#[tactic(auto, unfolding(crate::specs::Incoming::paths_in))]
fn paths_in(alloc: Global, body: &Value) -> Result<Option<Seq<Text>>, OutOfMemory>
    ensures { IfOk result (λ paths. paths ≡ spec.paths_in (view body.now)) }
{
    match body.pointer("/params/workspaceFolders") {
        None => Ok(Some(Seq::new(alloc))),
        Some(folders) if folders.is_null() => Ok(Some(Seq::new(alloc))),
        Some(folders) => all_paths(alloc, folders),
    }
}

/// The paths of the folders that are in the workspace from now on.
#[tactic(auto, unfolding(crate::specs::Incoming::added_in))]
pub(crate) fn added_in(alloc: Global, body: &Value) -> Result<Option<Seq<Text>>, OutOfMemory>
    ensures { IfOk result (λ paths. paths ≡ spec.added_in (view body.now)) }
{
    match body.pointer("/params/event/added") {
        None => Ok(None),
        Some(folders) => all_paths(alloc, folders),
    }
}

/// The paths of the folders that are in the workspace no longer.
#[tactic(auto, unfolding(crate::specs::Incoming::removed_in))]
pub(crate) fn removed_in(alloc: Global, body: &Value) -> Result<Option<Seq<Text>>, OutOfMemory>
    ensures { IfOk result (λ paths. paths ≡ spec.removed_in (view body.now)) }
{
    match body.pointer("/params/event/removed") {
        None => Ok(None),
        Some(folders) => all_paths(alloc, folders),
    }
}

fn all_paths(alloc: Global, value: &Value) -> Result<Option<Seq<Text>>, OutOfMemory>
    ensures { IfOk result (λ paths. paths ≡ spec.all_values spec.path_in (view value.now)) }
{
    match value.as_array() {
        None => Ok(None),
        Some(items) => paths_of(alloc, items),
    }
}

fn paths_of(alloc: Global, items: &[Value]) -> Result<Option<Seq<Text>>, OutOfMemory>
    ensures { IfOk result (λ paths. paths ≡ spec.all_of spec.path_in (items_view items.now)) }
{
    let mut paths = Seq::new(alloc);
    for item in items {
        let Some(path) = path_in(alloc, item)? else {
            return Ok(None);
        };
        paths.push(path)?;
    }
    Ok(Some(paths))
}

fn path_in(alloc: Global, folder: &Value) -> Result<Option<Text>, OutOfMemory>
    ensures { IfOk result (λ path. path ≡ spec.path_in (view folder.now)) }
{
    match text_in(folder, "uri") {
        None => Ok(None),
        Some(uri) => Ok(Some(name_of(alloc, uri)?)),
    }
}

/// Whether the client watches files where it is asked to.
#[tactic(auto, unfolding(crate::specs::Incoming::watched_in))]
fn watched_in(body: &Value) -> bool
    ensures { result ≡ spec.watched_in (view body.now) }
{
    match body.pointer("/params/capabilities/workspace/didChangeWatchedFiles/dynamicRegistration") {
        None => false,
        Some(watches) => is_true(watches),
    }
}

pub(crate) fn is_true(value: &Value) -> bool
    ensures { result ≡ spec.is_true (as_bool (view value.now)) }
{
    match value.as_bool() {
        None => false,
        Some(truth) => truth,
    }
}
