//! Code actions as JSON.
ghost use Rattle.std.specs.Prelude.{◌≡◌, IfOk, codes};
ghost use Rattle.serde_json.specs.Data.{member, no_members, object, string};
ghost use Rattle.serde_json.specs.View.{view};
ghost use Rattle.jn_lsp_messages.specs.Outgoing as spec;

use crate::diagnostics::diagnostics_value;
use crate::places::range_value;
use crate::uri::uri_of;
use jn_base::lists::put;
use jn_base::{OutOfMemory, Text};
use jn_lsp_text::{Action, Insertion, Range};
use serde_json::{Value, json};
use std::alloc::{AllocError, Global};

/// Code actions, in their order.
pub(crate) fn actions_value(
    alloc: Global,
    address: &Option<Text>,
    actions: &[Action],
) -> Result<Value, OutOfMemory>
    ensures { IfOk result
        (λ v. view v ≡ spec.list_data (spec.action_data address.now) actions.now) }
{
    let mut items = Vec::new(alloc);
    for action in actions {
        put(&mut items, action_value(alloc, address, action)?)?;
    }
    Ok(Value::Array(items))
}

#[tactic(auto, unfolding(crate::specs::Outgoing::action_data))]
fn action_value(
    alloc: Global,
    address: &Option<Text>,
    action: &Action,
) -> Result<Value, OutOfMemory>
    ensures { IfOk result (λ v. view v ≡ spec.action_data address.now action.now) }
{
    let diagnostics = diagnostics_value(alloc, address, action.diagnostics.as_slice())?;
    let edit = edit_value(alloc, action.name.as_str(), action.insertions.as_slice())?;
    Ok(quick_fix(alloc, diagnostics, edit, action.title.as_str())?)
}

/// The object of an action, from the values of its members.
fn quick_fix(
    alloc: Global,
    diagnostics: Value,
    edit: Value,
    title: &str,
) -> Result<Value, AllocError>
    ensures { IfOk result (λ v. view v
        ≡ object (member (codes "diagnostics") (view diagnostics)
        (member (codes "edit") (view edit)
        (member (codes "kind") (string (codes "quickfix"))
        (member (codes "title") (string title.now) no_members))))) }
{
    json!(in alloc; {"diagnostics": diagnostics, "edit": edit, "kind": "quickfix", "title": title})
}

#[tactic(auto, unfolding(crate::specs::Outgoing::edit_data))]
fn edit_value(alloc: Global, name: &str, insertions: &[Insertion]) -> Result<Value, OutOfMemory>
    ensures { IfOk result (λ v. view v ≡ spec.edit_data name.now insertions.now) }
{
    let uri = uri_of(alloc, name)?;
    let edits = insertions_value(alloc, insertions)?;
    Ok(json!(in alloc; {"changes": {(uri.as_str()): edits}})?)
}

fn insertions_value(alloc: Global, insertions: &[Insertion]) -> Result<Value, AllocError>
    ensures { IfOk result
        (λ v. view v ≡ spec.list_data spec.insertion_data insertions.now) }
{
    let mut items = Vec::new(alloc);
    for insertion in insertions {
        put(&mut items, insertion_value(alloc, insertion)?)?;
    }
    Ok(Value::Array(items))
}

#[tactic(auto, unfolding(crate::specs::Outgoing::insertion_data))]
fn insertion_value(alloc: Global, insertion: &Insertion) -> Result<Value, AllocError>
    ensures { IfOk result (λ v. view v ≡ spec.insertion_data insertion.now) }
{
    let place = Range {
        start: insertion.at,
        end: insertion.at,
    };
    let range = range_value(alloc, place)?;
    json!(in alloc; {"newText": insertion.text.as_str(), "range": range})
}
