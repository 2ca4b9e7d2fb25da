//! Inlay hints as JSON.
ghost use Rattle.std.specs.Prelude.{◌≡◌, IfOk, codes};
ghost use Rattle.serde_json.specs.Data.{boolean, member, no_members, number, object, string, unsigned};
ghost use Rattle.serde_json.specs.View.{view};
ghost use Rattle.jn_lsp_messages.specs.Outgoing as spec;

use crate::hovers::tooltip_words;
use crate::places::position_value;
use jn_base::OutOfMemory;
use jn_base::lists::put;
use jn_lsp_text::{Hint, Related};
use serde_json::{Value, json};
use std::alloc::{AllocError, Global};

/// Inlay hints, in their order.
pub(crate) fn hints_value(alloc: Global, hints: &[Hint]) -> Result<Value, OutOfMemory>
    ensures { IfOk result (λ v. view v ≡ spec.list_data spec.hint_data hints.now) }
{
    let mut items = Vec::new(alloc);
    for hint in hints {
        put(&mut items, hint_value(alloc, hint)?)?;
    }
    Ok(Value::Array(items))
}

fn hint_value(alloc: Global, hint: &Hint) -> Result<Value, OutOfMemory>
    ensures { IfOk result (λ v. view v ≡ spec.hint_data hint.now) }
{
    explained_value(alloc, hint, hint.related.as_slice())
}

/// A hint of which these places tell why.
fn explained_value(alloc: Global, hint: &Hint, related: &[Related]) -> Result<Value, OutOfMemory>
    ensures { IfOk result
        (λ v. view v ≡ spec.hint_with (spec.tooltip related.now) hint.now) }
{
    match related {
        [] => Ok(bare_value(alloc, hint)?),
        [first, more @ ..] => {
            let tooltip = tooltip_words(alloc, first, more)?;
            Ok(titled_value(alloc, hint, tooltip.as_str())?)
        }
    }
}

/// A hint without a tooltip.
#[tactic(auto, unfolding(crate::specs::Outgoing::hint_with))]
fn bare_value(alloc: Global, hint: &Hint) -> Result<Value, AllocError>
    ensures { IfOk result (λ v. view v ≡ spec.hint_with no_members hint.now) }
{
    let position = position_value(alloc, hint.at)?;
    json!(in alloc; {
        "kind": 1u32,
        "label": hint.label.as_str(),
        "paddingLeft": hint.space_before,
        "paddingRight": hint.space_behind,
        "position": position
    })
}

/// A hint with this tooltip.
#[tactic(auto, unfolding(crate::specs::Outgoing::hint_with))]
fn titled_value(alloc: Global, hint: &Hint, tooltip: &str) -> Result<Value, AllocError>
    ensures { IfOk result
        (λ v. view v ≡ spec.hint_with (spec.one (codes "tooltip") (string tooltip.now)) hint.now) }
{
    let position = position_value(alloc, hint.at)?;
    titled(
        alloc,
        hint.label.as_str(),
        hint.space_before,
        hint.space_behind,
        position,
        tooltip,
    )
}

/// The object of a hint with a tooltip, from the values of its members.
fn titled(
    alloc: Global,
    label: &str,
    space_before: bool,
    space_behind: bool,
    position: Value,
    tooltip: &str,
) -> Result<Value, AllocError>
    ensures { IfOk result (λ v. view v
        ≡ object (member (codes "kind") (number (unsigned 1))
        (member (codes "label") (string label.now)
        (member (codes "paddingLeft") (boolean space_before)
        (member (codes "paddingRight") (boolean space_behind)
        (member (codes "position") (view position)
        (member (codes "tooltip") (string tooltip.now) no_members))))))) }
{
    json!(in alloc; {
        "kind": 1u32,
        "label": label,
        "paddingLeft": space_before,
        "paddingRight": space_behind,
        "position": position,
        "tooltip": tooltip
    })
}
