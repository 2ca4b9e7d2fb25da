//! Positions, ranges and locations as JSON.
ghost use Rattle.std.specs.Prelude.{◌≡◌, IfOk};
ghost use Rattle.serde_json.specs.View.{view};
ghost use Rattle.jn_lsp_messages.specs.Outgoing as spec;

use crate::uri::uri_of;
use jn_base::OutOfMemory;
use jn_lsp_text::{Position, Range};
use serde_json::{Value, json};
use std::alloc::{AllocError, Global};

#[tactic(auto, unfolding(crate::specs::Outgoing::position_data))]
pub(crate) fn position_value(alloc: Global, position: Position) -> Result<Value, AllocError>
    ensures { IfOk result (λ v. view v ≡ spec.position_data position) }
{
    json!(in alloc; {"character": position.character, "line": position.line})
}

#[tactic(auto, unfolding(crate::specs::Outgoing::range_data))]
pub(crate) fn range_value(alloc: Global, range: Range) -> Result<Value, AllocError>
    ensures { IfOk result (λ v. view v ≡ spec.range_data range) }
{
    let end = position_value(alloc, range.end)?;
    let start = position_value(alloc, range.start)?;
    json!(in alloc; {"end": end, "start": start})
}

#[tactic(auto, unfolding(crate::specs::Outgoing::location_data))]
pub(crate) fn location_value(alloc: Global, name: &str, range: Range) -> Result<Value, OutOfMemory>
    ensures { IfOk result (λ v. view v ≡ spec.location_data name.now range) }
{
    let uri = uri_of(alloc, name)?;
    let range = range_value(alloc, range)?;
    Ok(json!(in alloc; {"range": range, "uri": uri.as_str()})?)
}
