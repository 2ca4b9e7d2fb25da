//! Work that goes on, as JSON.
ghost use Rattle.std.specs.Prelude.{◌≡◌, IfOk, codes, pos};
ghost use Rattle.serde_json.specs.View.{view};
ghost use Rattle.jn_lsp_text.specs.declared.id.Id.TheVariants as id;
ghost use Rattle.jn_lsp_messages.specs.Outgoing as spec;

use serde_json::{Value, json};
use std::alloc::{AllocError, Global};

#[tactic(auto, unfolding(crate::specs::Outgoing::token_data))]
fn token_value(alloc: Global, number: u32) -> Result<Value, AllocError>
    ensures { IfOk result (λ v. view v ≡ spec.token_data number) }
{
    json!(in alloc; {"token": number})
}

/// The request to take what is said of the work of this number.
#[tactic(auto, unfolding(crate::specs::Outgoing::request_data))]
pub(crate) fn announce_value(alloc: Global, number: u32) -> Result<Value, AllocError>
    ensures { IfOk result (λ v. view v
        ≡ spec.request_data (id.Number (pos number)) (codes "window/workDoneProgress/create") (spec.token_data number)) }
{
    let token = token_value(alloc, number)?;
    json!(in alloc; {"id": number, "jsonrpc": "2.0", "method": "window/workDoneProgress/create", "params": token})
}

/// What is said where work begins.
#[tactic(auto, unfolding(crate::specs::Outgoing::begin_data))]
pub(crate) fn begin_value(alloc: Global) -> Result<Value, AllocError>
    ensures { IfOk result (λ v. view v ≡ spec.begin_data) }
{
    json!(in alloc; {"cancellable": false, "kind": "begin", "title": "nullcheck: checking"})
}

/// What is said where work ended.
#[tactic(auto, unfolding(crate::specs::Outgoing::end_data))]
pub(crate) fn end_value(alloc: Global) -> Result<Value, AllocError>
    ensures { IfOk result (λ v. view v ≡ spec.end_data) }
{
    json!(in alloc; {"kind": "end"})
}

/// What is said of the work of this number.
#[tactic(auto, unfolding(crate::specs::Outgoing::progress_data))]
pub(crate) fn progress_value(alloc: Global, number: u32, said: Value) -> Result<Value, AllocError>
    ensures { IfOk result (λ v. view v ≡ spec.progress_data number (view said)) }
{
    json!(in alloc; {"token": number, "value": said})
}
