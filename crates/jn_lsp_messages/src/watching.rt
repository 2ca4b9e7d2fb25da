//! The request to tell of files that change, as JSON.
ghost use Rattle.std.specs.Prelude.{◌≡◌, IfOk, codes};
ghost use Rattle.serde_json.specs.View.{view};
ghost use Rattle.jn_lsp_text.specs.declared.id.Id.TheVariants as id;
ghost use Rattle.jn_lsp_messages.specs.Outgoing as spec;

use serde_json::{Value, json};
use std::alloc::{AllocError, Global};

#[tactic(auto, unfolding(crate::specs::Outgoing::watchers_data))]
fn watchers_value(alloc: Global) -> Result<Value, AllocError>
    ensures { IfOk result (λ v. view v ≡ spec.watchers_data) }
{
    json!(in alloc; {"watchers": [{"globPattern": "**/*.java"}]})
}

#[tactic(auto, unfolding(crate::specs::Outgoing::registration_data))]
fn registration_value(alloc: Global) -> Result<Value, AllocError>
    ensures { IfOk result (λ v. view v ≡ spec.registration_data) }
{
    let watchers = watchers_value(alloc)?;
    json!(in alloc; {"id": "java-files", "method": "workspace/didChangeWatchedFiles", "registerOptions": watchers})
}

#[tactic(auto, unfolding(crate::specs::Outgoing::registrations_data))]
fn registrations_value(alloc: Global) -> Result<Value, AllocError>
    ensures { IfOk result (λ v. view v ≡ spec.registrations_data) }
{
    let registration = registration_value(alloc)?;
    json!(in alloc; {"registrations": [registration]})
}

/// The request to tell of Java files that change.
#[tactic(auto, unfolding(crate::specs::Outgoing::request_data))]
pub(crate) fn watch_value(alloc: Global) -> Result<Value, AllocError>
    ensures { IfOk result (λ v. view v
        ≡ spec.request_data (id.Text (codes "watch")) (codes "client/registerCapability") spec.registrations_data) }
{
    let registrations = registrations_value(alloc)?;
    json!(in alloc; {"id": "watch", "jsonrpc": "2.0", "method": "client/registerCapability", "params": registrations})
}
