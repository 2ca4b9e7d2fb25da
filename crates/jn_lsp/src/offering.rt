//! The actions that are offered at a range of a file.
ghost use Rattle.std.specs.Prelude.{◌≡◌, IfOk};
ghost use Rattle.jn_lsp.specs.Serving as spec;

use crate::diagnostics::Told;
use crate::documents::Workspace;
use crate::phase::Phase;
use crate::publishing::told_of;
use crate::reporting::WORKERS;
use crate::standing::stand;
use crate::unknown::is_empty;
use jn_base::{OutOfMemory, Seq};
use jn_lsp_actions::actions_for;
use jn_lsp_actions::asking::meets;
use jn_lsp_text::{Action, Diagnostic, Message, Range};
use jn_sharing::{Gate, Workers};
use std::alloc::Global;
use std::thread::Threads;

fn is_at(diagnostic: &Diagnostic, range: Range) -> bool
    ensures { result ≡ spec.is_at range diagnostic.now }
{
    meets(diagnostic.range, range)
}

/// Whether a diagnostic that is told of the name meets the range.
fn is_told_at(told: &[Told], name: &str, range: Range) -> bool
    ensures { result ≡ spec.is_told_at told.now name.now range }
{
    told_of(told, name)
        .iter()
        .any(|diagnostic| is_at(diagnostic, range))
}

/// The actions of the files as they stand at a range of the file of a name: none while a document's text isn't known. Files are checked for them only
/// where something is told there, since editors ask at each move of the cursor.
fn actions_at<R: Threads + Sync, G: Gate + Sync>(
    rt: &R,
    gate: &G,
    alloc: Global,
    told: &[Told],
    workspace: &Workspace,
    name: &str,
    range: Range,
) -> Result<Seq<Action>, OutOfMemory>
    ensures { IfOk result (λ actions. spec.AreActionsIf workspace.now.infer workspace.now.encoding
        (spec.is_offered told.now workspace.now name.now range)
        (spec.files_of workspace.now) name.now range actions) }
{
    if is_empty(workspace.unknown.as_slice()) && is_told_at(told, name, range) {
        let files = stand(alloc, workspace)?;
        let actions = actions_for(
            rt,
            gate,
            alloc,
            Workers::of(WORKERS),
            workspace.infer,
            workspace.encoding,
            &files,
            name,
            range,
        )?;
        Ok(actions)
    } else {
        Ok(Seq::new(alloc))
    }
}

/// The actions for a message: those for a request of actions.
fn actions_for_message<R: Threads + Sync, G: Gate + Sync>(
    rt: &R,
    gate: &G,
    alloc: Global,
    told: &[Told],
    workspace: &Workspace,
    message: &Message,
) -> Result<Seq<Action>, OutOfMemory>
    ensures { IfOk result (λ actions. spec.AreActionsFor told.now workspace.now
        message.now actions) }
{
    match message {
        Message::CodeAction { name, range, .. } => {
            actions_at(rt, gate, alloc, told, workspace, name.as_str(), *range)
        }
        _ => Ok(Seq::new(alloc)),
    }
}

/// The actions for a message that is taken in this phase.
pub(crate) fn offered<R: Threads + Sync, G: Gate + Sync>(
    rt: &R,
    gate: &G,
    alloc: Global,
    phase: Phase,
    told: &[Told],
    workspace: &Workspace,
    message: &Message,
) -> Result<Seq<Action>, OutOfMemory>
    ensures { IfOk result (λ actions. spec.AreActionsIn phase told.now workspace.now
        message.now actions) }
{
    match phase {
        Phase::Waiting => Ok(Seq::new(alloc)),
        Phase::Serving => actions_for_message(rt, gate, alloc, told, workspace, message),
        Phase::ShutDown => Ok(Seq::new(alloc)),
        Phase::Exited { .. } => Ok(Seq::new(alloc)),
    }
}
