//! What is shown at a position of a file.
ghost use Rattle.std.specs.Prelude.{IfOk};
ghost use Rattle.jn_lsp.specs.Hovering as spec;
ghost use Rattle.jn_lsp.specs.Names.{is_empty as no_names};
ghost use Rattle.jn_lsp.specs.Serving.{files_of};

use crate::documents::Workspace;
use crate::phase::Phase;
use crate::reporting::WORKERS;
use crate::standing::stand;
use crate::unknown::is_empty;
use jn_base::OutOfMemory;
use jn_lsp_hover::hover_for;
use jn_lsp_text::{Hover, Message, Position};
use jn_sharing::{Gate, Workers};
use std::alloc::Global;
use std::thread::Threads;

/// What is shown of the files as they stand at a position of the file of a name: nothing while a document's text isn't known.
fn hover_at<R: Threads + Sync, G: Gate + Sync>(
    rt: &R,
    gate: &G,
    alloc: Global,
    workspace: &Workspace,
    name: &str,
    position: Position,
) -> Result<Option<Hover>, OutOfMemory>
    ensures { IfOk result (λ hover. spec.IsHoverIf workspace.now.infer workspace.now.encoding
        (no_names workspace.now.unknown) (files_of workspace.now) name.now position hover) }
{
    if is_empty(workspace.unknown.as_slice()) {
        let files = stand(alloc, workspace)?;
        let hover = hover_for(
            rt,
            gate,
            alloc,
            Workers::of(WORKERS),
            workspace.infer,
            workspace.encoding,
            &files,
            name,
            position,
        )?;
        Ok(hover)
    } else {
        Ok(None)
    }
}

/// What is shown for a message: for a request of that.
fn hover_for_message<R: Threads + Sync, G: Gate + Sync>(
    rt: &R,
    gate: &G,
    alloc: Global,
    workspace: &Workspace,
    message: &Message,
) -> Result<Option<Hover>, OutOfMemory>
    ensures { IfOk result (λ hover. spec.IsHoverFor workspace.now.infer workspace.now.encoding workspace.now.unknown
        (files_of workspace.now) message.now hover) }
{
    match message {
        Message::Hover { name, position, .. } => {
            hover_at(rt, gate, alloc, workspace, name.as_str(), *position)
        }
        _ => Ok(None),
    }
}

/// What is shown for a message that is taken in this phase.
pub(crate) fn hovered<R: Threads + Sync, G: Gate + Sync>(
    rt: &R,
    gate: &G,
    alloc: Global,
    phase: Phase,
    workspace: &Workspace,
    message: &Message,
) -> Result<Option<Hover>, OutOfMemory>
    ensures { IfOk result (λ hover. spec.IsHoverIn phase workspace.now.infer workspace.now.encoding
        workspace.now.unknown (files_of workspace.now) message.now hover) }
{
    match phase {
        Phase::Waiting => Ok(None),
        Phase::Serving => hover_for_message(rt, gate, alloc, workspace, message),
        Phase::ShutDown => Ok(None),
        Phase::Exited { .. } => Ok(None),
    }
}
