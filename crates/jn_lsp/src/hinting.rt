//! The hints that are shown in a range of a file.
ghost use Rattle.std.specs.Prelude.{IfOk};
ghost use Rattle.jn_lsp.specs.Hinting as spec;
ghost use Rattle.jn_lsp.specs.Names.{is_empty as no_names};
ghost use Rattle.jn_lsp.specs.Serving.{files_of};

use crate::documents::Workspace;
use crate::phase::Phase;
use crate::reporting::WORKERS;
use crate::standing::stand;
use crate::unknown::is_empty;
use jn_base::{OutOfMemory, Seq};
use jn_lsp_actions::hints_for;
use jn_lsp_text::{Hint, Message, Range};
use jn_sharing::{Gate, Workers};
use std::alloc::Global;
use std::thread::Threads;

/// The hints of the files as they stand in a range of the file of a name: none while a document's text isn't known.
fn hints_at<R: Threads + Sync, G: Gate + Sync>(
    rt: &R,
    gate: &G,
    alloc: Global,
    workspace: &Workspace,
    name: &str,
    range: Range,
) -> Result<Seq<Hint>, OutOfMemory>
    ensures { IfOk result (λ hints. spec.AreHintsIf workspace.now.infer workspace.now.encoding
        (no_names workspace.now.unknown) (files_of workspace.now) name.now range hints) }
{
    if is_empty(workspace.unknown.as_slice()) {
        let files = stand(alloc, workspace)?;
        let hints = hints_for(
            rt,
            gate,
            alloc,
            Workers::of(WORKERS),
            workspace.infer,
            workspace.encoding,
            &files,
            name,
            range,
        )?;
        Ok(hints)
    } else {
        Ok(Seq::new(alloc))
    }
}

/// The hints for a message: those for a request of hints.
fn hints_for_message<R: Threads + Sync, G: Gate + Sync>(
    rt: &R,
    gate: &G,
    alloc: Global,
    workspace: &Workspace,
    message: &Message,
) -> Result<Seq<Hint>, OutOfMemory>
    ensures { IfOk result (λ hints. spec.AreHintsFor workspace.now.infer workspace.now.encoding workspace.now.unknown
        (files_of workspace.now) message.now hints) }
{
    match message {
        Message::InlayHint { name, range, .. } => {
            hints_at(rt, gate, alloc, workspace, name.as_str(), *range)
        }
        _ => Ok(Seq::new(alloc)),
    }
}

/// The hints for a message that is taken in this phase.
pub(crate) fn hinted<R: Threads + Sync, G: Gate + Sync>(
    rt: &R,
    gate: &G,
    alloc: Global,
    phase: Phase,
    workspace: &Workspace,
    message: &Message,
) -> Result<Seq<Hint>, OutOfMemory>
    ensures { IfOk result (λ hints. spec.AreHintsIn phase workspace.now.infer workspace.now.encoding
        workspace.now.unknown (files_of workspace.now) message.now hints) }
{
    match phase {
        Phase::Waiting => Ok(Seq::new(alloc)),
        Phase::Serving => hints_for_message(rt, gate, alloc, workspace, message),
        Phase::ShutDown => Ok(Seq::new(alloc)),
        Phase::Exited { .. } => Ok(Seq::new(alloc)),
    }
}
