//! Answers to requests.
ghost use Rattle.std.specs.Prelude.{◌≡◌, IfOk, option_to_list};
ghost use Rattle.jn_lsp.specs.Serving as spec;

use crate::diagnostics::Told;
use crate::documents::Workspace;
use crate::event::Event;
use crate::hinting::hinted;
use crate::hovering::hovered;
use crate::offering::offered;
use crate::phase::Phase;
use crate::unknown::warn;
use jn_base::{OutOfMemory, Seq};
use jn_lsp_text::{Action, Failure, Hint, Hover, Id, Markup, Message, Reply};
use jn_sharing::Gate;
use std::alloc::Global;
use std::thread::Threads;

/// The refusal of a request; a notification, which has no id, is dropped.
fn refusal(alloc: Global, failure: Failure, id: &Option<Id>) -> Result<Option<Reply>, OutOfMemory>
    ensures { IfOk result (λ answer. answer ≡ spec.refusal failure id.now) }
{
    match id {
        None => Ok(None),
        Some(id) => refused(alloc, failure, id),
    }
}

fn refused(alloc: Global, failure: Failure, id: &Id) -> Result<Option<Reply>, OutOfMemory>
    ensures { IfOk result (λ answer. answer ≡ spec.refusal failure (Some id.now)) }
{
    Ok(Some(Reply::Refusal {
        id: Some(id.copy(alloc)?),
        failure,
    }))
}

/// The refusal of a message that can't be read.
fn unread(message: &Message) -> Option<Reply>
    ensures { result ≡ spec.nameless (spec.unread message.now) }
{
    let failure = match message {
        Message::NoMessage => Failure::Request,
        Message::TooLarge => Failure::Request,
        Message::NoJson => Failure::Parse,
        Message::BadHeader => Failure::Parse,
        _ => return None,
    };
    Some(Reply::Refusal { id: None, failure })
}

/// The refusal of a request that comes where none is taken.
fn untaken(alloc: Global, failure: Failure, message: &Message) -> Result<Option<Reply>, OutOfMemory>
    ensures { IfOk result (λ answer. answer ≡ spec.untaken failure message.now) }
{
    match message {
        Message::Initialize { id, .. } => refused(alloc, failure, id),
        Message::CodeAction { id, .. } => refused(alloc, failure, id),
        Message::InlayHint { id, .. } => refused(alloc, failure, id),
        Message::Hover { id, .. } => refused(alloc, failure, id),
        Message::Shutdown { id } => refused(alloc, failure, id),
        Message::Unknown { id } => refused(alloc, failure, id),
        Message::BadParams { id } => refusal(alloc, failure, id),
        _ => Ok(unread(message)),
    }
}

fn waiting_answer(alloc: Global, message: &Message) -> Result<Option<Reply>, OutOfMemory>
    ensures { IfOk result (λ answer. answer ≡ spec.waiting_answer message.now) }
{
    match message {
        Message::Initialize { id, encoding, .. } => Ok(Some(Reply::Capabilities {
            id: id.copy(alloc)?,
            encoding: *encoding,
        })),
        Message::BadParams { id } => refusal(alloc, Failure::Params, id),
        _ => untaken(alloc, Failure::NotInitialized, message),
    }
}

fn serving_answer(
    alloc: Global,
    message: &Message,
    markup: Markup,
    actions: Seq<Action>,
    hints: Seq<Hint>,
    hover: Option<Hover>,
) -> Result<Option<Reply>, OutOfMemory>
    ensures { IfOk result (λ answer. answer
        ≡ spec.serving_answer markup actions hints hover message.now) }
{
    match message {
        Message::Initialize { id, .. } => refused(alloc, Failure::Request, id),
        Message::CodeAction { id, .. } => Ok(Some(Reply::Actions {
            id: id.copy(alloc)?,
            actions,
        })),
        Message::InlayHint { id, .. } => Ok(Some(Reply::Hints {
            id: id.copy(alloc)?,
            hints,
        })),
        Message::Hover { id, .. } => Ok(Some(Reply::Hovered {
            id: id.copy(alloc)?,
            markup,
            hover,
        })),
        Message::Shutdown { id } => Ok(Some(Reply::Done {
            id: id.copy(alloc)?,
        })),
        Message::Unknown { id } => refused(alloc, Failure::Method, id),
        Message::BadParams { id } => refusal(alloc, Failure::Params, id),
        _ => Ok(unread(message)),
    }
}

/// The answer to a message, where it has one, these actions are offered, and these hints and this is shown.
fn answer_of(
    alloc: Global,
    phase: Phase,
    message: &Message,
    markup: Markup,
    actions: Seq<Action>,
    hints: Seq<Hint>,
    hover: Option<Hover>,
) -> Result<Option<Reply>, OutOfMemory>
    ensures { IfOk result (λ answer. answer
        ≡ spec.answer_of markup actions hints hover phase message.now) }
{
    match phase {
        Phase::Waiting => waiting_answer(alloc, message),
        Phase::Serving => serving_answer(alloc, message, markup, actions, hints, hover),
        Phase::ShutDown => untaken(alloc, Failure::Request, message),
        Phase::Exited { .. } => Ok(None),
    }
}

fn listed(alloc: Global, answer: Option<Reply>) -> Result<Seq<Reply>, OutOfMemory>
    ensures { IfOk result (λ replies. replies ≡ option_to_list answer) }
{
    let mut replies = Seq::new(alloc);
    if let Some(answer) = answer {
        replies.push(answer)?;
    }
    Ok(replies)
}

/// The answers to an event.
pub(crate) fn answers<R: Threads + Sync, G: Gate + Sync>(
    rt: &R,
    gate: &G,
    alloc: Global,
    phase: Phase,
    told: &[Told],
    workspace: &Workspace,
    event: &Event,
) -> Result<Seq<Reply>, OutOfMemory>
    ensures { IfOk result (λ replies. spec.AreAnswers phase told.now workspace.now event.now replies) }
{
    match event {
        Event::Message(message) => {
            let actions = offered(rt, gate, alloc, phase, told, workspace, message)?;
            let hints = hinted(rt, gate, alloc, phase, workspace, message)?;
            let hover = hovered(rt, gate, alloc, phase, workspace, message)?;
            let markup = workspace.markup;
            let answer = answer_of(alloc, phase, message, markup, actions, hints, hover)?;
            let mut replies = listed(alloc, answer)?;
            warn(
                alloc,
                phase,
                message,
                workspace.documents.as_slice(),
                workspace.unknown.as_slice(),
                &mut replies,
            )?;
            Ok(replies)
        }
        Event::Folder(_) => Ok(Seq::new(alloc)),
    }
}
