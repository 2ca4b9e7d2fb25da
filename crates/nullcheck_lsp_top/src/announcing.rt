//! Checks that are announced while they go on.
ghost use Rattle.std.specs.Prelude.{◌≡◌, ◌-◌, ◌^◌, ◌++◌, ◌<◌, IfOk, OnOk, true};
ghost use Rattle.nullcheck_lsp_top.specs.Announcing as spec;

use crate::client::Progress;
use jn_front::SourceFile;
use jn_lsp::{Phase, Workspace, wants_folder};
use jn_lsp_text::{Message, Reply};
use std::alloc::{AllocError, Global};

/// So many bytes are checked in half a second, or longer.
const LONG: usize = 2_097_152;

/// The numbers of checks are below this one.
const NUMBERS: u32 = 2_147_483_648;

// ---- which checks are announced

/// What is left of so many bytes beside these texts.
fn left_beside(bytes: usize, files: &[SourceFile]) -> usize
    ensures { result ≡ bytes - spec.bytes_of files.now }
{
    let mut left = bytes;
    let mut rest = files;
    while let [file, more @ ..] = rest {
        left = left.saturating_sub(file.bytes.as_slice().len());
        rest = more;
    }
    left
}

/// Whether the texts that stand have together so many bytes that their check takes long.
fn is_long(workspace: &Workspace) -> bool
    ensures { result ≡ spec.is_long workspace.now }
{
    let left = left_beside(LONG, workspace.disk.as_slice());
    left_beside(left, workspace.documents.as_slice()) == 0
}

/// Whether files are checked anew at this message.
fn checks(message: &Message) -> bool
    ensures { result ≡ spec.checks message.now }
{
    match message {
        Message::DidOpen { .. } => true,
        Message::DidChange { .. } => true,
        _ => wants_folder(message),
    }
}

fn may_last(workspace: &Workspace, message: &Message) -> bool
    ensures { result ≡ spec.may_last workspace.now message.now }
{
    match message {
        Message::Initialized => true,
        _ => checks(message) && is_long(workspace),
    }
}

/// Whether the client shows that a check goes on, and a number for it is left.
fn is_shown(progress: Progress) -> bool
    ensures { result ≡ spec.is_shown progress }
{
    progress.able && progress.next < NUMBERS
}

/// Whether the check at a message that comes in this phase is announced.
pub(crate) fn announces(
    phase: Phase,
    workspace: &Workspace,
    progress: Progress,
    message: &Message,
) -> bool
    ensures is { result ≡ spec.announces phase workspace.now progress message.now }
    ensures left { result ≡ true → progress.next < 2 ^ 31 }
{
    match phase {
        Phase::Serving => is_shown(progress) && may_last(workspace, message),
        _ => false,
    }
}

// ---- what is said of them

/// What is said before a check.
pub(crate) fn begins(alloc: Global, announced: bool, number: u32) -> Result<Vec<Reply>, AllocError>
    ensures { IfOk result (λ replies. replies.items ≡ spec.begins announced number) }
{
    let mut replies = Vec::new(alloc);
    if announced {
        replies.push(Reply::Announce { number })?;
        replies.push(Reply::Begin { number })?;
    }
    Ok(replies)
}

/// Puts what is said after a check after the replies.
pub(crate) fn put_end(
    announced: bool,
    number: u32,
    replies: &mut Vec<Reply>,
) -> Result<(), AllocError>
    ensures { OnOk result (replies.new.items ≡ replies.old.items ++ spec.ends announced number) }
{
    if announced {
        replies.push(Reply::End { number })?;
    }
    Ok(())
}

// ---- what is kept

/// Whether the client shows that a check goes on, after a message that comes in this phase.
pub(crate) fn able_behind(phase: Phase, able: bool, message: &Message) -> bool
    ensures { result ≡ spec.able_behind phase able message.now }
{
    match (phase, message) {
        (Phase::Waiting, Message::Initialize { progress, .. }) => *progress,
        _ => able,
    }
}

/// The number of the next check that is announced.
pub(crate) fn next_behind(announced: bool, number: u32) -> u32
    requires left { announced ≡ true → number < 2 ^ 31 }
    ensures { result ≡ spec.next_behind announced number }
{
    if announced { number + 1 } else { number }
}
