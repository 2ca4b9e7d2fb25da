//! Messages that are heard.
ghost use Rattle.std.specs.Prelude.{◌≡◌, ◌++◌, ◌||◌, IfOk, is_some};
ghost use Rattle.jn_lsp_text.specs.declared.message.Message.{Message as MessageOf};
ghost use Rattle.nullcheck_lsp_top.specs.Announcing.{ends};
ghost use Rattle.nullcheck_lsp_top.specs.Hearing as spec;
ghost use Rattle.nullcheck_lsp_top.specs.Looking.{Starts, StartsWhere, outside, root_or};
ghost use Rattle.nullcheck_lsp_top.specs.Placing.{foreign_in, notices};

use crate::announcing::{able_behind, announces, next_behind, put_end};
use crate::client::{Client, Progress, Root, told_root};
use crate::finding::{read_workspace, traced_where};
use crate::placing::{foreign_in, notices, placed};
use crate::warning::show;
use jn_base::OutOfMemory;
use jn_folder::Folder;
use jn_front::SourceFile;
use jn_lsp::{Event, Phase, wants_folder};
use jn_lsp_frames::Frame;
use jn_lsp_messages::read_message;
use jn_lsp_text::{Message, Reply};
use jn_outside::Files;
use jn_sharing::Gate;
use std::alloc::{AllocError, Global};
use std::thread::Threads;

/// The message that a frame is.
pub(crate) fn message_of(alloc: Global, frame: &Frame) -> Result<Message, OutOfMemory>
    ensures { IfOk result (λ message. spec.IsMessageOf frame.now message) }
{
    match frame {
        Frame::Body(body) => read_message(alloc, body.as_slice()),
        Frame::BadHeader => Ok(Message::BadHeader),
        Frame::TooLarge => Ok(Message::TooLarge),
    }
}

/// Puts more replies after others.
fn joined(replies: Vec<Reply>, more: Vec<Reply>) -> Result<Vec<Reply>, AllocError>
    ensures { IfOk result (λ all. all.items ≡ replies.items ++ more.items) }
{
    let mut all = replies;
    for reply in more {
        all.push(reply)?;
    }
    Ok(all)
}

/// What is sent before the answer, the answer with what is read after it, and what is said where an announced check ended.
fn all_of(
    notices: Vec<Reply>,
    replies: Vec<Reply>,
    more: Vec<Reply>,
    announced: bool,
    number: u32,
) -> Result<Vec<Reply>, AllocError>
    ensures { IfOk result (λ all.
        all.items ≡ notices.items ++ ((replies.items ++ more.items) ++ ends announced number)) }
{
    let mut answers = joined(replies, more)?;
    put_end(announced, number, &mut answers)?;
    joined(notices, answers)
}

/// Whether the workspace's files are read after a message that comes in this phase.
fn looks(phase: Phase, message: &Message) -> bool
    ensures { result ≡ spec.looks phase message.now }
{
    match phase {
        Phase::Serving => wants_folder(message),
        _ => false,
    }
}

/// Reads the workspace's files, and tells the server of them.
fn look<R: Threads + Sync, F: Files, D: Folder, G: Gate + Sync>(
    rt: &R,
    gate: &G,
    alloc: Global,
    client: &mut Client,
    files: &mut F,
    folder: &mut D,
) -> Result<Vec<Reply>, OutOfMemory>
    ensures held { F.held files.new ≡ F.held files.old }
    ensures looks { IfOk result (λ replies. spec.Looks (F.held files.old)
        (outside (D.told folder.old) (D.faults folder.old) (F.gave files.old) (F.faults files.old))
        (outside (D.told folder.new) (D.faults folder.new) (F.gave files.new) (F.faults files.new))
        client.old client.new replies.items) }
    ensures starts { Starts (F.held files.old) client.old.root
        (outside (D.told folder.old) (D.faults folder.old) (F.gave files.old) (F.faults files.old))
        (outside (D.told folder.new) (D.faults folder.new) (F.gave files.new) (F.faults files.new)) }
{
    let found = read_workspace(alloc, &client.root, files, folder)?;
    let shows = show(alloc, client.shown.as_slice(), found.warnings.as_slice())?;
    let news = client.server.take(rt, gate, &Event::Folder(found.files))?;
    client.shown = found.warnings;
    Ok(joined(shows, news)?)
}

/// Reads the workspace's files where that is wanted.
fn look_where<R: Threads + Sync, F: Files, D: Folder, G: Gate + Sync>(
    rt: &R,
    gate: &G,
    alloc: Global,
    wanted: bool,
    client: &mut Client,
    files: &mut F,
    folder: &mut D,
) -> Result<Vec<Reply>, OutOfMemory>
    ensures held { F.held files.new ≡ F.held files.old }
    ensures looks { IfOk result (λ replies. spec.LooksWhere wanted (F.held files.old)
        (outside (D.told folder.old) (D.faults folder.old) (F.gave files.old) (F.faults files.old))
        (outside (D.told folder.new) (D.faults folder.new) (F.gave files.new) (F.faults files.new))
        client.old client.new replies.items) }
    ensures starts { StartsWhere wanted (F.held files.old) client.old.root
        (outside (D.told folder.old) (D.faults folder.old) (F.gave files.old) (F.faults files.old))
        (outside (D.told folder.new) (D.faults folder.new) (F.gave files.new) (F.faults files.new)) }
{
    if wanted {
        look(rt, gate, alloc, client, files, folder)
    } else {
        Ok(Vec::new(alloc))
    }
}

/// What is sent before a message is answered, and whether it opens a document that is none of the workspace's.
#[derive(Drop)]
struct First {
    notices: Vec<Reply>,
    foreign: bool,
}

fn first_of(
    alloc: Global,
    phase: Phase,
    root: &Root,
    documents: &[SourceFile],
    said: bool,
    message: &Message,
) -> Result<First, AllocError>
    ensures notices { IfOk result
        (λ first. first.notices.items ≡ notices phase root.now documents.now said message.now) }
    ensures foreign { IfOk result
        (λ first. first.foreign ≡ is_some (foreign_in phase root.now documents.now message.now)) }
{
    let foreign = foreign_in(alloc, phase, root, documents, message)?;
    let notices = notices(alloc, phase, root, said, message, &foreign)?;
    Ok(First {
        notices,
        foreign: foreign.is_some(),
    })
}

/// What is known of a message before it is worked on: the message as the server takes it, where it says that the files are, whether they are
/// read after it, what is sent before it is answered, whether it opens a document that is none of the workspace's, whether its check is announced,
/// and what the client is told of checks after it.
#[derive(Drop)]
pub(crate) struct Task {
    message: Message,
    told: Option<Root>,
    looks: bool,
    notices: Vec<Reply>,
    foreign: bool,
    pub(crate) announced: bool,
    progress: Progress,
}

/// What is known of a message before it is worked on.
pub(crate) fn task_of(alloc: Global, client: &Client, message: Message) -> Result<Task, OutOfMemory>
    ensures { IfOk result (spec.IsTask client.now message) }
{
    let phase = client.server.phase();
    let workspace = client.server.workspace();
    let documents = workspace.documents.as_slice();
    let first = first_of(alloc, phase, &client.root, documents, client.said, &message)?;
    let told = told_root(alloc, phase, &client.root, &message)?;
    let able = able_behind(phase, client.progress.able, &message);
    let message = placed(alloc, &client.root, documents, message)?;
    let looks = looks(phase, &message);
    let announced = announces(phase, workspace, client.progress, &message);
    let next = next_behind(announced, client.progress.next);
    Ok(Task {
        message,
        told,
        looks,
        notices: first.notices,
        foreign: first.foreign,
        announced,
        progress: Progress { able, next },
    })
}

/// Keeps where the files are, where that is told, whether it was said that some documents aren't checked, and what the client is told of
/// checks.
fn settle(client: &mut Client, told: Option<Root>, foreign: bool, progress: Progress)
    ensures server { client.new.server ≡ client.old.server }
    ensures root { client.new.root ≡ root_or told client.old.root }
    ensures shown { client.new.shown ≡ client.old.shown }
    ensures said { client.new.said ≡ (client.old.said || foreign) }
    ensures progress { client.new.progress ≡ progress }
{
    if let Some(root) = told {
        client.root = root;
    }
    client.said = client.said || foreign;
    client.progress = progress;
}

/// Works on a message, and gives the replies to it that come after what is sent before that.
pub(crate) fn hear<R: Threads + Sync, F: Files, D: Folder, G: Gate + Sync>(
    rt: &R,
    gate: &G,
    alloc: Global,
    client: &mut Client,
    task: Task,
    files: &mut F,
    folder: &mut D,
) -> Result<Vec<Reply>, OutOfMemory>
    ensures held { F.held files.new ≡ F.held files.old }
    ensures hears { IfOk result (λ replies. (message : MessageOf) → spec.IsTask client.old message task → spec.Hears (F.held files.old)
        (outside (D.told folder.old) (D.faults folder.old) (F.gave files.old) (F.faults files.old))
        (outside (D.told folder.new) (D.faults folder.new) (F.gave files.new) (F.faults files.new))
        client.old message (spec.begun client.old message ++ replies.items) client.new) }
    ensures starts { (message : MessageOf) → spec.IsTask client.old message task → spec.StartsBy (F.held files.old)
        (outside (D.told folder.old) (D.faults folder.old) (F.gave files.old) (F.faults files.old))
        (outside (D.told folder.new) (D.faults folder.new) (F.gave files.new) (F.faults files.new))
        client.old message }
{
    let Task {
        message,
        told,
        looks,
        notices,
        foreign,
        announced,
        progress,
    } = task;
    let number = client.progress.next;
    let told = traced_where(alloc, told, folder)?;
    settle(client, told, foreign, progress);
    let replies = client.server.take(rt, gate, &Event::Message(message))?;
    let more = look_where(rt, gate, alloc, looks, client, files, folder)?;
    let all = all_of(notices, replies, more, announced, number)?;
    Ok(all)
}
