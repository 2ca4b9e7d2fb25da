//! The loop of a server.
ghost use Rattle.std.specs.Prelude.{◌≡◌, [], IfOk, OnErr, OnOk, false, true};
ghost use Rattle.jn_outside.specs.Causes.{HasCause};
ghost use Rattle.jn_outside.specs.Sink.{Appends, AppendsPrefix};
ghost use Rattle.jn_lsp_text.specs.declared.message.Message.{Message as MessageOf};
ghost use Rattle.nullcheck_lsp_top.specs.Answer.{Answers, AsksInTime, IsHeard, channels};
ghost use Rattle.nullcheck_lsp_top.specs.Answer as spec;
ghost use Rattle.nullcheck_lsp_top.specs.Hearing.{IsTask, StartsBy};
ghost use Rattle.nullcheck_lsp_top.specs.Looking.{new_client, outside};

use crate::announcing::begins;
use crate::client::Client;
use crate::messages::{Task, hear, message_of, task_of};
use crate::status::Status;
use crate::writing::framed;
use jn_base::{Fail, OutOfMemory, Text};
use jn_cli::Setup;
use jn_folder::Folder;
use jn_lsp::Phase;
use jn_lsp_frames::{Frame, FrameReader, Next, Stream};
use jn_outside::{Failed, Files, Sink, write_whole};
use jn_sharing::Gate;
use std::alloc::Global;
use std::thread::Threads;

/// Whether the server goes on after a frame.
#[derive(Clone, Copy, Debug, PartialEq, Eq)]
pub(crate) enum Heard {
    /// It does.
    Goes,
    /// It ends, with this status.
    Ends(Status),
}

/// What is known of a frame's message before it is worked on, and the bytes that are written before that.
#[derive(Drop)]
struct Opening {
    task: Task,
    bytes: Vec<u8>,
}

fn open(
    alloc: Global,
    address: &Option<Text>,
    client: &Client,
    frame: &Frame,
) -> Result<Opening, OutOfMemory>
    ensures { IfOk result (spec.IsOpening address.now client.now frame.now) }
{
    let message = message_of(alloc, frame)?;
    let task = task_of(alloc, client, message)?;
    let begun = begins(alloc, task.announced, client.progress.next)?;
    let bytes = framed(alloc, address, &begun)?;
    Ok(Opening { task, bytes })
}

/// The bytes that are written in answer to a message, after those that are written before it is worked on.
fn answer<R: Threads + Sync, F: Files, D: Folder, G: Gate + Sync>(
    rt: &R,
    gate: &G,
    alloc: Global,
    address: &Option<Text>,
    client: &mut Client,
    task: Task,
    files: &mut F,
    folder: &mut D,
) -> Result<Vec<u8>, OutOfMemory>
    ensures held { F.held files.new ≡ F.held files.old }
    ensures answers { IfOk result (λ bytes. (message : MessageOf) → IsTask client.old message task → spec.IsAnswer address.now (F.held files.old)
        (outside (D.told folder.old) (D.faults folder.old) (F.gave files.old) (F.faults files.old))
        (outside (D.told folder.new) (D.faults folder.new) (F.gave files.new) (F.faults files.new))
        client.old message client.new bytes.items) }
    ensures starts { (message : MessageOf) → IsTask client.old message task → StartsBy (F.held files.old)
        (outside (D.told folder.old) (D.faults folder.old) (F.gave files.old) (F.faults files.old))
        (outside (D.told folder.new) (D.faults folder.new) (F.gave files.new) (F.faults files.new))
        client.old message }
{
    let replies = hear(rt, gate, alloc, client, task, files, folder)?;
    let bytes = framed(alloc, address, &replies)?;
    Ok(bytes)
}

/// How a server in this phase goes on.
fn goes_on(phase: Phase) -> Heard
    ensures { result ≡ spec.goes_on phase }
{
    match phase {
        Phase::Exited { in_order: true } => Heard::Ends(Status::Done),
        Phase::Exited { in_order: false } => Heard::Ends(Status::Ended),
        _ => Heard::Goes,
    }
}

/// Writes what is said before a check where that is announced.
fn write_begun<K: Sink>(announced: bool, begun: &[u8], out: &mut K) -> Result<(), Failed>
    requires silent { announced ≡ false → begun.now ≡ [] }
    ensures ok { OnOk result (Appends (K.written out.old) (K.written out.new) begun.now) }
    ensures err { OnErr result (AppendsPrefix (K.written out.old) (K.written out.new) begun.now) }
    ensures told { OnErr result (announced ≡ true) }
    ensures cause { HasCause (K.faults out.old) (K.faults out.new) result }
{
    if announced {
        write_whole(out, begun)
    } else {
        Ok(())
    }
}

/// Takes a frame, and writes what is replied to it: where its check is announced, what is said before that is written before anything is read for it.
fn take_frame<R: Threads + Sync, F: Files, D: Folder, K: Sink, G: Gate + Sync>(
    rt: &R,
    gate: &G,
    alloc: Global,
    setup: &Setup,
    client: &mut Client,
    frame: &Frame,
    files: &mut F,
    folder: &mut D,
    out: &mut K,
) -> Heard
    ensures held { F.held files.new ≡ F.held files.old }
    ensures heard { IsHeard setup.now.address (F.held files.old) (K.written out.old) (K.written out.new)
        (K.faults out.old) (K.faults out.new)
        (outside (D.told folder.old) (D.faults folder.old) (F.gave files.old) (F.faults files.old))
        (outside (D.told folder.new) (D.faults folder.new) (F.gave files.new) (F.faults files.new))
        client.old frame.now client.new result }
{
    let address = &setup.address;
    let Ok(opening) = open(alloc, address, client, frame) else {
        return Heard::Ends(Status::OutOfMemory);
    };
    let Opening { task, bytes: begun } = opening;
    match write_begun(task.announced, &begun, out) {
        Ok(()) => {}
        Err(_) => return Heard::Ends(Status::WriteFault),
    }
    let Ok(bytes) = answer(rt, gate, alloc, address, client, task, files, folder) else {
        return Heard::Ends(Status::OutOfMemory);
    };
    match write_whole(out, &bytes) {
        Ok(()) => goes_on(client.server.phase()),
        Err(_) => Heard::Ends(Status::WriteFault),
    }
}

/// Takes the frames of the input, one after the other, until the client exits or the input ends.
fn take_frames<R: Threads + Sync, K: Sink, S: Stream<K>, F: Files, D: Folder, G: Gate + Sync>(
    rt: &R,
    gate: &G,
    alloc: Global,
    setup: &Setup,
    reader: &mut FrameReader,
    client: &mut Client,
    input: &mut S,
    files: &mut F,
    folder: &mut D,
    out: &mut K,
) -> Status
    requires fresh { reader.old.pending.items ≡ [] }
    requires silent { client.old ≡ new_client setup.now.infer }
    ensures held { F.held files.new ≡ F.held files.old }
    ensures answer { Answers setup.now (F.held files.old)
        (channels (S.given input.old) (S.ended input.old) (S.faults input.old) (S.asked input.old) (K.written out.old) (K.faults out.old))
        (channels (S.given input.new) (S.ended input.new) (S.faults input.new) (S.asked input.new) (K.written out.new) (K.faults out.new))
        (outside (D.told folder.old) (D.faults folder.old) (F.gave files.old) (F.faults files.old))
        (outside (D.told folder.new) (D.faults folder.new) (F.gave files.new) (F.faults files.new))
        result }
    ensures in_time { AsksInTime setup.now (F.held files.old)
        (channels (S.given input.old) (S.ended input.old) (S.faults input.old) (S.asked input.old) (K.written out.old) (K.faults out.old))
        (channels (S.given input.new) (S.ended input.new) (S.faults input.new) (S.asked input.new) (K.written out.new) (K.faults out.new))
        (outside (D.told folder.old) (D.faults folder.old) (F.gave files.old) (F.faults files.old)) }
{
    for _turn in 0..u64::MAX {
        let frame = match reader.next(input, out, alloc) {
            Ok(Next::Frame(frame)) => frame,
            Ok(Next::End(_)) => return Status::Ended,
            Err(Fail::Refused(_)) => return Status::ReadFault,
            Err(Fail::OutOfMemory) => return Status::OutOfMemory,
        };
        match take_frame(rt, gate, alloc, setup, client, &frame, files, folder, out) {
            Heard::Goes => {}
            Heard::Ends(status) => return status,
        }
    }
    Status::Ended
}

/// Serves a client that didn't speak yet, as the words ask.
pub(crate) fn serve_all<
    R: Threads + Sync,
    K: Sink,
    S: Stream<K>,
    F: Files,
    D: Folder,
    G: Gate + Sync,
>(
    rt: &R,
    gate: &G,
    alloc: Global,
    setup: &Setup,
    input: &mut S,
    files: &mut F,
    folder: &mut D,
    out: &mut K,
) -> Status
    ensures held { F.held files.new ≡ F.held files.old }
    ensures answer { Answers setup.now (F.held files.old)
        (channels (S.given input.old) (S.ended input.old) (S.faults input.old) (S.asked input.old) (K.written out.old) (K.faults out.old))
        (channels (S.given input.new) (S.ended input.new) (S.faults input.new) (S.asked input.new) (K.written out.new) (K.faults out.new))
        (outside (D.told folder.old) (D.faults folder.old) (F.gave files.old) (F.faults files.old))
        (outside (D.told folder.new) (D.faults folder.new) (F.gave files.new) (F.faults files.new))
        result }
    ensures in_time { AsksInTime setup.now (F.held files.old)
        (channels (S.given input.old) (S.ended input.old) (S.faults input.old) (S.asked input.old) (K.written out.old) (K.faults out.old))
        (channels (S.given input.new) (S.ended input.new) (S.faults input.new) (S.asked input.new) (K.written out.new) (K.faults out.new))
        (outside (D.told folder.old) (D.faults folder.old) (F.gave files.old) (F.faults files.old)) }
{
    let mut reader = FrameReader::new(alloc);
    let mut client = Client::new(alloc, setup.infer);
    take_frames(
        rt,
        gate,
        alloc,
        setup,
        &mut reader,
        &mut client,
        input,
        files,
        folder,
        out,
    )
}
