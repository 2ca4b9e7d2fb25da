//! What a server is told.
ghost use Rattle.std.specs.Prelude.{◌≡◌, IfOk};
ghost use Rattle.jn_lsp.specs.Serving.{opened_by, wants_folder};

use jn_base::{Seq, Text};
use jn_front::SourceFile;
use jn_lsp_text::Message;
use std::alloc::{AllocError, Global};

/// What a server is told.
#[derive(Drop)]
pub enum Event {
    /// A message of the client.
    Message(Message),
    /// The folder's files as they were read just now, in the order in which they are to stand. Of several files of one name the first
    /// stands.
    Folder(Seq<SourceFile>),
}

/// Whether the folder is to be read after this message: its files may be others than they were.
pub fn wants_folder(message: &Message) -> bool
    ensures { result ≡ wants_folder message.now }
{
    match message {
        Message::Initialized => true,
        Message::WatchedFiles => true,
        Message::ChangedFolders { .. } => true,
        Message::DidSave { .. } => true,
        Message::DidClose { .. } => true,
        _ => false,
    }
}

/// The name of the document that an event opens.
pub(crate) fn opened_by(alloc: Global, event: &Event) -> Result<Option<Text>, AllocError>
    ensures { IfOk result (λ name. name ≡ opened_by event.now) }
{
    match event {
        Event::Message(Message::DidOpen { name, .. }) => Ok(Some(name.copy(alloc)?)),
        _ => Ok(None),
    }
}
