//! What is kept of a client.
ghost use Rattle.std.specs.Prelude.{◌≡◌, IfOk, map};
ghost use Rattle.nullcheck_lsp_top.specs.Looking as spec;

use crate::moving::root_by;
use crate::placing::named_paths;
use jn_base::{Infer, Seq, Text};
use jn_lsp::{Phase, Server};
use jn_lsp_text::{Folders, Message};
use std::alloc::{AllocError, Global};

/// A folder of a workspace.
#[derive(Drop)]
pub struct Home {
    /// Its plain path.
    pub path: Text,
    /// Where it really is, where the host says so.
    pub real: Option<Text>,
}

/// Where a workspace's files are.
#[derive(Drop)]
pub struct Root {
    /// The workspace's folders, each once.
    pub folders: Seq<Home>,
    /// Whether the client watches files in them where it is asked to.
    pub watched: bool,
    /// The names of the files by the settings, each whole or relative to the first folder; none where nothing is set.
    pub files: Seq<Text>,
    /// The names of folders that are left out.
    pub exclude: Seq<Text>,
    /// The folders that were taken out of the workspace, by which documents are known that were opened below them.
    pub left: Seq<Home>,
}

/// What a client is told of checks that go on.
#[derive(Clone, Copy, Debug, PartialEq, Eq)]
pub struct Progress {
    /// Whether it shows that they do.
    pub able: bool,
    /// The number of the next check that is announced to it.
    pub next: u32,
}

/// A client: the server that it speaks to, where its files are, the warnings of the last reading of them, whether it was said that documents
/// which aren't of the workspace aren't checked, and what it is told of checks that go on.
#[derive(Drop)]
pub struct Client {
    pub server: Server,
    pub root: Root,
    pub shown: Seq<Text>,
    pub said: bool,
    pub progress: Progress,
}

impl Client {
    /// A client that didn't speak yet, of a server that infers these members where it chooses none.
    pub fn new(alloc: Global, infer: Infer) -> Client
        ensures { result ≡ spec.new_client infer }
    {
        Client {
            server: Server::new(alloc, infer),
            root: Root {
                folders: Seq::new(alloc),
                watched: false,
                files: Seq::new(alloc),
                exclude: Seq::new(alloc),
                left: Seq::new(alloc),
            },
            shown: Seq::new(alloc),
            said: false,
            progress: Progress {
                able: false,
                next: 1,
            },
        }
    }
}

/// A copy of texts.
pub(crate) fn copy_texts(alloc: Global, texts: &[Text]) -> Result<Seq<Text>, AllocError>
    ensures { IfOk result (λ copy. copy ≡ texts.now) }
{
    let mut copy = Seq::new(alloc);
    for text in texts {
        copy.push(text.copy(alloc)?)?;
    }
    Ok(copy)
}

/// Folders of these paths, of which none was asked yet where it really is.
pub(crate) fn unasked(alloc: Global, paths: &[Text]) -> Result<Seq<Home>, AllocError>
    ensures { IfOk result (λ homes. homes ≡ map spec.unasked paths.now) }
{
    let mut homes = Seq::new(alloc);
    for path in paths {
        homes.push(Home {
            path: path.copy(alloc)?,
            real: None,
        })?;
    }
    Ok(homes)
}

/// A copy of what says where files are.
fn copy_root(
    alloc: Global,
    folders: &Folders,
    files: &[Text],
    exclude: &[Text],
) -> Result<Root, AllocError>
    ensures { IfOk result (λ root. root ≡ spec.root_of folders.now files.now exclude.now) }
{
    let paths = named_paths(alloc, &None, folders.paths.as_slice())?;
    Ok(Root {
        folders: unasked(alloc, paths.as_slice())?,
        watched: folders.watched,
        files: copy_texts(alloc, files)?,
        exclude: copy_texts(alloc, exclude)?,
        left: Seq::new(alloc),
    })
}

/// Where the files are by a message, where it says so.
fn root_in(alloc: Global, message: &Message) -> Result<Option<Root>, AllocError>
    ensures { IfOk result (λ root. root ≡ spec.root_in message.now) }
{
    match message {
        Message::Initialize {
            folders,
            files,
            exclude,
            ..
        } => {
            let root = copy_root(alloc, folders, files.as_slice(), exclude.as_slice())?;
            Ok(Some(root))
        }
        _ => Ok(None),
    }
}

/// Where the files are, by a message that comes in this phase after they were there, where that says so and counts.
pub(crate) fn told_root(
    alloc: Global,
    phase: Phase,
    root: &Root,
    message: &Message,
) -> Result<Option<Root>, AllocError>
    ensures { IfOk result (λ told. told ≡ spec.told_root phase root.now message.now) }
{
    match phase {
        Phase::Waiting => root_in(alloc, message),
        Phase::Serving => root_by(alloc, root, message),
        _ => Ok(None),
    }
}
