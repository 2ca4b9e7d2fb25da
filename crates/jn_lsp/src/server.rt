//! The server.
ghost use Rattle.std.specs.Prelude.{◌≡◌, ◌++◌, IfOk, OnErr, [], None, Some};
ghost use Rattle.jn_lsp.specs.Publications.{Announces};
ghost use Rattle.jn_lsp.specs.Serving.{AreToldOf, IsInformed, Takes, files_of, new_server};

use crate::answers::answers;
use crate::diagnostics::Told;
use crate::documents::Workspace;
use crate::event::{Event, opened_by};
use crate::phase::Phase;
use crate::publishing::announce;
use crate::reporting::{Tale, tell};
use crate::standing::stand;
use crate::unchecked::{LastReport, keep};
use crate::unknown::hushed;
use jn_base::{Infer, OutOfMemory, Seq, Text};
use jn_lsp_text::Reply;
use jn_recheck::{FileSet, Session};
use jn_sharing::Gate;
use std::alloc::{AllocError, Global};
use std::marker::Model;
use std::thread::Threads;

/// What is told after an event, and what of it is published: the files' report, whether it came to the rules, and what is told of it where texts aren't known.
#[derive(Drop)]
struct News {
    files: FileSet,
    came: bool,
    all: Vec<Told>,
    told: Vec<Told>,
    publications: Seq<Reply>,
}

/// The report of a workspace as it is told, and what of it is published.
fn retell<R: Threads + Sync, G: Gate + Sync>(
    rt: &R,
    gate: &G,
    alloc: Global,
    session: &mut Session,
    last: &LastReport,
    opened: &Option<Text>,
    before: &[Told],
    workspace: &Workspace,
) -> Result<News, OutOfMemory>
    ensures told { IfOk result
        (λ news. AreToldOf workspace.now last.now news.came news.all.items news.told.items) }
    ensures stood { IfOk result (λ news. news.files ≡ files_of workspace.now) }
    ensures announced { IfOk result (λ news. Announces opened.now workspace.now.versions before.now news.told.items news.publications) }
{
    let files = stand(alloc, workspace)?;
    let Tale { told: all, came } = tell(
        rt,
        gate,
        alloc,
        workspace.infer,
        workspace.encoding,
        session,
        last,
        &files,
    )?;
    let told = hushed(alloc, workspace.unknown.as_slice(), all.as_slice())?;
    let publications = announce(
        alloc,
        opened,
        workspace.versions.as_slice(),
        before,
        told.as_slice(),
    )?;
    Ok(News {
        files,
        came,
        all,
        told,
        publications,
    })
}

/// The replies, one list after the other.
fn joined(replies: Seq<Reply>, more: Seq<Reply>) -> Result<Vec<Reply>, AllocError>
    ensures { IfOk result (λ all. all.items ≡ replies ++ more) }
{
    let mut all = replies.into_vec();
    let mut more = more.into_vec();
    all.append(&mut more)?;
    Ok(all)
}

/// A language server: what it is told is in [`Event`]s. Contracts see its phase, the members that are inferred, the unit of positions, the folder's files and the open documents, what was
/// told of the files that stand, and the last report that came to the rules.
#[derive(Drop)]
pub struct Server {
    alloc: Global,
    phase: Phase,
    workspace: Workspace,
    told: Vec<Told>,
    last: LastReport,
    session: Session,
}

impl Model for Server {
    ghost use Rattle.jn_lsp.specs.Serving.{IsInformed, ServerOf};

    ghost Value = { ServerOf };

    ghost view = { λ s. record { phase = s.phase; workspace = s.workspace; told = s.told.items; last = s.last } };

    ghost invariant = { λ s. IsInformed (record { phase = s.phase; workspace = s.workspace; told = s.told.items; last = s.last }) };
}

impl Server {
    /// A server to which no client has spoken yet; it infers these members where the client chooses none.
    #[tactic(auto, using(crate::proofs::Hushing::told_nothing))]
    pub fn new(alloc: Global, infer: Infer) -> Server
        ensures { result ≡ new_server infer }
    {
        Server {
            alloc,
            phase: Phase::Waiting,
            workspace: Workspace::new(alloc, infer),
            told: Vec::new(alloc),
            last: LastReport::none(alloc),
            session: Session::new(alloc, infer),
        }
    }

    /// Where the server is in its life.
    pub fn phase(&self) -> Phase
        ensures { result ≡ self.now.phase }
    {
        self.phase
    }

    /// The files and the settings.
    pub fn workspace(&self) -> &Workspace
        ensures { result.now ≡ self.now.workspace }
    {
        &self.workspace
    }

    /// What was told last of the files that stand, in their order: the diagnostics of their report.
    pub fn told(&self) -> &[Told]
        ensures are { result.now ≡ self.now.told }
        ensures informed { IsInformed self.now }
    {
        self.told.as_slice()
    }

    /// Takes an event, and gives the replies to it in order. Where the event changes the files that stand, their report is made anew, and
    /// each name of which something else is told than before gets a publication, and a document that is opened in any case. For a request of actions the files are checked anew where
    /// something is told at its range, and for a request of hints, or of what stands at a position, their program is inferred anew. Workers enter the gate where they take a file or a body.
    ///
    /// # Errors
    /// No memory was found, and the server is as before.
    pub fn take<R: Threads + Sync, G: Gate + Sync>(
        &mut self,
        rt: &R,
        gate: &G,
        event: &Event,
    ) -> Result<Vec<Reply>, OutOfMemory>
        ensures takes { IfOk result (λ replies. Takes self.old event.now replies.items self.new) }
        ensures unchanged { OnErr result (self.new ≡ self.old) }
    {
        let alloc = self.alloc;
        let next = self.phase.behind_event(event);
        let opened = opened_by(alloc, event)?;
        let direct = answers(
            rt,
            gate,
            alloc,
            self.phase,
            self.told.as_slice(),
            &self.workspace,
            event,
        )?;
        let moved = self.workspace.moved(alloc, self.phase, event)?;
        match moved {
            None => {
                self.phase = next;
                Ok(direct.into_vec())
            }
            Some(workspace) => {
                let News {
                    files,
                    came,
                    all,
                    told,
                    publications,
                } = retell(
                    rt,
                    gate,
                    alloc,
                    &mut self.session,
                    &self.last,
                    &opened,
                    self.told.as_slice(),
                    &workspace,
                )?;
                let replies = joined(direct, publications)?;
                self.phase = next;
                self.workspace = workspace;
                self.told = told;
                keep(&mut self.last, came, files, all);
                Ok(replies)
            }
        }
    }
}
