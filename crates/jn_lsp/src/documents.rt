//! The documents that a client has open.
ghost use Rattle.std.specs.Prelude.{◌≡◌, IfOk, MatchOption, None, Some, length, ◌<◌};
ghost use Rattle.jn_lsp.specs.Edits as spec;
ghost use Rattle.jn_lsp.specs.Serving as serving;
ghost use Rattle.jn_lsp.specs.Tracking.{versions_behind};
ghost use Rattle.jn_lsp.specs.Unknown.{unknown_behind};
ghost use Rattle.jn_recheck.specs.Files.{with_file, without_file, place_of, is_named};

use crate::event::Event;
use crate::phase::Phase;
use crate::unknown::{copy_names, is_among, touches, unknown_behind};
use crate::versions::{Version, copy_versions, versions_behind};
use jn_base::{Infer, OutOfMemory, Seq, Text};
use jn_front::SourceFile;
use jn_lsp_text::{Change, Encoding, Markup, Message, chosen, replace};
use std::alloc::{AllocError, Global};

/// Which members are inferred, how the client shows what stands at a position, the unit of positions, the folder's files as they were last read, and the documents that the client has open, in the order in which they were opened.
#[derive(Drop)]
pub struct Workspace {
    pub infer: Infer,
    pub markup: Markup,
    pub encoding: Encoding,
    pub disk: Seq<SourceFile>,
    pub documents: Seq<SourceFile>,
    /// The names of documents whose texts aren't known, since what the client sent of them can't be read.
    pub unknown: Seq<Text>,
    /// The versions of the documents that are open with one.
    pub versions: Seq<Version>,
}

// ---- texts

fn copy_bytes(alloc: Global, bytes: &[u8]) -> Result<Seq<u8>, AllocError>
    ensures { IfOk result (λ copy. copy ≡ bytes.now) }
{
    Ok(Seq::of_vec(Vec::from_slice(alloc, bytes)?))
}

/// The text after a change.
fn changed(
    alloc: Global,
    encoding: Encoding,
    change: &Change,
    text: &[u8],
) -> Result<Seq<u8>, OutOfMemory>
    ensures { IfOk result (λ made. spec.IsChanged encoding change.now text.now made) }
{
    match change {
        Change::Whole(new) => Ok(copy_bytes(alloc, new.as_slice())?),
        Change::Part { range, text: new } => {
            let new = new.as_slice();
            Ok(Seq::of_vec(replace(alloc, encoding, text, *range, new)?))
        }
    }
}

/// The text after the changes, each of the text after the one before.
fn changed_by_all(
    alloc: Global,
    encoding: Encoding,
    changes: &[Change],
    text: &[u8],
) -> Result<Seq<u8>, OutOfMemory>
    ensures { IfOk result (λ made. spec.AreChanged encoding changes.now text.now made) }
{
    let mut made = copy_bytes(alloc, text)?;
    for change in changes {
        made = changed(alloc, encoding, change, made.as_slice())?;
    }
    Ok(made)
}

// ---- documents

/// Where the document of this name stands.
#[tactic(auto, using(jn_recheck::proofs::Going::place_found, jn_recheck::proofs::Going::place_later))]
pub(crate) fn place_of(documents: &[SourceFile], name: &str) -> Option<usize>
    ensures is { result ≡ place_of name.now documents.now }
    ensures below { MatchOption result (Unit {0}) (λ at. at < length documents.now) }
{
    for at in 0..documents.len() {
        if is_named(&documents[at], name) {
            return Some(at);
        }
    }
    None
}

pub(crate) fn is_named(file: &SourceFile, name: &str) -> bool
    ensures { result ≡ is_named name.now file.now }
{
    file.name.as_str() == name
}

fn document(alloc: Global, name: &str, text: &[u8]) -> Result<SourceFile, AllocError>
    ensures { IfOk result (λ file. file ≡ record { name = name.now; bytes = text.now }) }
{
    Ok(SourceFile {
        name: Text::of_str(alloc, name)?,
        bytes: copy_bytes(alloc, text)?,
    })
}

fn copy_documents(alloc: Global, documents: &[SourceFile]) -> Result<Vec<SourceFile>, AllocError>
    ensures { IfOk result (λ copy. copy.items ≡ documents.now) }
{
    let mut copy = Vec::new(alloc);
    for file in documents {
        copy.push(document(alloc, file.name.as_str(), file.bytes.as_slice())?)?;
    }
    Ok(copy)
}

/// The documents once more, where the name has this text: a known name in its place, a new one last.
fn with_document(
    alloc: Global,
    documents: &[SourceFile],
    name: &str,
    text: &[u8],
) -> Result<Seq<SourceFile>, AllocError>
    ensures { IfOk result (λ made. made ≡ with_file name.now text.now documents.now) }
{
    let mut made = copy_documents(alloc, documents)?;
    let new = document(alloc, name, text)?;
    match place_of(documents, name) {
        None => made.push(new)?,
        Some(at) => made[at] = new,
    }
    Ok(Seq::of_vec(made))
}

/// The documents once more without this name.
fn without_document(
    alloc: Global,
    documents: &[SourceFile],
    name: &str,
) -> Result<Seq<SourceFile>, AllocError>
    ensures { IfOk result (λ made. made ≡ without_file name.now documents.now) }
{
    let mut made = copy_documents(alloc, documents)?;
    if let Some(at) = place_of(documents, name) {
        made.remove(at);
    }
    Ok(Seq::of_vec(made))
}

// ---- messages

pub(crate) fn is_java(name: &str) -> bool
    ensures { result ≡ spec.is_java name.now }
{
    name.as_bytes().ends_with(b".java")
}

fn opened(
    alloc: Global,
    documents: &[SourceFile],
    name: &str,
    text: &[u8],
) -> Result<Option<Seq<SourceFile>>, OutOfMemory>
    ensures { IfOk result (λ made. made ≡ spec.opened name.now text.now documents.now) }
{
    if is_java(name) {
        Ok(Some(with_document(alloc, documents, name, text)?))
    } else {
        Ok(None)
    }
}

fn typed(
    alloc: Global,
    encoding: Encoding,
    unknown: &[Text],
    documents: &[SourceFile],
    name: &str,
    changes: &[Change],
) -> Result<Option<Seq<SourceFile>>, OutOfMemory>
    ensures { IfOk result (λ made. spec.IsTyped encoding name.now changes.now documents.now
        (spec.known_document unknown.now name.now documents.now) made) }
{
    if is_among(unknown, name) {
        return Ok(None);
    }
    match place_of(documents, name) {
        None => Ok(None),
        Some(at) => {
            let before = documents[at].bytes.as_slice();
            let text = changed_by_all(alloc, encoding, changes, before)?;
            Ok(Some(with_document(alloc, documents, name, text.as_slice())?))
        }
    }
}

fn closed(
    alloc: Global,
    documents: &[SourceFile],
    name: &str,
) -> Result<Option<Seq<SourceFile>>, OutOfMemory>
    ensures { IfOk result (λ made. made ≡ spec.closed name.now documents.now) }
{
    match place_of(documents, name) {
        None => Ok(None),
        Some(_) => Ok(Some(without_document(alloc, documents, name)?)),
    }
}

/// The open documents after a message, where it changes them.
fn edited(
    alloc: Global,
    encoding: Encoding,
    unknown: &[Text],
    documents: &[SourceFile],
    message: &Message,
) -> Result<Option<Seq<SourceFile>>, OutOfMemory>
    ensures { IfOk result (λ made. spec.AreEdited encoding unknown.now message.now documents.now made) }
{
    match message {
        Message::DidOpen { name, text, .. } => opened(
            alloc,
            documents,
            name.as_str(),
            text.as_slice(),
        ),
        Message::DidChange { name, changes, .. } => {
            let name = name.as_str();
            typed(
                alloc,
                encoding,
                unknown,
                documents,
                name,
                changes.as_slice(),
            )
        }
        Message::DidClose { name } => closed(alloc, documents, name.as_str()),
        _ => Ok(None),
    }
}

// ---- events

impl Workspace {
    /// What no client has told anything of, where these members are inferred.
    pub(crate) fn new(alloc: Global, infer: Infer) -> Workspace
        ensures { result ≡ (serving.new_server infer).workspace }
    {
        Workspace {
            infer,
            markup: Markup::Plain,
            encoding: Encoding::Utf16,
            disk: Seq::new(alloc),
            documents: Seq::new(alloc),
            unknown: Seq::new(alloc),
            versions: Seq::new(alloc),
        }
    }

    fn with_disk(&self, alloc: Global, disk: &[SourceFile]) -> Result<Workspace, OutOfMemory>
        ensures { IfOk result (λ made. made
            ≡ serving.workspace_of self.now.infer self.now.markup self.now.encoding disk.now self.now.documents self.now.unknown self.now.versions) }
    {
        Ok(Workspace {
            infer: self.infer,
            markup: self.markup,
            encoding: self.encoding,
            disk: Seq::of_vec(copy_documents(alloc, disk)?),
            documents: Seq::of_vec(copy_documents(alloc, self.documents.as_slice())?),
            unknown: copy_names(alloc, self.unknown.as_slice())?,
            versions: copy_versions(alloc, self.versions.as_slice())?,
        })
    }

    /// The workspace with these documents after a message.
    fn with_documents(
        &self,
        alloc: Global,
        message: &Message,
        documents: Seq<SourceFile>,
    ) -> Result<Workspace, OutOfMemory>
        ensures { IfOk result (λ made. made ≡ serving.workspace_of self.now.infer self.now.markup self.now.encoding self.now.disk documents
            (unknown_behind message.now self.now.documents self.now.unknown)
            (versions_behind message.now self.now.documents self.now.versions)) }
    {
        let unknown = unknown_behind(
            alloc,
            message,
            self.documents.as_slice(),
            self.unknown.as_slice(),
        )?;
        let versions = versions_behind(
            alloc,
            message,
            self.documents.as_slice(),
            self.versions.as_slice(),
        )?;
        Ok(Workspace {
            infer: self.infer,
            markup: self.markup,
            encoding: self.encoding,
            disk: Seq::of_vec(copy_documents(alloc, self.disk.as_slice())?),
            documents,
            unknown,
            versions,
        })
    }

    /// The workspace after a message that leaves the documents, where it may change which texts are unknown.
    fn touched_by(&self, alloc: Global, message: &Message) -> Result<Option<Workspace>, OutOfMemory>
        ensures { IfOk result (λ made. made ≡ serving.moved_by message.now self.now None) }
    {
        if !touches(message) {
            return Ok(None);
        }
        let documents = Seq::of_vec(copy_documents(alloc, self.documents.as_slice())?);
        Ok(Some(self.with_documents(alloc, message, documents)?))
    }

    /// The workspace after a message that makes of its documents these, or leaves them.
    fn moved_to(
        &self,
        alloc: Global,
        message: &Message,
        documents: Option<Seq<SourceFile>>,
    ) -> Result<Option<Workspace>, OutOfMemory>
        ensures { IfOk result (λ made. made ≡ serving.moved_by message.now self.now documents) }
    {
        match documents {
            None => self.touched_by(alloc, message),
            Some(documents) => Ok(Some(self.with_documents(alloc, message, documents)?)),
        }
    }

    fn moved_by(&self, alloc: Global, event: &Event) -> Result<Option<Workspace>, OutOfMemory>
        ensures { IfOk result (λ moved. serving.IsMoved event.now self.now moved) }
    {
        match event {
            Event::Message(message) => {
                let documents = edited(
                    alloc,
                    self.encoding,
                    self.unknown.as_slice(),
                    self.documents.as_slice(),
                    message,
                )?;
                self.moved_to(alloc, message, documents)
            }
            Event::Folder(files) => Ok(Some(self.with_disk(alloc, files.as_slice())?)),
        }
    }

    /// The workspace where these members are inferred, of a client that shows so what stands at a position, with this unit of positions.
    fn with_settings(
        &self,
        alloc: Global,
        infer: Infer,
        markup: Markup,
        encoding: Encoding,
    ) -> Result<Workspace, OutOfMemory>
        ensures { IfOk result (λ made. made ≡ serving.workspace_of infer markup encoding self.now.disk
            self.now.documents self.now.unknown self.now.versions) }
    {
        Ok(Workspace {
            infer,
            markup,
            encoding,
            disk: Seq::of_vec(copy_documents(alloc, self.disk.as_slice())?),
            documents: Seq::of_vec(copy_documents(alloc, self.documents.as_slice())?),
            unknown: copy_names(alloc, self.unknown.as_slice())?,
            versions: copy_versions(alloc, self.versions.as_slice())?,
        })
    }

    /// The workspace after a message that comes before the server serves.
    fn chosen_by(&self, alloc: Global, message: &Message) -> Result<Option<Workspace>, OutOfMemory>
        ensures { IfOk result (λ moved. moved ≡ serving.chosen_by message.now self.now) }
    {
        match message {
            Message::Initialize {
                infer,
                markup,
                encoding,
                ..
            } => {
                let infer = chosen(*infer, self.infer);
                Ok(Some(self.with_settings(alloc, infer, *markup, *encoding)?))
            }
            _ => Ok(None),
        }
    }

    /// The workspace after an event that comes before the server serves.
    fn started_by(&self, alloc: Global, event: &Event) -> Result<Option<Workspace>, OutOfMemory>
        ensures { IfOk result (λ moved. moved ≡ serving.started_by event.now self.now) }
    {
        match event {
            Event::Message(message) => self.chosen_by(alloc, message),
            Event::Folder(_) => Ok(None),
        }
    }

    /// What stands after an event that is taken in this phase, where it changes anything.
    pub(crate) fn moved(
        &self,
        alloc: Global,
        phase: Phase,
        event: &Event,
    ) -> Result<Option<Workspace>, OutOfMemory>
        ensures { IfOk result (λ moved. serving.IsMovedIn phase event.now self.now moved) }
    {
        match phase {
            Phase::Waiting => self.started_by(alloc, event),
            Phase::Serving => self.moved_by(alloc, event),
            Phase::ShutDown => Ok(None),
            Phase::Exited { .. } => Ok(None),
        }
    }
}
