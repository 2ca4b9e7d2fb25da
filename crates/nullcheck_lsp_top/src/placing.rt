//! Which documents are of the workspace.
ghost use Rattle.std.specs.Prelude.{◌≡◌, ◌++◌, IfOk, map};
ghost use Rattle.jn_lsp.specs.Stand.{has_name};
ghost use Rattle.nullcheck_lsp_top.specs.Placing as spec;

use crate::client::{Home, Root};
use jn_base::Text;
use jn_folder::{each_once, is_among, is_below, is_whole, joined, plain, rehomed};
use jn_front::SourceFile;
use jn_lsp::Phase;
use jn_lsp_text::{Message, Reply};
use std::alloc::{AllocError, Global};

// ---- names

/// The path of the first folder.
fn first_path(alloc: Global, homes: &[Home]) -> Result<Option<Text>, AllocError>
    ensures { IfOk result (λ path. path ≡ spec.first_path homes.now) }
{
    match homes {
        [] => Ok(None),
        [home, ..] => Ok(Some(home.path.copy(alloc)?)),
    }
}

/// The path of a file that the settings name: as it is where it begins with a slash or there is no folder, else in the folder.
fn path_in(alloc: Global, folder: &Option<Text>, name: &Text) -> Result<Text, AllocError>
    ensures { IfOk result (λ path. path ≡ spec.path_in folder.now name.now) }
{
    match folder {
        Some(folder) if !is_whole(name.as_str()) => {
            joined(alloc, folder.as_str(), name.as_str())
        }
        _ => name.copy(alloc),
    }
}

/// The same path made plain.
fn named_path(alloc: Global, folder: &Option<Text>, name: &Text) -> Result<Text, AllocError>
    ensures { IfOk result (λ path. path ≡ spec.named_path folder.now name.now) }
{
    let path = path_in(alloc, folder, name)?;
    plain(alloc, path.as_str())
}

/// The plain paths of these names.
pub(crate) fn all_paths(
    alloc: Global,
    folder: &Option<Text>,
    names: &[Text],
) -> Result<Vec<Text>, AllocError>
    ensures { IfOk result (λ paths. paths.items ≡ map (spec.named_path folder.now) names.now) }
{
    let mut paths = Vec::new(alloc);
    for name in names {
        paths.push(named_path(alloc, folder, name)?)?;
    }
    Ok(paths)
}

/// The plain paths of the files that the settings name, each once.
pub(crate) fn named_paths(
    alloc: Global,
    folder: &Option<Text>,
    names: &[Text],
) -> Result<Vec<Text>, AllocError>
    ensures { IfOk result (λ paths. paths.items ≡ spec.named_paths folder.now names.now) }
{
    let paths = all_paths(alloc, folder, names)?;
    each_once(alloc, paths.as_slice())
}

/// The plain paths of the files that the settings name, in the first folder where they aren't whole.
pub(crate) fn files_named(alloc: Global, root: &Root) -> Result<Vec<Text>, AllocError>
    ensures { IfOk result (λ paths. paths.items ≡ spec.files_named root.now) }
{
    let folder = first_path(alloc, root.folders.as_slice())?;
    named_paths(alloc, &folder, root.files.as_slice())
}

// ---- documents

/// Whether a plain path lies in one of these folders.
fn is_below_any(
    alloc: Global,
    skipped: &[Text],
    homes: &[Home],
    path: &str,
) -> Result<bool, AllocError>
    ensures { IfOk result (λ is. is ≡ spec.is_below_any skipped.now homes.now path.now) }
{
    let mut rest = homes;
    while let [home, more @ ..] = rest {
        if is_below(alloc, skipped, home.path.as_str(), path)? {
            return Ok(true);
        }
        rest = more;
    }
    Ok(false)
}

/// Whether a plain path lies in one of the folders, where there are any.
fn is_in_folders(
    alloc: Global,
    skipped: &[Text],
    homes: &[Home],
    path: &str,
) -> Result<bool, AllocError>
    ensures { IfOk result (λ is. is ≡ spec.is_in_folders skipped.now homes.now path.now) }
{
    match homes {
        [] => Ok(is_whole(path)),
        _ => is_below_any(alloc, skipped, homes, path),
    }
}

fn is_of(alloc: Global, root: &Root, path: &str) -> Result<bool, AllocError>
    ensures { IfOk result (λ is. is ≡ spec.is_of root.now path.now) }
{
    let named = files_named(alloc, root)?;
    if is_among(named.as_slice(), path) {
        return Ok(true);
    }
    is_in_folders(
        alloc,
        root.exclude.as_slice(),
        root.folders.as_slice(),
        path,
    )
}

/// The path, where it is one of the workspace's.
fn if_of(alloc: Global, root: &Root, path: &str) -> Result<Option<Text>, AllocError>
    ensures { IfOk result (λ placed. placed ≡ spec.if_of root.now path.now) }
{
    if is_of(alloc, root, path)? {
        Ok(Some(Text::of_str(alloc, path)?))
    } else {
        Ok(None)
    }
}

/// A plain path in the place where the folder really is, as it is below the folder; any other as it is.
fn homed(alloc: Global, home: &Home, path: &str) -> Result<Text, AllocError>
    ensures { IfOk result (λ moved. moved ≡ spec.homed home.now path.now) }
{
    match &home.real {
        Some(real) => rehomed(alloc, home.path.as_str(), real.as_str(), path),
        None => Text::of_str(alloc, path),
    }
}

/// A plain path as it is below this folder, where it is so one of the workspace's.
fn homed_at(alloc: Global, root: &Root, home: &Home, path: &str) -> Result<Option<Text>, AllocError>
    ensures { IfOk result (λ placed. placed ≡ spec.if_of root.now (spec.homed home.now path.now)) }
{
    let moved = homed(alloc, home, path)?;
    if_of(alloc, root, moved.as_str())
}

/// A plain path as it is below the first of these folders of which it is so one of the workspace's.
fn homed_in(
    alloc: Global,
    root: &Root,
    homes: &[Home],
    path: &str,
) -> Result<Option<Text>, AllocError>
    ensures { IfOk result (λ placed. placed ≡ spec.homed_in root.now homes.now path.now) }
{
    let mut rest = homes;
    while let [home, more @ ..] = rest {
        if let Some(placed) = homed_at(alloc, root, home, path)? {
            return Ok(Some(placed));
        }
        rest = more;
    }
    Ok(None)
}

/// A path that is one of the workspace's, as it is or below a folder.
fn listed_path(alloc: Global, root: &Root, path: &str) -> Result<Option<Text>, AllocError>
    ensures { IfOk result (λ placed. placed ≡ spec.listed_path root.now path.now) }
{
    match if_of(alloc, root, path)? {
        Some(placed) => Ok(Some(placed)),
        None => homed_in(alloc, root, root.folders.as_slice(), path),
    }
}

// ---- documents that are open

/// Whether a document is open by this path.
fn is_open(documents: &[SourceFile], path: &str) -> bool
    ensures { result ≡ has_name path.now documents.now }
{
    documents
        .iter()
        .any(|document| document.name.as_str() == path)
}

/// The path, where a document is open by it.
fn if_open(alloc: Global, documents: &[SourceFile], path: &str) -> Result<Option<Text>, AllocError>
    ensures { IfOk result (λ placed. placed ≡ spec.if_open documents.now path.now) }
{
    if is_open(documents, path) {
        Ok(Some(Text::of_str(alloc, path)?))
    } else {
        Ok(None)
    }
}

/// A plain path as it is below this folder, where a document is open by it.
fn open_at(
    alloc: Global,
    documents: &[SourceFile],
    home: &Home,
    path: &str,
) -> Result<Option<Text>, AllocError>
    ensures { IfOk result
        (λ placed. placed ≡ spec.if_open documents.now (spec.homed home.now path.now)) }
{
    let moved = homed(alloc, home, path)?;
    if_open(alloc, documents, moved.as_str())
}

/// A plain path as it is below the first of these folders below which a document is open by it.
fn open_in(
    alloc: Global,
    documents: &[SourceFile],
    homes: &[Home],
    path: &str,
) -> Result<Option<Text>, AllocError>
    ensures { IfOk result (λ placed. placed ≡ spec.open_in documents.now homes.now path.now) }
{
    let mut rest = homes;
    while let [home, more @ ..] = rest {
        if let Some(placed) = open_at(alloc, documents, home, path)? {
            return Ok(Some(placed));
        }
        rest = more;
    }
    Ok(None)
}

/// A plain path as it is below a folder of the workspace, or one that was taken out of it, where a document is open by it.
fn open_below(
    alloc: Global,
    root: &Root,
    documents: &[SourceFile],
    path: &str,
) -> Result<Option<Text>, AllocError>
    ensures { IfOk result (λ placed. placed ≡ spec.or_homed
        (spec.open_in documents.now root.now.folders path.now)
        (spec.open_in documents.now root.now.left path.now)) }
{
    match open_in(alloc, documents, root.folders.as_slice(), path)? {
        Some(placed) => Ok(Some(placed)),
        None => open_in(alloc, documents, root.left.as_slice(), path),
    }
}

/// The path by which a document is open already.
fn open_path(
    alloc: Global,
    root: &Root,
    documents: &[SourceFile],
    path: &str,
) -> Result<Option<Text>, AllocError>
    ensures { IfOk result
        (λ placed. placed ≡ spec.open_path root.now documents.now path.now) }
{
    match if_open(alloc, documents, path)? {
        Some(placed) => Ok(Some(placed)),
        None => open_below(alloc, root, documents, path),
    }
}

/// The path by which a document is open already or one of the workspace's.
fn placed_path(
    alloc: Global,
    root: &Root,
    documents: &[SourceFile],
    path: &str,
) -> Result<Option<Text>, AllocError>
    ensures { IfOk result
        (λ placed. placed ≡ spec.placed_path root.now documents.now path.now) }
{
    match open_path(alloc, root, documents, path)? {
        Some(placed) => Ok(Some(placed)),
        None => listed_path(alloc, root, path),
    }
}

/// The name by which a document is open or one of the workspace's.
fn placed_name(
    alloc: Global,
    root: &Root,
    documents: &[SourceFile],
    name: &Text,
) -> Result<Option<Text>, AllocError>
    ensures { IfOk result
        (λ placed. placed ≡ spec.placed_name root.now documents.now name.now) }
{
    let stands = plain(alloc, name.as_str())?;
    let placed = placed_path(alloc, root, documents, stands.as_str())?;
    Ok(placed)
}

/// The name by which a document is open or one of the workspace's; its own where it is neither.
fn placed_or_same(
    alloc: Global,
    root: &Root,
    documents: &[SourceFile],
    name: Text,
) -> Result<Text, AllocError>
    ensures { IfOk result
        (λ placed. placed ≡ spec.or_same (spec.placed_name root.now documents.now name) name) }
{
    match placed_name(alloc, root, documents, &name)? {
        None => Ok(name),
        Some(placed) => Ok(placed),
    }
}

/// The message as the server takes it: documents by the names of the workspace's files, and nothing of others.
pub(crate) fn placed(
    alloc: Global,
    root: &Root,
    documents: &[SourceFile],
    message: Message,
) -> Result<Message, AllocError>
    ensures { IfOk result (λ placed. placed ≡ spec.placed root.now documents.now message) }
{
    match message {
        Message::DidOpen {
            name,
            version,
            text,
        } => match placed_name(alloc, root, documents, &name)? {
            None => Ok(Message::Ignored),
            Some(name) => Ok(Message::DidOpen {
                name,
                version,
                text,
            }),
        },
        Message::DidChange {
            name,
            version,
            changes,
        } => match placed_name(alloc, root, documents, &name)? {
            None => Ok(Message::Ignored),
            Some(name) => Ok(Message::DidChange {
                name,
                version,
                changes,
            }),
        },
        Message::DidClose { name } => match placed_name(alloc, root, documents, &name)? {
            None => Ok(Message::Ignored),
            Some(name) => Ok(Message::DidClose { name }),
        },
        Message::BadDocument { name } => match placed_name(alloc, root, documents, &name)? {
            None => Ok(Message::Ignored),
            Some(name) => Ok(Message::BadDocument { name }),
        },
        Message::CodeAction { id, name, range } => Ok(Message::CodeAction {
            id,
            name: placed_or_same(alloc, root, documents, name)?,
            range,
        }),
        Message::InlayHint { id, name, range } => Ok(Message::InlayHint {
            id,
            name: placed_or_same(alloc, root, documents, name)?,
            range,
        }),
        Message::Hover { id, name, position } => Ok(Message::Hover {
            id,
            name: placed_or_same(alloc, root, documents, name)?,
            position,
        }),
        other => Ok(other),
    }
}

// ---- what is said of others

/// The document that a message opens, where it is none of the workspace's.
fn foreign_by(
    alloc: Global,
    root: &Root,
    documents: &[SourceFile],
    message: &Message,
) -> Result<Option<Text>, AllocError>
    ensures { IfOk result (λ foreign. foreign ≡ spec.foreign_by root.now documents.now message.now) }
{
    match message {
        Message::DidOpen { name, .. } => match placed_name(alloc, root, documents, name)? {
            None => Ok(Some(name.copy(alloc)?)),
            Some(_) => Ok(None),
        },
        _ => Ok(None),
    }
}

/// The document that a message opens in this phase, where it is none of the workspace's.
pub(crate) fn foreign_in(
    alloc: Global,
    phase: Phase,
    root: &Root,
    documents: &[SourceFile],
    message: &Message,
) -> Result<Option<Text>, AllocError>
    ensures { IfOk result
        (λ foreign. foreign ≡ spec.foreign_in phase root.now documents.now message.now) }
{
    match phase {
        Phase::Serving => foreign_by(alloc, root, documents, message),
        _ => Ok(None),
    }
}

fn foreign_words(alloc: Global, name: &str) -> Result<Text, AllocError>
    ensures { IfOk result (λ words. words ≡ spec.foreign_words name.now) }
{
    let mut words = String::from_str(alloc, "nullcheck: ")?;
    words.push_str(name)?;
    words.push_str(
        ": this document is none of the workspace's files, so it isn't checked, nor are others like it",
    )?;
    Ok(Text::of_string(words))
}

/// What is said of the first document that is none of the workspace's.
fn says(alloc: Global, said: bool, foreign: &Option<Text>) -> Result<Vec<Reply>, AllocError>
    ensures { IfOk result (λ replies. replies.items ≡ spec.says said foreign.now) }
{
    let mut replies = Vec::new(alloc);
    match foreign {
        Some(name) if !said => {
            let words = foreign_words(alloc, name.as_str())?;
            replies.push(Reply::Show { words })?;
        }
        _ => {}
    }
    Ok(replies)
}

// ---- what is sent before an answer

/// Whether the client is asked to tell of files that change, when this message comes.
fn is_asked(phase: Phase, root: &Root, message: &Message) -> bool
    ensures { result ≡ spec.is_asked phase root.now message.now }
{
    match (phase, message) {
        (Phase::Serving, Message::Initialized) => root.watched,
        _ => false,
    }
}

/// What is sent before a message is answered: a request to tell of files that change, and what is said of a document.
pub(crate) fn notices(
    alloc: Global,
    phase: Phase,
    root: &Root,
    said: bool,
    message: &Message,
    foreign: &Option<Text>,
) -> Result<Vec<Reply>, AllocError>
    ensures { IfOk result (λ replies. replies.items
        ≡ spec.asks (spec.is_asked phase root.now message.now) ++ spec.says said foreign.now) }
{
    let mut replies = asks(alloc, is_asked(phase, root, message))?;
    let mut more = says(alloc, said, foreign)?;
    replies.append(&mut more)?;
    Ok(replies)
}

fn asks(alloc: Global, asked: bool) -> Result<Vec<Reply>, AllocError>
    ensures { IfOk result (λ replies. replies.items ≡ spec.asks asked) }
{
    let mut replies = Vec::new(alloc);
    if asked {
        replies.push(Reply::Watch)?;
    }
    Ok(replies)
}
