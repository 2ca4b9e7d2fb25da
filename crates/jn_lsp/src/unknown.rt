//! Documents whose texts aren't known, since what the client sent of them can't be read.
ghost use Rattle.std.specs.Prelude.{◌≡◌, ◌++◌, ◌∷◌, [], Some, IfOk, OnOk, map, option_map};
ghost use Rattle.jn_front.specs.Files.{names_of};
ghost use Rattle.jn_lsp.specs.Names as lists;
ghost use Rattle.jn_lsp.specs.Unknown as spec;

use crate::diagnostics::Told;
use crate::documents::is_java;
use crate::phase::Phase;
use jn_base::{Seq, Text};
use jn_front::SourceFile;
use jn_lsp_text::{Choice, Message, Reply, copy_diagnostics};
use std::alloc::{AllocError, Global};

// ---- names

/// Whether the name is one of these.
pub(crate) fn is_among(names: &[Text], name: &str) -> bool
    ensures { result ≡ lists.is_among names.now name.now }
{
    names.iter().any(|other| other.as_str() == name)
}

/// Whether there are none.
pub(crate) fn is_empty(names: &[Text]) -> bool
    ensures { result ≡ lists.is_empty names.now }
{
    match names {
        [] => true,
        _ => false,
    }
}

/// Puts the name after the others, where it isn't among the unknown ones.
fn put_new(
    alloc: Global,
    unknown: &[Text],
    name: &Text,
    made: &mut Seq<Text>,
) -> Result<(), AllocError>
    ensures { OnOk result (made.new ≡ made.old ++ spec.newly unknown.now (name.now ∷ [])) }
{
    if is_among(unknown, name.as_str()) {
        return Ok(());
    }
    made.push(name.copy(alloc)?)
}

/// Those of the names that aren't among the unknown ones.
fn newly(alloc: Global, unknown: &[Text], names: &[Text]) -> Result<Seq<Text>, AllocError>
    ensures { IfOk result (λ made. made ≡ spec.newly unknown.now names.now) }
{
    let mut made = Seq::new(alloc);
    for name in names {
        put_new(alloc, unknown, name, &mut made)?;
    }
    Ok(made)
}

/// The names of the documents.
fn names_of(alloc: Global, documents: &[SourceFile]) -> Result<Seq<Text>, AllocError>
    ensures { IfOk result (λ names. names ≡ names_of documents.now) }
{
    let mut names = Seq::new(alloc);
    for document in documents {
        names.push(document.name.copy(alloc)?)?;
    }
    Ok(names)
}

/// The name, where it is that of a Java file.
fn doubted_in(alloc: Global, name: &Text) -> Result<Seq<Text>, AllocError>
    ensures { IfOk result (λ names. names ≡ spec.doubted_in (Some name.now)) }
{
    let mut names = Seq::new(alloc);
    if is_java(name.as_str()) {
        names.push(name.copy(alloc)?)?;
    }
    Ok(names)
}

/// The documents whose texts a message leaves open.
pub(crate) fn doubted_by(
    alloc: Global,
    message: &Message,
    documents: &[SourceFile],
) -> Result<Seq<Text>, AllocError>
    ensures { IfOk result (λ names. names ≡ spec.doubted_by message.now documents.now) }
{
    match message {
        Message::BadDocument { name } => doubted_in(alloc, name),
        Message::BadParams { id } => match id {
            None => names_of(alloc, documents),
            Some(_) => Ok(Seq::new(alloc)),
        },
        Message::NoMessage => names_of(alloc, documents),
        Message::NoJson => names_of(alloc, documents),
        Message::BadHeader => names_of(alloc, documents),
        Message::TooLarge => names_of(alloc, documents),
        _ => Ok(Seq::new(alloc)),
    }
}

/// The document whose text is known again after a message.
fn settled_by(message: &Message) -> Option<&str>
    ensures { option_map (λ name. name.now) result ≡ spec.settled_by message.now }
{
    match message {
        Message::DidOpen { name, .. } => Some(name.as_str()),
        Message::DidClose { name } => Some(name.as_str()),
        _ => None,
    }
}

/// Puts the name after the others, where it is another than this.
fn put_other(
    alloc: Global,
    settled: &str,
    name: &Text,
    made: &mut Seq<Text>,
) -> Result<(), AllocError>
    ensures { OnOk result
        (made.new ≡ made.old ++ spec.without (Some settled.now) (name.now ∷ [])) }
{
    if name.as_str() == settled {
        return Ok(());
    }
    made.push(name.copy(alloc)?)
}

/// The names but this one.
fn without_name(alloc: Global, settled: &str, names: &[Text]) -> Result<Seq<Text>, AllocError>
    ensures { IfOk result (λ made. made ≡ spec.without (Some settled.now) names.now) }
{
    let mut made = Seq::new(alloc);
    for name in names {
        put_other(alloc, settled, name, &mut made)?;
    }
    Ok(made)
}

/// The names once more.
pub(crate) fn copy_names(alloc: Global, names: &[Text]) -> Result<Seq<Text>, AllocError>
    ensures { IfOk result (λ made. made ≡ names.now) }
{
    let mut made = Seq::new(alloc);
    for name in names {
        made.push(name.copy(alloc)?)?;
    }
    Ok(made)
}

/// The names but the one that is settled.
fn without(alloc: Global, settled: Option<&str>, names: &[Text]) -> Result<Seq<Text>, AllocError>
    ensures { IfOk result (λ made.
        made ≡ spec.without (option_map (λ name. name.now) settled.entry) names.now) }
{
    match settled {
        None => copy_names(alloc, names),
        Some(settled) => without_name(alloc, settled, names),
    }
}

/// The names, one list after the other.
fn both(alloc: Global, one: Seq<Text>, other: &[Text]) -> Result<Seq<Text>, AllocError>
    ensures { IfOk result (λ all. all ≡ one ++ other.now) }
{
    let mut all = one;
    for name in other {
        all.push(name.copy(alloc)?)?;
    }
    Ok(all)
}

/// The names of unknown texts after a message.
pub(crate) fn unknown_behind(
    alloc: Global,
    message: &Message,
    documents: &[SourceFile],
    unknown: &[Text],
) -> Result<Seq<Text>, AllocError>
    ensures { IfOk result (λ made. made
        ≡ spec.unknown_behind message.now documents.now unknown.now) }
{
    let doubted = doubted_by(alloc, message, documents)?;
    let fresh = newly(alloc, unknown, doubted.as_slice())?;
    let kept = without(alloc, settled_by(message), unknown)?;
    both(alloc, kept, fresh.as_slice())
}

/// Whether a message may change which texts are unknown.
pub(crate) fn touches(message: &Message) -> bool
    ensures { result ≡ spec.touches message.now }
{
    match message {
        Message::DidClose { .. } => true,
        Message::BadDocument { .. } => true,
        Message::BadParams { .. } => true,
        Message::NoMessage => true,
        Message::NoJson => true,
        Message::BadHeader => true,
        Message::TooLarge => true,
        _ => false,
    }
}

// ---- what is told

/// What is told of a file: nothing where its text isn't known.
fn hushed_one(alloc: Global, unknown: &[Text], one: &Told) -> Result<Told, AllocError>
    ensures { IfOk result (λ made. made ≡ spec.hushed_one unknown.now one.now) }
{
    let name = one.name.copy(alloc)?;
    if is_among(unknown, one.name.as_str()) {
        return Ok(Told {
            name,
            diagnostics: Seq::new(alloc),
        });
    }
    Ok(Told {
        name,
        diagnostics: copy_diagnostics(alloc, one.diagnostics.as_slice())?,
    })
}

/// What is told of the files, and of those whose text isn't known nothing.
pub(crate) fn hushed(
    alloc: Global,
    unknown: &[Text],
    told: &[Told],
) -> Result<Vec<Told>, AllocError>
    ensures { IfOk result (λ made. made.items ≡ spec.hushed unknown.now told.now) }
{
    let mut made = Vec::new(alloc);
    for one in told {
        made.push(hushed_one(alloc, unknown, one)?)?;
    }
    Ok(made)
}

// ---- warnings

/// The warning of a choice of the members that are inferred that says nothing.
const CHOICE_WORDS: &str =
    "nullcheck: initializationOptions.infer is \"private\" or \"package\"; this one is left out";

/// The warning that a document's text isn't known.
fn doubt(alloc: Global, name: &Text) -> Result<Reply, AllocError>
    ensures { IfOk result (λ reply. reply ≡ spec.doubt name.now) }
{
    let mut words = String::from_str(alloc, "nullcheck: ")?;
    words.push_str(name.as_str())?;
    words.push_str(
        ": what was sent of this document can't be read; it isn't checked until it is opened again",
    )?;
    Ok(Reply::Show {
        words: Text::of_string(words),
    })
}

/// Puts a warning for each of these names after the replies.
fn put_doubts(alloc: Global, names: &[Text], replies: &mut Seq<Reply>) -> Result<(), AllocError>
    ensures { OnOk result (replies.new ≡ replies.old ++ map spec.doubt names.now) }
{
    for name in names {
        replies.push(doubt(alloc, name)?)?;
    }
    Ok(())
}

/// What a message says of the members that are inferred.
fn choice_in(message: &Message) -> Choice
    ensures { result ≡ spec.choice_in message.now }
{
    match message {
        Message::Initialize { infer, .. } => *infer,
        _ => Choice::Unsaid,
    }
}

/// Puts a warning after the replies of a choice that says nothing.
fn put_misread(alloc: Global, choice: Choice, replies: &mut Seq<Reply>) -> Result<(), AllocError>
    ensures { OnOk result (replies.new ≡ replies.old ++ spec.misread choice) }
{
    match choice {
        Choice::Unsaid => Ok(()),
        Choice::Said(_) => Ok(()),
        Choice::Wrong => {
            let words = Text::of_str(alloc, CHOICE_WORDS)?;
            replies.push(Reply::Show { words })
        }
    }
}

/// Puts a warning after the replies of a choice that says nothing, or for each document whose text is left open, by a message that comes in
/// this phase.
pub(crate) fn warn(
    alloc: Global,
    phase: Phase,
    message: &Message,
    documents: &[SourceFile],
    unknown: &[Text],
    replies: &mut Seq<Reply>,
) -> Result<(), AllocError>
    ensures { OnOk result (replies.new ≡ replies.old
        ++ spec.doubts_in phase message.now documents.now unknown.now) }
{
    match phase {
        Phase::Waiting => put_misread(alloc, choice_in(message), replies),
        Phase::Serving => {
            let doubted = doubted_by(alloc, message, documents)?;
            let fresh = newly(alloc, unknown, doubted.as_slice())?;
            put_doubts(alloc, fresh.as_slice(), replies)
        }
        _ => Ok(()),
    }
}
