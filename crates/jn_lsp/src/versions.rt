//! The versions of the documents that are open with one.
ghost use Rattle.std.specs.Prelude.{◌≡◌, ◌++◌, ◌∷◌, [], IfOk, OnOk};
ghost use Rattle.jn_lsp.specs.Tracking as spec;

use crate::unknown::{doubted_by, is_among};
use jn_base::{Seq, Text};
use jn_front::SourceFile;
use jn_lsp_text::Message;
use std::alloc::{AllocError, Global};

/// The version of the document of a name.
#[derive(Drop)]
pub struct Version {
    pub name: Text,
    pub number: i64,
}

fn is_of(one: &Version, name: &str) -> bool
    ensures { result ≡ spec.is_of name.now one.now }
{
    one.name.as_str() == name
}

/// The version of a name; none of one that isn't open with one.
pub(crate) fn version_of(versions: &[Version], name: &str) -> Option<i64>
    ensures { result ≡ spec.version_of versions.now name.now }
{
    for one in versions {
        if is_of(one, name) {
            return Some(one.number);
        }
    }
    None
}

fn copy(alloc: Global, one: &Version) -> Result<Version, AllocError>
    ensures { IfOk result (λ made. made ≡ one.now) }
{
    Ok(Version {
        name: one.name.copy(alloc)?,
        number: one.number,
    })
}

/// The versions once more.
pub(crate) fn copy_versions(alloc: Global, versions: &[Version]) -> Result<Seq<Version>, AllocError>
    ensures { IfOk result (λ made. made ≡ versions.now) }
{
    let mut made = Seq::new(alloc);
    for one in versions {
        made.push(copy(alloc, one)?)?;
    }
    Ok(made)
}

/// Puts the version after the others, where it is that of another name.
fn put_other(
    alloc: Global,
    name: &str,
    one: &Version,
    made: &mut Seq<Version>,
) -> Result<(), AllocError>
    ensures { OnOk result
        (made.new ≡ made.old ++ spec.without_version name.now (one.now ∷ [])) }
{
    if is_of(one, name) {
        return Ok(());
    }
    made.push(copy(alloc, one)?)
}

/// The versions of the other names.
fn without_version(
    alloc: Global,
    name: &str,
    versions: &[Version],
) -> Result<Seq<Version>, AllocError>
    ensures { IfOk result (λ made. made ≡ spec.without_version name.now versions.now) }
{
    let mut made = Seq::new(alloc);
    for one in versions {
        put_other(alloc, name, one, &mut made)?;
    }
    Ok(made)
}

/// Puts the version of a name after the others, where it has one.
fn put_at(
    alloc: Global,
    name: &str,
    number: Option<i64>,
    made: &mut Seq<Version>,
) -> Result<(), AllocError>
    ensures { OnOk result (made.new ≡ made.old ++ spec.version_at name.now number) }
{
    match number {
        None => Ok(()),
        Some(number) => made.push(Version {
            name: Text::of_str(alloc, name)?,
            number,
        }),
    }
}

/// The versions, where the name has this one now.
fn with_version(
    alloc: Global,
    name: &str,
    number: Option<i64>,
    versions: &[Version],
) -> Result<Seq<Version>, AllocError>
    ensures { IfOk result (λ made. made ≡ spec.with_version name.now number versions.now) }
{
    let mut made = without_version(alloc, name, versions)?;
    put_at(alloc, name, number, &mut made)?;
    Ok(made)
}

/// The versions, where the name has this one now if it had one before.
fn renumbered(
    alloc: Global,
    name: &str,
    number: Option<i64>,
    versions: &[Version],
) -> Result<Seq<Version>, AllocError>
    ensures { IfOk result (λ made. made ≡ spec.renumbered name.now number versions.now) }
{
    if version_of(versions, name).is_some() {
        with_version(alloc, name, number, versions)
    } else {
        copy_versions(alloc, versions)
    }
}

/// The versions once more, or as a message says.
fn versions_by(
    alloc: Global,
    message: &Message,
    versions: &[Version],
) -> Result<Seq<Version>, AllocError>
    ensures { IfOk result (λ made. made ≡ spec.versions_by message.now versions.now) }
{
    match message {
        Message::DidOpen { name, version, .. } => {
            with_version(alloc, name.as_str(), *version, versions)
        }
        Message::DidChange { name, version, .. } => {
            renumbered(alloc, name.as_str(), *version, versions)
        }
        Message::DidClose { name } => without_version(alloc, name.as_str(), versions),
        _ => copy_versions(alloc, versions),
    }
}

/// Puts the version after the others, where its name is none of these.
fn put_outside(
    alloc: Global,
    names: &[Text],
    one: &Version,
    made: &mut Seq<Version>,
) -> Result<(), AllocError>
    ensures { OnOk result
        (made.new ≡ made.old ++ spec.without_versions names.now (one.now ∷ [])) }
{
    if is_among(names, one.name.as_str()) {
        return Ok(());
    }
    made.push(copy(alloc, one)?)
}

/// The versions of other names than these.
fn without_versions(
    alloc: Global,
    names: &[Text],
    versions: &[Version],
) -> Result<Seq<Version>, AllocError>
    ensures { IfOk result (λ made. made ≡ spec.without_versions names.now versions.now) }
{
    let mut made = Seq::new(alloc);
    for one in versions {
        put_outside(alloc, names, one, &mut made)?;
    }
    Ok(made)
}

/// The versions after a message; of a text that it leaves open there is none.
pub(crate) fn versions_behind(
    alloc: Global,
    message: &Message,
    documents: &[SourceFile],
    versions: &[Version],
) -> Result<Seq<Version>, AllocError>
    ensures { IfOk result (λ made. made
        ≡ spec.versions_behind message.now documents.now versions.now) }
{
    let doubted = doubted_by(alloc, message, documents)?;
    let known = without_versions(alloc, doubted.as_slice(), versions)?;
    versions_by(alloc, message, known.as_slice())
}
