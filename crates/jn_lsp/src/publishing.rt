//! What is published where something else is told than before.
ghost use Rattle.std.specs.Prelude.{◌≡◌, IfOk, OnOk};
ghost use Rattle.jn_lsp.specs.Publications as spec;
ghost use Rattle.jn_lsp.specs.Telling.{told_of};

use crate::comparing::are_same;
use crate::diagnostics::Told;
use crate::versions::{Version, version_of};
use jn_base::{OutOfMemory, Seq, Text};
use jn_lsp_text::{Diagnostic, Reply, copy_diagnostics};
use std::alloc::{AllocError, Global};

fn is_named(told: &Told, name: &str) -> bool
    ensures { result ≡ spec.is_named name.now told.now }
{
    told.name.as_str() == name
}

fn is_told(told: &[Told], name: &str) -> bool
    ensures { result ≡ spec.is_told told.now name.now }
{
    told.iter().any(|one| is_named(one, name))
}

/// What is told of a name.
pub(crate) fn told_of<'a>(told: &'a [Told], name: &str) -> &'a [Diagnostic]
    ensures { result.now ≡ told_of told.now name.now }
{
    for one in told {
        if is_named(one, name) {
            return one.diagnostics.as_slice();
        }
    }
    &[]
}

/// Whether the document of this name is opened now.
fn is_opened(opened: &Option<Text>, name: &str) -> bool
    ensures { result ≡ spec.is_opened opened.now name.now }
{
    match opened {
        None => false,
        Some(opened) => opened.as_str() == name,
    }
}

/// Publishes what is told of a name, where something else was told before, or its document is opened now.
fn publish(
    alloc: Global,
    opened: &Option<Text>,
    versions: &[Version],
    before: &[Told],
    name: &str,
    diagnostics: &[Diagnostic],
    replies: &mut Seq<Reply>,
) -> Result<(), AllocError>
    ensures { OnOk result (spec.Adds opened.now versions.now before.now name.now diagnostics.now replies.old replies.new) }
{
    if !is_opened(opened, name) && are_same(told_of(before, name), diagnostics) {
        return Ok(());
    }
    replies.push(Reply::Publish {
        name: Text::of_str(alloc, name)?,
        version: version_of(versions, name),
        diagnostics: copy_diagnostics(alloc, diagnostics)?,
    })
}

/// Publishes that nothing is told of a name any more, where it is gone.
fn clear(
    alloc: Global,
    opened: &Option<Text>,
    versions: &[Version],
    before: &[Told],
    after: &[Told],
    name: &str,
    replies: &mut Seq<Reply>,
) -> Result<(), AllocError>
    ensures { OnOk result (spec.Clears opened.now versions.now before.now after.now name.now replies.old replies.new) }
{
    if is_told(after, name) {
        return Ok(());
    }
    publish(alloc, opened, versions, before, name, &[], replies)
}

/// Publications for the names that are gone: nothing is told of them.
fn cleared(
    alloc: Global,
    opened: &Option<Text>,
    versions: &[Version],
    before: &[Told],
    after: &[Told],
) -> Result<Seq<Reply>, AllocError>
    ensures { IfOk result (λ replies. spec.ArePublished opened.now versions.now before.now
        (spec.gone before.now after.now) replies) }
{
    let mut replies = Seq::new(alloc);
    for one in before {
        clear(
            alloc,
            opened,
            versions,
            before,
            after,
            one.name.as_str(),
            &mut replies,
        )?;
    }
    Ok(replies)
}

/// What is published where this was told before, and that is told now; of the document that is opened in any case.
pub(crate) fn announce(
    alloc: Global,
    opened: &Option<Text>,
    versions: &[Version],
    before: &[Told],
    after: &[Told],
) -> Result<Seq<Reply>, OutOfMemory>
    ensures { IfOk result (λ replies. spec.Announces opened.now versions.now before.now after.now replies) }
{
    let mut replies = cleared(alloc, opened, versions, before, after)?;
    for one in after {
        let name = one.name.as_str();
        publish(
            alloc,
            opened,
            versions,
            before,
            name,
            one.diagnostics.as_slice(),
            &mut replies,
        )?;
    }
    Ok(replies)
}
