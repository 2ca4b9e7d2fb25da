//! What is shown at a position, as JSON.
ghost use Rattle.std.specs.Prelude.{◌≡◌, ◌++◌, IfOk, flat_map};
ghost use Rattle.serde_json.specs.View.{view};
ghost use Rattle.jn_lsp_messages.specs.Outgoing as spec;

use crate::places::range_value;
use crate::uri::uri_of;
use itoa::{Buffer, Integer};
use jn_base::{OutOfMemory, Text};
use jn_lsp_text::{Hover, Markup, Related};
use serde_json::{Value, json};
use std::alloc::{AllocError, Global};

/// What is shown at a position, and null where nothing is.
pub(crate) fn hover_value(
    alloc: Global,
    markup: Markup,
    hover: &Option<Hover>,
) -> Result<Value, OutOfMemory>
    ensures { IfOk result (λ v. view v ≡ spec.hover_or_null markup hover.now) }
{
    match hover {
        None => Ok(Value::Null),
        Some(hover) => shown_value(alloc, markup, hover),
    }
}

#[tactic(auto, unfolding(crate::specs::Outgoing::hover_data))]
fn shown_value(alloc: Global, markup: Markup, hover: &Hover) -> Result<Value, OutOfMemory>
    ensures { IfOk result (λ v. view v ≡ spec.hover_data markup hover.now) }
{
    let contents = contents_value(alloc, markup, hover)?;
    let range = range_value(alloc, hover.range)?;
    Ok(json!(in alloc; {"contents": contents, "range": range})?)
}

#[tactic(auto, unfolding(crate::specs::Outgoing::contents_data))]
fn contents_value(alloc: Global, markup: Markup, hover: &Hover) -> Result<Value, OutOfMemory>
    ensures { IfOk result (λ v. view v ≡ spec.contents_data markup hover.now) }
{
    let words = hover_words(alloc, markup, hover)?;
    Ok(json!(in alloc; {"kind": kind_name(markup), "value": words.as_str()})?)
}

fn kind_name(markup: Markup) -> &'static str
    ensures { result.now ≡ spec.kind_name markup }
{
    match markup {
        Markup::Plain => "plaintext",
        Markup::Markdown => "markdown",
    }
}

/// What is shown, and then each place that tells why.
fn hover_words(alloc: Global, markup: Markup, hover: &Hover) -> Result<Text, OutOfMemory>
    ensures { IfOk result (λ words. words ≡ spec.hover_words markup hover.now) }
{
    with_reasons(
        alloc,
        markup,
        hover.words.as_str(),
        hover.related.as_slice(),
    )
}

/// Words, and then each of these places.
fn with_reasons(
    alloc: Global,
    markup: Markup,
    words: &str,
    related: &[Related],
) -> Result<Text, OutOfMemory>
    ensures { IfOk result
        (λ all. all ≡ words.now ++ flat_map (spec.reason_words markup) related.now) }
{
    let mut all = String::from_str(alloc, words)?;
    for one in related {
        let reason = reason_words(alloc, markup, one)?;
        all.push_str(reason.as_str())?;
    }
    Ok(Text::of_string(all))
}

fn reason_words(alloc: Global, markup: Markup, related: &Related) -> Result<Text, OutOfMemory>
    ensures { IfOk result (λ words. words ≡ spec.reason_words markup related.now) }
{
    match markup {
        Markup::Plain => Ok(plain_words(alloc, related)?),
        Markup::Markdown => marked_words(alloc, related),
    }
}

/// The line on which a place begins, from 1 on.
fn line_words(alloc: Global, related: &Related) -> Result<Text, AllocError>
    ensures { IfOk result (λ words. words ≡ spec.line_words related.now) }
{
    let line = related.range.start.line as usize + 1;
    Text::of_str(alloc, Buffer::new().format(line))
}

/// A place, and what it has to do with what is shown.
fn place_words(alloc: Global, related: &Related) -> Result<Text, AllocError>
    ensures { IfOk result (λ words. words ≡ spec.place_words related.now) }
{
    let line = line_words(alloc, related)?;
    let mut words = String::from_str(alloc, related.words.as_str())?;
    words.push_str(" at ")?;
    words.push_str(related.name.as_str())?;
    words.push_str(":")?;
    words.push_str(line.as_str())?;
    Ok(Text::of_string(words))
}

fn plain_words(alloc: Global, related: &Related) -> Result<Text, AllocError>
    ensures { IfOk result (λ words. words ≡ spec.reason_words Markup.Plain related.now) }
{
    let place = place_words(alloc, related)?;
    let mut words = String::from_str(alloc, "\n")?;
    words.push_str(place.as_str())?;
    Ok(Text::of_string(words))
}

/// Places, each on a line of its own.
pub(crate) fn tooltip_words(
    alloc: Global,
    first: &Related,
    more: &[Related],
) -> Result<Text, OutOfMemory>
    ensures { IfOk result (λ words. words ≡ spec.tooltip_words first.now more.now) }
{
    let words = place_words(alloc, first)?;
    with_reasons(alloc, Markup::Plain, words.as_str(), more)
}

fn marked_words(alloc: Global, related: &Related) -> Result<Text, OutOfMemory>
    ensures { IfOk result (λ words. words ≡ spec.reason_words Markup.Markdown related.now) }
{
    let line = line_words(alloc, related)?;
    let uri = uri_of(alloc, related.name.as_str())?;
    let mut words = String::from_str(alloc, "\n- ")?;
    words.push_str(related.words.as_str())?;
    words.push_str(" at [line ")?;
    words.push_str(line.as_str())?;
    words.push_str("](<")?;
    words.push_str(uri.as_str())?;
    words.push_str("#L")?;
    words.push_str(line.as_str())?;
    words.push_str(">)")?;
    Ok(Text::of_string(words))
}
