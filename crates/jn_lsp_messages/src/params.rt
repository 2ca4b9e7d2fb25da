//! Members of messages, and parameters of methods.
ghost use Rattle.std.specs.Prelude.{◌≡◌, IfOk, option_map};
ghost use Rattle.serde_json.specs.Find.{as_array, as_str};
ghost use Rattle.serde_json.specs.View.{items_view, view};
ghost use Rattle.jn_lsp_messages.specs.Incoming as spec;

use crate::folders::is_true;
use crate::uri::name_of;
use jn_base::{OutOfMemory, Seq, Text};
use jn_lsp_text::{Change, Choice, Encoding, Markup, Position, Range, choice_named};
use serde_json::Value;
use std::alloc::{AllocError, Global};

/// The text of a member.
pub(crate) fn text_in<'a>(value: &'a Value, name: &str) -> Option<&'a str>
    ensures { option_map (λ text. text.now) result ≡ spec.text_in name.now (view value.entry.now) }
{
    value.get(name)?.as_str()
}

/// The text at a path.
pub(crate) fn text_at<'a>(value: &'a Value, path: &str) -> Option<&'a str>
    ensures { option_map (λ text. text.now) result ≡ spec.text_at path.now (view value.entry.now) }
{
    value.pointer(path)?.as_str()
}

fn uinteger(value: &Value) -> Option<u32>
    ensures { result ≡ spec.uinteger (view value.now) }
{
    let number = value.as_u64()?;
    if number < 1 << 31 {
        Some(number as u32)
    } else {
        None
    }
}

fn uinteger_in(value: &Value, name: &str) -> Option<u32>
    ensures { result ≡ spec.uinteger_in name.now (view value.now) }
{
    uinteger(value.get(name)?)
}

fn position_in(value: &Value) -> Option<Position>
    ensures { result ≡ spec.position_in (view value.now) }
{
    let line = uinteger_in(value, "line")?;
    let character = uinteger_in(value, "character")?;
    Some(Position { line, character })
}

fn range_in(value: &Value) -> Option<Range>
    ensures { result ≡ spec.range_in (view value.now) }
{
    let start = position_in(value.get("start")?)?;
    let end = position_in(value.get("end")?)?;
    Some(Range { start, end })
}

/// The range that a message's parameters name.
#[tactic(auto, unfolding(crate::specs::Incoming::named_range))]
pub(crate) fn named_range(body: &Value) -> Option<Range>
    ensures { result ≡ spec.named_range (view body.now) }
{
    match body.pointer("/params/range") {
        None => None,
        Some(range) => range_in(range),
    }
}

/// The position that a message's parameters name.
#[tactic(auto, unfolding(crate::specs::Incoming::named_position))]
pub(crate) fn named_position(body: &Value) -> Option<Position>
    ensures { result ≡ spec.named_position (view body.now) }
{
    match body.pointer("/params/position") {
        None => None,
        Some(position) => position_in(position),
    }
}

/// The name of the document that a message is about.
#[tactic(auto, unfolding(crate::specs::Incoming::document_name))]
pub(crate) fn document_name(alloc: Global, body: &Value) -> Result<Option<Text>, OutOfMemory>
    ensures { IfOk result (λ name. name ≡ spec.document_name (view body.now)) }
{
    name_at(alloc, body, "/params/textDocument/uri")
}

/// The name that the URI at a path stands for.
pub(crate) fn name_at(alloc: Global, body: &Value, path: &str) -> Result<Option<Text>, OutOfMemory>
    ensures { IfOk result (λ name. name ≡ spec.name_at path.now (view body.now)) }
{
    match text_at(body, path) {
        None => Ok(None),
        Some(uri) => Ok(Some(name_of(alloc, uri)?)),
    }
}

/// The text of the document that a message opens, as its bytes.
#[tactic(auto, unfolding(crate::specs::Incoming::document_text))]
pub(crate) fn document_text(alloc: Global, body: &Value) -> Result<Option<Seq<u8>>, AllocError>
    ensures { IfOk result (λ text. text ≡ spec.document_text (view body.now)) }
{
    match text_at(body, "/params/textDocument/text") {
        None => Ok(None),
        Some(text) => Ok(Some(bytes_of(alloc, text)?)),
    }
}

/// The version of the document that a message is about.
#[tactic(auto, unfolding(crate::specs::Incoming::document_version))]
pub(crate) fn document_version(body: &Value) -> Option<i64>
    ensures { result ≡ spec.document_version (view body.now) }
{
    match body.pointer("/params/textDocument/version") {
        None => None,
        Some(version) => version.as_i64(),
    }
}

fn bytes_of(alloc: Global, text: &str) -> Result<Seq<u8>, AllocError>
    ensures { IfOk result (λ bytes. bytes ≡ text.now) }
{
    Ok(Seq::of_vec(Vec::from_slice(alloc, text.as_bytes())?))
}

/// The changes of a document's text.
#[tactic(auto, unfolding(crate::specs::Incoming::changes_in))]
pub(crate) fn changes_in(alloc: Global, body: &Value) -> Result<Option<Seq<Change>>, AllocError>
    ensures { IfOk result (λ changes. changes ≡ spec.changes_in (view body.now)) }
{
    match body.pointer("/params/contentChanges") {
        None => Ok(None),
        Some(changes) => all_changes(alloc, changes),
    }
}

fn all_changes(alloc: Global, value: &Value) -> Result<Option<Seq<Change>>, AllocError>
    ensures { IfOk result (λ changes. changes ≡ spec.all_changes (view value.now)) }
{
    match value.as_array() {
        None => Ok(None),
        Some(items) => changes_of(alloc, items),
    }
}

fn changes_of(alloc: Global, items: &[Value]) -> Result<Option<Seq<Change>>, AllocError>
    ensures { IfOk result
        (λ changes. changes ≡ spec.all_of spec.change_in (items_view items.now)) }
{
    let mut changes = Seq::new(alloc);
    for item in items {
        let Some(change) = change_in(alloc, item)? else {
            return Ok(None);
        };
        changes.push(change)?;
    }
    Ok(Some(changes))
}

fn change_in(alloc: Global, value: &Value) -> Result<Option<Change>, AllocError>
    ensures { IfOk result (λ change. change ≡ spec.change_in (view value.now)) }
{
    match text_in(value, "text") {
        None => Ok(None),
        Some(text) => change_of(alloc, text, value.get("range")),
    }
}

fn change_of(alloc: Global, text: &str, range: Option<&Value>) -> Result<Option<Change>, AllocError>
    ensures { IfOk result (λ change. change
        ≡ spec.change_of text.now (option_map (λ v. view v.now) range.entry)) }
{
    let Some(range) = range else {
        return Ok(Some(Change::Whole(bytes_of(alloc, text)?)));
    };
    match range_in(range) {
        None => Ok(None),
        Some(range) => Ok(Some(Change::Part {
            range,
            text: bytes_of(alloc, text)?,
        })),
    }
}

/// The members that are inferred by the settings.
#[tactic(auto, unfolding(crate::specs::Incoming::infer_in))]
pub(crate) fn infer_in(body: &Value) -> Choice
    ensures { result ≡ spec.infer_in (view body.now) }
{
    match body.pointer("/params/initializationOptions/infer") {
        None => Choice::Unsaid,
        Some(infer) if infer.is_null() => Choice::Unsaid,
        Some(infer) => choice_by(infer),
    }
}

fn choice_by(value: &Value) -> Choice
    ensures { result ≡ spec.choice_by (as_str (view value.now)) }
{
    match value.as_str() {
        None => Choice::Wrong,
        Some(name) => choice_named(name),
    }
}

/// The names of files that the settings give, none where they name none.
#[tactic(auto, unfolding(crate::specs::Incoming::files_in))]
pub(crate) fn files_in(alloc: Global, body: &Value) -> Result<Option<Seq<Text>>, AllocError>
    ensures { IfOk result (λ files. files ≡ spec.files_in (view body.now)) }
{
    match body.pointer("/params/initializationOptions/files") {
        None => Ok(Some(Seq::new(alloc))),
        Some(files) if files.is_null() => Ok(Some(Seq::new(alloc))),
        Some(files) => all_texts(alloc, files),
    }
}

/// The names of the folders that are left out by the settings, else those in which tools put what they make or fetch.
#[tactic(auto, unfolding(crate::specs::Incoming::exclude_in))]
pub(crate) fn exclude_in(alloc: Global, body: &Value) -> Result<Option<Seq<Text>>, AllocError>
    ensures { IfOk result (λ exclude. exclude ≡ spec.exclude_in (view body.now)) }
{
    match body.pointer("/params/initializationOptions/exclude") {
        None => Ok(Some(usual_exclude(alloc)?)),
        Some(exclude) if exclude.is_null() => Ok(Some(usual_exclude(alloc)?)),
        Some(exclude) => all_texts(alloc, exclude),
    }
}

fn is_word(word: &str, item: &Value) -> bool
    ensures { result ≡ spec.is_word word.now (as_str (view item.now)) }
{
    match item.as_str() {
        None => false,
        Some(text) => text == word,
    }
}

/// Whether the word is among the texts of an array.
fn has_word(word: &str, items: &[Value]) -> bool
    ensures { result ≡ spec.has_word word.now (items_view items.now) }
{
    let mut rest = items;
    while let [item, more @ ..] = rest {
        if is_word(word, item) {
            return true;
        }
        rest = more;
    }
    false
}

fn offers(value: &Value, word: &str) -> bool
    ensures { result ≡ spec.offers word.now (as_array (view value.now)) }
{
    match value.as_array() {
        None => false,
        Some(items) => has_word(word, items),
    }
}

/// Whether the word is among the texts of the array at a path.
fn offers_at(body: &Value, path: &str, word: &str) -> bool
    ensures { result ≡ spec.offers_at path.now word.now (view body.now) }
{
    match body.pointer(path) {
        None => false,
        Some(value) => offers(value, word),
    }
}

/// How the client shows what stands at a position: in Markdown, where that is among the forms that it names.
#[tactic(auto, unfolding(crate::specs::Incoming::markup_in))]
pub(crate) fn markup_in(body: &Value) -> Markup
    ensures { result ≡ spec.markup_in (view body.now) }
{
    let path = "/params/capabilities/textDocument/hover/contentFormat";
    if offers_at(body, path, "markdown") {
        Markup::Markdown
    } else {
        Markup::Plain
    }
}

/// The unit of positions: UTF-8, where that is among those which the client offers; else UTF-16, which every client takes.
#[tactic(auto, unfolding(crate::specs::Incoming::encoding_in))]
pub(crate) fn encoding_in(body: &Value) -> Encoding
    ensures { result ≡ spec.encoding_in (view body.now) }
{
    let path = "/params/capabilities/general/positionEncodings";
    if offers_at(body, path, "utf-8") {
        Encoding::Utf8
    } else {
        Encoding::Utf16
    }
}

/// Whether the client shows that work goes on, where the server announces it.
#[tactic(auto, unfolding(crate::specs::Incoming::progress_in))]
pub(crate) fn progress_in(body: &Value) -> bool
    ensures { result ≡ spec.progress_in (view body.now) }
{
    match body.pointer("/params/capabilities/window/workDoneProgress") {
        None => false,
        Some(shows) => is_true(shows),
    }
}

fn usual_exclude(alloc: Global) -> Result<Seq<Text>, AllocError>
    ensures { IfOk result (λ names. names ≡ spec.usual_exclude) }
{
    let mut names = Seq::new(alloc);
    names.push(Text::of_str(alloc, "target")?)?;
    names.push(Text::of_str(alloc, "build")?)?;
    names.push(Text::of_str(alloc, "node_modules")?)?;
    names.push(Text::of_str(alloc, "out")?)?;
    Ok(names)
}

fn all_texts(alloc: Global, value: &Value) -> Result<Option<Seq<Text>>, AllocError>
    ensures { IfOk result (λ texts. texts ≡ spec.all_values as_str (view value.now)) }
{
    match value.as_array() {
        None => Ok(None),
        Some(items) => texts_of(alloc, items),
    }
}

fn texts_of(alloc: Global, items: &[Value]) -> Result<Option<Seq<Text>>, AllocError>
    ensures { IfOk result (λ texts. texts ≡ spec.all_of as_str (items_view items.now)) }
{
    let mut texts = Seq::new(alloc);
    for item in items {
        let Some(text) = item.as_str() else {
            return Ok(None);
        };
        texts.push(Text::of_str(alloc, text)?)?;
    }
    Ok(Some(texts))
}
