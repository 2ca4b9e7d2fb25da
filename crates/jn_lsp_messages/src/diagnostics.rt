//! Diagnostics as JSON.
ghost use Rattle.std.specs.Prelude.{◌≡◌, ◌++◌, IfOk, None, Some, codes, string_bytes};
ghost use Rattle.serde_json.specs.Data.{number, unsigned, string, object, member, no_members};
ghost use Rattle.serde_json.specs.View.{view};
ghost use Rattle.jn_reporters.specs.Anchors.{code_anchor};
ghost use Rattle.jn_lsp_messages.specs.Outgoing as spec;

use crate::places::{location_value, range_value};
use jn_base::lists::put;
use jn_base::{Code, OutOfMemory, Text};
use jn_lsp_text::{Diagnostic, Range, Related, Said};
use jn_reporters::code_anchor;
use serde_json::{Value, json};
use std::alloc::{AllocError, Global};

/// The diagnostics of a file, in their order.
pub(crate) fn diagnostics_value(
    alloc: Global,
    address: &Option<Text>,
    diagnostics: &[Diagnostic],
) -> Result<Value, OutOfMemory>
    ensures { IfOk result
        (λ v. view v ≡ spec.list_data (spec.diagnostic_data address.now) diagnostics.now) }
{
    let mut items = Vec::new(alloc);
    for diagnostic in diagnostics {
        put(&mut items, diagnostic_value(alloc, address, diagnostic)?)?;
    }
    Ok(Value::Array(items))
}

fn diagnostic_value(
    alloc: Global,
    address: &Option<Text>,
    diagnostic: &Diagnostic,
) -> Result<Value, OutOfMemory>
    ensures { IfOk result (λ v. view v ≡ spec.diagnostic_data address.now diagnostic.now) }
{
    let related = diagnostic.related.as_slice();
    match &diagnostic.said {
        Said::Row(code) => row_value(alloc, address, *code, diagnostic.range, related),
        Said::Unchecked(words) => unchecked_value(alloc, words.as_str(), diagnostic.range, related),
    }
}

/// An error.
fn row_value(
    alloc: Global,
    address: &Option<Text>,
    code: Code,
    range: Range,
    related: &[Related],
) -> Result<Value, OutOfMemory>
    ensures { IfOk result (λ v. view v ≡ spec.row_data address.now code range related.now) }
{
    match address {
        None => unlinked_value(alloc, code, range, related),
        Some(address) => linked_value(alloc, address.as_str(), code, range, related),
    }
}

/// Information.
#[tactic(auto, unfolding(crate::specs::Outgoing::unchecked_data))]
fn unchecked_value(
    alloc: Global,
    words: &str,
    range: Range,
    related: &[Related],
) -> Result<Value, OutOfMemory>
    ensures { IfOk result (λ v. view v ≡ spec.unchecked_data words.now range related.now) }
{
    let range = range_value(alloc, range)?;
    let related = all_related(alloc, related)?;
    Ok(information(alloc, words, range, related)?)
}

#[tactic(auto, unfolding(crate::specs::Outgoing::row_data))]
fn unlinked_value(
    alloc: Global,
    code: Code,
    range: Range,
    related: &[Related],
) -> Result<Value, OutOfMemory>
    ensures { IfOk result (λ v. view v ≡ spec.row_data None code range related.now) }
{
    let words = told(alloc, code)?;
    let range = range_value(alloc, range)?;
    let related = all_related(alloc, related)?;
    Ok(unlinked(alloc, code.name(), words.as_str(), range, related)?)
}

#[tactic(auto, unfolding(crate::specs::Outgoing::row_data))]
fn linked_value(
    alloc: Global,
    address: &str,
    code: Code,
    range: Range,
    related: &[Related],
) -> Result<Value, OutOfMemory>
    ensures { IfOk result (λ v. view v ≡ spec.row_data (Some address.now) code range related.now) }
{
    let description = description_value(alloc, address, code)?;
    let words = told(alloc, code)?;
    let range = range_value(alloc, range)?;
    let related = all_related(alloc, related)?;
    Ok(linked(
        alloc,
        code.name(),
        description,
        words.as_str(),
        range,
        related,
    )?)
}

/// The object of information, from the values of its members.
fn information(
    alloc: Global,
    words: &str,
    range: Value,
    related: Value,
) -> Result<Value, AllocError>
    ensures { IfOk result (λ v. view v
        ≡ object (member (codes "message") (string words.now)
        (member (codes "range") (view range)
        (member (codes "relatedInformation") (view related)
        (member (codes "severity") (number (unsigned 3))
        (member (codes "source") (string (codes "nullcheck")) no_members)))))) }
{
    json!(in alloc; {
        "message": words,
        "range": range,
        "relatedInformation": related,
        "severity": 3u32,
        "source": "nullcheck"
    })
}

/// The object of an error without a link, from the values of its members.
fn unlinked(
    alloc: Global,
    code: &str,
    words: &str,
    range: Value,
    related: Value,
) -> Result<Value, AllocError>
    ensures { IfOk result (λ v. view v
        ≡ object (member (codes "code") (string code.now)
        (member (codes "message") (string words.now)
        (member (codes "range") (view range)
        (member (codes "relatedInformation") (view related)
        (member (codes "severity") (number (unsigned 1))
        (member (codes "source") (string (codes "nullcheck")) no_members))))))) }
{
    json!(in alloc; {
        "code": code,
        "message": words,
        "range": range,
        "relatedInformation": related,
        "severity": 1u32,
        "source": "nullcheck"
    })
}

/// The object of an error with a link, from the values of its members.
fn linked(
    alloc: Global,
    code: &str,
    description: Value,
    words: &str,
    range: Value,
    related: Value,
) -> Result<Value, AllocError>
    ensures { IfOk result (λ v. view v
        ≡ object (member (codes "code") (string code.now)
        (member (codes "codeDescription") (view description)
        (member (codes "message") (string words.now)
        (member (codes "range") (view range)
        (member (codes "relatedInformation") (view related)
        (member (codes "severity") (number (unsigned 1))
        (member (codes "source") (string (codes "nullcheck")) no_members)))))))) }
{
    json!(in alloc; {
        "code": code,
        "codeDescription": description,
        "message": words,
        "range": range,
        "relatedInformation": related,
        "severity": 1u32,
        "source": "nullcheck"
    })
}

/// The address, and the code's anchor after it.
fn link(alloc: Global, address: &str, code: Code) -> Result<String, AllocError>
    ensures { IfOk result
        (λ link. string_bytes link ≡ address.now ++ codes "#" ++ code_anchor code) }
{
    let mut link = String::from_str(alloc, address)?;
    link.push_str("#")?;
    link.push_str(code_anchor(code))?;
    Ok(link)
}

#[tactic(auto, unfolding(crate::specs::Outgoing::description_data))]
fn description_value(alloc: Global, address: &str, code: Code) -> Result<Value, AllocError>
    ensures { IfOk result (λ v. view v ≡ spec.description_data address.now code) }
{
    let link = link(alloc, address, code)?;
    json!(in alloc; {"href": link})
}

/// What is wrong, and what to do about it.
fn told(alloc: Global, code: Code) -> Result<String, AllocError>
    ensures { IfOk result (λ words. string_bytes words ≡ spec.told code) }
{
    let mut words = String::from_str(alloc, code.message())?;
    words.push_str("; cure: ")?;
    words.push_str(code.cure())?;
    Ok(words)
}

fn all_related(alloc: Global, related: &[Related]) -> Result<Value, OutOfMemory>
    ensures { IfOk result (λ v. view v ≡ spec.list_data spec.related_data related.now) }
{
    let mut items = Vec::new(alloc);
    for place in related {
        put(&mut items, related_value(alloc, place)?)?;
    }
    Ok(Value::Array(items))
}

#[tactic(auto, unfolding(crate::specs::Outgoing::related_data))]
fn related_value(alloc: Global, related: &Related) -> Result<Value, OutOfMemory>
    ensures { IfOk result (λ v. view v ≡ spec.related_data related.now) }
{
    let location = location_value(alloc, related.name.as_str(), related.range)?;
    Ok(json!(in alloc; {"location": location, "message": related.words.as_str()})?)
}
