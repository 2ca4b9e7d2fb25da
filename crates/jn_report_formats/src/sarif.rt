//! The report in SARIF.
ghost use Rattle.std.specs.Prelude.{◌≡◌, ◌<◌, ◌++◌, ◌∷◌, [], true, codes, Some, IfOk, OnOk};
ghost use Rattle.jn_reporters.specs.Anchors.{code_anchor};
ghost use Rattle.jn_report_formats.specs.Sarif as spec;

use crate::document::{Document, Format};
use crate::escapes::{Escape, put};
use crate::kept::KeptRow;
use itoa::{Buffer, Integer};
use jn_base::{Code, Text};
use jn_reporters::anchors::code_anchor;
use jn_reporters::codes::{all, place};
use jn_reporters::reporter::Reporter;
use jn_reporters::shown::ShownNote;
use jn_reporters::telling::{noted, told};
use std::alloc::{AllocError, Global};

/// Shows a log of one run in SARIF 2.1.0.
pub type Sarif = Document<SarifLog>;

/// What it shows of rows and a verdict is `sarif_shown`, one document, with links where it was told an address.
pub fn sarif_shows(reporter: &Sarif)
    ensures shown { (⟦<Sarif as Reporter>⟧.form reporter.now).shown
        ≡ spec.sarif_shown reporter.now.address }
    ensures linked { (⟦<Sarif as Reporter>⟧.form reporter.now).linked
        ≡ (λ address. spec.sarif_shown (Some address)) }
    ensures document { (⟦<Sarif as Reporter>⟧.form reporter.now).document ≡ true }
    ensures notes { (⟦<Sarif as Reporter>⟧.form reporter.now).notes ≡ true }
{}

/// A log of one run in SARIF 2.1.0: a rule for each code that occurs, and a result for each row.
#[derive(Drop)]
pub struct SarifLog;

impl Format for SarifLog {
    ghost use Rattle.std.specs.Prelude.{codes, true};
    ghost use Rattle.jn_report_formats.specs.Sarif.{sarif_document};

    ghost title = { codes "sarif" };

    ghost notes = { true };

    ghost written = { sarif_document };

    fn name() -> &'static str {
        "sarif"
    }

    fn shows_notes() -> bool {
        true
    }

    fn document(
        alloc: Global,
        address: &Option<Text>,
        rows: &[KeptRow],
    ) -> Result<Vec<u8>, AllocError> {
        let codes = occurring(alloc, rows, &all())?;
        let mut text = Vec::new(alloc);
        put_before_rules(&mut text)?;
        put_rules(&mut text, alloc, address, &codes)?;
        put_before_results(&mut text)?;
        put_results(&mut text, alloc, rows)?;
        put_behind_results(&mut text)?;
        Ok(text)
    }
}

/// Those of the codes that some row has.
fn occurring(alloc: Global, rows: &[KeptRow], codes: &[Code]) -> Result<Vec<Code>, AllocError>
    ensures { IfOk result (λ found. found.items ≡ spec.occurring rows.now codes.now) }
{
    let mut found = Vec::new(alloc);
    for code in codes {
        put_where_it_occurs(&mut found, rows, *code)?;
    }
    Ok(found)
}

fn put_where_it_occurs(
    found: &mut Vec<Code>,
    rows: &[KeptRow],
    code: Code,
) -> Result<(), AllocError>
    ensures { OnOk result
        (found.new.items ≡ found.old.items ++ spec.occurring rows.now (code ∷ [])) }
{
    if occurs(rows, code) {
        return found.extend_from_slice(&[code]);
    }
    Ok(())
}

/// Whether some row has the code.
fn occurs(rows: &[KeptRow], code: Code) -> bool
    ensures { result ≡ spec.occurs rows.now code }
{
    rows.iter().any(|row| place(row.code) == place(code))
}

#[tactic(auto, unfolding(crate::specs::Sarif::before_rules))]
fn put_before_rules(out: &mut Vec<u8>) -> Result<(), AllocError>
    ensures { OnOk result (out.new.items ≡ out.old.items ++ spec.before_rules) }
{
    out.extend_from_slice(
        b"{\n  \"$schema\": \"https://json.schemastore.org/sarif-2.1.0.json\",\n  \"version\": \"2.1.0\",\n  \"runs\": [\n    {\n      \"tool\": {\n        \"driver\": {\n          \"name\": \"nullcheck\",\n          \"rules\": [\n",
    )
}

#[tactic(auto, unfolding(crate::specs::Sarif::before_results))]
fn put_before_results(out: &mut Vec<u8>) -> Result<(), AllocError>
    ensures { OnOk result (out.new.items ≡ out.old.items ++ spec.before_results) }
{
    out.extend_from_slice(
        b"\n          ]\n        }\n      },\n      \"columnKind\": \"unicodeCodePoints\",\n      \"results\": [\n",
    )
}

#[tactic(auto, unfolding(crate::specs::Sarif::behind_results))]
fn put_behind_results(out: &mut Vec<u8>) -> Result<(), AllocError>
    ensures { OnOk result (out.new.items ≡ out.old.items ++ spec.behind_results) }
{
    out.extend_from_slice(b"\n      ]\n    }\n  ]\n}\n")
}

fn put_rules(
    out: &mut Vec<u8>,
    alloc: Global,
    address: &Option<Text>,
    codes: &[Code],
) -> Result<(), AllocError>
    ensures { OnOk result (out.new.items
        ≡ out.old.items ++ spec.listed (spec.rule_object address.now) codes.now) }
{
    let Some((first, rest)) = codes.split_first() else {
        return Ok(());
    };
    let object = rule_object(alloc, address, *first)?;
    out.extend_from_slice(&object)?;
    put_further_rules(out, alloc, address, rest)
}

fn put_further_rules(
    out: &mut Vec<u8>,
    alloc: Global,
    address: &Option<Text>,
    codes: &[Code],
) -> Result<(), AllocError>
    ensures { OnOk result (out.new.items
        ≡ out.old.items ++ spec.further (spec.rule_object address.now) codes.now) }
{
    for code in codes {
        put_next_rule(out, alloc, address, *code)?;
    }
    Ok(())
}

#[tactic(auto, unfolding(crate::specs::Sarif::next))]
fn put_next_rule(
    out: &mut Vec<u8>,
    alloc: Global,
    address: &Option<Text>,
    code: Code,
) -> Result<(), AllocError>
    ensures { OnOk result (out.new.items
        ≡ out.old.items ++ spec.next (spec.rule_object address.now) code) }
{
    let mut text = Vec::from_slice(alloc, b",\n")?;
    let object = rule_object(alloc, address, code)?;
    text.extend_from_slice(&object)?;
    out.extend_from_slice(&text)
}

fn rule_object(alloc: Global, address: &Option<Text>, code: Code) -> Result<Vec<u8>, AllocError>
    ensures { IfOk result (λ text. text.items ≡ spec.rule_object address.now code) }
{
    let mut text = rule_words(alloc, code)?;
    let member = uri_member(alloc, address, code)?;
    text.extend_from_slice(&member)?;
    Ok(text)
}

#[tactic(auto, unfolding(crate::specs::Sarif::rule_words))]
fn rule_words(alloc: Global, code: Code) -> Result<Vec<u8>, AllocError>
    ensures { IfOk result (λ text. text.items ≡ spec.rule_words code) }
{
    let mut text = rule_short(alloc, code)?;
    let full = rule_full(alloc, code)?;
    text.extend_from_slice(&full)?;
    let help = rule_help(alloc, code)?;
    text.extend_from_slice(&help)?;
    Ok(text)
}

fn rule_short(alloc: Global, code: Code) -> Result<Vec<u8>, AllocError>
    ensures { IfOk result (λ text. text.items ≡ spec.rule_short code) }
{
    let mut text = Vec::from_slice(alloc, b"            {\"id\": \"")?;
    text.extend_from_slice(code.name().as_bytes())?;
    text.extend_from_slice(b"\", \"shortDescription\": {\"text\": \"")?;
    put(&mut text, Escape::Json, code.message().as_bytes())?;
    text.extend_from_slice(b"\"}, ")?;
    Ok(text)
}

fn rule_full(alloc: Global, code: Code) -> Result<Vec<u8>, AllocError>
    ensures { IfOk result (λ text. text.items ≡ spec.rule_full code) }
{
    let words = told(alloc, code)?;
    let mut text = Vec::from_slice(alloc, b"\"fullDescription\": {\"text\": \"")?;
    put(&mut text, Escape::Json, &words)?;
    text.extend_from_slice(b"\"}, ")?;
    Ok(text)
}

fn rule_help(alloc: Global, code: Code) -> Result<Vec<u8>, AllocError>
    ensures { IfOk result (λ text. text.items ≡ spec.rule_help code) }
{
    let mut text = Vec::from_slice(alloc, b"\"help\": {\"text\": \"")?;
    put(&mut text, Escape::Json, code.cure().as_bytes())?;
    text.extend_from_slice(b"\"}")?;
    Ok(text)
}

/// Where the code is explained, if an address is known, and the end of the rule.
#[tactic(auto, unfolding(crate::specs::Sarif::uri_member))]
fn uri_member(alloc: Global, address: &Option<Text>, code: Code) -> Result<Vec<u8>, AllocError>
    ensures { IfOk result (λ text. text.items ≡ spec.uri_member address.now code) }
{
    let Some(address) = address else {
        return Vec::from_slice(alloc, b"}");
    };
    let link = link(alloc, address.as_str(), code)?;
    let mut text = Vec::from_slice(alloc, b", \"helpUri\": \"")?;
    put(&mut text, Escape::Json, &link)?;
    text.extend_from_slice(b"\"}")?;
    Ok(text)
}

/// The address, and the code's anchor after it.
fn link(alloc: Global, address: &str, code: Code) -> Result<Vec<u8>, AllocError>
    ensures { IfOk result
        (λ link. link.items ≡ address.now ++ codes "#" ++ code_anchor code) }
{
    let mut link = Vec::from_slice(alloc, address.as_bytes())?;
    link.extend_from_slice(b"#")?;
    link.extend_from_slice(code_anchor(code).as_bytes())?;
    Ok(link)
}

fn put_results(out: &mut Vec<u8>, alloc: Global, rows: &[KeptRow]) -> Result<(), AllocError>
    ensures { OnOk result
        (out.new.items ≡ out.old.items ++ spec.listed spec.result_object rows.now) }
{
    let Some((first, rest)) = rows.split_first() else {
        return Ok(());
    };
    let object = result_object(alloc, first)?;
    out.extend_from_slice(&object)?;
    put_further_results(out, alloc, rest)
}

fn put_further_results(out: &mut Vec<u8>, alloc: Global, rows: &[KeptRow]) -> Result<(), AllocError>
    ensures { OnOk result
        (out.new.items ≡ out.old.items ++ spec.further spec.result_object rows.now) }
{
    for row in rows {
        put_next_result(out, alloc, row)?;
    }
    Ok(())
}

#[tactic(auto, unfolding(crate::specs::Sarif::next))]
fn put_next_result(out: &mut Vec<u8>, alloc: Global, row: &KeptRow) -> Result<(), AllocError>
    ensures { OnOk result (out.new.items ≡ out.old.items ++ spec.next spec.result_object row.now) }
{
    let mut text = Vec::from_slice(alloc, b",\n")?;
    let object = result_object(alloc, row)?;
    text.extend_from_slice(&object)?;
    out.extend_from_slice(&text)
}

fn result_object(alloc: Global, row: &KeptRow) -> Result<Vec<u8>, AllocError>
    ensures { IfOk result (λ text. text.items ≡ spec.result_object row.now) }
{
    let mut text = result_meaning(alloc, row)?;
    let place = result_place(alloc, row)?;
    text.extend_from_slice(&place)?;
    let related = related_member(alloc, row.notes.as_slice())?;
    text.extend_from_slice(&related)?;
    let more = more_member(alloc, row.more)?;
    text.extend_from_slice(&more)?;
    let member = print_member(alloc, row.fingerprint)?;
    text.extend_from_slice(&member)?;
    Ok(text)
}

fn result_meaning(alloc: Global, row: &KeptRow) -> Result<Vec<u8>, AllocError>
    ensures { IfOk result (λ text. text.items ≡ spec.result_meaning row.now) }
{
    let words = told(alloc, row.code)?;
    let mut text = Vec::from_slice(alloc, b"        {\"ruleId\": \"")?;
    text.extend_from_slice(row.code.name().as_bytes())?;
    text.extend_from_slice(b"\", \"level\": \"error\", \"message\": {\"text\": \"")?;
    put(&mut text, Escape::Json, &words)?;
    text.extend_from_slice(b"\"}, ")?;
    Ok(text)
}

fn result_place(alloc: Global, row: &KeptRow) -> Result<Vec<u8>, AllocError>
    ensures { IfOk result (λ text. text.items ≡ spec.result_place row.now) }
{
    let mut text = result_file(alloc, row)?;
    let region = result_region(alloc, row)?;
    text.extend_from_slice(&region)?;
    Ok(text)
}

fn result_file(alloc: Global, row: &KeptRow) -> Result<Vec<u8>, AllocError>
    ensures { IfOk result (λ text. text.items ≡ spec.result_file row.now) }
{
    let mut text = Vec::from_slice(
        alloc,
        b"\"locations\": [{\"physicalLocation\": {\"artifactLocation\": {\"uri\": \"",
    )?;
    put(&mut text, Escape::Uri, row.name.as_str().as_bytes())?;
    text.extend_from_slice(b"\"}, ")?;
    Ok(text)
}

fn result_region(alloc: Global, row: &KeptRow) -> Result<Vec<u8>, AllocError>
    ensures { IfOk result (λ text. text.items ≡ spec.result_region row.now) }
{
    let mut text = region_start(alloc, row.line, row.col)?;
    let end = region_end(alloc, row.end_line, row.end_col)?;
    text.extend_from_slice(&end)?;
    text.extend_from_slice(b"}]")?;
    Ok(text)
}

fn region_start(alloc: Global, line: u32, col: u32) -> Result<Vec<u8>, AllocError>
    ensures { IfOk result (λ text. text.items ≡ spec.region_start line col) }
{
    let mut text = numbered(alloc, b"\"region\": {\"startLine\": ", line)?;
    let column = numbered(alloc, b", \"startColumn\": ", col)?;
    text.extend_from_slice(&column)?;
    Ok(text)
}

/// The end of a region, and of the physical location that it stands in.
fn region_end(alloc: Global, line: u32, col: u32) -> Result<Vec<u8>, AllocError>
    ensures { IfOk result (λ text. text.items ≡ spec.region_end line col) }
{
    let mut text = numbered(alloc, b", \"endLine\": ", line)?;
    let column = numbered(alloc, b", \"endColumn\": ", col)?;
    text.extend_from_slice(&column)?;
    text.extend_from_slice(b"}}")?;
    Ok(text)
}

/// A region that says where it begins alone, and the end of the physical location that it stands in.
fn region(alloc: Global, line: u32, col: u32) -> Result<Vec<u8>, AllocError>
    ensures { IfOk result (λ text. text.items ≡ spec.region line col) }
{
    let mut text = region_start(alloc, line, col)?;
    text.extend_from_slice(b"}}")?;
    Ok(text)
}

/// The locations of the notes; nothing where there are none.
#[tactic(auto, unfolding(crate::specs::Sarif::related_member))]
fn related_member(alloc: Global, notes: &[ShownNote]) -> Result<Vec<u8>, AllocError>
    ensures { IfOk result (λ text. text.items ≡ spec.related_member notes.now) }
{
    match notes {
        [] => Ok(Vec::new(alloc)),
        _ => related_some(alloc, notes),
    }
}

fn related_some(alloc: Global, notes: &[ShownNote]) -> Result<Vec<u8>, AllocError>
    ensures { IfOk result (λ text. text.items ≡ spec.related_some notes.now) }
{
    let mut text = Vec::from_slice(alloc, b", \"relatedLocations\": [")?;
    put_related(&mut text, alloc, notes)?;
    text.extend_from_slice(b"]")?;
    Ok(text)
}

/// Puts the locations of the notes, numbered from 1, with commas between.
fn put_related(out: &mut Vec<u8>, alloc: Global, notes: &[ShownNote]) -> Result<(), AllocError>
    ensures { OnOk result (out.new.items ≡ out.old.items ++ spec.related_from 1 notes.now) }
{
    let mut before = 0;
    while before < notes.len() {
        put_next_related(out, alloc, before + 1, &notes[before])?;
        before += 1;
    }
    Ok(())
}

#[tactic(auto, unfolding(crate::specs::Sarif::next_related))]
fn put_next_related(
    out: &mut Vec<u8>,
    alloc: Global,
    id: usize,
    note: &ShownNote,
) -> Result<(), AllocError>
    ensures { OnOk result (out.new.items ≡ out.old.items ++ spec.next_related id note.now) }
{
    let mut text = Vec::from_slice(alloc, comma_before(id).as_bytes())?;
    let object = related_object(alloc, id, note)?;
    text.extend_from_slice(&object)?;
    out.extend_from_slice(&text)
}

fn comma_before(id: usize) -> &'static str
    ensures { result.now ≡ spec.comma_before id }
{
    if id == 1 { "" } else { ", " }
}

fn related_object(alloc: Global, id: usize, note: &ShownNote) -> Result<Vec<u8>, AllocError>
    ensures { IfOk result (λ text. text.items ≡ spec.related_object id note.now) }
{
    let mut text = related_id(alloc, id)?;
    let file = related_file(alloc, note)?;
    text.extend_from_slice(&file)?;
    let region = region(alloc, note.line, note.col)?;
    text.extend_from_slice(&region)?;
    let words = related_words(alloc, note)?;
    text.extend_from_slice(&words)?;
    Ok(text)
}

fn related_id(alloc: Global, id: usize) -> Result<Vec<u8>, AllocError>
    ensures { IfOk result (λ text. text.items ≡ spec.related_id id) }
{
    let mut text = Vec::from_slice(alloc, b"{\"id\": ")?;
    text.extend_from_slice(Buffer::new().format(id).as_bytes())?;
    text.extend_from_slice(b", ")?;
    Ok(text)
}

fn related_file(alloc: Global, note: &ShownNote) -> Result<Vec<u8>, AllocError>
    ensures { IfOk result (λ text. text.items ≡ spec.related_file note.now) }
{
    let mut text = Vec::from_slice(
        alloc,
        b"\"physicalLocation\": {\"artifactLocation\": {\"uri\": \"",
    )?;
    put(&mut text, Escape::Uri, note.name.as_str().as_bytes())?;
    text.extend_from_slice(b"\"}, ")?;
    Ok(text)
}

fn related_words(alloc: Global, note: &ShownNote) -> Result<Vec<u8>, AllocError>
    ensures { IfOk result (λ text. text.items ≡ spec.related_words note.now) }
{
    let words = noted(alloc, note)?;
    let mut text = Vec::from_slice(alloc, b", \"message\": {\"text\": \"")?;
    put(&mut text, Escape::Json, &words)?;
    text.extend_from_slice(b"\"}}")?;
    Ok(text)
}

fn numbered(alloc: Global, front: &[u8], number: u32) -> Result<Vec<u8>, AllocError>
    ensures { IfOk result (λ text. text.items ≡ spec.numbered front.now number) }
{
    let mut text = Vec::from_slice(alloc, front)?;
    text.extend_from_slice(Buffer::new().format(number).as_bytes())?;
    Ok(text)
}

/// How many notes were left out; nothing where none was.
#[tactic(auto, unfolding(crate::specs::Sarif::more_member))]
fn more_member(alloc: Global, more: usize) -> Result<Vec<u8>, AllocError>
    ensures { IfOk result (λ text. text.items ≡ spec.more_member more) }
{
    if more == 0 {
        return Ok(Vec::new(alloc));
    }
    more_some(alloc, more)
}

#[tactic(auto, unfolding(crate::specs::Sarif::more_member))]
fn more_some(alloc: Global, more: usize) -> Result<Vec<u8>, AllocError>
    requires { 0 < more }
    ensures { IfOk result (λ text. text.items ≡ spec.more_member more) }
{
    let mut text = Vec::from_slice(alloc, b", \"properties\": {\"moreNotes\": ")?;
    text.extend_from_slice(Buffer::new().format(more).as_bytes())?;
    text.extend_from_slice(b"}")?;
    Ok(text)
}

/// The fingerprint, where there is one, and the end of the result.
#[tactic(auto, unfolding(crate::specs::Sarif::print_member))]
fn print_member(alloc: Global, print: Option<u64>) -> Result<Vec<u8>, AllocError>
    ensures { IfOk result (λ text. text.items ≡ spec.print_member print) }
{
    let Some(print) = print else {
        return Vec::from_slice(alloc, b"}");
    };
    let mut text = Vec::from_slice(alloc, b", \"partialFingerprints\": {\"codeAndLine/v1\": \"")?;
    text.extend_from_slice(Buffer::new().format(print).as_bytes())?;
    text.extend_from_slice(b"\"}}")?;
    Ok(text)
}
