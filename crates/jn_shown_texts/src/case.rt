//! A case is one line: what is shown, if not shapes; its kind, with a number if not the greatest depth; and its text.
use crate::expressions::expression_text;
use crate::lowered::lowered_text;
use crate::outcome::{FILE, LIMIT, fail_text, tree_text};
use crate::page::Shown;
use crate::shape::statement_text;
use crate::source::source_of;
use crate::tokens::{names_text, tokens_text};
use jn_base::OutOfMemory;
use jn_lexer::lex;
use jn_trees::{Context, DEEPEST, Names, Token};
use std::alloc::Global;
use std::thread::Threads;

/// What a case reads, and what is shown of it.
#[derive(Clone, Copy)]
struct Reading<'c> {
    kind: &'c str,
    number: u32,
    shown: Shown,
}

/// Where a statement stands that is read by this kind.
fn context_of(kind: &str) -> Context {
    Context {
        in_loop: kind == "loop",
        direct: kind != "loop",
        leading: kind == "leading",
    }
}

/// What becomes of the tokens of a text.
fn reading_text<R: Threads + Sync>(
    rt: &R,
    alloc: Global,
    reading: Reading,
    names: &Names,
    text: &[u8],
    tokens: &[Token],
) -> Result<String, OutOfMemory> {
    let shown = reading.shown;
    let number = reading.number;
    let depth = number.min(DEEPEST);
    match reading.kind {
        "tokens" => tokens_text(alloc, tokens),
        "names" => names_text(alloc, names),
        "expression" => expression_text(alloc, names, tokens, 0, depth, shown),
        "from" => expression_text(alloc, names, tokens, number, DEEPEST, shown),
        "value" => lowered_text(alloc, tokens, false),
        "condition" => lowered_text(alloc, tokens, true),
        "block" | "loop" | "leading" => {
            statement_text(alloc, names, tokens, depth, context_of(reading.kind), shown)
        }
        "field" | "method" | "file" => tree_text(rt, alloc, names, text, tokens, shown),
        _ => Ok(String::from_str(alloc, "no kind")?),
    }
}

/// What becomes of a text.
fn source_text<R: Threads + Sync>(
    rt: &R,
    alloc: Global,
    reading: Reading,
    text: &[u8],
) -> Result<String, OutOfMemory> {
    let mut names = Names::new(alloc);
    if text.len() > LIMIT {
        return Ok(String::from_str(alloc, "too long")?);
    }
    match lex(alloc, text, FILE, &mut names) {
        Ok(tokens) => reading_text(rt, alloc, reading, &names, text, &tokens),
        Err(fail) => fail_text(alloc, text, fail),
    }
}

/// The kind and the number of a case's word, which is the greatest depth where it has none.
fn reading_of(word: &str, shown: Shown) -> Reading {
    let (kind, number) = match word.split_once('=') {
        None => (word, DEEPEST),
        Some((kind, digits)) => (kind, digits.parse::<u32>().unwrap_or(0)),
    };
    Reading {
        kind,
        number,
        shown,
    }
}

fn shown_answer<R: Threads + Sync>(
    rt: &R,
    alloc: Global,
    shown: Shown,
    line: &str,
) -> Result<String, OutOfMemory> {
    match line.split_once(' ') {
        None => Ok(String::from_str(alloc, "no case")?),
        Some((word, text)) => {
            let reading = reading_of(word, shown);
            let source = source_of(alloc, reading.kind, text)?;
            source_text(rt, alloc, reading, &source)
        }
    }
}

/// What becomes of the line's text, with these threads.
pub fn answer<R: Threads + Sync>(rt: &R, alloc: Global, line: &str) -> Result<String, OutOfMemory> {
    match line.split_once(' ') {
        Some(("spans", rest)) => shown_answer(rt, alloc, Shown::Places, rest),
        Some(("brief", rest)) => shown_answer(rt, alloc, Shown::Nothing, rest),
        _ => shown_answer(rt, alloc, Shown::Shapes, line),
    }
}
