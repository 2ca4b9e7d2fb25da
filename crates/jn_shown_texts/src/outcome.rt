//! What becomes of a text: the shape of its tree, or its row.
use crate::page::Shown;
use crate::shape::shape_of;
use jn_base::{Fail, FileNo, OutOfMemory, Row, place_of};
use jn_parse_decl::parse_file;
use jn_trees::{FileTree, Names, Token, TokenKind};
use jn_trees_spelling::{spell_file, well_formed_file};
use std::alloc::Global;
use std::thread::Threads;

pub const FILE: FileNo = FileNo(0);

/// The most bytes of a text here.
pub const LIMIT: usize = 1000000;

/// How many workers parse a file beside the first.
const MORE: u32 = 3;

/// The row as text, as in `S1 3:5`.
fn row_text(alloc: Global, text: &[u8], row: Row) -> Result<String, OutOfMemory> {
    if text.len() > LIMIT || row.span.from as usize > text.len() {
        return Ok(String::from_str(alloc, "no place")?);
    }
    let place = place_of(text, &row.span);
    let code = row.code.name();
    let line = place.line;
    let col = place.col;
    Ok(format!(in alloc; "{code} {line}:{col}")?)
}

pub fn fail_text(alloc: Global, text: &[u8], fail: Fail<Row>) -> Result<String, OutOfMemory> {
    match fail {
        Fail::Refused(row) => row_text(alloc, text, row),
        Fail::OutOfMemory => Err(OutOfMemory),
    }
}

/// Whether the kinds are those of the tokens.
fn same_kinds(kinds: &[TokenKind], tokens: &[Token]) -> bool {
    if kinds.len() != tokens.len() {
        return false;
    }
    for (kind, token) in kinds.iter().zip(tokens) {
        if *kind != token.kind {
            return false;
        }
    }
    true
}

/// The shape of a tree, once it is well formed and spelled as the tokens are.
fn checked_text(
    alloc: Global,
    names: &Names,
    tokens: &[Token],
    tree: &FileTree,
    shown: Shown,
) -> Result<String, OutOfMemory> {
    let kinds = spell_file(alloc, tree)?;
    if !same_kinds(&kinds, tokens) {
        return Ok(String::from_str(alloc, "spelled otherwise")?);
    }
    if !well_formed_file(tree) {
        return Ok(String::from_str(alloc, "not well formed")?);
    }
    shape_of(alloc, names, tree, shown)
}

/// The shape of a file's tree that so many workers beside this one make, or its row.
fn text_by<R: Threads + Sync>(
    rt: &R,
    alloc: Global,
    names: &Names,
    text: &[u8],
    tokens: &[Token],
    shown: Shown,
    more: u32,
) -> Result<String, OutOfMemory> {
    if text.len() > LIMIT || tokens.len() > LIMIT {
        return Ok(String::from_str(alloc, "too long")?);
    }
    match parse_file(rt, alloc, tokens, FILE, text.len() as u32, more) {
        Ok(tree) => checked_text(alloc, names, tokens, &tree, shown),
        Err(fail) => fail_text(alloc, text, fail),
    }
}

/// The shape of a file's tree, or its row, and whether several workers make another of it.
pub fn tree_text<R: Threads + Sync>(
    rt: &R,
    alloc: Global,
    names: &Names,
    text: &[u8],
    tokens: &[Token],
    shown: Shown,
) -> Result<String, OutOfMemory> {
    let alone = text_by(rt, alloc, names, text, tokens, shown, 0)?;
    let shared = text_by(rt, alloc, names, text, tokens, shown, MORE)?;
    if alone.as_bytes() == shared.as_bytes() {
        Ok(alone)
    } else {
        Ok(format!(in alloc; "{alone} but by several workers {shared}")?)
    }
}
