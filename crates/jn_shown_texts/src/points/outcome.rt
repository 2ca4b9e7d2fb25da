//! What becomes of a file: the bodies of its program, or its rows.
use crate::points::body::program_text;
use crate::points::known::LIMIT;
use crate::points::page::Page;
use jn_base::{Fail, FileNo, Infer, OutOfMemory, Row, Seq};
use jn_classtable::build;
use jn_index::indexed::IndexedProgram;
use jn_lex_shared::known_names;
use jn_lexer::lex;
use jn_parse_placed::parse_placed;
use jn_program::lowering::lower;
use jn_sharing::Workers;
use jn_trees::{FileTree, Names, Token};
use std::alloc::{AllocError, Global};
use std::thread::Threads;

/// The one file.
const FILE: FileNo = FileNo(0);

/// How many workers lower its bodies.
const WORKERS: u32 = 2;

/// The codes of rows, each with the byte at which it stands.
fn rows_text(alloc: Global, rows: &[Row]) -> Result<String, OutOfMemory> {
    let mut page = Page::new(alloc);
    for row in rows {
        page.push("\n");
        page.push(row.code.name());
        page.push(" ");
        page.number(row.span.from);
    }
    page.finish()
}

fn one_row_text(alloc: Global, fail: Fail<Row>) -> Result<String, OutOfMemory> {
    match fail {
        Fail::Refused(row) => rows_text(alloc, &[row]),
        Fail::OutOfMemory => Err(OutOfMemory),
    }
}

fn fail_text(alloc: Global, fail: Fail<Seq<Row>>) -> Result<String, OutOfMemory> {
    match fail {
        Fail::Refused(rows) => rows_text(alloc, rows.as_slice()),
        Fail::OutOfMemory => Err(OutOfMemory),
    }
}

fn lowered<R: Threads + Sync>(
    rt: &R,
    alloc: Global,
    files: &[FileTree],
) -> Result<IndexedProgram, Fail<Seq<Row>>> {
    match build(alloc, files, Infer::Private) {
        Ok(table) => lower(rt, alloc, table, files, Workers::of(WORKERS)),
        Err(fail) => Err(fail),
    }
}

fn files_text<R: Threads + Sync>(
    rt: &R,
    alloc: Global,
    names: &Names,
    text: &[u8],
    files: &[FileTree],
) -> Result<String, OutOfMemory> {
    match lowered(rt, alloc, files) {
        Ok(program) => program_text(alloc, names, program.program(), text),
        Err(fail) => fail_text(alloc, fail),
    }
}

fn list_of(alloc: Global, tree: FileTree) -> Result<Vec<FileTree>, AllocError> {
    let mut files = Vec::new(alloc);
    files.push(tree)?;
    Ok(files)
}

fn tree_text<R: Threads + Sync>(
    rt: &R,
    alloc: Global,
    names: &Names,
    text: &[u8],
    tree: FileTree,
) -> Result<String, OutOfMemory> {
    match list_of(alloc, tree) {
        Ok(files) => files_text(rt, alloc, names, text, &files),
        Err(_) => Err(OutOfMemory),
    }
}

fn tokens_text<R: Threads + Sync>(
    rt: &R,
    alloc: Global,
    names: &Names,
    text: &[u8],
    tokens: &[Token],
) -> Result<String, OutOfMemory> {
    if text.len() > LIMIT || tokens.len() > LIMIT {
        return Ok(String::from_str(alloc, " is too long")?);
    }
    match parse_placed(rt, alloc, tokens, FILE, text.len() as u32, 0) {
        Ok(tree) => tree_text(rt, alloc, names, text, tree),
        Err(fail) => one_row_text(alloc, fail),
    }
}

/// The bodies of the program of the file, or the rows for which it has none.
pub fn file_text<R: Threads + Sync>(
    rt: &R,
    alloc: Global,
    text: &[u8],
) -> Result<String, OutOfMemory> {
    let mut names = known_names(alloc)?;
    if text.len() > LIMIT || names.len() > LIMIT {
        return Ok(String::from_str(alloc, " is too long")?);
    }
    match lex(alloc, text, FILE, &mut names) {
        Ok(tokens) => tokens_text(rt, alloc, &names, text, &tokens),
        Err(fail) => one_row_text(alloc, fail),
    }
}
