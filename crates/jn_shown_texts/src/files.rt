//! Two files that workers lex and parse together: the names of both and each tree, or the rows, and whether two workers met.
ghost use Rattle.std.specs.Prelude.{◌≡◌, ◌≤◌, length, IfOk};

use crate::page::Shown;
use crate::shape::shape_of;
use crate::tokens::names_text;
use jn_base::{OutOfMemory, Row, Seq, Text};
use jn_front::{ParsedFiles, SourceFile, SourceRead, parse_files};
use jn_sharing::Workers;
use jn_solver_samples::Meet;
use jn_trees::{FileTree, Names};
use std::alloc::Global;
use std::thread::Threads;

/// The most bytes of a file.
const LIMIT: usize = 1_048_576;

/// A file that was read whole, for whoever has no use for its name.
fn whole(alloc: Global, bytes: Vec<u8>) -> Result<SourceRead, OutOfMemory>
    requires { length bytes.items ≤ 1048576 }
    ensures { IfOk result (λ read. read.file.bytes ≡ bytes.items) }
{
    let name = Text::of_str(alloc, "")?;
    Ok(SourceRead {
        file: SourceFile {
            name,
            bytes: Seq::of_vec(bytes),
        },
        whole: true,
    })
}

/// The codes of rows, each with its file and byte.
fn rows_text(alloc: Global, rows: &[Row]) -> Result<String, OutOfMemory> {
    let mut text = String::new(alloc);
    for row in rows {
        let shown = format!(in alloc;
            " {} {}:{}",
            row.code.name(),
            row.span.file.0,
            row.span.from
        )?;
        text.push_str(&shown)?;
    }
    Ok(text)
}

/// The names, and each tree after a bar.
fn trees_text(alloc: Global, names: &Names, trees: &[FileTree]) -> Result<String, OutOfMemory> {
    let mut text = names_text(alloc, names)?;
    for tree in trees {
        let shape = shape_of(alloc, names, tree, Shown::Places)?;
        text.push_str(" | ")?;
        text.push_str(&shape)?;
    }
    Ok(text)
}

/// The rows, or the names and trees.
fn parsed_text(alloc: Global, parsed: &ParsedFiles) -> Result<String, OutOfMemory> {
    if parsed.rows.is_empty() {
        trees_text(alloc, &parsed.names, &parsed.trees)
    } else {
        rows_text(alloc, &parsed.rows)
    }
}

/// What so many workers make of two files, the first of which, where there is another worker, waits at the gate for its file.
pub fn files_text<R: Threads + Sync>(
    rt: &R,
    alloc: Global,
    workers: u32,
    one: Vec<u8>,
    other: Vec<u8>,
) -> Result<String, OutOfMemory> {
    if workers == 0 || workers > 16 || one.len() > LIMIT || other.len() > LIMIT {
        return Ok(String::from_str(alloc, "beyond a limit")?);
    }
    let reads = [whole(alloc, one)?, whole(alloc, other)?];
    let gate = Meet::new(if workers > 1 { 1 } else { 0 });
    let parsed = parse_files(rt, alloc, &reads, Workers::of(workers), &gate)?;
    let mut text = parsed_text(alloc, &parsed)?;
    if gate.met() {
        text.push_str(" | two workers met")?;
    }
    Ok(text)
}
