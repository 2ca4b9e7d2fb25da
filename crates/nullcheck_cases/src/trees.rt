//! The run of the one main by the meaning of its trees: its text, and a line of its end as `--run` writes it, but for `null`, with the
//! place of the operand, `out`, where a unit of fuel isn't there, and `deep`, where a call would make one frame too many.
ghost use Rattle.std.specs.Prelude.{◌≡◌, ◌≤◌, [], length, map};
ghost use Rattle.jn_heads.specs.Extract.{heads};
ghost use Rattle.jn_heads.specs.Inferred.{tabled};
ghost use Rattle.jn_classtable.specs.Rows.{t_rows};
ghost use Rattle.jn_places.specs.PlacedView.{placed_file};
ghost use Rattle.jn_program.specs.Lowered.{IsProgram};
ghost use Rattle.jn_tree_run.specs.Beginning.{HasTrees};

use crate::around::{MOST, ROOM, sink_of};
use crate::reading::{file_names, reads_of};
use jn_accept::mains::only_main;
use jn_base::{Span, place_of};
use jn_basecheck::base_check;
use jn_classtable::{ClassTable, build};
use jn_cli::{Command, read_words};
use jn_front::{ParsedFiles, SourceRead, parse_files};
use jn_index::BaseTyped;
use jn_index::indexed::IndexedProgram;
use jn_program::lowering::lower;
use jn_sharing::{Straight, Workers};
use jn_tree_run::{FaultKind, TreeEnd, tree_run};
use std::alloc::{AllocError, Global};
use std::io;
use std::thread::Threads;

/// Within what a main runs by its trees: so many frames at most, and so many units of fuel.
#[derive(Clone, Copy)]
pub struct Bounds {
    pub frames: u64,
    pub fuel: u64,
}

/// The class of an exception, by its simple name (java.lang).
fn class_name(kind: FaultKind) -> &'static str {
    match kind {
        FaultKind::Arithmetic => "ArithmeticException",
        FaultKind::Index => "ArrayIndexOutOfBoundsException",
        FaultKind::NegativeSize => "NegativeArraySizeException",
        FaultKind::ClassCast => "ClassCastException",
        FaultKind::ArrayStore => "ArrayStoreException",
    }
}

/// FILE:LINE:COL of a span's first byte.
fn place_text(alloc: Global, reads: &[SourceRead], span: Span) -> Result<String, AllocError> {
    let Some(read) = reads.get(span.file.0 as usize) else {
        return "nowhere".to_string(alloc);
    };
    let text = read.file.bytes.as_slice();
    if span.from as usize > text.len() || span.from == u32::MAX {
        return "nowhere".to_string(alloc);
    }
    let place = place_of(text, &span);
    format!(in alloc; "{}:{}:{}", read.file.name.as_str(), place.line, place.col)
}

/// The line of an end.
fn end_line(alloc: Global, reads: &[SourceRead], end: TreeEnd) -> Result<String, AllocError> {
    match end {
        TreeEnd::Done => "done".to_string(alloc),
        TreeEnd::Fault(kind, span) => {
            let place = place_text(alloc, reads, span)?;
            format!(in alloc; "fault {} {place}", class_name(kind))
        }
        TreeEnd::Long => "long".to_string(alloc),
        TreeEnd::Null(span) => {
            let place = place_text(alloc, reads, span)?;
            format!(in alloc; "null {place}")
        }
        TreeEnd::Out => "out".to_string(alloc),
        TreeEnd::Deep => "deep".to_string(alloc),
        TreeEnd::WriteFault => "write fault".to_string(alloc),
        TreeEnd::OutOfMemory => "no memory".to_string(alloc),
    }
}

/// What the one main of a base-typed program prints, and the line of its end.
fn run_typed(
    alloc: Global,
    command: &Command,
    reads: &[SourceRead],
    parsed: &ParsedFiles,
    base: &BaseTyped,
    bounds: Bounds,
) -> Result<String, AllocError>
    requires program { HasTrees (map placed_file parsed.now.trees.items) base.now }
{
    let Some(main) = only_main(base.program()) else {
        return "no single main\n".to_string(alloc);
    };
    let mut sink = sink_of(alloc, Vec::new(alloc), MOST, ROOM)?;
    let end = tree_run(
        alloc,
        base,
        &parsed.trees,
        &parsed.names,
        main,
        command.args.as_slice(),
        bounds.frames,
        bounds.fuel,
        &mut sink,
    );
    let line = end_line(alloc, reads, end)?;
    let text = String::from_utf8_lossy(alloc, sink.bytes())?;
    format!(in alloc; "{text}{line}\n")
}

/// The same of a program of trees.
fn run_program<R: Threads + Sync>(
    rt: &R,
    alloc: Global,
    command: &Command,
    reads: &[SourceRead],
    parsed: &ParsedFiles,
    program: IndexedProgram,
    bounds: Bounds,
) -> Result<String, AllocError>
    requires declared { t_rows (heads (map placed_file parsed.now.trees.items)) ≡ [] }
    requires program { IsProgram command.now.infer (map placed_file parsed.now.trees.items) program }
{
    match base_check(rt, alloc, program, Workers::of(1)) {
        Err(_) => "not base-typed\n".to_string(alloc),
        Ok(base) => {
            let shown = run_typed(alloc, command, reads, parsed, &base, bounds);
            drop(base);
            shown
        }
    }
}

/// The same of trees whose classes and members have no row.
fn run_table<R: Threads + Sync>(
    rt: &R,
    alloc: Global,
    command: &Command,
    reads: &[SourceRead],
    parsed: &ParsedFiles,
    table: ClassTable,
    bounds: Bounds,
) -> Result<String, AllocError>
    requires declared { t_rows (heads (map placed_file parsed.now.trees.items)) ≡ [] }
    requires table { table ≡ tabled command.now.infer (map placed_file parsed.now.trees.items) }
{
    match lower(rt, alloc, table, &parsed.trees, Workers::of(1)) {
        Err(_) => "not lowered\n".to_string(alloc),
        Ok(program) => run_program(rt, alloc, command, reads, parsed, program, bounds),
    }
}

/// The same of files that were read.
fn run_reads<R: Threads + Sync>(
    rt: &R,
    alloc: Global,
    command: &Command,
    reads: &[SourceRead],
    bounds: Bounds,
) -> Result<String, AllocError>
    requires few { length reads.now ≤ 64 }
{
    let Ok(parsed) = parse_files(rt, alloc, reads, Workers::of(1), &Straight) else {
        return Err(AllocError);
    };
    if !parsed.rows.is_empty() {
        return "no trees\n".to_string(alloc);
    }
    match build(alloc, &parsed.trees, command.infer) {
        Err(_) => "no table\n".to_string(alloc),
        Ok(table) => run_table(rt, alloc, command, reads, &parsed, table, bounds),
    }
}

/// What the one main of the files that the words name prints by its trees, within these bounds, and the line of its end.
pub fn trees_text<R: Threads + Sync>(
    rt: &HostRuntime,
    threads: &R,
    words: &[String],
    bounds: Bounds,
) -> io::Result<String> {
    let alloc = rt.alloc();
    let Ok(command) = read_words(alloc, words) else {
        return Ok("no command\n".to_string(alloc)?);
    };
    let names = file_names(alloc, &command)?;
    let Some(reads) = reads_of(rt, &names)? else {
        return Ok("not read\n".to_string(alloc)?);
    };
    Ok(run_reads(threads, alloc, &command, &reads, bounds)?)
}
