//! A table of calls from outside is a list of lines. `files NAME..` has the top call check files, and what is held of earlier ones goes; each
//! other line is a call, over the heap that the calls before it left: `new NAME CLASS ARG..`, `static NAME CLASS METHOD ARG..`, or `call NAME
//! CLASS METHOD OBJECT ARG..`, of a method that the class declares. What a call gives is kept as NAME. Each call is made by the machine and by
//! trees, each over a heap of its own.

use crate::reading::reads_of;
use jn_base::Infer;
use jn_index::BaseTyped;
use jn_machine::{End, Value};
use jn_phases::type_files;
use jn_points::Program;
use jn_program::sources::sources_of_files;
use jn_sharing::{Straight, Workers};
use jn_tree_run::calling::Run;
use jn_tree_run::outside::caller::Caller;
use jn_tree_run::outside::calls::{Called, Came, Way, make_call};
use jn_tree_run::outside::entry::{Entry, call_on, construction, static_call};
use jn_trees::{FileTree, Names};
use std::alloc::{AllocError, Global};
use std::io;
use std::thread::Threads;

/// The most frames of a run by trees, which recurs for each.
const FRAMES: u64 = 64;

/// The word for an end.
fn end_text(end: End) -> &'static str {
    match end {
        End::Done => "done",
        End::Arithmetic => "ArithmeticException",
        End::Index => "ArrayIndexOutOfBoundsException",
        End::NegativeSize => "NegativeArraySizeException",
        End::ClassCast => "ClassCastException",
        End::ArrayStore => "ArrayStoreException",
        End::Deep => "deep",
        End::Long => "long",
    }
}

/// The values of a line's words; None where one stands for none.
fn values_of(
    alloc: Global,
    caller: &Caller,
    words: &[&str],
) -> Result<Option<Vec<Value>>, AllocError> {
    let mut values = Vec::new(alloc);
    for word in words {
        match caller.value(alloc, word)? {
            None => return Ok(None),
            Some(value) => values.push(value)?,
        }
    }
    Ok(Some(values))
}

/// What a line calls; None where it names nothing that there is.
fn entry_of(
    alloc: Global,
    program: &Program,
    names: &Names,
    caller: &mut Caller,
    words: &[&str],
) -> Result<Option<Entry>, AllocError> {
    match words {
        ["new", _, class, rest @ ..] => match values_of(alloc, caller, rest)? {
            None => Ok(None),
            Some(args) => construction(alloc, program, names, caller, class, &args),
        },
        ["static", _, class, name, rest @ ..] => match values_of(alloc, caller, rest)? {
            None => Ok(None),
            Some(args) => static_call(alloc, program, names, class, name, &args),
        },
        ["call", _, class, name, rest @ ..] => match values_of(alloc, caller, rest)? {
            None => Ok(None),
            Some(args) => call_on(alloc, program, names, caller, class, name, &args),
        },
        _ => Ok(None),
    }
}

/// What a call came to; what it gave is kept by this name.
fn came_text(
    outer: &Run,
    caller: &mut Caller,
    name: &str,
    came: Came,
) -> Result<String, AllocError> {
    let alloc = outer.alloc;
    match came {
        Came::Done(None) => "done".to_string(alloc),
        Came::Done(Some(value)) => {
            let shown = caller.value_text(alloc, outer.program.program(), outer.names, &value)?;
            caller.keep(alloc, name, value)?;
            format!(in alloc; "done {shown}")
        }
        Came::Ended(end) => end_text(end).to_string(alloc),
        Came::Null => "null".to_string(alloc),
        Came::Steps => "steps".to_string(alloc),
        Came::Stuck => "stuck".to_string(alloc),
    }
}

/// What a call printed and came to, and the heap after it.
fn called_text(
    outer: &Run,
    caller: &mut Caller,
    name: &str,
    call: Called,
) -> Result<String, AllocError> {
    let Called { came, printed } = call;
    let alloc = outer.alloc;
    let end = came_text(outer, caller, name, came)?;
    let heap = caller.heap_text(alloc, outer.program.program(), outer.names)?;
    let text = String::from_utf8_lossy(alloc, &printed)?;
    format!(in alloc; "{text}-- {end}\n{heap}")
}

/// Makes the call of a line in one of the ways, and gives what comes of it.
fn line_text(way: Way, outer: &Run, caller: &mut Caller, line: &str) -> Result<String, AllocError> {
    let alloc = outer.alloc;
    let mut words = Vec::new(alloc);
    for word in line.split_whitespace() {
        words.push(word)?;
    }
    let name = match words.get(1) {
        None => "",
        Some(word) => *word,
    };
    match entry_of(alloc, outer.program.program(), outer.names, caller, &words)? {
        None => "-- no such call\n".to_string(alloc),
        Some(entry) => {
            let call = make_call(way, outer, caller, entry)?;
            called_text(outer, caller, name, call)
        }
    }
}

/// Makes the call of each line in both ways, and prints what comes of it.
fn play_lines(rt: &HostRuntime, outer: &Run, lines: &[&str]) -> io::Result<()> {
    let program = outer.program.program();
    let mut machine = Caller::new(outer.alloc, program)?;
    let mut trees = Caller::new(outer.alloc, program)?;
    for line in lines {
        let text = line_text(Way::Machine, outer, &mut machine, line)?;
        print!(rt; "== {line}\n{text}")?;
        let other = line_text(Way::Trees, outer, &mut trees, line)?;
        if text.as_str() == other.as_str() {
            println!(rt; "-- so by trees")?;
        } else {
            print!(rt; "-- by trees\n{other}")?;
        }
    }
    Ok(())
}

/// Makes the calls of these lines over files with this program.
fn play_typed(
    rt: &HostRuntime,
    base: &BaseTyped,
    names: &Names,
    trees: &[FileTree],
    lines: &[&str],
) -> io::Result<()> {
    let alloc = rt.alloc();
    let program = base.indexed();
    let Ok(sources) = sources_of_files(alloc, trees) else {
        return Err(io::Error::from(AllocError));
    };
    let outer = Run {
        program,
        sources: &sources,
        names,
        deepest: FRAMES,
        alloc,
    };
    play_lines(rt, &outer, lines)
}

/// Makes the calls of these lines over the files of these names.
pub fn play_outside<R: Threads + Sync>(
    rt: &HostRuntime,
    threads: &R,
    files: &[String],
    lines: &[&str],
) -> io::Result<()> {
    let Some(reads) = reads_of(rt, files)? else {
        return println!(rt; "-- not read");
    };
    let Ok(typed) = type_files(
        threads,
        &Straight,
        rt.alloc(),
        Workers::of(1),
        Infer::Private,
        &reads,
    ) else {
        return Err(io::Error::from(AllocError));
    };
    match &typed.base {
        None => println!(rt; "-- no program"),
        Some(base) => play_typed(rt, base, &typed.names, &typed.trees, lines),
    }
}
