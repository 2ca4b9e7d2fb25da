//! Prints each line of a table with what becomes of its text, and of a file of Java the bodies of its program with their points.
use jn_shown_texts::{answer, file_text, files_text};
use std::alloc::AllocError;
use std::thread::Threads;
use std::{fs, io};

/// The workers and the two files of a line such as `files=2 Empty.java Stack.java`.
fn files_of(line: &str) -> Option<(u32, &str, &str)> {
    let (word, names) = line.split_once(' ')?;
    let (kind, workers) = word.split_once('=')?;
    let (one, other) = names.split_once(' ')?;
    if kind != "files" {
        return None;
    }
    Some((workers.parse().ok()?, one, other))
}

/// What becomes of the line's text, or of its files, with these threads.
fn line_answer<R: Threads + Sync>(rt: &HostRuntime, threads: &R, line: &str) -> io::Result<String> {
    let shown = match files_of(line) {
        Some((workers, one, other)) => {
            let one = fs::read(rt, one)?;
            let other = fs::read(rt, other)?;
            files_text(threads, rt.alloc(), workers, one, other)
        }
        None => answer(threads, rt.alloc(), line),
    };
    match shown {
        Ok(shown) => Ok(shown),
        Err(_) => Err(io::Error::from(AllocError)),
    }
}

/// Prints each line of a table with its answer.
fn show_table<R: Threads + Sync>(rt: &HostRuntime, threads: &R, text: &str) -> io::Result<()> {
    for line in text.lines() {
        let shown = line_answer(rt, threads, line)?;
        println!(rt; "{line} => {shown}")?;
    }
    Ok(())
}

/// Prints the bodies of a file's program.
fn show_points<R: Threads + Sync>(
    rt: &HostRuntime,
    threads: &R,
    name: &str,
    text: &str,
) -> io::Result<()> {
    match file_text(threads, rt.alloc(), text.as_bytes()) {
        Ok(shown) => println!(rt; "== {name}{shown}"),
        Err(_) => Err(io::Error::from(AllocError)),
    }
}

/// Prints the lines of the table of this name and text, or the bodies of this file of Java.
pub fn show<R: Threads + Sync>(
    rt: &HostRuntime,
    threads: &R,
    name: &str,
    text: &str,
) -> io::Result<()> {
    if name.ends_with(".java") {
        show_points(rt, threads, name, text)
    } else {
        show_table(rt, threads, text)
    }
}
