//! Serves the recorded session of each line of a table, and prints the bodies that are written and the status.
mod case;
mod session;

use crate::around::{MOST, WIDE, failing, sink_of};
use crate::sessions::case::{Case, case_of};
use crate::sessions::session::{Recorded, read_session};
use jn_folder::MemFolder;
use jn_lsp_frames::{End, Frame, FrameReader, MemStream, Next};
use jn_outside::MemFiles;
use jn_sharing::Straight;
use nullcheck_lsp_top::{Status, serve};
use std::alloc::{AllocError, Global};
use std::io;
use std::thread::Threads;

/// The folder of these tables.
pub const FOLDER: &str = "sessions";

/// Prints the bodies of the frames, each on a line, and where the bytes end in the middle of a frame.
fn print_bodies(rt: &HostRuntime, bytes: Vec<u8>) -> io::Result<()> {
    let alloc = rt.alloc();
    let mut input = MemStream::new(bytes, WIDE, Vec::new(alloc));
    let out = sink_of(alloc, Vec::new(alloc), MOST, WIDE)?;
    let mut reader = FrameReader::new(alloc);
    for _frame in 0..1000 {
        match reader.next(&mut input, &out, alloc) {
            Ok(Next::Frame(Frame::Body(body))) => {
                let text = String::from_utf8_lossy(alloc, body.as_slice())?;
                println!(rt; "{text}")?;
            }
            Ok(Next::Frame(_)) => println!(rt; "no frame")?,
            Ok(Next::End(End::Between)) => return Ok(()),
            Ok(Next::End(End::Within)) => return println!(rt; "cut"),
            Err(_) => return Err(io::Error::from(AllocError)),
        }
    }
    Ok(())
}

/// Serves the session with these threads, and gives the status and the bytes that were written.
fn served<R: Threads + Sync>(
    alloc: Global,
    threads: &R,
    case: &Case,
    session: Recorded,
) -> Result<(Status, Vec<u8>), AllocError> {
    let most = case.most.max(1);
    let mut input = MemStream::new(session.sent, most, failing(alloc, case.input)?);
    let mut files = MemFiles::new(alloc, session.held, failing(alloc, case.read)?);
    let mut folder = MemFolder::new(session.folders, u64::from(case.list));
    let mut sink = sink_of(alloc, failing(alloc, case.write)?, MOST, WIDE)?;
    let status = serve(
        threads,
        &Straight,
        alloc,
        &case.words,
        &mut input,
        &mut files,
        &mut folder,
        &mut sink,
    );
    Ok((status, Vec::from_slice(alloc, sink.bytes())?))
}

/// Serves the session of a line with these threads, and prints the line, the bodies and the status.
pub fn run<R: Threads + Sync>(rt: &HostRuntime, threads: &R, line: &str) -> io::Result<()> {
    let case = case_of(rt.alloc(), line)?;
    let session = read_session(rt, case.name.as_str())?;
    println!(rt; "== {line}")?;
    let (status, bytes) = served(rt.alloc(), threads, &case, session)?;
    print_bodies(rt, bytes)?;
    let number = status.number();
    println!(rt; "-- {number}")
}
