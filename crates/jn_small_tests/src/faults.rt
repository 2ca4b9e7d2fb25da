//! Reads and writes over fakes that fail at each call in turn, and over the host.
use jn_base::{Fail, OutOfMemory};
use jn_outside::given::{with_read, with_start};
use jn_outside::{
    Failed, Files, Given, HostFiles, HostSink, MemFile, MemFiles, MemSink, ReadFail, Sink, Told,
    read_whole, write_whole,
};
use std::alloc::{AllocError, Global};
use std::process::Abort;

fn source(alloc: Global, failing: u32) -> Result<MemFiles, AllocError> {
    let mut held = Vec::new(alloc);
    for (name, count) in [("empty", 0), ("three", 3), ("long", 5000), ("three", 1)] {
        held.push(MemFile {
            name: String::from_str(alloc, name)?,
            bytes: vec![in alloc; 7u8; count]?,
        })?;
    }
    let failing = Vec::from_slice(alloc, &[failing])?;
    Ok(MemFiles::new(alloc, held, failing))
}

/// The greatest limit that a file may be read with.
const MOST: u32 = 4_294_967_294;

/// How many bytes are read of the file, where the call of this number fails.
fn read_count(
    alloc: Global,
    name: &str,
    failing: u32,
    limit: u32,
) -> Result<usize, Fail<ReadFail>> {
    let mut files = source(alloc, failing)?;
    read_whole(alloc, &mut files, name, limit.min(MOST)).map(|bytes| bytes.len())
}

#[test]
fn reads_files_whole(rt: HostRuntime) {
    let failed = Err(Fail::Refused(ReadFail::Failed));
    let too_large = Err(Fail::Refused(ReadFail::TooLarge));
    for (name, failing, limit, want) in [
        ("empty", 0, 0, Ok(0)),
        ("three", 0, 3, Ok(3)),
        ("three", 0, 2, too_large),
        ("long", 0, 5000, Ok(5000)),
        ("long", 0, 4999, too_large),
        ("long", 0, MOST, Ok(5000)),
        ("absent", 0, 9, failed),
        ("long", 1, 9000, failed),
        ("long", 2, 9000, failed),
        ("long", 3, 9000, failed),
        ("long", 4, 9000, failed),
        ("long", 5, 9000, Ok(5000)),
    ] {
        let got = read_count(rt.alloc(), name, failing, limit);
        assert_eq!(rt; got, want, "{name} with fault {failing} and limit {limit}");
    }
}

#[test]
fn reads_nothing_before_a_start(rt: HostRuntime) -> Result<(), AllocError> {
    let mut files = source(rt.alloc(), 2)?;
    let mut buf = [0u8; 4];
    assert_eq!(rt; files.read(&mut buf), Ok(0));
    assert_eq!(rt; files.start("three"), Err(Failed));
    assert_eq!(rt; files.start("three"), Ok(()));
    assert_eq!(rt; files.read(&mut buf), Ok(3));
    assert_eq!(rt; buf, [7, 7, 7, 0]);
    Ok(())
}

/// A source that keeps the names that were started, a line each, and how much was read.
#[derive(Drop)]
struct Watched {
    started: Vec<u8>,
    left: usize,
    given: usize,
    faults: u64,
    gave: Told<Given>,
}

impl Files for Watched {
    ghost use Rattle.std.specs.Prelude.{None};

    ghost held = { λ s. None };

    ghost left = { λ s. None };

    ghost gave = { λ s. s.gave.items };

    ghost steady = { λ s. ⊥ };

    ghost faults = { λ s. s.faults };

    ghost told = { λ s h. h };

    fn start(&mut self, name: &str) -> Result<(), Failed> {
        if self.started.extend_from_slice(name.as_bytes()).is_err()
            || self.started.push(b'\n').is_err()
        {
            self.faults = self.faults.saturating_add(1);
            return Err(Failed);
        }
        self.gave = with_start(&self.gave, name);
        Ok(())
    }

    fn read(&mut self, buf: &mut [u8]) -> Result<usize, Failed> {
        let count = buf.len().min(self.left);
        buf[..count].fill(b'x');
        self.left -= count;
        self.given = self.given.saturating_add(count);
        self.gave = with_read(&self.gave, &buf[..count]);
        Ok(count)
    }
}

/// A file of so many bytes is read whole within the limit, by one start, and so much of it is taken.
fn expect_one_start(rt: &impl Abort, alloc: Global, left: usize, limit: u32, given: usize) {
    let mut files = Watched {
        started: Vec::new(alloc),
        left,
        given: 0,
        faults: 0,
        gave: Told::none(),
    };
    let is_whole = read_whole(alloc, &mut files, "A.java", limit.min(MOST)).is_ok();
    assert_eq!(rt; is_whole, left <= limit as usize);
    assert_eq!(rt; files.started.as_slice(), b"A.java\n".as_slice());
    assert_eq!(rt; files.given, given);
}

#[test]
fn starts_its_name_once(rt: HostRuntime) {
    for (left, limit, given) in [(10, 20, 10), (10, 9, 10), (10, 4, 5), (9000, 8191, 8192)] {
        expect_one_start(&rt, rt.alloc(), left, limit, given);
    }
}

/// A sink that fails at the call of this number, takes so many bytes at once (at least one), and has this room.
fn sink_of(alloc: Global, failing: u32, most: u32, room: u32) -> Result<MemSink, OutOfMemory> {
    let failing = Vec::from_slice(alloc, &[failing])?;
    MemSink::new(alloc, failing, most.max(1), room)
}

fn expect_written(
    rt: &impl Abort,
    sink: Result<MemSink, OutOfMemory>,
    want: Result<(), Failed>,
    sent: &str,
) {
    let Ok(mut sink) = sink else {
        panic!(rt; "no memory")
    };
    assert_eq!(rt; sink.write(b""), Ok(0));
    assert_eq!(rt; write_whole(&mut sink, b"hello"), want);
    assert_eq!(rt; sink.bytes(), sent.as_bytes());
}

#[test]
fn writes_all_or_a_prefix(rt: HostRuntime) {
    for (failing, most, room, want, sent) in [
        (0, 9, 9, Ok(()), "hello"),
        (0, 2, 5, Ok(()), "hello"),
        (0, 2, 3, Err(Failed), "hel"),
        (0, 9, 0, Err(Failed), ""),
        (1, 2, 9, Err(Failed), ""),
        (2, 2, 9, Err(Failed), "he"),
        (3, 2, 9, Err(Failed), "hell"),
        (4, 2, 9, Ok(()), "hello"),
    ] {
        expect_written(&rt, sink_of(rt.alloc(), failing, most, room), want, sent);
    }
}

#[test]
fn reads_and_writes_the_host(rt: HostRuntime) {
    let mut files = HostFiles::new(&rt, rt.alloc());
    let mut buf = [0u8; 4];
    assert_eq!(rt; files.read(&mut buf), Ok(0));
    let absent = read_whole(rt.alloc(), &mut files, "no/such/file", 9);
    assert!(rt; absent.is_err());
    let empty = read_whole(rt.alloc(), &mut files, "/dev/null", 9).map(|bytes| bytes.len());
    assert_eq!(rt; empty, Ok(0));
    let mut sink = HostSink::new(&rt);
    assert_eq!(rt; write_whole(&mut sink, b"written\n"), Ok(()));
}
