//! The files and the standard output of the host. Files tell what their calls gave, and the output what its writes took;
//! what a file holds, and what was written before, no call can tell.
ghost use Rattle.std.specs.Prelude.{◌≡◌, ◌<◌, ◌≤◌, ◌+◌, ◌-◌, ◌^◌, [], length, take, min, None, Some, Ok, IfOk, OnOk, OnErr, IsOk, IsSome};
ghost use Rattle.jn_outside.specs.Causes.{HasCause};
ghost use Rattle.jn_outside.specs.Files.{Holds, Starts, Reads};
ghost use Rattle.jn_outside.specs.Gave as spec;
ghost use Rattle.jn_outside.specs.Sink.{Appends};

use crate::count;
use crate::files::{Failed, Files};
use crate::given::{Given, with_read, with_start};
use crate::sink::Sink;
use crate::told::{Told, with_bytes};
use std::alloc::Global;
use std::io::{ErrorKind, Read, Write};
use std::{fs, io, rt};

/// How often in a row a call is made that is interrupted each time.
const TRIES: u32 = 1_000_000;

/// Reads from the file; where the call was interrupted it is made again.
fn read_on<F: Read>(file: &mut F, buf: &mut [u8]) -> io::Result<usize>
    ensures { IfOk result (λ n. n ≤ length buf.new) }
{
    for _ in 0..TRIES {
        match file.read(buf) {
            Err(error) if error.kind() == ErrorKind::Interrupted => {}
            result => return result,
        }
    }
    Err(io::Error::from(ErrorKind::Interrupted))
}

/// Writes to the output; where the call was interrupted it is made again.
fn write_on<R: Print>(rt: &R, bytes: &[u8]) -> io::Result<usize>
    ensures { IfOk result (λ n. n ≤ length bytes.now) }
{
    for _ in 0..TRIES {
        match io::writer(rt).write(bytes) {
            Err(error) if error.kind() == ErrorKind::Interrupted => {}
            result => return result,
        }
    }
    Err(io::Error::from(ErrorKind::Interrupted))
}

/// What the host's files failed at last, for a message to a person; no clause speaks of it.
#[derive(Drop)]
pub struct HostFault {
    /// The file's name, where memory was found for it.
    pub name: Option<String>,
    /// Whether the file couldn't be opened; else it couldn't be read.
    pub opening: bool,
    /// The operating system's reason.
    pub reason: io::Error,
}

/// The files of the host. It is never steady, and its count of faults rises at each `Err`.
#[derive(Drop)]
pub struct HostFiles<'a, R: rt::Files> {
    rt: &'a R,
    alloc: Global,
    file: Option<R::File>,
    name: Option<String>,
    fault: Option<HostFault>,
    faults: u64,
    gave: Told<Given>,
}

impl<'a, R: rt::Files> HostFiles<'a, R> {
    /// A source with no file started and no fault counted.
    pub fn new(rt: &'a R, alloc: Global) -> HostFiles<'a, R>
        ensures unstarted { result.file ≡ None }
        ensures faults { result.faults ≡ 0 }
        ensures gave { result.gave.items ≡ [] }
    {
        HostFiles {
            rt,
            alloc,
            file: None,
            name: None,
            fault: None,
            faults: 0,
            gave: Told::none(),
        }
    }

    /// What failed last.
    pub fn fault(&self) -> Option<&HostFault> {
        self.fault.as_ref()
    }
}

/// A copy of the text, where memory is found for it.
fn copied(alloc: Global, text: &str) -> Option<String> {
    String::from_str(alloc, text).ok()
}

impl<'a, R: rt::Files> Files for HostFiles<'a, R> {
    ghost held = { λ s. None };

    ghost left = { λ s. None };

    ghost gave = { λ s. s.gave.items };

    ghost steady = { λ s. ⊥ };

    ghost faults = { λ s. s.faults };

    ghost told = { λ s h. h };

    /// Where it fails, the file that was started before stays chosen.
    fn start(&mut self, name: &str) -> Result<(), Failed>
        ensures started { OnOk result (Starts None name.now None) }
        ensures steady { ⊥ → Holds None name.now → IsOk result × ⊥ }
        ensures gave { OnOk result
            (self.new.gave.items ≡ spec.with_start self.old.gave.items name.now) }
        ensures spared { OnErr result (self.new.gave.items ≡ self.old.gave.items) }
        ensures opened { OnOk result (IsSome self.new.file) }
        ensures stays { OnErr result (self.new.file ≡ self.old.file) }
        ensures cause { HasCause self.old.faults self.new.faults result }
        ensures counted { OnErr result (self.new.faults ≡ min (self.old.faults + 1) (2 ^ 64 - 1)) }
    {
        match fs::open(self.rt, name) {
            Ok(file) => {
                self.file = Some(file);
                self.name = copied(self.alloc, name);
                self.gave = with_start(&self.gave, name);
                Ok(())
            }
            Err(reason) => {
                self.fault = Some(HostFault {
                    name: copied(self.alloc, name),
                    opening: true,
                    reason,
                });
                self.faults = count::next(self.faults);
                Err(Failed)
            }
        }
    }

    /// Before a start that succeeded it gives 0 and counts nothing.
    fn read(&mut self, buf: &mut [u8]) -> Result<usize, Failed>
        ensures bound { IfOk result (λ n. n ≤ length buf.new) }
        ensures bytes { IfOk result (λ n. Reads None None n buf.new) }
        ensures gave { IfOk result
            (λ n. self.new.gave.items ≡ spec.with_read self.old.gave.items (take n buf.new)) }
        ensures spared { OnErr result (self.new.gave.items ≡ self.old.gave.items) }
        ensures steady { ⊥ → IsOk result × ⊥ }
        ensures cause { HasCause self.old.faults self.new.faults result }
        ensures counted { OnErr result (self.new.faults ≡ min (self.old.faults + 1) (2 ^ 64 - 1)) }
        ensures unstarted { self.old.file ≡ None → (result ≡ Ok 0) × (self.new ≡ self.old) }
    {
        let result = match &mut self.file {
            None => return Ok(0),
            Some(file) => read_on(file, buf),
        };
        match result {
            Ok(count) => {
                self.gave = with_read(&self.gave, &buf[..count]);
                Ok(count)
            }
            Err(reason) => {
                self.fault = Some(HostFault {
                    name: self.name.take(),
                    opening: false,
                    reason,
                });
                self.faults = count::next(self.faults);
                Err(Failed)
            }
        }
    }
}

/// The standard output of the host. Its count of faults rises at each `Err`, and where a piece
/// that is not empty has nothing taken of it.
#[derive(Drop)]
pub struct HostSink<'a, R: Print> {
    rt: &'a R,
    fault: Option<io::Error>,
    faults: u64,
    taken: Told<u8>,
}

impl<'a, R: Print> HostSink<'a, R> {
    /// A sink with no fault counted, which took nothing yet.
    pub fn new(rt: &'a R) -> HostSink<'a, R>
        ensures faults { result.faults ≡ 0 }
        ensures taken { result.taken.items ≡ [] }
    {
        HostSink {
            rt,
            fault: None,
            faults: 0,
            taken: Told::none(),
        }
    }

    /// The operating system's reason for what failed last, where it gave one; no clause speaks of it.
    pub fn fault(&self) -> Option<io::Error> {
        self.fault
    }
}

impl<'a, R: Print> Sink for HostSink<'a, R> {
    ghost written = { λ s. Some s.taken.items };

    ghost faults = { λ s. s.faults };

    fn write(&mut self, bytes: &[u8]) -> Result<usize, Failed>
        ensures bound { IfOk result (λ n. n ≤ length bytes.now) }
        ensures some { 0 < length bytes.now → IfOk result (λ n. 0 < n) }
        ensures taken { IfOk result (λ n.
            Appends (Some self.old.taken.items) (Some self.new.taken.items) (take n bytes.now)) }
        ensures err { OnErr result (Some self.new.taken.items ≡ Some self.old.taken.items) }
        ensures empty { length bytes.now ≡ 0
            → (result ≡ Ok 0) × (Some self.new.taken.items ≡ Some self.old.taken.items) }
        ensures nothing { length bytes.now ≡ 0 → self.new ≡ self.old }
        ensures cause { HasCause self.old.faults self.new.faults result }
        ensures counted { OnErr result (self.new.faults ≡ min (self.old.faults + 1) (2 ^ 64 - 1)) }
    {
        if bytes.is_empty() {
            return Ok(0);
        }
        match write_on(self.rt, bytes) {
            Ok(count) if count > 0 => {
                self.taken = with_bytes(&self.taken, &bytes[..count]);
                Ok(count)
            }
            result => {
                self.fault = result.err();
                self.faults = count::next(self.faults);
                Err(Failed)
            }
        }
    }
}
