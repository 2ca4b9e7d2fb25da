//! Files of the host, of which the first may be the standard input.
ghost use Rattle.std.specs.Prelude.{◌≡◌, ◌≤◌, [], None, length, IfOk};

use jn_lsp_frames::{HostStream, Stream};
use jn_outside::given::{with_read, with_start};
use jn_outside::{Failed, Files, Given, HostFault, HostFiles, HostSink, Told};
use std::alloc::Global;
use std::io::{self, Input};
use std::rt;

/// The name of the standard input.
const INPUT: &str = "-";

/// The files of the host, of which the one that is started first is the standard input, where its name is `-`. It is never steady, and
/// its count of faults rises at each `Err`.
#[derive(Drop)]
pub struct InputFiles<'a, R: rt::Files + Input + Print> {
    files: HostFiles<'a, R>,
    input: HostStream<R>,
    /// An output to which nothing is written: the input says at each read what had been.
    silent: HostSink<'a, R>,
    /// Whether a file was started.
    started: bool,
    /// Whether the standard input was started last.
    at_input: bool,
    faults: u64,
    gave: Told<Given>,
}

impl<'a, R: rt::Files + Input + Print> InputFiles<'a, R> {
    /// A source with no file started and no fault counted.
    pub fn new(rt: &'a R, alloc: Global) -> InputFiles<'a, R>
        ensures faults { result.faults ≡ 0 }
        ensures gave { result.gave.items ≡ [] }
    {
        InputFiles {
            files: HostFiles::new(rt, alloc),
            input: HostStream::new(rt),
            silent: HostSink::new(rt),
            started: false,
            at_input: false,
            faults: 0,
            gave: Told::none(),
        }
    }

    /// What a file failed at last.
    pub fn fault(&self) -> Option<&HostFault> {
        self.files.fault()
    }

    /// Why the standard input couldn't be read.
    pub fn input_fault(&self) -> Option<io::Error> {
        self.input.fault()
    }

    /// Starts the standard input, or the file of this name.
    fn choose(&mut self, name: &str) -> Result<(), Failed>
        ensures faults { self.new.faults ≡ self.old.faults }
        ensures gave { self.new.gave ≡ self.old.gave }
    {
        self.at_input = !self.started && name == INPUT;
        self.started = true;
        if self.at_input {
            return Ok(());
        }
        self.files.start(name)
    }

    /// Reads on in what was started last.
    fn read_on(&mut self, buf: &mut [u8]) -> Result<usize, Failed>
        ensures bound { IfOk result (λ n. n ≤ length buf.new) }
        ensures faults { self.new.faults ≡ self.old.faults }
        ensures gave { self.new.gave ≡ self.old.gave }
    {
        if self.at_input {
            return self.input.read(&self.silent, buf);
        }
        self.files.read(buf)
    }
}

impl<'a, R: rt::Files + Input + Print> Files for InputFiles<'a, R> {
    ghost held = { λ s. None };

    ghost left = { λ s. None };

    ghost gave = { λ s. s.gave.items };

    ghost steady = { λ s. ⊥ };

    ghost faults = { λ s. s.faults };

    ghost told = { λ s h. h };

    fn start(&mut self, name: &str) -> Result<(), Failed> {
        match self.choose(name) {
            Ok(()) => {
                self.gave = with_start(&self.gave, name);
                Ok(())
            }
            Err(failed) => {
                self.faults = self.faults.saturating_add(1);
                Err(failed)
            }
        }
    }

    fn read(&mut self, buf: &mut [u8]) -> Result<usize, Failed> {
        match self.read_on(buf) {
            Ok(count) => {
                self.gave = with_read(&self.gave, &buf[..count]);
                Ok(count)
            }
            Err(failed) => {
                self.faults = self.faults.saturating_add(1);
                Err(failed)
            }
        }
    }
}
