//! The standard input of the host.
ghost use Rattle.std.specs.Prelude.{◌≡◌, ◌≤◌, ◌+◌, ◌-◌, ◌^◌, ◌++◌, ◌==◌, [], false, length, take, min, IfOk, OnErr};
ghost use Rattle.jn_outside.specs.Causes.{HasCause};
ghost use Rattle.jn_lsp_frames.specs.Asking as spec;

use crate::asking::{Asking, with_asking};
use crate::stream::Stream;
use jn_outside::told::with_bytes;
use jn_outside::{Failed, Sink, Told};
use std::io;
use std::io::{ErrorKind, Input, Read};

/// How often in a row a call is made that is interrupted each time.
const TRIES: u32 = 1_000_000;

/// Reads from the input; where the call was interrupted it is made again.
fn read_on<F: Read>(input: &mut F, buf: &mut [u8]) -> io::Result<usize>
    ensures { IfOk result (λ n. n ≤ length buf.new) }
{
    for _ in 0..TRIES {
        match input.read(buf) {
            Err(error) if error.kind() == ErrorKind::Interrupted => {}
            result => return result,
        }
    }
    Err(io::Error::from(ErrorKind::Interrupted))
}

/// The standard input of the host. Its count of faults rises at each `Err`.
#[derive(Drop)]
pub struct HostStream<R: Input> {
    input: R::Reader,
    fault: Option<io::Error>,
    faults: u64,
    gave: Told<u8>,
    ended: bool,
    asked: Told<Asking>,
}

impl<R: Input> HostStream<R> {
    /// The input with no fault counted, which gave nothing yet.
    pub fn new(rt: &R) -> HostStream<R>
        ensures faults { result.faults ≡ 0 }
        ensures gave { result.gave.items ≡ [] }
        ensures unended { result.ended ≡ false }
        ensures unasked { result.asked.items ≡ [] }
    {
        HostStream {
            input: rt.reader(),
            fault: None,
            faults: 0,
            gave: Told::none(),
            ended: false,
            asked: Told::none(),
        }
    }

    /// The operating system's reason for what failed last; no clause speaks of it.
    pub fn fault(&self) -> Option<io::Error> {
        self.fault
    }
}

impl<R: Input, K: Sink> Stream<K> for HostStream<R> {
    ghost given = { λ s. s.gave.items };

    ghost ended = { λ s. s.ended };

    ghost faults = { λ s. s.faults };

    ghost asked = { λ s. s.asked.items };

    fn read(&mut self, out: &K, buf: &mut [u8]) -> Result<usize, Failed>
        ensures bound { IfOk result (λ n. n ≤ length buf.new) }
        ensures given { IfOk result
            (λ n. self.new.gave.items ≡ self.old.gave.items ++ take n buf.new) }
        ensures spared { OnErr result (self.new.gave.items ≡ self.old.gave.items) }
        ensures ended { IfOk result (λ n. self.new.ended ≡ (n == 0)) }
        ensures cause { HasCause self.old.faults self.new.faults result }
        ensures asked { self.new.asked.items
            ≡ spec.with_asking self.old.asked.items self.old.gave.items (K.written out.now) }
        ensures counted { OnErr result (self.new.faults ≡ min (self.old.faults + 1) (2 ^ 64 - 1)) }
    {
        self.asked = with_asking(&self.asked, &self.gave, out);
        match read_on(&mut self.input, buf) {
            Ok(count) => {
                self.gave = with_bytes(&self.gave, &buf[..count]);
                self.ended = count == 0;
                Ok(count)
            }
            Err(reason) => {
                self.fault = Some(reason);
                self.faults = self.faults.saturating_add(1);
                Err(Failed)
            }
        }
    }
}
