//! An input in memory, which fails where it is told to.
ghost use Rattle.std.specs.Prelude.{◌≡◌, ◌<◌, ◌≤◌, ◌+◌, ◌-◌, ◌^◌, ◌++◌, ◌==◌, [], false, length, take, drop, min, IfOk, OnErr, is_err};
ghost use Rattle.jn_outside.specs.Causes.{HasCause};
ghost use Rattle.jn_outside.specs.Calls.{fails_at};
ghost use Rattle.jn_lsp_frames.specs.Asking as spec;

use crate::asking::{Asking, with_asking};
use crate::stream::Stream;
use jn_outside::told::with_bytes;
use jn_outside::{Failed, Sink, Told};

/// An input in memory.
#[derive(Drop)]
pub struct MemStream {
    bytes: Vec<u8>,
    /// How many of its bytes were read.
    place: usize,
    /// The greatest count that one read gives.
    most: usize,
    failing: Vec<u32>,
    calls: u64,
    faults: u64,
    gave: Told<u8>,
    ended: bool,
    asked: Told<Asking>,
    ghost gives: { 0 < most },
}

/// Whether the call of this number is to fail.
fn is_failing(failing: &[u32], number: u64) -> bool
    ensures { result ≡ fails_at failing.now number }
{
    failing.iter().any(|n| u64::from(*n) == number)
}

/// Puts as much of the front of `bytes` as there is room for into `buf`.
fn copy_front(bytes: &[u8], buf: &mut [u8]) -> usize
    ensures count { result ≡ min (length buf.new) (length bytes.now) }
    ensures length { length buf.new ≡ length buf.old }
    ensures front { take result buf.new ≡ take result bytes.now }
{
    let count = buf.len().min(bytes.len());
    buf[..count].copy_from_slice(&bytes[..count]);
    count
}

impl MemStream {
    /// An input of these bytes. One read gives at most `most`. The numbers, from 1, of the reads that are to fail are in `failing`.
    pub fn new(bytes: Vec<u8>, most: u32, failing: Vec<u32>) -> MemStream
        requires { 0 < most }
        ensures bytes { result.bytes ≡ bytes }
        ensures place { result.place ≡ 0 }
        ensures most { result.most ≡ most }
        ensures failing { result.failing ≡ failing }
        ensures calls { result.calls ≡ 0 }
        ensures faults { result.faults ≡ 0 }
        ensures gave { result.gave.items ≡ [] }
        ensures unended { result.ended ≡ false }
        ensures unasked { result.asked.items ≡ [] }
    {
        MemStream {
            bytes,
            place: 0,
            most: most as usize,
            failing,
            calls: 0,
            faults: 0,
            gave: Told::none(),
            ended: false,
            asked: Told::none(),
        }
    }

    /// What the next read gives, where it has room for it.
    fn next(&self) -> &[u8]
        ensures { result.now ≡ take self.now.most (drop self.now.place self.now.bytes.items) }
    {
        let left = self.bytes.get(self.place..).unwrap_or(&[]);
        &left[..left.len().min(self.most)]
    }
}

impl<K: Sink> Stream<K> for MemStream {
    ghost given = { λ s. s.gave.items };

    ghost ended = { λ s. s.ended };

    ghost faults = { λ s. s.faults };

    ghost asked = { λ s. s.asked.items };

    /// It fails exactly where its number is in `failing`.
    fn read(&mut self, out: &K, buf: &mut [u8]) -> Result<usize, Failed>
        ensures bound { IfOk result (λ n. n ≤ length buf.new) }
        ensures given { IfOk result
            (λ n. self.new.gave.items ≡ self.old.gave.items ++ take n buf.new) }
        ensures spared { OnErr result (self.new.gave.items ≡ self.old.gave.items) }
        ensures ended { IfOk result (λ n. self.new.ended ≡ (n == 0)) }
        ensures cause { HasCause self.old.faults self.new.faults result }
        ensures asked { self.new.asked.items
            ≡ spec.with_asking self.old.asked.items self.old.gave.items (K.written out.now) }
        ensures bytes { self.new.bytes ≡ self.old.bytes }
        ensures most { self.new.most ≡ self.old.most }
        ensures failing { self.new.failing ≡ self.old.failing }
        ensures calls { self.new.calls ≡ min (self.old.calls + 1) (2 ^ 64 - 1) }
        ensures fails { is_err result ≡ fails_at self.old.failing.items self.new.calls }
        ensures read { IfOk result
            (λ n. take n buf.new ≡ take n (drop self.old.place self.old.bytes.items)) }
        ensures count { IfOk result (λ n. n
            ≡ min (length buf.new) (min self.old.most (length self.old.bytes.items - self.old.place))) }
        ensures place { IfOk result (λ n. self.new.place ≡ self.old.place + n) }
        ensures counted { OnErr result (self.new.faults ≡ min (self.old.faults + 1) (2 ^ 64 - 1)) }
    {
        self.asked = with_asking(&self.asked, &self.gave, out);
        self.calls = self.calls.saturating_add(1);
        if is_failing(&self.failing, self.calls) {
            self.faults = self.faults.saturating_add(1);
            return Err(Failed);
        }
        let count = copy_front(self.next(), buf);
        self.place += count;
        self.gave = with_bytes(&self.gave, &buf[..count]);
        self.ended = count == 0;
        Ok(count)
    }
}
