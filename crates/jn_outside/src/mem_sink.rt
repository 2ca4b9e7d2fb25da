//! A sink in memory, which tells all and fails where it is told to.
ghost use Rattle.std.specs.Prelude.{◌≡◌, ◌<◌, ◌≤◌, ◌+◌, ◌-◌, ◌^◌, ◌||◌, [], length, Some, Ok, take, min, nat_le, IfOk, OnErr, is_err, vec_capacity};
ghost use Rattle.jn_outside.specs.Causes.{HasCause};
ghost use Rattle.jn_outside.specs.Sink.{Appends};
ghost use Rattle.jn_outside.specs.Calls.{fails_at};

use crate::count;
use crate::files::Failed;
use crate::sink::Sink;
use jn_base::OutOfMemory;
use std::alloc::Global;

/// A sink in memory, which has room for so many bytes and takes memory for them when it is made.
#[derive(Drop)]
pub struct MemSink {
    bytes: Vec<u8>,
    failing: Vec<u32>,
    calls: u64,
    /// The greatest count that one write takes.
    most: usize,
    room: usize,
    faults: u64,
    ghost takes: { 0 < most },
    ghost within: { length bytes.items ≤ room },
    ghost kept: { room ≤ vec_capacity bytes },
}

impl MemSink {
    /// An empty sink. The numbers, from 1, of the writes that are to fail are in `failing`, where
    /// writes of an empty piece have no number. One write takes at most `most` bytes.
    pub fn new(
        alloc: Global,
        failing: Vec<u32>,
        most: u32,
        room: u32,
    ) -> Result<MemSink, OutOfMemory>
        requires { 0 < most }
        ensures bytes { IfOk result (λ sink. sink.bytes.items ≡ []) }
        ensures failing { IfOk result (λ sink. sink.failing ≡ failing) }
        ensures calls { IfOk result (λ sink. sink.calls ≡ 0) }
        ensures most { IfOk result (λ sink. sink.most ≡ most) }
        ensures room { IfOk result (λ sink. sink.room ≡ room) }
        ensures faults { IfOk result (λ sink. sink.faults ≡ 0) }
    {
        let room = room as usize;
        Ok(MemSink {
            bytes: Vec::with_capacity(alloc, room)?,
            failing,
            calls: 0,
            most: most as usize,
            room,
            faults: 0,
        })
    }

    /// The bytes so far.
    pub fn bytes(&self) -> &[u8]
        ensures { result.now ≡ self.now.bytes.items }
    {
        &self.bytes
    }
}

impl Sink for MemSink {
    ghost written = { λ s. Some s.bytes.items };

    ghost faults = { λ s. s.faults };

    /// Of a piece that is not empty it fails exactly where its number is in `failing` or no room
    /// is left.
    fn write(&mut self, bytes: &[u8]) -> Result<usize, Failed>
        ensures bound { IfOk result (λ n. n ≤ length bytes.now) }
        ensures some { 0 < length bytes.now → IfOk result (λ n. 0 < n) }
        ensures taken { IfOk result (λ n.
            Appends (Some self.old.bytes.items) (Some self.new.bytes.items) (take n bytes.now)) }
        ensures err { OnErr result (Some self.new.bytes.items ≡ Some self.old.bytes.items) }
        ensures empty { length bytes.now ≡ 0 → (result ≡ Ok 0) × (self.new ≡ self.old) }
        ensures cause { HasCause self.old.faults self.new.faults result }
        ensures failing { self.new.failing ≡ self.old.failing }
        ensures most { self.new.most ≡ self.old.most }
        ensures room { self.new.room ≡ self.old.room }
        ensures calls { 0 < length bytes.now
            → self.new.calls ≡ min (self.old.calls + 1) (2 ^ 64 - 1) }
        ensures fails { 0 < length bytes.now
            → is_err result
            ≡ (nat_le self.old.room (length self.old.bytes.items)
            || fails_at self.old.failing.items self.new.calls) }
        ensures count { IfOk result (λ n. n
            ≡ min (min self.old.most (length bytes.now))
            (self.old.room - length self.old.bytes.items)) }
        ensures counted { OnErr result (self.new.faults ≡ min (self.old.faults + 1) (2 ^ 64 - 1)) }
    {
        if bytes.is_empty() {
            return Ok(0);
        }
        self.calls = count::next(self.calls);
        if self.bytes.len() >= self.room || count::fails_at(&self.failing, self.calls) {
            self.faults = count::next(self.faults);
            return Err(Failed);
        }
        let left = self.room - self.bytes.len();
        let count = self.most.min(bytes.len()).min(left);
        match self.bytes.extend_from_slice(&bytes[..count]) {
            Ok(()) => Ok(count),
            Err(_) => Err(Failed),
        }
    }
}
