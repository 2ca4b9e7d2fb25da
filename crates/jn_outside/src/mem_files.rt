//! Files in memory, which tell all and fail where they are told to.
ghost use Rattle.std.specs.Prelude.{◌≡◌, ◌≤◌, ◌+◌, ◌-◌, ◌^◌, ◌||◌, [], length, None, take, min, IfOk, OnOk, OnErr, IsOk, is_err, is_none};
ghost use Rattle.std.specs.List.{position};
ghost use Rattle.jn_outside.specs.Causes.{HasCause};
ghost use Rattle.jn_outside.specs.Files.{Holds, Starts, Reads};
ghost use Rattle.jn_outside.specs.Calls.{fails_at};
ghost use Rattle.jn_outside.specs.Gave as gave;
ghost use Rattle.jn_outside.specs.Memory as spec;

use crate::count;
use crate::files::{Failed, Files};
use crate::given::{Given, with_read, with_start};
use crate::told::Told;
use std::alloc::Global;

/// A name and the bytes that it holds.
#[derive(Drop)]
pub struct MemFile {
    pub name: String,
    pub bytes: Vec<u8>,
}

/// Files in memory. Of files of one name the first counts.
#[derive(Drop)]
pub struct MemFiles {
    files: Vec<MemFile>,
    failing: Vec<u32>,
    calls: u64,
    /// The file that was started last.
    file: Option<usize>,
    /// How many of its bytes were read.
    place: usize,
    faults: u64,
    gave: Told<Given>,
}

impl MemFiles {
    /// A source of these files, of which none is started. The numbers, from 1, of the calls of
    /// `start` and `read` that are to fail are in `failing`.
    pub fn new(_alloc: Global, held: Vec<MemFile>, failing: Vec<u32>) -> MemFiles
        ensures files { result.files ≡ held }
        ensures failing { result.failing ≡ failing }
        ensures calls { result.calls ≡ 0 }
        ensures unstarted { result.file ≡ None }
        ensures faults { result.faults ≡ 0 }
        ensures gave { result.gave.items ≡ [] }
    {
        MemFiles {
            files: held,
            failing,
            calls: 0,
            file: None,
            place: 0,
            faults: 0,
            gave: Told::none(),
        }
    }

    fn find(&self, name: &str) -> Option<usize>
        ensures { result ≡ position (spec.is_named name.now) self.now.files.items }
    {
        self.files
            .iter()
            .position(|file| file.name.as_str() == name)
    }

    /// What is left of the file that was started last.
    fn left(&self) -> &[u8]
        ensures { result.now
            ≡ spec.left_of (spec.bytes_at self.now.file self.now.files.items) self.now.place }
    {
        let Some(at) = self.file else {
            return &[];
        };
        match self.files.get(at) {
            Some(file) => file.bytes.get(self.place..).unwrap_or(&[]),
            None => &[],
        }
    }
}

/// Puts as much of the front of `bytes` as there is room for into `buf`.
fn copy_front(bytes: &[u8], buf: &mut [u8]) -> usize
    ensures count { result ≡ min (length buf.new) (length bytes.now) }
    ensures front { take result buf.new ≡ take result bytes.now }
{
    let count = buf.len().min(bytes.len());
    buf[..count].copy_from_slice(&bytes[..count]);
    count
}

impl Files for MemFiles {
    ghost use Rattle.jn_outside.specs.Memory.{held_by, left_by, IsSteadyBy};

    ghost held = { held_by };

    ghost left = { left_by };

    ghost gave = { λ s. s.gave.items };

    ghost steady = { IsSteadyBy };

    ghost faults = { λ s. s.faults };

    ghost told = { λ s h. h };

    /// It fails exactly where its number is in `failing` or the name is not held. The file that
    /// was started before stays chosen then.
    #[tactic(auto, using(crate::proofs::Memories::memory_lemmas))]
    fn start(&mut self, name: &str) -> Result<(), Failed>
        ensures held { spec.held_by self.new ≡ spec.held_by self.old }
        ensures started { OnOk result
            (Starts (spec.held_by self.old) name.now (spec.left_by self.new)) }
        ensures gave { OnOk result
            (self.new.gave.items ≡ gave.with_start self.old.gave.items name.now) }
        ensures spared { OnErr result (self.new.gave.items ≡ self.old.gave.items) }
        ensures steady { spec.IsSteadyBy self.old → Holds (spec.held_by self.old) name.now
            → IsOk result × spec.IsSteadyBy self.new }
        ensures cause { HasCause self.old.faults self.new.faults result }
        ensures files { self.new.files ≡ self.old.files }
        ensures failing { self.new.failing ≡ self.old.failing }
        ensures calls { self.new.calls ≡ min (self.old.calls + 1) (2 ^ 64 - 1) }
        ensures fails { is_err result
            ≡ (is_none (spec.held_in self.old.files.items name.now)
            || fails_at self.old.failing.items self.new.calls) }
        ensures stays { OnErr result
            ((self.new.file ≡ self.old.file) × (self.new.place ≡ self.old.place)) }
        ensures counted { OnErr result (self.new.faults ≡ min (self.old.faults + 1) (2 ^ 64 - 1)) }
    {
        self.calls = count::next(self.calls);
        let found = self.find(name);
        if found.is_none() || count::fails_at(&self.failing, self.calls) {
            self.faults = count::next(self.faults);
            return Err(Failed);
        }
        self.file = found;
        self.place = 0;
        self.gave = with_start(&self.gave, name);
        Ok(())
    }

    /// It fails exactly where its number is in `failing`. Before a start that succeeded it gives 0.
    #[tactic(auto, using(crate::proofs::Memories::memory_lemmas))]
    fn read(&mut self, buf: &mut [u8]) -> Result<usize, Failed>
        ensures held { spec.held_by self.new ≡ spec.held_by self.old }
        ensures bound { IfOk result (λ n. n ≤ length buf.new) }
        ensures bytes { IfOk result
            (λ n. Reads (spec.left_by self.old) (spec.left_by self.new) n buf.new) }
        ensures gave { IfOk result
            (λ n. self.new.gave.items ≡ gave.with_read self.old.gave.items (take n buf.new)) }
        ensures spared { OnErr result (self.new.gave.items ≡ self.old.gave.items) }
        ensures steady { spec.IsSteadyBy self.old → IsOk result × spec.IsSteadyBy self.new }
        ensures cause { HasCause self.old.faults self.new.faults result }
        ensures files { self.new.files ≡ self.old.files }
        ensures failing { self.new.failing ≡ self.old.failing }
        ensures calls { self.new.calls ≡ min (self.old.calls + 1) (2 ^ 64 - 1) }
        ensures fails { is_err result ≡ fails_at self.old.failing.items self.new.calls }
        ensures count { IfOk result (λ n. n
            ≡ min (length buf.new) (length
            (spec.left_of (spec.bytes_at self.old.file self.old.files.items) self.old.place))) }
        ensures unstarted { self.old.file ≡ None → IfOk result (λ n. n ≡ 0) }
        ensures file { self.new.file ≡ self.old.file }
        ensures stays { OnErr result (self.new.place ≡ self.old.place) }
        ensures counted { OnErr result (self.new.faults ≡ min (self.old.faults + 1) (2 ^ 64 - 1)) }
    {
        self.calls = count::next(self.calls);
        if count::fails_at(&self.failing, self.calls) {
            self.faults = count::next(self.faults);
            return Err(Failed);
        }
        let count = copy_front(self.left(), buf);
        self.place += count;
        self.gave = with_read(&self.gave, &buf[..count]);
        Ok(count)
    }
}
