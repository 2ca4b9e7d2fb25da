//! A reader of frames.
ghost use Rattle.std.specs.Prelude.{◌≡◌, ◌<◌, ◌≤◌, ◌+◌, ◌++◌, [], List, ℕ, length, take, drop, true, false, IfOk, OnOk, option_map};
ghost use Rattle.jn_lsp_frames.specs.Asking.{Asks, with_asking};
ghost use Rattle.jn_lsp_frames.specs.Frames.{IsPartial};
ghost use Rattle.jn_lsp_frames.specs.Header.{IsBlock};
ghost use Rattle.jn_lsp_frames.specs.Reading.{Grows, Takes, HasRead, Counts, Passes, TakesBody, IsHead, IsNone, IsShorter, IsUnknown, Lacks, Spares, StandsSome, StandsFrame, IsKnown, TakesSome, HasRest};

use crate::frame::{End, Frame, Next};
use crate::header;
use crate::stream::Stream;
use jn_base::{Fail, Seq};
use jn_outside::{Failed, Sink};
use std::alloc::Global;

/// The most bytes that a body has.
const LIMIT: u32 = 16_777_216;

/// What stands at the front of the pending bytes.
#[derive(Clone, Copy, Drop)]
pub(crate) enum Head {
    /// A header of so many bytes, with its empty line.
    Block(usize),
    /// No empty line within the most bytes that a header has.
    Overlong,
    /// No empty line before the input's end.
    Missing,
}

/// Reads frames from a [`Stream`], and keeps the bytes that came after the last one.
#[derive(Drop)]
pub struct FrameReader {
    pending: Vec<u8>,
}

impl FrameReader {
    /// A reader with no byte pending.
    pub fn new(alloc: Global) -> FrameReader
        ensures pending { result.pending.items ≡ [] }
    {
        FrameReader {
            pending: Vec::new(alloc),
        }
    }

    /// The next frame (base protocol of LSP 3.17), or the input's end. Where the pending bytes have a frame whole, the input isn't asked;
    /// and each time that it is asked, no frame is whole in what is pending and what it gave: the last piece that was read is needed.
    ///
    /// # Errors
    /// `Refused` only where the input's count of faults rose; or no memory was found. After an `Err`, and after an end within a
    /// frame, the reader has lost a part of the input.
    #[tactic(auto, using(crate::proofs::Taking::grows_on, crate::proofs::Taking::counts_behind, crate::proofs::Taking::counts_err, crate::proofs::Taking::reads_between, crate::proofs::Taking::reads_missing, crate::proofs::Taking::reads_overlong, crate::proofs::Taking::reads_behind))]
    pub fn next<K: Sink, S: Stream<K>>(
        &mut self,
        input: &mut S,
        out: &K,
        alloc: Global,
    ) -> Result<Next, Fail<Failed>>
        ensures read { IfOk result
            (HasRead (S.ended input.new) (S.given input.old) self.old.pending.items (S.given input.new)
            self.new.pending.items) }
        ensures grows { Grows (S.given input.old) (S.given input.new) }
        ensures cause { Counts (S.faults input.old) (S.faults input.new) result }
        ensures unasked { StandsFrame self.old.pending.items → input.new ≡ input.old }
        ensures asked { Asks IsPartial (S.given input.old) self.old.pending.items (K.written out.now)
            (S.asked input.old) (S.asked input.new) }
        ensures lacks { Lacks IsPartial (S.given input.old) self.old.pending.items (S.given input.new) result }
    {
        match self.read_head(input, out)? {
            Head::Block(end) => self.read_behind(input, out, alloc, end),
            Head::Overlong => {
                self.pass(header::MOST);
                Ok(Next::Frame(Frame::BadHeader))
            }
            Head::Missing if self.pending.len() == 0 => Ok(Next::End(End::Between)),
            Head::Missing => Ok(Next::End(End::Within)),
        }
    }

    /// The frame whose header has so many bytes.
    #[tactic(auto, using(crate::proofs::Taking::grows_same, crate::proofs::Taking::reads_bad, crate::proofs::Taking::reads_rest, crate::proofs::Asked::asks_none))]
    fn read_behind<K: Sink, S: Stream<K>>(
        &mut self,
        input: &mut S,
        out: &K,
        alloc: Global,
        end: usize,
    ) -> Result<Next, Fail<Failed>>
        requires within { end ≤ length self.old.pending.items }
        requires block { IsBlock (take end self.old.pending.items) }
        ensures read { IfOk result
            (HasRead (S.ended input.new) (S.given input.old) self.old.pending.items (S.given input.new)
            self.new.pending.items) }
        ensures grows { Grows (S.given input.old) (S.given input.new) }
        ensures cause { Counts (S.faults input.old) (S.faults input.new) result }
        ensures unasked { StandsFrame self.old.pending.items → input.new ≡ input.old }
        ensures asked { Asks IsPartial (S.given input.old) self.old.pending.items (K.written out.now)
            (S.asked input.old) (S.asked input.new) }
        ensures lacks { Lacks IsPartial (S.given input.old) self.old.pending.items (S.given input.new) result }
    {
        let says = header::content_length(&self.pending[..end]);
        self.pass(end);
        match says {
            None => Ok(Next::Frame(Frame::BadHeader)),
            Some(total) => self.read_rest(input, out, alloc, total),
        }
    }

    /// What stands after a header that says so many bytes.
    #[tactic(auto, using(crate::proofs::Taking::grows_on, crate::proofs::Taking::counts_behind, crate::proofs::Taking::counts_err, crate::proofs::Taking::rest_large, crate::proofs::Taking::rest_body, crate::proofs::Taking::rest_within, crate::proofs::Asked::lacks_err))]
    fn read_rest<K: Sink, S: Stream<K>>(
        &mut self,
        input: &mut S,
        out: &K,
        alloc: Global,
        total: u32,
    ) -> Result<Next, Fail<Failed>>
        ensures read { IfOk result
            (HasRest (S.ended input.new) (S.given input.old) self.old.pending.items (S.given input.new)
            self.new.pending.items total) }
        ensures grows { Grows (S.given input.old) (S.given input.new) }
        ensures cause { Counts (S.faults input.old) (S.faults input.new) result }
        ensures unasked { total ≤ length self.old.pending.items → input.new ≡ input.old }
        ensures asked { Asks (IsShorter total) (S.given input.old) self.old.pending.items (K.written out.now)
            (S.asked input.old) (S.asked input.new) }
        ensures lacks { Lacks (IsShorter total) (S.given input.old) self.old.pending.items (S.given input.new) result }
    {
        if total > LIMIT {
            if self.skip(input, out, total)? {
                return Ok(Next::Frame(Frame::TooLarge));
            }
            return Ok(Next::End(End::Within));
        }
        match self.read_body(input, out, alloc, total)? {
            Some(body) => Ok(Next::Frame(Frame::Body(Seq::of_vec(body)))),
            None => Ok(Next::End(End::Within)),
        }
    }

    /// Reads until what stands at the front is known.
    #[tactic(auto, using(crate::proofs::Taking::takings, crate::proofs::Taking::head_missing, crate::proofs::Taking::head_overlong, crate::proofs::Asked::asks_none))]
    fn read_head<K: Sink, S: Stream<K>>(
        &mut self,
        input: &mut S,
        out: &K,
    ) -> Result<Head, Fail<Failed>>
        ensures taken { OnOk result
            (Takes (S.given input.old) self.old.pending.items (S.given input.new)
            self.new.pending.items []) }
        ensures head { IfOk result (IsHead (S.ended input.new) self.new.pending.items) }
        ensures grows { Grows (S.given input.old) (S.given input.new) }
        ensures cause { Counts (S.faults input.old) (S.faults input.new) result }
        ensures unasked { IsKnown self.old.pending.items → (input.new ≡ input.old)
            × (self.new.pending.items ≡ self.old.pending.items) }
        ensures asked { Asks IsUnknown (S.given input.old) self.old.pending.items (K.written out.now)
            (S.asked input.old) (S.asked input.new) }
        ensures lacks { Lacks IsUnknown (S.given input.old) self.old.pending.items (S.given input.new) result }
    {
        while self.pending.len() < header::MOST {
            if let Some(end) = header::find_end(&self.pending) {
                return Ok(Head::Block(end));
            }
            if self.fill(input, out)? == 0 {
                return Ok(Head::Missing);
            }
        }
        match header::find_end(&self.pending) {
            Some(end) => Ok(Head::Block(end)),
            None => Ok(Head::Overlong),
        }
    }

    /// The next bytes, so many; none where the input ends before.
    #[tactic(auto, using(crate::proofs::Taking::takings, crate::proofs::Taking::ends_here, crate::proofs::Asked::asks_none))]
    fn read_body<K: Sink, S: Stream<K>>(
        &mut self,
        input: &mut S,
        out: &K,
        alloc: Global,
        total: u32,
    ) -> Result<Option<Vec<u8>>, Fail<Failed>>
        ensures taken { IfOk result
            (λ body. TakesBody (S.ended input.new) (S.given input.old) self.old.pending.items
            (S.given input.new) self.new.pending.items total (option_map (λ v. v.items) body)) }
        ensures grows { Grows (S.given input.old) (S.given input.new) }
        ensures cause { Counts (S.faults input.old) (S.faults input.new) result }
        ensures unasked { total ≤ length self.old.pending.items → input.new ≡ input.old }
        ensures asked { Asks (IsShorter total) (S.given input.old) self.old.pending.items (K.written out.now)
            (S.asked input.old) (S.asked input.new) }
        ensures lacks { Lacks (IsShorter total) (S.given input.old) self.old.pending.items (S.given input.new) result }
    {
        let total = total as usize;
        let Ok(body) = Vec::with_capacity(alloc, total) else {
            return Err(Fail::OutOfMemory);
        };
        let mut body = body;
        while body.len() < total {
            let most = total - body.len();
            let count = self.take_some(input, out, &mut body, most)?;
            if count == 0 {
                return Ok(None);
            }
        }
        Ok(Some(body))
    }

    /// Passes over the next bytes, so many; false where the input ends before.
    #[tactic(auto, using(crate::proofs::Taking::takings, crate::proofs::Taking::ends_here, crate::proofs::Taking::passes_all, crate::proofs::Asked::asks_none))]
    fn skip<K: Sink, S: Stream<K>>(
        &mut self,
        input: &mut S,
        out: &K,
        total: u32,
    ) -> Result<bool, Fail<Failed>>
        ensures passed { IfOk result
            (Passes (S.ended input.new) (S.given input.old) self.old.pending.items
            (S.given input.new) self.new.pending.items total) }
        ensures grows { Grows (S.given input.old) (S.given input.new) }
        ensures cause { Counts (S.faults input.old) (S.faults input.new) result }
        ensures unasked { total ≤ length self.old.pending.items → input.new ≡ input.old }
        ensures asked { Asks (IsShorter total) (S.given input.old) self.old.pending.items (K.written out.now)
            (S.asked input.old) (S.asked input.new) }
        ensures lacks { Lacks (IsShorter total) (S.given input.old) self.old.pending.items (S.given input.new) result }
    {
        let mut left = total as usize;
        while left > 0 {
            let count = self.pass_some(input, out, left)?;
            if count == 0 {
                return Ok(false);
            }
            left -= count;
        }
        Ok(true)
    }

    /// Moves the next bytes, at most so many, after the body, and gives their number; 0 is the input's end.
    #[tactic(auto, using(crate::proofs::Taking::takings, crate::proofs::Taking::some_none, crate::proofs::Taking::some_front, crate::proofs::Asked::lacks_err))]
    fn take_some<K: Sink, S: Stream<K>>(
        &mut self,
        input: &mut S,
        out: &K,
        body: &mut Vec<u8>,
        most: usize,
    ) -> Result<usize, Fail<Failed>>
        requires { 0 < most }
        ensures taken { IfOk result (λ n. (own : List ℕ) × (body.new.items ≡ body.old.items ++ own)
            × TakesSome (S.ended input.new) (S.given input.old) self.old.pending.items
            (S.given input.new) self.new.pending.items most n own) }
        ensures grows { Grows (S.given input.old) (S.given input.new) }
        ensures cause { Counts (S.faults input.old) (S.faults input.new) result }
        ensures unasked { 0 < length self.old.pending.items → input.new ≡ input.old }
        ensures asked { Asks IsNone (S.given input.old) self.old.pending.items (K.written out.now)
            (S.asked input.old) (S.asked input.new) }
        ensures lacks { Lacks IsNone (S.given input.old) self.old.pending.items (S.given input.new) result }
    {
        if self.has_some(input, out)? {
            let count = self.pending.len().min(most);
            if body.extend_from_slice(&self.pending[..count]).is_err() {
                return Err(Fail::OutOfMemory);
            }
            self.pass(count);
            return Ok(count);
        }
        Ok(0)
    }

    /// Passes over the next bytes, at most so many, and gives their number; 0 is the input's end.
    #[tactic(auto, using(crate::proofs::Taking::takings, crate::proofs::Taking::some_none, crate::proofs::Taking::some_front, crate::proofs::Asked::lacks_err))]
    fn pass_some<K: Sink, S: Stream<K>>(
        &mut self,
        input: &mut S,
        out: &K,
        most: usize,
    ) -> Result<usize, Fail<Failed>>
        requires { 0 < most }
        ensures passed { IfOk result (λ n. (own : List ℕ)
            × TakesSome (S.ended input.new) (S.given input.old) self.old.pending.items
            (S.given input.new) self.new.pending.items most n own) }
        ensures grows { Grows (S.given input.old) (S.given input.new) }
        ensures cause { Counts (S.faults input.old) (S.faults input.new) result }
        ensures unasked { 0 < length self.old.pending.items → input.new ≡ input.old }
        ensures asked { Asks IsNone (S.given input.old) self.old.pending.items (K.written out.now)
            (S.asked input.old) (S.asked input.new) }
        ensures lacks { Lacks IsNone (S.given input.old) self.old.pending.items (S.given input.new) result }
    {
        if self.has_some(input, out)? {
            let count = self.pending.len().min(most);
            self.pass(count);
            return Ok(count);
        }
        Ok(0)
    }

    /// Whether a byte is pending; where none is, the input is read.
    #[tactic(auto, using(crate::proofs::Taking::takings, crate::proofs::Taking::none_stands, crate::proofs::Asked::asks_none, crate::proofs::Asked::asks_empty))]
    fn has_some<K: Sink, S: Stream<K>>(
        &mut self,
        input: &mut S,
        out: &K,
    ) -> Result<bool, Fail<Failed>>
        ensures taken { OnOk result
            (Takes (S.given input.old) self.old.pending.items (S.given input.new)
            self.new.pending.items []) }
        ensures some { IfOk result (StandsSome (S.ended input.new) self.new.pending.items) }
        ensures grows { Grows (S.given input.old) (S.given input.new) }
        ensures cause { Counts (S.faults input.old) (S.faults input.new) result }
        ensures unasked { 0 < length self.old.pending.items → input.new ≡ input.old }
        ensures asked { Asks IsNone (S.given input.old) self.old.pending.items (K.written out.now)
            (S.asked input.old) (S.asked input.new) }
        ensures lacks { Lacks IsNone (S.given input.old) self.old.pending.items (S.given input.new) result }
    {
        if self.pending.len() > 0 {
            return Ok(true);
        }
        let count = self.fill(input, out)?;
        if count == 0 {
            return Ok(false);
        }
        Ok(true)
    }

    /// Reads the next piece after the pending bytes, and gives its length; 0 is the input's end.
    #[tactic(auto, using(crate::proofs::Taking::takings))]
    fn fill<K: Sink, S: Stream<K>>(&mut self, input: &mut S, out: &K) -> Result<usize, Fail<Failed>>
        ensures taken { OnOk result
            (Takes (S.given input.old) self.old.pending.items (S.given input.new)
            self.new.pending.items []) }
        ensures more { IfOk result
            (λ n. length self.new.pending.items ≡ length self.old.pending.items + n) }
        ensures end { IfOk result (λ n. n ≡ 0 → (S.ended input.new ≡ true)
            × (self.new.pending.items ≡ self.old.pending.items)) }
        ensures grows { Grows (S.given input.old) (S.given input.new) }
        ensures cause { Counts (S.faults input.old) (S.faults input.new) result }
        ensures asked { S.asked input.new
            ≡ with_asking (S.asked input.old) (S.given input.old) (K.written out.now) }
        ensures spared { Spares (S.given input.old) (S.given input.new) result }
    {
        let mut buf = [0u8; 8192];
        match input.read(out, &mut buf) {
            Err(failed) => Err(Fail::Refused(failed)),
            Ok(count) => match self.pending.extend_from_slice(&buf[..count]) {
                Err(_) => Err(Fail::OutOfMemory),
                Ok(()) => Ok(count),
            },
        }
    }

    /// Passes over the first bytes that are pending.
    fn pass(&mut self, count: usize)
        requires { count ≤ length self.old.pending.items }
        ensures { self.new.pending.items ≡ drop count self.old.pending.items }
    {
        let left = self.pending.len() - count;
        self.pending.copy_within(count.., 0);
        self.pending.truncate(left);
    }
}
