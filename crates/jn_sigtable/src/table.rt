//! The table, its passes and their steps.
ghost use Rattle.std.specs.Prelude.{◌≡◌, ◌+◌, ◌<◌, ◌≤◌, [], length, Some, MatchOption, IfOk};
ghost use Rattle.jn_sigtable.specs.Machine.{IsAtRest, MayRead, MayRaise, MayMark, after_read, after_raise, after_mark, after_scan, found_clear, taken_up, left_seen, right_seen, both_seen, new_seen, words_of, dirty_words, AreBetween, HasAll, described};
ghost use Rattle.jn_sigtable.specs.System.{least};
ghost use base.Stored.{Coded-set};
ghost use Rattle.std.specs.Coded.{coded_option};

use crate::constraints::Constraints;
use crate::plays::{Mark, Raise, Read, Scan, Share, Take};
use crate::view::{Raising, Setting, View};
use crate::words::{first_words, opening};
use atomic_table::{Seat, Table};
use jn_base::{BodyNo, OutOfMemory, WordNo};
use std::alloc::Global;

/// A system with the number of words that a table of it has.
pub struct Counted<C: Constraints> {
    system: C,
    words: u32,
    count: usize,
    ghost words_is: { words ≡ (C.describe system).words },
    ghost any: { 0 < (C.describe system).bodies },
    ghost count_is: { count ≡ words_of C.describe system },
}

/// The words of a system with a dirty bit for each body, for any number of passes.
///
/// Each step is one operation on one word, takes no memory and waits for nobody. Between any two
/// steps the rule of the raise machine holds of the words and of what all passes know.
pub struct SigTable<C: Constraints> {
    table: Table<u8, View<Option<C>>, Setting<Option<C>>, Raising<C>, Global>,
    counted: Counted<C>,
    ghost same: { table.shared.key.system ≡ Some counted.system } by { Coded-set (coded_option C.code) _ _ },
    ghost count: { table.shared.table_id.words ≡ counted.count },
    ghost no_slots: { table.shared.table_id.slots ≡ 0 },
    ghost opened: { length table.shared.key.words.items ≡ counted.count },
}

/// What a worker steps with. It has no bytes; contracts see what it knows as its `View`.
#[derive(Drop)]
pub struct Pass<C> {
    seat: Seat<u8, View<Option<C>>>,
    ghost empty: { seat.me.1 ≡ [] },
    ghost live: { 0 < length seat.me.0.share },
}

impl<C: Constraints> SigTable<C> {
    ghost use Rattle.jn_sigtable.specs.Words.{system_of, view_of, started_at, bound_of, IsPassOf};

    /// A table whose words are those of the start and whose bodies are all dirty, and its one pass.
    pub fn new(
        alloc: Global,
        system: C,
        start: &[u64],
    ) -> Result<(SigTable<C>, Pass<C>), OutOfMemory>
        requires any { 0 < (C.describe system).bodies }
        requires count { length start.now ≡ (C.describe system).words }
        ensures system { IfOk result (λ r. system_of r.0 ≡ system) }
        ensures start { IfOk result (λ r. started_at C.describe r.0 ≡ start.now) }
        ensures own { IfOk result (λ r. IsPassOf C.describe r.0 r.1) }
        ensures view { IfOk result (λ r. view_of r.1 ≡ new_seen C.describe system start.now) }
    {
        let words = system.words();
        let bodies = system.bodies();
        let count = words as usize + (bodies as usize + 63) / 64;
        let all = opening(alloc, start, bodies)?;
        let setting = Setting {
            system: Some(system),
            words: all,
        };
        let Ok((table, seat)) = Table::of_words(alloc, setting.words.as_slice(), &setting) else {
            return Err(OutOfMemory);
        };
        let Setting { system, words: _ } = setting;
        let Some(system) = system else { unreachable!() };
        let counted = Counted {
            system,
            words,
            count,
        };
        Ok((SigTable { table, counted }, Pass { seat }))
    }

    /// The system that the table was made of.
    pub fn system(&self) -> &C
        ensures { result.now ≡ system_of self.now }
    {
        &self.counted.system
    }

    /// Clears the body's dirty bit and starts the body; None exactly where the step found the bit
    /// clear. The pass is idle.
    pub fn take_body(&self, pass: &mut Pass<C>, body: BodyNo) -> Option<BodyNo>
        requires own { IsPassOf C.describe self.now pass.old }
        requires idle { IsAtRest (C.describe (system_of self.now)) (view_of pass.old) }
        requires range { body.0 < (C.describe (system_of self.now)).bodies }
        ensures own { IsPassOf C.describe self.now pass.new }
        ensures view { MatchOption result
            (view_of pass.new ≡ found_clear (described C.describe) (view_of pass.old) body.0)
            (λ b. (b ≡ body)
            × (view_of pass.new ≡ taken_up (described C.describe) (view_of pass.old) body.0)) }
        ensures bound { (view_of pass.new).taken ≤ bound_of C.describe self.now }
    {
        let Pass { seat } = pass;
        let word = self.counted.words as usize + (body.0 / 64) as usize;
        let bit = 1u64 << (body.0 % 64);
        let old = self.table.shared.fetch_and::<Take<C>>(seat, word, !bit);
        if old & bit == 0 { None } else { Some(body) }
    }

    /// The word, which the pass keeps as a value of its running body. That body reads the word.
    pub fn read_word(&self, pass: &mut Pass<C>, word: WordNo) -> u64
        requires own { IsPassOf C.describe self.now pass.old }
        requires range { word.0 < (C.describe (system_of self.now)).words }
        requires runs { MayRead (C.describe (system_of self.now)) (view_of pass.old) word.0 }
        ensures own { IsPassOf C.describe self.now pass.new }
        ensures view { view_of pass.new
            ≡ after_read (described C.describe) (view_of pass.old) word.0 result }
    {
        let Pass { seat } = pass;
        self.table.shared.load::<Read<C>>(seat, word.0 as usize)
    }

    /// Raises bits of the running body's output and gives the old word. All words that the body
    /// reads were read. Where a bit was new the pass owes a mark to each body that reads the word.
    pub fn raise_word(&self, pass: &mut Pass<C>, word: WordNo, bits: u64) -> u64
        requires own { IsPassOf C.describe self.now pass.old }
        requires range { word.0 < (C.describe (system_of self.now)).words }
        requires output { MayRaise (C.describe (system_of self.now)) (view_of pass.old) word.0
            bits }
        ensures own { IsPassOf C.describe self.now pass.new }
        ensures view { view_of pass.new
            ≡ after_raise (described C.describe) (view_of pass.old) word.0 bits result }
    {
        let Pass { seat } = pass;
        self.table
            .shared
            .fetch_or::<Raise<C>>(seat, word.0 as usize, bits)
    }

    /// Sets dirty bits and gives the old dirty word. The bits are owed, or the running body's own;
    /// with its own bit the body ends. All that the pass had seen clear is forgotten.
    pub fn mark(&self, pass: &mut Pass<C>, dirty: WordNo, bits: u64) -> u64
        requires own { IsPassOf C.describe self.now pass.old }
        requires range { dirty.0 < dirty_words (C.describe (system_of self.now)) }
        requires due { MayMark (view_of pass.old) dirty.0 bits }
        ensures own { IsPassOf C.describe self.now pass.new }
        ensures view { view_of pass.new
            ≡ after_mark (described C.describe) (view_of pass.old) dirty.0 bits }
    {
        let Pass { seat } = pass;
        let word = self.counted.words as usize + dirty.0 as usize;
        self.table.shared.fetch_or::<Mark<C>>(seat, word, bits)
    }

    /// A dirty word; the pass keeps each clear bit as seen clear. The pass is idle.
    pub fn scan(&self, pass: &mut Pass<C>, dirty: WordNo) -> u64
        requires own { IsPassOf C.describe self.now pass.old }
        requires range { dirty.0 < dirty_words (C.describe (system_of self.now)) }
        requires idle { IsAtRest (C.describe (system_of self.now)) (view_of pass.old) }
        ensures own { IsPassOf C.describe self.now pass.new }
        ensures view { view_of pass.new
            ≡ after_scan (described C.describe) (view_of pass.old) dirty.0 result }
        ensures bound { (view_of pass.new).taken ≤ bound_of C.describe self.now }
    {
        let Pass { seat } = pass;
        let word = self.counted.words as usize + dirty.0 as usize;
        self.table.shared.load::<Scan<C>>(seat, word)
    }

    /// A further pass, which has seen nothing clear. It has half of the last part of the other's share.
    pub fn split(&self, pass: &mut Pass<C>) -> Pass<C>
        requires own { IsPassOf C.describe self.now pass.old }
        ensures own { IsPassOf C.describe self.now pass.new }
        ensures new { IsPassOf C.describe self.now result }
        ensures left { view_of pass.new ≡ left_seen C.describe (view_of pass.old) }
        ensures right { view_of result ≡ right_seen C.describe (view_of pass.old) }
    {
        let Pass { seat } = pass;
        let seat = self.table.shared.split_seat::<Share<C>>(seat);
        Pass { seat }
    }

    /// Puts the other pass, which is idle, into the first. What both have seen clear is kept, and
    /// their shares and counts are added.
    pub fn join_pass(&self, pass: &mut Pass<C>, other: Pass<C>)
        requires own { IsPassOf C.describe self.now pass.old }
        requires other { IsPassOf C.describe self.now other }
        requires idle { IsAtRest (C.describe (system_of self.now)) (view_of other) }
        ensures own { IsPassOf C.describe self.now pass.new }
        ensures view { view_of pass.new ≡ both_seen C.describe (view_of pass.old) (view_of other) }
    {
        let Pass { seat } = pass;
        let Pass { seat: other } = other;
        self.table.shared.join_seat::<Share<C>>(seat, other);
    }

    /// The system and the words of the table, which have all bits of the start and only bits of
    /// the least words. They are the least words where the pass is the only one, is idle and has
    /// seen every body's bit clear. On want of memory table and pass are spent.
    pub fn close(self, alloc: Global, pass: Pass<C>) -> Result<(C, Vec<u64>), OutOfMemory>
        requires own { IsPassOf C.describe self pass }
        ensures system { IfOk result (λ r. r.0 ≡ system_of self) }
        ensures below { IfOk result
            (λ r. AreBetween (C.describe (system_of self)) (started_at C.describe self) r.1.items) }
        ensures least { IfOk result (λ r. HasAll (C.describe (system_of self)) (view_of pass)
            → r.1.items ≡ least (C.describe (system_of self)) (started_at C.describe self)) }
        ensures bound { (view_of pass).taken ≤ bound_of C.describe self }
    {
        let SigTable { table, counted } = self;
        let Pass { seat } = pass;
        let closed = table.close_with(seat);
        let Counted {
            system,
            words: count,
            count: _,
        } = counted;
        let words = first_words(alloc, &closed, count as usize);
        closed.free();
        Ok((system, words?))
    }
}
