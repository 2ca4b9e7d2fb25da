//! What a worker keeps from one body to the next.
ghost use Rattle.std.specs.Prelude.{◌≡◌, length, replicate, OnOk};
ghost use Rattle.jn_worklist.specs.Plans.{IsNoneDue, none_due_prop};

use jn_base::OutOfMemory;
use std::alloc::Global;

/// Room for the runs of one worker: a zero for each word of a table, and dirty bits of which none is
/// set. A run writes to it and clears what it wrote.
#[derive(Drop)]
pub struct Room {
    pub(crate) values: Vec<u64>,
    pub(crate) due: Vec<u64>,
    ghost zeros: { values.items ≡ replicate (length values.items) 0 },
    ghost none: { IsNoneDue due.items } by { none_due_prop due.items },
}

impl Room {
    /// Empty room; it takes no memory until the first run.
    pub fn new(alloc: Global) -> Room {
        Room {
            values: Vec::new(alloc),
            due: Vec::new(alloc),
        }
    }

    // Room for as many words and as many dirty words.
    pub fn fit(&mut self, alloc: Global, words: usize, dirty: usize) -> Result<(), OutOfMemory>
        ensures words { OnOk result (length self.new.values.items ≡ words) }
        ensures dirty { OnOk result (length self.new.due.items ≡ dirty) }
    {
        if self.values.len() != words || self.due.len() != dirty {
            let values = vec![in alloc; 0u64; words]?;
            let due = vec![in alloc; 0u64; dirty]?;
            *self = Room { values, due };
        }
        Ok(())
    }
}
