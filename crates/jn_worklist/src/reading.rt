//! A body's reads.
ghost use Rattle.std.specs.Prelude.{◌≡◌, ◌⊎◌, ℕ, ◌<◌, true, [], length, replicate, slice_index};
ghost use Rattle.jn_sigtable.specs.System.{IsReadList, lists_word};
ghost use Rattle.jn_sigtable.specs.Words.{system_of, view_of, IsPassOf};
ghost use Rattle.jn_worklist.specs.Runs.{IsReadingOn};

use crate::task::Task;
use jn_base::WordNo;
use jn_sigtable::{Constraints, Pass};

// Writes the values of the words that the body reads over zeros.
pub fn read_all<C: Constraints>(
    task: &Task<C>,
    pass: &mut Pass<C>,
    reads: &[WordNo],
    values: &mut [u64],
)
    requires list { IsReadList (C.describe (system_of task.now.table.now)) task.now.body.0 reads.now }
    requires begun { IsReadingOn C.describe task.now.table.now task.now.body.0 (view_of pass.old)
        pass.old values.old [] }
    ensures read { IsReadingOn C.describe task.now.table.now task.now.body.0 (view_of pass.old)
        pass.new values.new reads.now }
{
    for word in reads {
        values[word.0 as usize] = task.table.read_word(pass, *word);
    }
}

// Zeros where the words were written.
pub fn clear_read(reads: &[WordNo], values: &mut [u64])
    requires inside { (u : ℕ) → lists_word reads.now u ≡ true → u < length values.old }
    requires rest { (u : ℕ)
        → (slice_index values.old u ≡ 0) ⊎ (lists_word reads.now u ≡ true) }
    ensures { values.new ≡ replicate (length values.new) 0 }
{
    for word in reads {
        values[word.0 as usize] = 0;
    }
}
