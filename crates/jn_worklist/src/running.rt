//! One body, from its take to its last mark.
ghost use Rattle.std.specs.Prelude.{◌≡◌, ◌<◌, IfOk, OnOk, OnErr, length, replicate};
ghost use Rattle.jn_sigtable.specs.Machine.{IsAtRest, dirty_words};
ghost use Rattle.jn_sigtable.specs.System.{IsReadList};
ghost use Rattle.jn_sigtable.specs.Words.{system_of, view_of, IsPassOf};
ghost use Rattle.jn_worklist.specs.Plans.{IsNoneDue};
ghost use Rattle.jn_worklist.specs.Runs.{IsFresh, IsReadingOn, IsRaisingOn, HasRun, HasGivenBack};

use crate::marking::{mark_again, mark_due};
use crate::raising::raise_all;
use crate::reading::{clear_read, read_all};
use crate::room::Room;
use crate::task::Task;
use jn_base::{OutOfMemory, WordNo};
use jn_sigtable::{Constraints, Pass};
use std::alloc::Global;

// The words that the body reads, with the room fit for the table.
fn prepare<C: Constraints>(
    alloc: Global,
    task: &Task<C>,
    room: &mut Room,
) -> Result<Vec<WordNo>, OutOfMemory>
    ensures reads { IfOk result
        (λ reads. IsReadList (C.describe (system_of task.now.table.now)) task.now.body.0
        reads.items) }
    ensures values { OnOk result
        (length room.new.values.items ≡ (C.describe (system_of task.now.table.now)).words) }
    ensures due { OnOk result
        (length room.new.due.items ≡ dirty_words (C.describe (system_of task.now.table.now))) }
{
    let words = task.table.system().words() as usize;
    let dirty = (task.table.system().bodies() as usize + 63) / 64;
    room.fit(alloc, words, dirty)?;
    let reads = task.table.system().words_read(alloc, task.body)?;
    Ok(reads)
}

/// Runs the body that the pass has just taken, as [`run_body_in`] does, in room of its own.
pub fn run_body<C: Constraints>(
    alloc: Global,
    task: &Task<C>,
    pass: &mut Pass<C>,
) -> Result<(), OutOfMemory>
    requires own { IsPassOf C.describe task.now.table.now pass.old }
    requires taken { IsFresh (C.describe (system_of task.now.table.now)) task.now.body.0
        (view_of pass.old) }
    ensures own { IsPassOf C.describe task.now.table.now pass.new }
    ensures idle { IsAtRest (C.describe (system_of task.now.table.now)) (view_of pass.new) }
    ensures share { (view_of pass.new).share ≡ (view_of pass.old).share }
    ensures run { OnOk result
        (HasRun (C.describe (system_of task.now.table.now)) task.now.body.0 (view_of pass.old)
        (view_of pass.new)) }
    ensures back { OnErr result (HasGivenBack (view_of pass.old) (view_of pass.new)) }
{
    let mut room = Room::new(alloc);
    run_body_in(alloc, task, pass, &mut room)
}

/// Runs the body that the pass has just taken: reads the words that it reads, raises its output on
/// them and marks the readers of each word in which a bit was new. The pass is idle after it. On
/// want of memory the body is marked again, by one step that takes no memory. The first run in a
/// room takes memory for it; each run costs what its body reads, sends and marks.
pub fn run_body_in<C: Constraints>(
    alloc: Global,
    task: &Task<C>,
    pass: &mut Pass<C>,
    room: &mut Room,
) -> Result<(), OutOfMemory>
    requires own { IsPassOf C.describe task.now.table.now pass.old }
    requires taken { IsFresh (C.describe (system_of task.now.table.now)) task.now.body.0
        (view_of pass.old) }
    ensures own { IsPassOf C.describe task.now.table.now pass.new }
    ensures idle { IsAtRest (C.describe (system_of task.now.table.now)) (view_of pass.new) }
    ensures share { (view_of pass.new).share ≡ (view_of pass.old).share }
    ensures run { OnOk result
        (HasRun (C.describe (system_of task.now.table.now)) task.now.body.0 (view_of pass.old)
        (view_of pass.new)) }
    ensures back { OnErr result (HasGivenBack (view_of pass.old) (view_of pass.new)) }
{
    let Ok(reads) = prepare(alloc, task, room) else {
        mark_again(task, pass);
        return Err(OutOfMemory);
    };
    let Room { values, due } = room;
    run_in(alloc, task, pass, &reads, values, due)
}

// Runs the body in zeros, which are zeros again after it.
fn run_in<C: Constraints>(
    alloc: Global,
    task: &Task<C>,
    pass: &mut Pass<C>,
    reads: &[WordNo],
    values: &mut [u64],
    due: &mut [u64],
) -> Result<(), OutOfMemory>
    requires own { IsPassOf C.describe task.now.table.now pass.old }
    requires reads { IsReadList (C.describe (system_of task.now.table.now)) task.now.body.0 reads.now }
    requires zeros { values.old ≡ replicate (length values.old) 0 }
    requires words { length values.old ≡ (C.describe (system_of task.now.table.now)).words }
    requires dirty { length due.old ≡ dirty_words (C.describe (system_of task.now.table.now)) }
    requires none { IsNoneDue due.old }
    requires taken { IsFresh (C.describe (system_of task.now.table.now)) task.now.body.0
        (view_of pass.old) }
    ensures own { IsPassOf C.describe task.now.table.now pass.new }
    ensures idle { IsAtRest (C.describe (system_of task.now.table.now)) (view_of pass.new) }
    ensures share { (view_of pass.new).share ≡ (view_of pass.old).share }
    ensures run { OnOk result
        (HasRun (C.describe (system_of task.now.table.now)) task.now.body.0 (view_of pass.old)
        (view_of pass.new)) }
    ensures back { OnErr result (HasGivenBack (view_of pass.old) (view_of pass.new)) }
    ensures zeros { values.new ≡ replicate (length values.new) 0 }
    ensures none { IsNoneDue due.new }
{
    read_all(task, pass, reads, values);
    let sent = send_all(alloc, task, pass, reads, values, due);
    clear_read(reads, values);
    sent
}

// Raises the output of the body, which has read its words, and marks those that are due then.
fn send_all<C: Constraints>(
    alloc: Global,
    task: &Task<C>,
    pass: &mut Pass<C>,
    reads: &[WordNo],
    values: &[u64],
    due: &mut [u64],
) -> Result<(), OutOfMemory>
    requires reads { IsReadList (C.describe (system_of task.now.table.now)) task.now.body.0 reads.now }
    requires read { IsReadingOn C.describe task.now.table.now task.now.body.0 (view_of pass.old)
        pass.old values.now reads.now }
    requires dirty { length due.old ≡ dirty_words (C.describe (system_of task.now.table.now)) }
    requires none { IsNoneDue due.old }
    ensures own { IsPassOf C.describe task.now.table.now pass.new }
    ensures idle { IsAtRest (C.describe (system_of task.now.table.now)) (view_of pass.new) }
    ensures share { (view_of pass.new).share ≡ (view_of pass.old).share }
    ensures run { OnOk result
        (HasRun (C.describe (system_of task.now.table.now)) task.now.body.0 (view_of pass.old)
        (view_of pass.new)) }
    ensures back { OnErr result (HasGivenBack (view_of pass.old) (view_of pass.new)) }
    ensures none { IsNoneDue due.new }
{
    let _reads = reads;
    let Ok(output) = task.table.system().output(alloc, task.body, values) else {
        mark_again(task, pass);
        return Err(OutOfMemory);
    };
    let Ok(mut new) = vec![in alloc; false; output.len()] else {
        mark_again(task, pass);
        return Err(OutOfMemory);
    };
    send(task, pass, values, &output, &mut new, due);
    Ok(())
}

// Raises this output of the body, with a flag for each of its words, and marks those that are due.
fn send<C: Constraints>(
    task: &Task<C>,
    pass: &mut Pass<C>,
    values: &[u64],
    output: &[(WordNo, u64)],
    new: &mut [bool],
    due: &mut [u64],
)
    requires count { length values.now ≡ (C.describe (system_of task.now.table.now)).words }
    requires output { output.now
        ≡ (C.describe (system_of task.now.table.now)).output task.now.body.0 values.now }
    requires raising { IsRaisingOn C.describe task.now.table.now task.now.body.0 (view_of pass.old)
        pass.old values.now output.now 0 due.old }
    requires flags { length new.old ≡ length output.now }
    requires none { IsNoneDue due.old }
    ensures own { IsPassOf C.describe task.now.table.now pass.new }
    ensures idle { IsAtRest (C.describe (system_of task.now.table.now)) (view_of pass.new) }
    ensures share { (view_of pass.new).share ≡ (view_of pass.old).share }
    ensures run { HasRun (C.describe (system_of task.now.table.now)) task.now.body.0
        (view_of pass.old) (view_of pass.new) }
    ensures none { IsNoneDue due.new }
{
    raise_all(task, pass, values, output, new, due);
    mark_due(task, pass, output, new, due);
}
