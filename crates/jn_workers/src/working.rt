//! One worker.
ghost use Rattle.std.specs.Prelude.{◌≡◌, ℕ, ◌+◌, ◌<◌, ◌≤◌, ◌/◌, ◌%◌, ◌∷◌, IfOk};
ghost use Rattle.jn_sigtable.specs.Machine.{Has, IsAtRest, HasSeenAll};
ghost use Rattle.jn_sigtable.specs.Words.{system_of, view_of, bound_of, IsPassOf};
ghost use Rattle.jn_worklist.specs.Plans.{plan_of};
ghost use Rattle.jn_workers.specs.Ends.{SeenIn, SeenUpTo, StillSeen, Took};
ghost use Rattle.jn_workers.specs.Passes.{CanWork, HasWorked};

use jn_base::{BodyNo, OutOfMemory, WordNo};
use jn_sharing::Gate;
use jn_sigtable::{Constraints, Pass, SigTable};
use jn_worklist::{Plan, Room, Task, run_body_in};
use std::alloc::Global;

/// How a worker ended.
#[derive(Debug, PartialEq, Eq, Drop)]
pub enum Worked {
    /// Since its last mark and its last taken body the pass has seen every body's bit clear.
    Emptied,
    /// No memory was found to run a body, which is dirty again.
    OutOfMemory,
}

// Takes a body and runs it; whether it was taken.
fn try_body<C: Constraints, G: Gate>(
    alloc: Global,
    table: &SigTable<C>,
    plan: &Plan,
    pass: &mut Pass<C>,
    worker: u32,
    body: BodyNo,
    gate: &G,
    room: &mut Room,
) -> Result<bool, OutOfMemory>
    requires ready { CanWork C.describe table.now plan.now pass.old }
    requires inside { body.0 < (C.describe (system_of table.now)).bodies }
    ensures worked { HasWorked C.describe table.now pass.old pass.new }
    ensures took { IfOk result (λ t. Took t (view_of pass.old) (view_of pass.new)
        ((view_of pass.new).clear ≡ body.0 ∷ (view_of pass.old).clear)) }
{
    let Some(taken) = table.take_body(pass, body) else {
        return Ok(false);
    };
    gate.enter(worker, taken);
    let task = Task { table, plan, body };
    match run_body_in(alloc, &task, pass, room) {
        Ok(()) => Ok(true),
        Err(_) => Err(OutOfMemory),
    }
}

// Takes and runs the body at a place of a dirty word, where these bits were found; whether it was
// taken.
fn try_place<C: Constraints, G: Gate>(
    alloc: Global,
    table: &SigTable<C>,
    plan: &Plan,
    pass: &mut Pass<C>,
    worker: u32,
    dirty: u32,
    bits: u64,
    place: u32,
    gate: &G,
    room: &mut Room,
) -> Result<bool, OutOfMemory>
    requires ready { CanWork C.describe table.now plan.now pass.old }
    requires bound { (view_of pass.old).taken ≤ bound_of C.describe table.now }
    requires place { place < 64 }
    ensures worked { HasWorked C.describe table.now pass.old pass.new }
    ensures took { IfOk result (λ t. Took t (view_of pass.old) (view_of pass.new)
        (StillSeen (view_of pass.old) (view_of pass.new)
        × (SeenIn (C.describe (system_of table.now)) (view_of pass.old) dirty bits → (b : ℕ)
        → b < (C.describe (system_of table.now)).bodies → b / 64 ≡ dirty → b % 64 ≡ place
        → Has (view_of pass.new).clear b))) }
{
    let body = 64 * dirty as u64 + place as u64;
    if (bits >> place) & 1 == 0 || body >= table.system().bodies() as u64 {
        return Ok(false);
    }
    try_body(
        alloc,
        table,
        plan,
        pass,
        worker,
        BodyNo(body as u32),
        gate,
        room,
    )
}

// Takes and runs the bodies of one dirty word that were found dirty; whether one was taken.
fn visit<C: Constraints, G: Gate>(
    alloc: Global,
    table: &SigTable<C>,
    plan: &Plan,
    pass: &mut Pass<C>,
    worker: u32,
    dirty: u32,
    bits: u64,
    gate: &G,
    room: &mut Room,
) -> Result<bool, OutOfMemory>
    requires ready { CanWork C.describe table.now plan.now pass.old }
    requires bound { (view_of pass.old).taken ≤ bound_of C.describe table.now }
    ensures worked { HasWorked C.describe table.now pass.old pass.new }
    ensures took { IfOk result (λ t. Took t (view_of pass.old) (view_of pass.new)
        (StillSeen (view_of pass.old) (view_of pass.new)
        × (SeenIn (C.describe (system_of table.now)) (view_of pass.old) dirty bits
        → SeenUpTo (C.describe (system_of table.now)) (view_of pass.new) dirty 64))) }
{
    let mut took = false;
    for place in 0..64u32 {
        let more = try_place(
            alloc, table, plan, pass, worker, dirty, bits, place, gate, room,
        )?;
        took = took | more;
    }
    Ok(took)
}

// One round over all dirty words; where it took no body it has seen every bit clear.
fn round<C: Constraints, G: Gate>(
    alloc: Global,
    table: &SigTable<C>,
    plan: &Plan,
    pass: &mut Pass<C>,
    worker: u32,
    gate: &G,
    room: &mut Room,
) -> Result<bool, OutOfMemory>
    requires ready { CanWork C.describe table.now plan.now pass.old }
    ensures worked { HasWorked C.describe table.now pass.old pass.new }
    ensures took { IfOk result (λ t. Took t (view_of pass.old) (view_of pass.new)
        (HasSeenAll (C.describe (system_of table.now)) (view_of pass.new))) }
{
    let dirty = (table.system().bodies() as u64 + 63) / 64;
    let mut took = false;
    for word in 0..dirty as u32 {
        let bits = table.scan(pass, WordNo(word));
        let more = visit(alloc, table, plan, pass, worker, word, bits, gate, room)?;
        took = took | more;
    }
    Ok(took)
}

/// Takes and runs dirty bodies in rounds over all dirty bits, until a round finds none or no memory
/// is found. It waits for nobody: another round needs a body that this pass took, and all passes
/// together take no more than the table's bound. The gate is entered once after each taken body. The
/// pass is idle, and its share stays as it was. All bodies are run in the same room.
pub fn work<C: Constraints, G: Gate>(
    alloc: Global,
    table: &SigTable<C>,
    plan: &Plan,
    pass: &mut Pass<C>,
    worker: u32,
    gate: &G,
) -> Worked
    requires own { IsPassOf C.describe table.now pass.old }
    requires plan { plan.now ≡ plan_of (C.describe (system_of table.now)) }
    requires idle { IsAtRest (C.describe (system_of table.now)) (view_of pass.old) }
    ensures own { IsPassOf C.describe table.now pass.new }
    ensures idle { IsAtRest (C.describe (system_of table.now)) (view_of pass.new) }
    ensures share { (view_of pass.new).share ≡ (view_of pass.old).share }
    ensures emptied { result ≡ Worked.Emptied
        → HasSeenAll (C.describe (system_of table.now)) (view_of pass.new) }
    ensures bound { (view_of pass.new).taken ≤ bound_of C.describe table.now }
{
    let mut room = Room::new(alloc);
    loop {
        match round(alloc, table, plan, pass, worker, gate, &mut room) {
            Ok(true) => {}
            Ok(false) => return Worked::Emptied,
            Err(_) => return Worked::OutOfMemory,
        }
    }
}
