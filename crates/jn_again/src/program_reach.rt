//! What the tasks of a program's inference can reach.
ghost use Rattle.std.specs.Prelude.{◌≡◌, ◌↔◌, ◌<◌, IfOk, slice_index, true};
ghost use Rattle.jn_recheck_law.specs.Unread.{AreUnlost, task_slots};
ghost use Rattle.jn_contrib.specs.Entries.{AreOverriders};
ghost use Rattle.jn_system.specs.Ready.{AreReady, AreTasks, tasks_prop};
ghost use Rattle.jn_tables_law.specs.Tasks.{task_count};

use crate::reach::Reach;
use crate::slots::{off_body, off_pair};
use jn_base::{BodyNo, MethodNo, OutOfMemory};
use jn_contrib::Overrider;
use jn_env::OwnFields;
use jn_points::Program;
use jn_system::tasks::overrider_of;
use std::alloc::Global;

/// Whether the masks have no bit of the slots that a task can reach.
#[tactic(auto, using(crate::proofs::Reaching::body_off, crate::proofs::Reaching::pair_off))]
fn off_task(
    alloc: Global,
    bits: &[u64],
    program: &Program,
    own: &OwnFields,
    overriders: &[Overrider],
    task: BodyNo,
) -> Result<bool, OutOfMemory>
    requires ready { AreReady program.now own.now }
    requires overriders { AreOverriders program.now overriders.now }
    requires task { task.0 < task_count program.now }
    ensures { IfOk result
        (λ r. (r ≡ true) ↔ AreUnlost (slice_index bits.now) (task_slots program.now task.0)) }
{
    match overrider_of(program, overriders, task) {
        None => off_body(alloc, bits, program, own, task),
        Some(overrider) => Ok(off_pair(
            bits,
            program,
            MethodNo(overrider.method),
            overrider.under.as_slice(),
        )),
    }
}

/// The tasks of a program: each can reach the slots that its points and its method name, and no others.
#[derive(Drop)]
pub struct ProgramReach<'p> {
    pub program: &'p Program,
    own: &'p OwnFields,
    overriders: &'p [Overrider],
    ghost ready: { AreTasks program.now own.now overriders.now } by { tasks_prop program.now own.now overriders.now },
}

impl<'p> ProgramReach<'p> {
    /// Those of a program with the reference fields of its classes, and its methods that override.
    pub fn new(
        program: &'p Program,
        own: &'p OwnFields,
        overriders: &'p [Overrider],
    ) -> ProgramReach<'p>
        requires { AreTasks program.now own.now overriders.now }
        ensures { result.program.now ≡ program.now }
    {
        ProgramReach {
            program,
            own,
            overriders,
        }
    }
}

impl<'p> Reach for ProgramReach<'p> {
    ghost use Rattle.jn_inference_law.specs.Inference.{inference};

    ghost describe = { λ it. inference it.program.now };

    fn is_blind(&self, alloc: Global, body: BodyNo, bits: &[u64]) -> Result<bool, OutOfMemory> {
        let off = off_task(alloc, bits, self.program, self.own, self.overriders, body)?;
        Ok(off)
    }

    fn stands_apart(&self, alloc: Global, body: BodyNo, bits: &[u64]) -> Result<bool, OutOfMemory> {
        let off = off_task(alloc, bits, self.program, self.own, self.overriders, body)?;
        Ok(off)
    }
}
