//! The points of a body that some path comes to, and the registers that may lack a write there.
ghost use Rattle.std.specs.Prelude.{◌≡◌, ◌<◌, ◌^◌, IfOk, length};
ghost use Rattle.jn_points.specs.Lookup.{body_at, points_of};
ghost use Rattle.jn_dataflow.specs.Problem.{slot_at};
ghost use Rattle.jn_assigned.specs.Lacking.{TellsLacking, is_reached, is_lacking};

use crate::assignment::Assignment;
use jn_base::OutOfMemory;
use jn_dataflow::solve;
use jn_env::packed::BitList;
use jn_points::Program;
use std::alloc::Global;
use std::marker::Model;

/// For each point of a body whether some path from the entry comes to it, and if so, for each register whether one comes
/// without a write of it.
#[derive(Drop)]
pub struct Unwritten {
    slots: Vec<Option<BitList>>,
}

impl Model for Unwritten {
    ghost use Rattle.std.specs.Prelude.{Bool, List, Option};

    ghost Value = { List (Option (List Bool)) };

    ghost view = { λ t. t.slots.items };
}

impl Unwritten {
    /// Whether some path comes to the point at a place; false for one that is not there.
    pub fn is_reached(&self, at: usize) -> bool
        ensures { result ≡ is_reached (slot_at self.now at) }
    {
        match self.slots.get(at) {
            None => false,
            Some(slot) => slot.is_some(),
        }
    }

    /// Whether some path comes to the point at a place without a write of the register; false for a point or a register
    /// that is not there.
    pub fn may_lack(&self, at: usize, reg: usize) -> bool
        ensures { result ≡ is_lacking (slot_at self.now at) reg }
    {
        match self.slots.get(at) {
            None => false,
            Some(slot) => lacks(slot, reg),
        }
    }
}

fn lacks(slot: &Option<BitList>, reg: usize) -> bool
    ensures { result ≡ is_lacking slot.now reg }
{
    match slot {
        None => false,
        Some(bits) => bits.get(reg),
    }
}

/// The points of a body that some path comes to, and the registers that some path to them leaves without a write: in one
/// run for all registers. Edges that leave the body lead nowhere.
///
/// # Errors
/// No memory was found.
pub fn unassigned(alloc: Global, program: &Program, body: usize) -> Result<Unwritten, OutOfMemory>
    requires inside { body < length program.now.bodies }
    requires some { 0 < length (points_of (body_at program.now body)) }
    requires few { length (points_of (body_at program.now body)) < 2 ^ 32 }
    ensures { IfOk result (λ table. TellsLacking program.now body table) }
{
    let analysis = Assignment::new(program, body);
    let slots = solve(alloc, &analysis)?;
    Ok(Unwritten {
        slots: slots.into_vec(),
    })
}
