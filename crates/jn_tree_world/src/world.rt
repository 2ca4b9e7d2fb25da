//! Worlds.
ghost use Rattle.jn_heap.specs.State.{value_at};
ghost use Rattle.jn_meaning.specs.Operations as ops;
ghost use Rattle.jn_meaning.specs.Worlds.{Has};
ghost use Rattle.jn_points.specs.declared.program.Program as program;
ghost use Rattle.jn_tree_world.specs.Outcomes.{Goes, Means, spends};
ghost use Rattle.jn_tree_world.specs.Worlds.{world_of};

use crate::halt::Halt;
use crate::values::copied;
use jn_base::RegNo;
use jn_machine::lists::put;
use jn_machine::{Primitive, Thing, Value};

/// What evaluation goes over: the heap, the numbers of static fields, the text printed, a value for each local of the method that
/// runs by its number, `this` first where there is one, and units of fuel.
#[derive(Drop)]
pub struct World {
    pub heap: Vec<Thing>,
    pub statics: Vec<Primitive>,
    pub out: Vec<u8>,
    pub locals: Vec<Option<Value>>,
    pub fuel: u64,
}

impl World {
    /// Spends a unit of fuel.
    pub fn spend(&mut self) -> Result<(), Halt>
        ensures { Goes (spends (world_of self.old)) result (world_of self.new) }
    {
        if self.fuel == 0 {
            return Err(Halt::FuelOut);
        }
        self.fuel -= 1;
        Ok(())
    }

    /// The value of a local, copied.
    pub fn local(&self, local: RegNo) -> Result<Option<Value>, Halt>
        ensures { Means (Has (value_at self.now.locals.items local.0) (world_of self.now)) result
            (world_of self.now) }
    {
        match self.locals.get(local.0 as usize) {
            None => Ok(None),
            Some(held) => copied(held),
        }
    }

    /// A local gets a value, which is given.
    pub fn set_local(&mut self, local: RegNo, value: Option<Value>) -> Result<Option<Value>, Halt>
        ensures { (P : program.Program)
            → Means (ops.write_local P (world_of self.old) local.0 value) result
            (world_of self.new) }
    {
        let Some(given) = value else {
            return Err(Halt::Senseless);
        };
        match given.copy() {
            Err(_) => Err(Halt::OutOfMemory),
            Ok(held) => {
                put(&mut self.locals, local.0 as usize, Some(held));
                Ok(Some(given))
            }
        }
    }
}
