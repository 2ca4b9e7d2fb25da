//! What is known at each point of a body.
ghost use Rattle.std.specs.Prelude.{◌≡◌, ◌<◌, IfOk, MatchOption, None, Some, length, replicate, slice_set};
ghost use Rattle.jn_env.specs.Order.{env_in};

use crate::env::Env;
use jn_base::{OutOfMemory, PointNo};
use std::alloc::{AllocError, Global};
use std::marker::Model;

/// For each point of a body its environment, where it is reached. The keys of the body, along
/// which all of them run, stand beside it.
#[derive(Drop)]
pub struct FlowTable {
    slots: Vec<Option<Env>>,
}

impl Model for FlowTable {
    ghost use Rattle.jn_env.specs.Order.{Table};

    ghost Value = { Table };

    ghost view = { λ t. t.slots.items };
}

impl FlowTable {
    /// The table with these environments.
    pub fn of_slots(slots: Vec<Option<Env>>) -> FlowTable
        ensures { result ≡ slots.items }
    {
        FlowTable { slots }
    }

    /// The table of so many points, none of them reached.
    ///
    /// # Errors
    /// No memory was found.
    pub fn unreached(alloc: Global, points: u32) -> Result<FlowTable, OutOfMemory>
        ensures { IfOk result (λ table. table ≡ replicate points None) }
    {
        Ok(FlowTable {
            slots: no_slots(alloc, points as usize)?,
        })
    }

    /// Lets the point be reached with this environment, in place of what stood there.
    pub fn put(&mut self, point: PointNo, env: Env)
        requires { point.0 < length self.old }
        ensures { self.new ≡ slice_set self.old point.0 (Some env) }
    {
        self.slots[point.0 as usize] = Some(env);
    }

    /// Takes out the environment of a point, which is unreached from then on.
    pub fn take(&mut self, point: PointNo) -> Option<Env>
        requires { point.0 < length self.old }
        ensures taken { result ≡ env_in self.old point.0 }
        ensures rest { self.new ≡ slice_set self.old point.0 None }
    {
        self.slots[point.0 as usize].take()
    }

    /// The environment of a point; None where it is unreached or not there.
    pub fn at(&self, point: PointNo) -> Option<&Env>
        ensures { MatchOption result (env_in self.now point.0 ≡ None)
            (λ env. env_in self.now point.0 ≡ Some env.now) }
    {
        env_at(&self.slots, point.0 as usize)
    }

    /// All environments, point by point.
    pub fn slots(&self) -> &[Option<Env>]
        ensures { result.now ≡ self.now }
    {
        &self.slots
    }
}

/// The environment at a place of a table's slots; None where it is unreached or not there.
pub fn env_at(slots: &[Option<Env>], at: usize) -> Option<&Env>
    ensures { MatchOption result (env_in slots.now at ≡ None)
        (λ env. env_in slots.now at ≡ Some env.now) }
{
    match slots.get(at) {
        None => None,
        Some(slot) => slot.as_ref(),
    }
}

fn no_slots(alloc: Global, count: usize) -> Result<Vec<Option<Env>>, AllocError>
    ensures { IfOk result (λ slots. slots.items ≡ replicate count None) }
{
    let mut slots = Vec::new(alloc);
    for _i in 0..count {
        slots.push(None)?;
    }
    Ok(slots)
}
