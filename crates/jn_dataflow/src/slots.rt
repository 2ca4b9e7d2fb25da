//! An environment for each point that is reached.
ghost use Rattle.std.specs.Prelude.{◌≡◌, ◌<◌, IfOk, None, Some, length, replicate, slice_set};
ghost use Rattle.jn_dataflow.specs.Problem.{slot_at};

use std::alloc::{AllocError, Global};
use std::marker::Model;

/// For each point of a body its environment, where it is reached.
#[derive(Drop)]
pub struct Slots<E> {
    slots: Vec<Option<E>>,
}

impl<E> Model for Slots<E> {
    ghost use Rattle.std.specs.Prelude.{List, Option};

    ghost Value = { List (Option E) };

    ghost view = { λ t. t.slots.items };
}

impl<E: Drop> Slots<E> {
    /// So many points, none of them reached.
    ///
    /// # Errors
    /// No memory was found.
    pub fn unreached(alloc: Global, count: usize) -> Result<Slots<E>, AllocError>
        ensures { IfOk result (λ t. t ≡ replicate count None) }
    {
        let mut slots = Vec::new(alloc);
        for _i in 0..count {
            slots.push(None)?;
        }
        Ok(Slots { slots })
    }

    /// Lets a point be reached with this environment, in place of what stood there.
    pub fn put(&mut self, at: usize, env: E)
        requires { at < length self.old }
        ensures { self.new ≡ slice_set self.old at (Some env) }
    {
        self.slots[at] = Some(env);
    }

    /// Takes out the environment of a point, which is unreached from then on.
    pub fn take(&mut self, at: usize) -> Option<E>
        requires { at < length self.old }
        ensures taken { result ≡ slot_at self.old at }
        ensures rest { self.new ≡ slice_set self.old at None }
    {
        self.slots[at].take()
    }

    /// All environments, point by point.
    pub fn into_vec(self) -> Vec<Option<E>>
        ensures { result.items ≡ self }
    {
        self.slots
    }

    /// All environments, point by point.
    pub fn as_slice(&self) -> &[Option<E>]
        ensures { result.now ≡ self.now }
    {
        &self.slots
    }
}
