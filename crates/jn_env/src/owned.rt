//! The reference fields of all classes, found once for the keys of all bodies.
ghost use Rattle.std.specs.Prelude.{◌≡◌, ◌<◌, ◌≤◌, ◌^◌, ◌++◌, ◌∷◌, [], ℕ, cond, length, slice_index_or, IfOk, OnOk, MatchOption};
ghost use Rattle.jn_env.specs.ClassFields.{is_field_of, AreOwnFields};

use crate::keys::is_ref_field;
use jn_base::lists::{empty_lists, push_at};
use jn_base::{OutOfMemory, Seq};
use jn_points::Program;
use jn_points::lookup::owner;
use std::alloc::{AllocError, Global};
use std::marker::Model;

/// For each class of a program the numbers of its reference fields, in rising order.
#[derive(Drop)]
pub struct OwnFields {
    lists: Vec<Seq<u32>>,
}

impl Model for OwnFields {
    ghost use Rattle.std.specs.Prelude.{ℕ, List};

    ghost Value = { List (List ℕ) };

    ghost view = { λ own. own.lists.items };
}

impl OwnFields {
    /// The reference fields of a program's classes.
    ///
    /// # Errors
    /// No memory was found.
    pub fn new(alloc: Global, program: &Program) -> Result<OwnFields, OutOfMemory>
        requires { length program.now.fields < 2 ^ 32 }
        ensures { IfOk result (λ own. AreOwnFields program.now own) }
    {
        let mut lists = empty_lists(alloc, program.classes.len())?;
        for field in 0..program.fields.len() {
            push_field(program, &mut lists, field as u32)?;
        }
        Ok(OwnFields { lists })
    }

    /// The reference fields of a class; None for one that isn't there.
    pub(crate) fn of(&self, class: u32) -> Option<&[u32]>
        ensures { MatchOption result (length self.now ≤ class) (λ fields.
            (class < length self.now) × (fields.now ≡ slice_index_or self.now class [])) }
    {
        let place = class as usize;
        if place < self.lists.len() {
            Some(self.lists[place].as_slice())
        } else {
            None
        }
    }
}

/// Puts the field into its class's list, where it is of reference type.
fn push_field(program: &Program, lists: &mut Vec<Seq<u32>>, field: u32) -> Result<(), AllocError>
    ensures long { OnOk result (length lists.new.items ≡ length lists.old.items) }
    ensures pushed { OnOk result ((c : ℕ) → c < length lists.old.items
        → slice_index_or lists.new.items c []
        ≡ slice_index_or lists.old.items c []
        ++ cond (is_field_of program.now c field) (field ∷ []) []) }
{
    if !is_ref_field(program, field) {
        return Ok(());
    }
    let class = owner(program, field) as usize;
    if class >= lists.len() {
        return Ok(());
    }
    push_at(lists, class, field)
}
