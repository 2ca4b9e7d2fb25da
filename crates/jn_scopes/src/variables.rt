//! The locals in scope, found by their names.
ghost use Rattle.std.specs.Prelude.{◌≡◌, ◌<◌, ◌++◌, ◌∷◌, ◌-◌, ◌%◌, [], List, MatchOption, None, Some, OnErr, OnOk, length, take};
ghost use Rattle.jn_base.specs.declared.place.Row.{Row};
ghost use Rattle.jn_lowering.specs.Scopes.{local_in};
ghost use Rattle.jn_scopes.specs.Views.{local_of, scope_of};

use crate::context::Variable;
use jn_base::{NameNo, OutOfMemory};
use std::alloc::Global;
use std::marker::Model;

/// The locals in scope, the last declared one last. Of two of one name the last declared one counts.
///
/// Names fall into 64 groups by their numbers, so that a search looks at the locals of one group alone.
#[derive(Drop)]
pub struct Variables {
    items: Vec<Variable>,
    /// For each local 1 + the place of the last one of its group before it, or 0 where there is none.
    previous: Vec<u32>,
    /// For each group 1 + the place of the last local of it, or 0 where there is none.
    last: [u32; 64],
}

impl Model for Variables {
    ghost use Rattle.std.specs.Prelude.{List};
    ghost use Rattle.jn_scopes.specs.Linked.{Linked};
    ghost use Rattle.jn_scopes.specs.declared.context.Variable.{Variable};

    ghost Value = { List Variable };

    ghost view = { λ v. v.items.items };

    ghost invariant = { λ v. Linked v.items.items v.previous.items v.last };
}

/// The group of a name.
fn group_of(name: NameNo) -> usize
    ensures is { result ≡ name.0 % 64 }
    ensures below { result < 64 }
{
    name.0 as usize % 64
}

/// Both, or none of them where memory is wanting for one.
fn push_both(
    items: &mut Vec<Variable>,
    previous: &mut Vec<u32>,
    variable: Variable,
    before: u32,
) -> Result<(), OutOfMemory>
    ensures ok { OnOk result ((items.new.items ≡ items.old.items ++ variable ∷ [])
        × (previous.new.items ≡ previous.old.items ++ before ∷ [])) }
    ensures err { OnErr result ((items.new.items ≡ items.old.items)
        × (previous.new.items ≡ previous.old.items)) }
{
    let places = items.len();
    match items.push(variable) {
        Ok(()) => {}
        Err(_) => return Err(OutOfMemory),
    }
    match previous.push(before) {
        Ok(()) => Ok(()),
        Err(_) => {
            items.truncate(places);
            Err(OutOfMemory)
        }
    }
}

impl Variables {
    /// No locals.
    pub fn new(alloc: Global) -> Self
        ensures { result ≡ [] }
    {
        Variables {
            items: Vec::new(alloc),
            previous: Vec::new(alloc),
            last: [0; 64],
        }
    }

    /// How many there are.
    pub fn len(&self) -> usize
        ensures { result ≡ length self.now }
    {
        self.items.len()
    }

    /// Brings a local into scope.
    ///
    /// # Errors
    /// No memory was found; more than 2^32 - 1 locals count as that. The locals are then as before.
    pub fn push(&mut self, variable: Variable) -> Result<(), OutOfMemory>
        ensures ok { OnOk result (self.new ≡ self.old ++ variable ∷ []) }
        ensures err { OnErr result (self.new ≡ self.old) }
    {
        let places = self.items.len();
        if places >= 0xFFFF_FFFF {
            return Err(OutOfMemory);
        }
        let group = group_of(variable.name);
        let before = self.last[group];
        push_both(&mut self.items, &mut self.previous, variable, before)?;
        self.last[group] = places as u32 + 1;
        Ok(())
    }

    /// Takes the last declared local off, if there is one.
    fn pop(&mut self)
        ensures { self.new ≡ take (length self.old - 1) self.old }
    {
        let places = self.items.len();
        if places == 0 {
            return;
        }
        let at = places - 1;
        let group = group_of(self.items[at].name);
        self.last[group] = self.previous[at];
        self.items.truncate(at);
        self.previous.truncate(at);
    }

    /// Leaves the scope of all but the first declared ones, as many as given.
    pub fn truncate(&mut self, names: usize)
        ensures { self.new ≡ take names self.old }
    {
        while self.len() > names {
            self.pop();
        }
    }

    /// The local of the name.
    pub fn find(&self, name: NameNo) -> Option<Variable>
        ensures { (rows : List Row) → MatchOption result
            (local_in (scope_of rows self.now) name.0 ≡ None)
            (λ v. local_in (scope_of rows self.now) name.0 ≡ Some (local_of rows v)) }
    {
        let mut at = self.last[group_of(name)] as usize;
        while at > 0 {
            let variable = self.items[at - 1];
            if variable.name.0 == name.0 {
                return Some(variable);
            }
            at = self.previous[at - 1] as usize;
        }
        None
    }
}
