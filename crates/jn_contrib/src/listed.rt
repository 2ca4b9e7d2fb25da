//! The methods that override, each with those that it overrides.
ghost use Rattle.std.specs.Prelude.{◌≡◌, ◌<◌, ◌^◌, ◌++◌, ◌∷◌, [], IfOk, OnOk, Some, length};
ghost use Rattle.jn_points.specs.Lookup.{method_at};
ghost use Rattle.jn_transfer.specs.Pairs.{under};
ghost use Rattle.jn_contrib.specs.Entries.{AreOverriders, entry_if, all_overriders};

use crate::under::under_of;
use jn_base::{OutOfMemory, Seq};
use jn_index::indexed::IndexedProgram;
use jn_points::Method;
use std::alloc::{AllocError, Global};

/// A method that overrides, and the methods that it overrides.
#[derive(Drop)]
pub struct Overrider {
    pub method: u32,
    pub under: Seq<u32>,
}

/// Adds the method, where it overrides some.
fn push_some(list: &mut Vec<Overrider>, method: u32, under: Vec<u32>) -> Result<(), AllocError>
    ensures { OnOk result (list.new.items ≡ list.old.items ++ entry_if method under.items) }
{
    if under.len() > 0 {
        list.push(Overrider {
            method,
            under: Seq::of_vec(under),
        })?;
    }
    Ok(())
}

/// Adds the method of a number, where it overrides some.
fn push_method(
    list: &mut Vec<Overrider>,
    alloc: Global,
    program: &IndexedProgram,
    method: u32,
    over: &Method,
) -> Result<(), AllocError>
    requires there { method_at program.now method ≡ Some over.now }
    requires few { length program.now.classes < 2 ^ 32 }
    requires methods { length program.now.methods < 2 ^ 32 }
    ensures { OnOk result (list.new.items
        ≡ list.old.items ++ entry_if method (under program.now method)) }
{
    let under = under_of(alloc, program, method, over)?;
    push_some(list, method, under)
}

/// The methods that override, in their order, each with those that it overrides, in theirs.
///
/// # Errors
/// No memory was found.
#[tactic(auto, using(crate::proofs::Listing::entries_are))]
pub fn overriders(alloc: Global, program: &IndexedProgram) -> Result<Vec<Overrider>, OutOfMemory>
    requires few { length program.now.classes < 2 ^ 32 }
    requires methods { length program.now.methods < 2 ^ 32 }
    ensures { IfOk result (λ list. AreOverriders program.now list.items) }
{
    all_entries(alloc, program)
}

/// The methods with those that they override, where these are some.
#[tactic(auto, using(crate::proofs::Gathering::flat_more))]
fn all_entries(alloc: Global, program: &IndexedProgram) -> Result<Vec<Overrider>, OutOfMemory>
    requires few { length program.now.classes < 2 ^ 32 }
    requires methods { length program.now.methods < 2 ^ 32 }
    ensures { IfOk result (λ list. list.items ≡ all_overriders program.now) }
{
    let mut list = Vec::new(alloc);
    let methods = program.program().methods.as_slice();
    for (m, over) in methods.iter().enumerate() {
        push_method(&mut list, alloc, program, m as u32, over)?;
    }
    Ok(list)
}
