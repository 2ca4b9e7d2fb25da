//! Whose slots are whose.
ghost use Rattle.std.specs.Prelude.{◌≡◌, ◌<◌, ◌^◌, IfOk, cond, eqb, length, None, Some, slice_index_or};
ghost use Rattle.jn_note_words.specs.Owned.{AreOwners, Filled, by_field, by_fields, by_method, by_methods, by_parameters, if_slot, owner_of};

use jn_base::SlotNo;
use jn_points::{Field, Method, Program};
use std::alloc::{AllocError, Global};
use std::marker::Model;

/// What has a slot: a field, a parameter of a method by its number from 0, or a method's receiver or result.
#[derive(Clone, Copy, Debug, PartialEq, Eq)]
pub enum Owner {
    OfField(u32),
    OfParameter(u32, usize),
    OfReceiver(u32),
    OfResult(u32),
}

/// Says whose slot it is, where nobody's is said.
fn fill_empty(owners: &mut [Option<Owner>], at: usize, owner: Owner)
    requires inside { at < length owners.old }
    ensures { Filled owners.old owners.new (λ k. cond (eqb at k) (Some owner) None) }
{
    if owners[at].is_none() {
        owners[at] = Some(owner);
    }
}

/// The same, where there is such a slot.
fn fill(owners: &mut [Option<Owner>], slot: Option<SlotNo>, owner: Owner)
    ensures { Filled owners.old owners.new (λ k. if_slot k slot owner) }
{
    if let Some(slot) = slot {
        let at = slot.0 as usize;
        if at < owners.len() {
            fill_empty(owners, at, owner);
        }
    }
}

fn fill_parameters(owners: &mut [Option<Owner>], method: u32, slots: &[Option<SlotNo>])
    ensures { Filled owners.old owners.new (λ k. by_parameters k method slots.now) }
{
    for i in 0..slots.len() {
        fill(owners, slots[i], Owner::OfParameter(method, i));
    }
}

fn fill_method(owners: &mut [Option<Owner>], method: u32, info: &Method)
    ensures { Filled owners.old owners.new (λ k. by_method k method (Some info.now)) }
{
    fill_parameters(owners, method, info.param_slots.as_slice());
    fill(owners, info.receiver, Owner::OfReceiver(method));
    fill(owners, info.result_slot, Owner::OfResult(method));
}

fn fill_field(owners: &mut [Option<Owner>], field: u32, info: &Field)
    ensures { Filled owners.old owners.new (λ k. by_field k field (Some info.now)) }
{
    fill(owners, info.slot, Owner::OfField(field));
}

fn fill_fields(owners: &mut [Option<Owner>], program: &Program)
    requires few { length program.now.fields < 2 ^ 32 }
    ensures { Filled owners.old owners.new (by_fields program.now) }
{
    let fields = program.fields.as_slice();
    for f in 0..fields.len() {
        fill_field(owners, f as u32, &fields[f]);
    }
}

fn fill_methods(owners: &mut [Option<Owner>], program: &Program)
    requires few { length program.now.methods < 2 ^ 32 }
    ensures { Filled owners.old owners.new (by_methods program.now) }
{
    let methods = program.methods.as_slice();
    for m in 0..methods.len() {
        fill_method(owners, m as u32, &methods[m]);
    }
}

/// The owner of each slot.
///
/// # Errors
/// No memory was found.
pub fn find_owners(alloc: Global, program: &Program) -> Result<Vec<Option<Owner>>, AllocError>
    requires fields { length program.now.fields < 2 ^ 32 }
    requires methods { length program.now.methods < 2 ^ 32 }
    ensures { IfOk result (λ owners. AreOwners program.now owners.items) }
{
    let mut owners = vec![in alloc; None; program.slots.len()]?;
    fill_fields(&mut owners, program);
    fill_methods(&mut owners, program);
    Ok(owners)
}

/// The owner of a slot; none where it is no slot.
pub fn owner_at(owners: &[Option<Owner>], slot: u32) -> Option<Owner>
    ensures { result ≡ slice_index_or owners.now slot None }
{
    match owners.get(slot as usize) {
        None => None,
        Some(owner) => *owner,
    }
}

/// A program, with what has each of its slots. Contracts see the program.
#[derive(Drop)]
pub struct OwnedProgram<'a> {
    program: &'a Program,
    owners: &'a [Option<Owner>],
}

impl<'a> Model for OwnedProgram<'a> {
    ghost use Rattle.jn_points.specs.declared.program.Program.{Program as ProgramOf};
    ghost use Rattle.jn_note_words.specs.Owned.{AreOwners};

    ghost Value = { ProgramOf };

    ghost view = { λ o. o.program.now };

    ghost invariant = { λ o. AreOwners o.program.now o.owners.now };
}

impl<'a> OwnedProgram<'a> {
    /// A program, the owners of whose slots these are.
    pub fn new(program: &'a Program, owners: &'a [Option<Owner>]) -> OwnedProgram<'a>
        requires { AreOwners program.now owners.now }
        ensures { result ≡ program.now }
    {
        OwnedProgram { program, owners }
    }

    /// The program.
    pub fn program(&self) -> &'a Program
        ensures { result.now ≡ self.now }
    {
        self.program
    }

    /// The owner of a slot; none where it is no slot.
    pub(crate) fn owner_at(&self, slot: u32) -> Option<Owner>
        ensures { result ≡ owner_of self.now slot }
    {
        owner_at(self.owners, slot)
    }
}
