//! Fields that share their type with a field of another qualifier, which one annotation can't say.
ghost use Rattle.std.specs.Prelude.{◌≡◌, ◌++◌, ◌∷◌, [], ◌+◌, ◌⊎◌, ◌≤◌, ◌&&◌, cond, map, not, take, IfOk, OnOk, Some};
ghost use Rattle.jn_sigs.specs.Signature.{slot_qual};
ghost use Rattle.jn_trees.specs.View.{file_view, member_view, member_views, type_view};
ghost use Rattle.jn_annotate.specs.Annotated.{members_of, same_qual, slot_inferred};
ghost use Rattle.jn_annotate.specs.Insertions.{first_slot as spec_first};
ghost use Rattle.jn_annotate.specs.Shared as spec;

use crate::files::{fields_behind_type, fields_behind_types};
use crate::members::{fields_behind, first_slot};
use crate::parts::first_items;
use jn_base::lists::put;
use jn_base::{OutOfMemory, SlotNo};
use jn_points::{Field, Program};
use jn_quals::Qual;
use jn_sigs::Sig;
use jn_trees::{FileTree, Member, TypeTree};
use std::alloc::Global;

/// The slot is inferred, and hasn't this qualifier.
fn is_off(program: &Program, sig: &Sig, first: Qual, slot: SlotNo) -> bool
    ensures { result
        ≡ (slot_inferred program.now sig.now (Some slot)
        && not (same_qual (slot_qual sig.now (Some slot)) first)) }
{
    match program.slots.as_slice().get(slot.0 as usize) {
        None => false,
        Some(info) => {
            let qual = sig.get(slot);
            info.inferred && !(qual.within(first) && first.within(qual))
        }
    }
}

/// Puts a slot after the others where it is wanted.
pub(crate) fn put_if(slots: &mut Vec<u32>, wanted: bool, slot: u32) -> Result<(), OutOfMemory>
    ensures { OnOk result (slots.new.items ≡ slots.old.items ++ cond wanted (slot ∷ []) []) }
{
    if wanted {
        put(slots, slot)?;
    }
    Ok(())
}

fn put_slot(
    slots: &mut Vec<u32>,
    program: &Program,
    sig: &Sig,
    first: Qual,
    slot: Option<SlotNo>,
) -> Result<(), OutOfMemory>
    ensures { OnOk result (slots.new.items
        ≡ slots.old.items ++ spec.off_slot program.now sig.now first slot) }
{
    match slot {
        None => Ok(()),
        Some(slot) => put_if(slots, is_off(program, sig, first, slot), slot.0),
    }
}

#[tactic(auto, using(crate::proofs::Walking::next_slots))]
fn put_fields(
    slots: &mut Vec<u32>,
    program: &Program,
    sig: &Sig,
    first: Qual,
    fields: &[Field],
) -> Result<(), OutOfMemory>
    ensures { OnOk result (slots.new.items
        ≡ slots.old.items ++ spec.off_slots program.now sig.now first fields.now) }
{
    for field in fields {
        put_slot(slots, program, sig, first, field.slot)?;
    }
    Ok(())
}

/// The qualifier of the first field.
fn first_qual(sig: &Sig, fields: &[Field]) -> Qual
    ensures { result ≡ slot_qual sig.now (spec_first fields.now) }
{
    match first_slot(fields) {
        None => Qual::none(),
        Some(slot) => sig.get(slot),
    }
}

/// Puts the slots of a declaration's fields that aren't as the first one.
#[tactic(auto, using(crate::proofs::Walking::more_fields))]
fn put_declared(
    slots: &mut Vec<u32>,
    program: &Program,
    sig: &Sig,
    fields: &[Field],
    more: usize,
) -> Result<(), OutOfMemory>
    ensures { OnOk result (slots.new.items
        ≡ slots.old.items
        ++ spec.off_slots program.now sig.now (slot_qual sig.now (spec_first fields.now))
        (take (1 + more) fields.now)) }
{
    match fields.split_first() {
        None => Ok(()),
        Some((field, rest)) => {
            let qual = first_qual(sig, fields);
            put_slot(slots, program, sig, qual, field.slot)?;
            put_fields(slots, program, sig, qual, first_items(rest, more))
        }
    }
}

#[tactic(auto, using(crate::proofs::Walking::same_declared))]
fn put_member(
    slots: &mut Vec<u32>,
    program: &Program,
    sig: &Sig,
    member: &Member,
    fields: &[Field],
) -> Result<(), OutOfMemory>
    ensures { OnOk result (slots.new.items
        ≡ slots.old.items
        ++ spec.member_slots program.now sig.now (member_view member.now) fields.now) }
{
    match member {
        Member::Field { more, .. } => put_declared(slots, program, sig, fields, more.len()),
        Member::Method { .. } => Ok(()),
        Member::Constructor { .. } => Ok(()),
    }
}

#[tactic(auto, using(crate::proofs::Walking::next_slots))]
fn put_members(
    slots: &mut Vec<u32>,
    program: &Program,
    sig: &Sig,
    members: &[Member],
    fields: &[Field],
) -> Result<(), OutOfMemory>
    ensures { OnOk result (slots.new.items
        ≡ slots.old.items
        ++ spec.members_slots program.now sig.now (member_views members.now) fields.now) }
{
    let mut fields = fields;
    for member in members {
        put_member(slots, program, sig, member, fields)?;
        fields = fields_behind(fields, member);
    }
    Ok(())
}

fn put_type(
    slots: &mut Vec<u32>,
    program: &Program,
    sig: &Sig,
    declared: &TypeTree,
    fields: &[Field],
) -> Result<(), OutOfMemory>
    ensures { OnOk result (slots.new.items
        ≡ slots.old.items
        ++ spec.members_slots program.now sig.now (members_of (type_view declared.now))
        fields.now) }
{
    match declared {
        TypeTree::Class { members, .. } => put_members(slots, program, sig, members, fields),
        TypeTree::Interface { members, .. } => put_members(slots, program, sig, members, fields),
    }
}

#[tactic(auto, using(crate::proofs::Walking::next_slots))]
fn put_types(
    slots: &mut Vec<u32>,
    program: &Program,
    sig: &Sig,
    types: &[TypeTree],
    fields: &[Field],
) -> Result<(), OutOfMemory>
    ensures { OnOk result (slots.new.items
        ≡ slots.old.items
        ++ spec.types_slots program.now sig.now (map type_view types.now) fields.now) }
{
    let mut fields = fields;
    for declared in types {
        put_type(slots, program, sig, declared, fields)?;
        fields = fields_behind_type(fields, declared);
    }
    Ok(())
}

#[tactic(auto, using(crate::proofs::Walking::next_slots))]
fn put_files(
    slots: &mut Vec<u32>,
    program: &Program,
    sig: &Sig,
    trees: &[FileTree],
    fields: &[Field],
) -> Result<(), OutOfMemory>
    ensures { OnOk result (slots.new.items
        ≡ slots.old.items
        ++ spec.shared_slots program.now sig.now (map file_view trees.now) fields.now) }
{
    let mut fields = fields;
    for tree in trees {
        put_types(slots, program, sig, &tree.types, fields)?;
        fields = fields_behind_types(fields, &tree.types);
    }
    Ok(())
}

/// The lesser of two numbers.
fn lesser(left: u32, right: u32) -> u32
    ensures { (result ≡ left) × (left ≤ right) ⊎ (result ≡ right) × (right ≤ left) }
{
    if left < right { left } else { right }
}

/// The least of a list of numbers.
#[tactic(auto, using(crate::proofs::Sharing::least_start, crate::proofs::Sharing::least_all))]
fn least(slots: &[u32]) -> Option<u32>
    ensures { spec.IsLeast result slots.now }
{
    match slots.split_first() {
        None => None,
        Some((first, rest)) => {
            let mut found = *first;
            for slot in rest {
                found = lesser(found, *slot);
            }
            Some(found)
        }
    }
}

/// The least slot of an inferred field whose qualifier isn't that of the first field of its declaration.
pub fn first_shared(
    alloc: Global,
    program: &Program,
    sig: &Sig,
    trees: &[FileTree],
) -> Result<Option<u32>, OutOfMemory>
    ensures { IfOk result (λ found. spec.IsLeast found
        (spec.shared_slots program.now sig.now (map file_view trees.now) program.now.fields)) }
{
    let mut slots = Vec::new(alloc);
    put_files(&mut slots, program, sig, trees, program.fields.as_slice())?;
    Ok(least(&slots))
}
