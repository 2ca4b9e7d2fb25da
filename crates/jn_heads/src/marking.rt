//! Slots by the choice of members that are inferred.
ghost use Rattle.std.specs.Prelude.{◌≡◌, ◌++◌, ◌∷◌, [], cond, map, flat_map, IfOk, OnOk};
ghost use Rattle.jn_points.specs.Members.{some_of};
ghost use Rattle.jn_places.specs.PlacedView.{placed_member, placed_members, placed_type, placed_file};
ghost use Rattle.jn_heads.specs.Extract.{heads};
ghost use Rattle.jn_heads.specs.Inferred as spec;
ghost use Rattle.jn_heads.specs.Types as types;

use crate::declarations::Declarations;
use crate::extract;
use crate::head::{FieldHead, MethodHead, ParamHead, TypeHead};
use crate::notes::{Word, has_word};
use crate::types::{field_qual, has_receiver, is_position, receiver_qual, slot_of, written_qual};
use jn_base::{Infer, Seq};
use jn_points::SlotInfo;
use jn_trees::{FileTree, Member, Modifier, TypeTree};
use std::alloc::{AllocError, Global};

fn is_access(modifier: Modifier) -> bool
    ensures { result ≡ spec.is_access modifier }
{
    match modifier {
        Modifier::Public(_) => true,
        Modifier::Protected(_) => true,
        Modifier::Private(_) => true,
        _ => false,
    }
}

fn has_access(modifiers: &[Modifier]) -> bool
    ensures { result ≡ some_of (spec.is_access) modifiers.now }
{
    for modifier in modifiers {
        if is_access(*modifier) {
            return true;
        }
    }
    false
}

/// Whether the unwritten positions of a member with these modifiers are inferred.
fn infers(infer: Infer, interface: bool, modifiers: &[Modifier]) -> bool
    ensures { result ≡ spec.infers infer interface modifiers.now }
{
    match infer {
        Infer::Private => has_word(modifiers, Word::Private),
        Infer::Package => {
            has_word(modifiers, Word::Private) || (!interface && !has_access(modifiers))
        }
    }
}

fn member_infers(infer: Infer, interface: bool, member: &Member) -> bool
    ensures { result
        ≡ spec.infers infer interface (spec.modifiers_of (placed_member member.now)) }
{
    match member {
        Member::Field { modifiers, .. } => infers(infer, interface, modifiers),
        Member::Method { modifiers, .. } => infers(infer, interface, modifiers),
        Member::Constructor { modifiers, .. } => infers(infer, interface, modifiers),
    }
}

/// Adds a slot where one is wanted.
fn push_slot(slots: &mut Seq<SlotInfo>, wanted: bool, slot: SlotInfo) -> Result<(), AllocError>
    ensures { OnOk result (slots.new ≡ slots.old ++ cond wanted (slot ∷ []) []) }
{
    if wanted {
        slots.push(slot)?;
    }
    Ok(())
}

/// Adds the slot of a field that is inferred, or not.
fn push_field(
    declared: &Declarations,
    slots: &mut Seq<SlotInfo>,
    mark: bool,
    head: FieldHead,
) -> Result<(), AllocError>
    ensures { OnOk result
        (slots.new ≡ slots.old ++ types.field_slots declared.now (spec.mark_field mark head)) }
{
    let notes = head.kind.notes;
    push_slot(
        slots,
        is_position(declared, head.kind),
        slot_of(mark, notes, field_qual(notes)),
    )
}

#[tactic(auto, using(crate::proofs::SlotLoops::field_more))]
fn push_fields(
    declared: &Declarations,
    slots: &mut Seq<SlotInfo>,
    mark: bool,
    heads: &[FieldHead],
) -> Result<(), AllocError>
    ensures { OnOk result (slots.new
        ≡ slots.old
        ++ types.fields_slots declared.now (map (spec.mark_field mark) heads.now)) }
{
    for head in heads {
        push_field(declared, slots, mark, *head)?;
    }
    Ok(())
}

/// Adds the slots of the fields that a member declares.
fn member_fields(
    alloc: Global,
    declared: &Declarations,
    slots: &mut Seq<SlotInfo>,
    infer: Infer,
    interface: bool,
    member: &Member,
) -> Result<(), AllocError>
    ensures { OnOk result (slots.new
        ≡ slots.old
        ++ types.fields_slots declared.now
        (spec.field_marks infer interface (placed_member member.now))) }
{
    let mut heads = Seq::new(alloc);
    extract::push_fields(&mut heads, member)?;
    let mark = member_infers(infer, interface, member);
    push_fields(declared, slots, mark, heads.as_slice())
}

#[tactic(auto, using(crate::proofs::SlotLoops::fields_more))]
fn members_fields(
    alloc: Global,
    declared: &Declarations,
    slots: &mut Seq<SlotInfo>,
    infer: Infer,
    interface: bool,
    members: &[Member],
) -> Result<(), AllocError>
    ensures { OnOk result (slots.new
        ≡ slots.old
        ++ types.fields_slots declared.now
        (flat_map (spec.field_marks infer interface) (placed_members members.now))) }
{
    for member in members {
        member_fields(alloc, declared, slots, infer, interface, member)?;
    }
    Ok(())
}

/// Adds the slot of a parameter or a result.
fn push_value(
    declared: &Declarations,
    slots: &mut Seq<SlotInfo>,
    mark: bool,
    kind: TypeHead,
) -> Result<(), AllocError>
    ensures { OnOk result (slots.new ≡ slots.old ++ types.value_slots declared.now mark kind) }
{
    let notes = kind.notes;
    push_slot(
        slots,
        is_position(declared, kind),
        slot_of(mark, notes, written_qual(notes)),
    )
}

#[tactic(auto, using(crate::proofs::SlotLoops::param_more))]
fn push_params(
    declared: &Declarations,
    slots: &mut Seq<SlotInfo>,
    mark: bool,
    params: &[ParamHead],
) -> Result<(), AllocError>
    ensures { OnOk result
        (slots.new ≡ slots.old ++ types.params_slots declared.now mark params.now) }
{
    for param in params {
        push_value(declared, slots, mark, param.kind)?;
    }
    Ok(())
}

fn push_result(
    declared: &Declarations,
    slots: &mut Seq<SlotInfo>,
    mark: bool,
    kind: Option<TypeHead>,
) -> Result<(), AllocError>
    ensures { OnOk result (slots.new ≡ slots.old ++ types.result_slots declared.now mark kind) }
{
    match kind {
        None => Ok(()),
        Some(kind) => push_value(declared, slots, mark, kind),
    }
}

fn push_receiver(slots: &mut Seq<SlotInfo>, mark: bool, head: &MethodHead) -> Result<(), AllocError>
    ensures { OnOk result
        (slots.new ≡ slots.old ++ types.receiver_slots (spec.mark_method mark head.now)) }
{
    let notes = head.receiver;
    push_slot(
        slots,
        has_receiver(head),
        slot_of(mark, notes, receiver_qual(notes)),
    )
}

/// Adds the slots of a method that is inferred, or not: receiver, parameters, result.
#[tactic(auto, using(crate::proofs::SlotLoops::method_more))]
fn push_method(
    declared: &Declarations,
    slots: &mut Seq<SlotInfo>,
    mark: bool,
    head: &MethodHead,
) -> Result<(), AllocError>
    ensures { OnOk result (slots.new
        ≡ slots.old ++ types.method_slots declared.now (spec.mark_method mark head.now)) }
{
    push_receiver(slots, mark, head)?;
    push_params(declared, slots, mark, head.params.as_slice())?;
    push_result(declared, slots, mark, head.result)
}

#[tactic(auto, using(crate::proofs::SlotLoops::methods_next))]
fn push_methods(
    declared: &Declarations,
    slots: &mut Seq<SlotInfo>,
    mark: bool,
    heads: &[MethodHead],
) -> Result<(), AllocError>
    ensures { OnOk result (slots.new
        ≡ slots.old
        ++ types.methods_slots declared.now (map (spec.mark_method mark) heads.now)) }
{
    for head in heads {
        push_method(declared, slots, mark, head)?;
    }
    Ok(())
}

/// Adds the slots of the method or constructor that a member declares.
fn member_methods(
    alloc: Global,
    declared: &Declarations,
    slots: &mut Seq<SlotInfo>,
    infer: Infer,
    interface: bool,
    member: &Member,
) -> Result<(), AllocError>
    ensures { OnOk result (slots.new
        ≡ slots.old
        ++ types.methods_slots declared.now
        (spec.method_marks infer interface (placed_member member.now))) }
{
    let mut heads = Seq::new(alloc);
    extract::push_method(alloc, &mut heads, interface, member)?;
    let mark = member_infers(infer, interface, member);
    push_methods(declared, slots, mark, heads.as_slice())
}

#[tactic(auto, using(crate::proofs::SlotLoops::methods_more))]
fn members_methods(
    alloc: Global,
    declared: &Declarations,
    slots: &mut Seq<SlotInfo>,
    infer: Infer,
    interface: bool,
    members: &[Member],
) -> Result<(), AllocError>
    ensures { OnOk result (slots.new
        ≡ slots.old
        ++ types.methods_slots declared.now
        (flat_map (spec.method_marks infer interface) (placed_members members.now))) }
{
    for member in members {
        member_methods(alloc, declared, slots, infer, interface, member)?;
    }
    Ok(())
}

fn push_members(
    alloc: Global,
    declared: &Declarations,
    slots: &mut Seq<SlotInfo>,
    infer: Infer,
    interface: bool,
    members: &[Member],
) -> Result<(), AllocError>
    ensures { OnOk result (slots.new
        ≡ slots.old
        ++ (types.fields_slots declared.now
        (flat_map (spec.field_marks infer interface) (placed_members members.now))
        ++ types.methods_slots declared.now
        (flat_map (spec.method_marks infer interface) (placed_members members.now)))) }
{
    members_fields(alloc, declared, slots, infer, interface, members)?;
    members_methods(alloc, declared, slots, infer, interface, members)
}

/// Adds the slots of a type. A constructor that isn't written has none.
#[tactic(auto, using(crate::proofs::SlotLoops::no_constructor))]
fn push_type(
    alloc: Global,
    declared: &Declarations,
    slots: &mut Seq<SlotInfo>,
    infer: Infer,
    tree: &TypeTree,
) -> Result<(), AllocError>
    ensures { OnOk result (slots.new
        ≡ slots.old
        ++ types.class_slots declared.now (spec.class_marks infer (placed_type tree.now))) }
{
    match tree {
        TypeTree::Class { members, .. } => {
            push_members(alloc, declared, slots, infer, false, members)
        }
        TypeTree::Interface { members, .. } => {
            push_members(alloc, declared, slots, infer, true, members)
        }
    }
}

#[tactic(auto, using(crate::proofs::SlotLoops::type_more))]
fn push_types(
    alloc: Global,
    declared: &Declarations,
    slots: &mut Seq<SlotInfo>,
    infer: Infer,
    trees: &[TypeTree],
) -> Result<(), AllocError>
    ensures { OnOk result (slots.new
        ≡ slots.old
        ++ types.slots_of_all declared.now
        (map (spec.class_marks infer) (map placed_type trees.now))) }
{
    for tree in trees {
        push_type(alloc, declared, slots, infer, tree)?;
    }
    Ok(())
}

/// The slots of the files by the choice, where these are the files' declarations.
#[tactic(auto, using(crate::proofs::SlotLoops::file_more))]
pub fn slots_by(
    alloc: Global,
    declared: &Declarations,
    infer: Infer,
    files: &[FileTree],
) -> Result<Seq<SlotInfo>, AllocError>
    requires { declared.now ≡ heads (map placed_file files.now) }
    ensures { IfOk result (λ slots. slots ≡ spec.slots_by infer (map placed_file files.now)) }
{
    let mut slots = Seq::new(alloc);
    for file in files {
        push_types(alloc, declared, &mut slots, infer, &file.types)?;
    }
    Ok(slots)
}
