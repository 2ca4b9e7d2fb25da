//! The slots whose words annotating puts into a file: a walk over its members, with cursors into the fields and methods of its program.
ghost use Rattle.std.specs.Prelude.{◌≡◌, ◌++◌, map, IfOk, OnOk, slice_get};
ghost use Rattle.jn_annotate.specs.Annotated.{members_of};
ghost use Rattle.jn_transfer.specs.Contributions.{is_inferred};
ghost use Rattle.jn_trees.specs.View.{member_view, member_views, parameter_views, result_view, type_view};
ghost use Rattle.jn_lsp_actions.specs.Slots as spec;

use jn_annotate::files::{fields_behind_type, methods_behind_type};
use jn_annotate::members::{fields_behind, first_slot, methods_behind};
use jn_base::SlotNo;
use jn_base::lists::put;
use jn_points::{Field, Method, Program};
use jn_trees::{Member, Parameter, ResultUse, TypeTree};
use std::alloc::{AllocError, Global};

fn is_inferred(program: &Program, slot: SlotNo) -> bool
    ensures { result ≡ is_inferred (slice_get program.now.slots slot.0) }
{
    match program.slots.as_slice().get(slot.0 as usize) {
        None => false,
        Some(info) => info.inferred,
    }
}

/// Puts the slot after the others, where it is inferred.
fn put_slot(slots: &mut Vec<u32>, program: &Program, slot: Option<SlotNo>) -> Result<(), AllocError>
    ensures { OnOk result
        (slots.new.items ≡ slots.old.items ++ spec.inferred_slot program.now.slots slot) }
{
    match slot {
        None => Ok(()),
        Some(slot) => {
            if is_inferred(program, slot) {
                put(slots, slot.0)
            } else {
                Ok(())
            }
        }
    }
}

/// Of parameters, in their order.
#[tactic(auto, using(jn_annotate::proofs::Walking::next_slots))]
fn put_parameters(
    slots: &mut Vec<u32>,
    program: &Program,
    parameters: &[Parameter],
    has: &[Option<SlotNo>],
) -> Result<(), AllocError>
    ensures { OnOk result (slots.new.items
        ≡ slots.old.items
        ++ spec.parameter_slots program.now.slots (parameter_views parameters.now) has.now) }
{
    let mut rest = parameters;
    let mut left = has;
    while let [_, more @ ..] = rest {
        match left {
            [] => return Ok(()),
            [slot, others @ ..] => {
                put_slot(slots, program, *slot)?;
                rest = more;
                left = others;
            }
        }
    }
    Ok(())
}

/// Of what a method gives.
fn put_result(
    slots: &mut Vec<u32>,
    program: &Program,
    result_use: &ResultUse,
    has: Option<SlotNo>,
) -> Result<(), AllocError>
    ensures { OnOk result (slots.new.items
        ≡ slots.old.items
        ++ spec.result_slots program.now.slots (result_view result_use.now) has) }
{
    match result_use {
        ResultUse::Void(_) => Ok(()),
        ResultUse::Value(_) => put_slot(slots, program, has),
    }
}

/// Of a method's receiver and parameters.
#[tactic(auto, using(crate::proofs::Slotting::two_parts))]
fn put_head(
    slots: &mut Vec<u32>,
    program: &Program,
    parameters: &[Parameter],
    method: &Method,
) -> Result<(), AllocError>
    ensures { OnOk result (slots.new.items
        ≡ slots.old.items
        ++ (spec.inferred_slot program.now.slots method.now.receiver
        ++ spec.parameter_slots program.now.slots (parameter_views parameters.now)
        method.now.param_slots)) }
{
    put_slot(slots, program, method.receiver)?;
    put_parameters(slots, program, parameters, method.param_slots.as_slice())
}

/// Of a method's result, receiver and parameters.
#[tactic(auto, using(crate::proofs::Slotting::two_parts))]
fn put_method(
    slots: &mut Vec<u32>,
    program: &Program,
    result_use: &ResultUse,
    parameters: &[Parameter],
    method: &Method,
) -> Result<(), AllocError>
    ensures { OnOk result (slots.new.items
        ≡ slots.old.items
        ++ (spec.result_slots program.now.slots (result_view result_use.now)
        method.now.result_slot
        ++ (spec.inferred_slot program.now.slots method.now.receiver
        ++ spec.parameter_slots program.now.slots (parameter_views parameters.now)
        method.now.param_slots))) }
{
    put_result(slots, program, result_use, method.result_slot)?;
    put_head(slots, program, parameters, method)
}

/// Of a member; the first fields and methods are those that it declares.
fn put_member(
    slots: &mut Vec<u32>,
    program: &Program,
    member: &Member,
    fields: &[Field],
    methods: &[Method],
) -> Result<(), AllocError>
    ensures { OnOk result (slots.new.items
        ≡ slots.old.items
        ++ spec.member_slots program.now.slots (member_view member.now) fields.now methods.now) }
{
    match member {
        Member::Field { .. } => put_slot(slots, program, first_slot(fields)),
        Member::Method {
            result,
            parameters,
            ..
        } => match methods.split_first() {
            None => Ok(()),
            Some((method, _)) => put_method(slots, program, result, parameters, method),
        },
        Member::Constructor { parameters, .. } => match methods.split_first() {
            None => Ok(()),
            Some((method, _)) => {
                put_parameters(slots, program, parameters, method.param_slots.as_slice())
            }
        },
    }
}

/// Of members, in their order.
#[tactic(auto, using(jn_annotate::proofs::Walking::next_slots))]
fn put_members(
    slots: &mut Vec<u32>,
    program: &Program,
    members: &[Member],
    fields: &[Field],
    methods: &[Method],
) -> Result<(), AllocError>
    ensures { OnOk result (slots.new.items
        ≡ slots.old.items
        ++ spec.members_slots program.now.slots (member_views members.now) fields.now
        methods.now) }
{
    let mut fields = fields;
    let mut methods = methods;
    for member in members {
        put_member(slots, program, member, fields, methods)?;
        fields = fields_behind(fields, member);
        methods = methods_behind(methods, member);
    }
    Ok(())
}

/// Of a type's members.
fn put_type(
    slots: &mut Vec<u32>,
    program: &Program,
    declared: &TypeTree,
    fields: &[Field],
    methods: &[Method],
) -> Result<(), AllocError>
    ensures { OnOk result (slots.new.items
        ≡ slots.old.items
        ++ spec.members_slots program.now.slots (members_of (type_view declared.now)) fields.now
        methods.now) }
{
    match declared {
        TypeTree::Class { members, .. } => put_members(slots, program, members, fields, methods),
        TypeTree::Interface { members, .. } => {
            put_members(slots, program, members, fields, methods)
        }
    }
}

/// Of types, in their order.
#[tactic(auto, using(jn_annotate::proofs::Walking::next_slots))]
fn put_types(
    slots: &mut Vec<u32>,
    program: &Program,
    types: &[TypeTree],
    fields: &[Field],
    methods: &[Method],
) -> Result<(), AllocError>
    ensures { OnOk result (slots.new.items
        ≡ slots.old.items
        ++ spec.types_slots program.now.slots (map type_view types.now) fields.now methods.now) }
{
    let mut fields = fields;
    let mut methods = methods;
    for declared in types {
        put_type(slots, program, declared, fields, methods)?;
        fields = fields_behind_type(fields, declared);
        methods = methods_behind_type(methods, declared);
    }
    Ok(())
}

/// The slots whose words are put into a file of these types, in the order of the words, where the program's inferred slots get theirs; the first
/// fields and methods are those that the file declares.
///
/// # Errors
/// No memory was found.
pub fn file_slots(
    alloc: Global,
    program: &Program,
    types: &[TypeTree],
    fields: &[Field],
    methods: &[Method],
) -> Result<Vec<u32>, AllocError>
    ensures { IfOk result (λ slots. slots.items
        ≡ spec.types_slots program.now.slots (map type_view types.now) fields.now methods.now) }
{
    let mut slots = Vec::new(alloc);
    put_types(&mut slots, program, types, fields, methods)?;
    Ok(slots)
}
