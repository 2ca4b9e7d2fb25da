//! Where `@Nullable` is written for a slot.
ghost use Rattle.std.specs.Prelude.{◌≡◌, ◌++◌, drop, map, IfOk, OnOk};
ghost use Rattle.jn_points.specs.Members.{some_of};
ghost use Rattle.jn_trees.specs.Spelling.{spell_marks, spell_result};
ghost use Rattle.jn_trees.specs.View.{annotation_names, brackets_view, declarator_views, file_view, local_mark, local_marks, mark, marks, member_view, member_views, parameter_views, receiver_view, result_view, type_use_view, type_view};
ghost use Rattle.jn_places.specs.Places.{behind, spell_receiver};
ghost use Rattle.jn_annotate.specs.Puts.{insertions};
ghost use Rattle.jn_lsp_actions.specs.Nulls as spec;

use jn_annotate::files::{fields_behind_type, methods_behind_type};
use jn_annotate::insert::Put;
use jn_annotate::members::{fields_behind, first_slot, methods_behind};
use jn_annotate::positions::put_nullity;
use jn_annotate::steps::{
    behind_imports, behind_interfaces, behind_local_marks, behind_marks, behind_member,
    behind_package, behind_parameter, behind_parent, behind_parents, behind_receiver,
    behind_result, behind_type, step,
};
use jn_annotate::taken::is_slot;
use jn_base::{NameNo, OutOfMemory, SlotNo};
use jn_known::{MONOTONIC_NON_NULL, NON_NULL, NULLABLE};
use jn_points::{Field, Method};
use jn_quals::Qual;
use jn_trees::{
    Annotation, Declarator, FileTree, LocalModifier, Member, Modifier, Parameter, Receiver,
    ResultUse, Token, TypeTree, TypeUse,
};
use std::alloc::Global;

/// Whether the annotation says whether what is declared may be null.
fn is_nullity(name: NameNo) -> bool
    ensures { result ≡ spec.is_nullity name }
{
    name.0 == NON_NULL.0 || name.0 == NULLABLE.0 || name.0 == MONOTONIC_NON_NULL.0
}

fn mark_says(modifier: Modifier) -> bool
    ensures { result ≡ spec.mark_says (mark modifier) }
{
    match modifier {
        Modifier::Annotation(annotation) => is_nullity(annotation.name),
        _ => false,
    }
}

fn marks_say(modifiers: &[Modifier]) -> bool
    ensures { result ≡ some_of spec.mark_says (marks modifiers.now) }
{
    for modifier in modifiers {
        if mark_says(*modifier) {
            return true;
        }
    }
    false
}

fn local_mark_says(modifier: LocalModifier) -> bool
    ensures { result ≡ spec.local_mark_says (local_mark modifier) }
{
    match modifier {
        LocalModifier::Annotation(annotation) => is_nullity(annotation.name),
        LocalModifier::Final(_) => false,
    }
}

fn local_marks_say(modifiers: &[LocalModifier]) -> bool
    ensures { result ≡ some_of spec.local_mark_says (local_marks modifiers.now) }
{
    for modifier in modifiers {
        if local_mark_says(*modifier) {
            return true;
        }
    }
    false
}

fn names_say(annotations: &[Annotation]) -> bool
    ensures { result ≡ some_of spec.is_nullity (annotation_names annotations.now) }
{
    for annotation in annotations {
        if is_nullity(annotation.name) {
            return true;
        }
    }
    false
}

/// Whether nullity is said of a type: of an array before its brackets (JLS 9.7.4).
fn is_said(before: bool, array: &Option<Vec<Annotation>>) -> bool
    ensures { result ≡ spec.is_said before (brackets_view array.now) }
{
    match array {
        None => before,
        Some(annotations) => names_say(annotations),
    }
}

/// Puts the word at the type of what has the slot, unless nullity is said.
fn put_null(
    alloc: Global,
    puts: &mut Vec<Put>,
    slot: u32,
    before: bool,
    tokens: &[Token],
    type_use: &TypeUse,
    has: Option<SlotNo>,
) -> Result<(), OutOfMemory>
    ensures { OnOk result (insertions puts.new.items
        ≡ insertions puts.old.items
        ++ spec.at_null slot before tokens.now (type_use_view type_use.now) has) }
{
    if is_slot(slot, has) && !is_said(before, &type_use.array) {
        put_nullity(alloc, puts, tokens, type_use, Some(Qual::null_only()))
    } else {
        put_nullity(alloc, puts, tokens, type_use, None)
    }
}

fn put_parameter(
    alloc: Global,
    puts: &mut Vec<Put>,
    slot: u32,
    tokens: &[Token],
    parameter: &Parameter,
    has: Option<SlotNo>,
) -> Result<(), OutOfMemory>
    ensures { OnOk result (insertions puts.new.items
        ≡ insertions puts.old.items
        ++ spec.at_null slot
        (some_of spec.local_mark_says (local_marks parameter.now.modifiers.items))
        (behind tokens.now (spell_marks (local_marks parameter.now.modifiers.items)))
        (type_use_view parameter.now.type_use) has) }
{
    let before = local_marks_say(&parameter.modifiers);
    let type_use = behind_local_marks(tokens, &parameter.modifiers);
    put_null(
        alloc,
        puts,
        slot,
        before,
        type_use,
        &parameter.type_use,
        has,
    )
}

/// Of parameters, in their order.
#[tactic(auto, using(jn_annotate::proofs::Walking::next_part))]
fn put_parameters(
    alloc: Global,
    puts: &mut Vec<Put>,
    slot: u32,
    tokens: &[Token],
    parameters: &[Parameter],
    slots: &[Option<SlotNo>],
) -> Result<(), OutOfMemory>
    ensures { OnOk result (insertions puts.new.items
        ≡ insertions puts.old.items
        ++ spec.null_parameters slot tokens.now (parameter_views parameters.now) slots.now) }
{
    let mut rest = tokens;
    let mut left = slots;
    for parameter in parameters {
        match left {
            [] => return Ok(()),
            [has, more @ ..] => {
                put_parameter(alloc, puts, slot, rest, parameter, *has)?;
                left = more;
            }
        }
        rest = behind_parameter(rest, parameter);
    }
    Ok(())
}

fn put_result(
    alloc: Global,
    puts: &mut Vec<Put>,
    slot: u32,
    before: bool,
    tokens: &[Token],
    result_use: &ResultUse,
    has: Option<SlotNo>,
) -> Result<(), OutOfMemory>
    ensures { OnOk result (insertions puts.new.items
        ≡ insertions puts.old.items
        ++ spec.null_result slot before tokens.now (result_view result_use.now) has) }
{
    match result_use {
        ResultUse::Void(_) => Ok(()),
        ResultUse::Value(type_use) => { put_null(alloc, puts, slot, before, tokens, type_use, has) }
    }
}

/// Of a method's result and parameters; the first tokens are those of its result.
#[tactic(auto, using(jn_annotate::proofs::Walking::two_parts))]
fn put_method(
    alloc: Global,
    puts: &mut Vec<Put>,
    slot: u32,
    before: bool,
    tokens: &[Token],
    result_use: &ResultUse,
    receiver: &Option<Receiver>,
    parameters: &[Parameter],
    method: &Method,
) -> Result<(), OutOfMemory>
    ensures { OnOk result (insertions puts.new.items
        ≡ insertions puts.old.items
        ++ (spec.null_result slot before tokens.now (result_view result_use.now)
        method.now.result_slot
        ++ spec.null_parameters slot
        (behind (drop 1 (drop 1 (behind tokens.now (spell_result (result_view result_use.now)))))
        (spell_receiver (receiver_view receiver.now)))
        (parameter_views parameters.now) method.now.param_slots)) }
{
    put_result(
        alloc,
        puts,
        slot,
        before,
        tokens,
        result_use,
        method.result_slot,
    )?;
    let paren = step(behind_result(tokens, result_use));
    let first = behind_receiver(step(paren), receiver);
    put_parameters(
        alloc,
        puts,
        slot,
        first,
        parameters,
        method.param_slots.as_slice(),
    )
}

/// Of a field, where no further fields are declared with it.
fn put_field(
    alloc: Global,
    puts: &mut Vec<Put>,
    slot: u32,
    before: bool,
    tokens: &[Token],
    type_use: &TypeUse,
    more: &[Declarator],
    has: Option<SlotNo>,
) -> Result<(), OutOfMemory>
    ensures { OnOk result (insertions puts.new.items
        ≡ insertions puts.old.items
        ++ spec.null_field slot before tokens.now (type_use_view type_use.now)
        (declarator_views more.now) has) }
{
    match more {
        [] => put_null(alloc, puts, slot, before, tokens, type_use, has),
        [_, ..] => Ok(()),
    }
}

/// Of a member; the first fields and methods are those that it declares.
#[tactic(auto, using(jn_annotate::proofs::Cursors::behind_append))]
fn put_member(
    alloc: Global,
    puts: &mut Vec<Put>,
    slot: u32,
    tokens: &[Token],
    member: &Member,
    fields: &[Field],
    methods: &[Method],
) -> Result<(), OutOfMemory>
    ensures { OnOk result (insertions puts.new.items
        ≡ insertions puts.old.items
        ++ spec.null_member slot tokens.now (member_view member.now) fields.now methods.now) }
{
    match member {
        Member::Field {
            modifiers,
            type_use,
            more,
            ..
        } => {
            let before = marks_say(modifiers);
            let first = behind_marks(tokens, modifiers);
            let has = first_slot(fields);
            put_field(alloc, puts, slot, before, first, type_use, more, has)
        }
        Member::Method {
            modifiers,
            result,
            receiver,
            parameters,
            ..
        } => match methods.split_first() {
            None => Ok(()),
            Some((method, _)) => put_method(
                alloc,
                puts,
                slot,
                marks_say(modifiers),
                behind_marks(tokens, modifiers),
                result,
                receiver,
                parameters,
                method,
            ),
        },
        Member::Constructor {
            modifiers,
            parameters,
            ..
        } => match methods.split_first() {
            None => Ok(()),
            Some((method, _)) => put_parameters(
                alloc,
                puts,
                slot,
                step(step(behind_marks(tokens, modifiers))),
                parameters,
                method.param_slots.as_slice(),
            ),
        },
    }
}

/// Of members, in their order.
#[tactic(auto, using(jn_annotate::proofs::Walking::next_part))]
fn put_members(
    alloc: Global,
    puts: &mut Vec<Put>,
    slot: u32,
    tokens: &[Token],
    members: &[Member],
    fields: &[Field],
    methods: &[Method],
) -> Result<(), OutOfMemory>
    ensures { OnOk result (insertions puts.new.items
        ≡ insertions puts.old.items
        ++ spec.null_members slot tokens.now (member_views members.now) fields.now methods.now) }
{
    let mut rest = tokens;
    let mut fields = fields;
    let mut methods = methods;
    for member in members {
        put_member(alloc, puts, slot, rest, member, fields, methods)?;
        rest = behind_member(alloc, rest, member)?;
        fields = fields_behind(fields, member);
        methods = methods_behind(methods, member);
    }
    Ok(())
}

/// Of a type's members.
#[tactic(auto, using(jn_annotate::proofs::Cursors::behind_append))]
fn put_type(
    alloc: Global,
    puts: &mut Vec<Put>,
    slot: u32,
    tokens: &[Token],
    declared: &TypeTree,
    fields: &[Field],
    methods: &[Method],
) -> Result<(), OutOfMemory>
    ensures { OnOk result (insertions puts.new.items
        ≡ insertions puts.old.items
        ++ spec.null_type slot tokens.now (type_view declared.now) fields.now methods.now) }
{
    match declared {
        TypeTree::Class {
            modifiers,
            parent,
            interfaces,
            members,
            ..
        } => {
            let name = step(behind_marks(tokens, modifiers));
            let inside = step(behind_interfaces(behind_parent(step(name), parent), interfaces));
            put_members(alloc, puts, slot, inside, members, fields, methods)
        }
        TypeTree::Interface {
            modifiers,
            parents,
            members,
            ..
        } => {
            let name = step(behind_marks(tokens, modifiers));
            let inside = step(behind_parents(step(name), parents));
            put_members(alloc, puts, slot, inside, members, fields, methods)
        }
    }
}

/// Of types, in their order.
#[tactic(auto, using(jn_annotate::proofs::Walking::next_part))]
fn put_types(
    alloc: Global,
    puts: &mut Vec<Put>,
    slot: u32,
    tokens: &[Token],
    types: &[TypeTree],
    fields: &[Field],
    methods: &[Method],
) -> Result<(), OutOfMemory>
    ensures { OnOk result (insertions puts.new.items
        ≡ insertions puts.old.items
        ++ spec.null_types slot tokens.now (map type_view types.now) fields.now methods.now) }
{
    let mut rest = tokens;
    let mut fields = fields;
    let mut methods = methods;
    for declared in types {
        put_type(alloc, puts, slot, rest, declared, fields, methods)?;
        rest = behind_type(alloc, rest, declared)?;
        fields = fields_behind_type(fields, declared);
        methods = methods_behind_type(methods, declared);
    }
    Ok(())
}

/// The word for the slot, in a file that declares the first of these fields and methods.
///
/// # Errors
/// No memory was found.
#[tactic(auto, using(jn_annotate::proofs::Cursors::behind_append))]
pub fn null_puts(
    alloc: Global,
    slot: u32,
    tokens: &[Token],
    tree: &FileTree,
    fields: &[Field],
    methods: &[Method],
) -> Result<Vec<Put>, OutOfMemory>
    ensures { IfOk result (λ puts. insertions puts.items
        ≡ spec.null_file slot tokens.now (file_view tree.now) fields.now methods.now) }
{
    let mut puts = Vec::new(alloc);
    let rest = behind_imports(behind_package(tokens, &tree.package), &tree.imports);
    put_types(alloc, &mut puts, slot, rest, &tree.types, fields, methods)?;
    Ok(puts)
}
