//! Where the words of a file's inferred slots stand: a walk over its members, with cursors into its tokens and into the fields and methods of
//! its program.
ghost use Rattle.std.specs.Prelude.{◌≡◌, ◌++◌, drop, OnOk};
ghost use Rattle.jn_trees.specs.Spelling.{spell_marks, spell_result};
ghost use Rattle.jn_trees.specs.View.{local_marks, member_view, member_views, parameter_views, receiver_view, result_view, type_use_view};
ghost use Rattle.jn_places.specs.Places.{behind};
ghost use Rattle.jn_annotate.specs.Insertions as spec;
ghost use Rattle.jn_annotate.specs.Words.{both_texts};
ghost use Rattle.jn_annotate.specs.Puts.{insertions};

use crate::insert::Put;
use crate::parts::items_behind;
use crate::positions::{inferred_qual, put_both, put_nullity, put_receiver};
use crate::steps::{
    behind_local_marks, behind_marks, behind_member, behind_parameter, behind_receiver,
    behind_result, step,
};
use jn_base::{OutOfMemory, SlotNo};
use jn_points::{Field, Method, Program};
use jn_sigs::Sig;
use jn_trees::{Member, Parameter, Receiver, ResultUse, Token};
use std::alloc::Global;

/// The methods after the first.
pub fn next_methods(methods: &[Method]) -> &[Method]
    ensures { result.now ≡ drop 1 methods.now }
{
    match methods.split_first() {
        None => methods,
        Some((_, rest)) => rest,
    }
}

/// The slot of the first field.
pub fn first_slot(fields: &[Field]) -> Option<SlotNo>
    ensures { result ≡ spec.first_slot fields.now }
{
    match fields.split_first() {
        None => None,
        Some((first, _)) => first.slot,
    }
}

/// The fields after those that a member declares.
pub fn fields_behind<'p>(fields: &'p [Field], member: &Member) -> &'p [Field]
    ensures { result.now ≡ drop (spec.fields_in (member_view member.now)) fields.now }
{
    match member {
        Member::Field { more, .. } => items_behind(items_behind(fields, 1), more.len()),
        Member::Method { .. } => fields,
        Member::Constructor { .. } => fields,
    }
}

/// The methods after the one that a member declares.
pub fn methods_behind<'p>(methods: &'p [Method], member: &Member) -> &'p [Method]
    ensures { result.now ≡ drop (spec.methods_in (member_view member.now)) methods.now }
{
    match member {
        Member::Field { .. } => methods,
        Member::Method { .. } => next_methods(methods),
        Member::Constructor { .. } => next_methods(methods),
    }
}

/// Puts the words of one parameter.
fn put_parameter(
    alloc: Global,
    puts: &mut Vec<Put>,
    program: &Program,
    sig: &Sig,
    tokens: &[Token],
    parameter: &Parameter,
    slot: Option<SlotNo>,
) -> Result<(), OutOfMemory>
    ensures { OnOk result (insertions puts.new.items
        ≡ insertions puts.old.items
        ++ spec.at_type both_texts
        (behind tokens.now (spell_marks (local_marks parameter.now.modifiers.items)))
        (type_use_view parameter.now.type_use)
        (spec.inferred_qual program.now.slots sig.now slot)) }
{
    let type_use = behind_local_marks(tokens, &parameter.modifiers);
    put_both(
        alloc,
        puts,
        type_use,
        &parameter.type_use,
        inferred_qual(program, sig, slot),
    )
}

/// Puts the words of parameters, in their order.
#[tactic(auto, using(crate::proofs::Walking::next_part))]
fn put_parameters(
    alloc: Global,
    puts: &mut Vec<Put>,
    program: &Program,
    sig: &Sig,
    tokens: &[Token],
    parameters: &[Parameter],
    slots: &[Option<SlotNo>],
) -> Result<(), OutOfMemory>
    ensures { OnOk result (insertions puts.new.items
        ≡ insertions puts.old.items
        ++ spec.at_parameters program.now.slots sig.now tokens.now
        (parameter_views parameters.now) slots.now) }
{
    let mut rest = tokens;
    let mut left = slots;
    for parameter in parameters {
        match left {
            [] => return Ok(()),
            [slot, more @ ..] => {
                put_parameter(alloc, puts, program, sig, rest, parameter, *slot)?;
                left = more;
            }
        }
        rest = behind_parameter(rest, parameter);
    }
    Ok(())
}

/// Puts the words of what a method gives.
fn put_result(
    alloc: Global,
    puts: &mut Vec<Put>,
    program: &Program,
    sig: &Sig,
    tokens: &[Token],
    result_use: &ResultUse,
    slot: Option<SlotNo>,
) -> Result<(), OutOfMemory>
    ensures { OnOk result (insertions puts.new.items
        ≡ insertions puts.old.items
        ++ spec.at_result program.now.slots sig.now tokens.now (result_view result_use.now)
        slot) }
{
    match result_use {
        ResultUse::Void(_) => Ok(()),
        ResultUse::Value(type_use) => put_both(
            alloc,
            puts,
            tokens,
            type_use,
            inferred_qual(program, sig, slot),
        ),
    }
}

/// Puts the words of a method's receiver and parameters; the first token is the parenthesis.
#[tactic(auto, using(crate::proofs::Walking::two_parts))]
fn put_head(
    alloc: Global,
    puts: &mut Vec<Put>,
    program: &Program,
    sig: &Sig,
    class: &[u8],
    paren: &[Token],
    receiver: &Option<Receiver>,
    parameters: &[Parameter],
    method: &Method,
) -> Result<(), OutOfMemory>
    ensures { OnOk result (insertions puts.new.items
        ≡ insertions puts.old.items
        ++ spec.at_head program.now.slots sig.now class.now paren.now
        (receiver_view receiver.now) (parameter_views parameters.now) method.now) }
{
    let qual = inferred_qual(program, sig, method.receiver);
    put_receiver(alloc, puts, class, paren, receiver, parameters, qual)?;
    let first = behind_receiver(step(paren), receiver);
    put_parameters(
        alloc,
        puts,
        program,
        sig,
        first,
        parameters,
        method.param_slots.as_slice(),
    )
}

/// Puts the words of a method's result, receiver and parameters; the first tokens are those of its result.
#[tactic(auto, using(crate::proofs::Walking::two_parts))]
fn put_method(
    alloc: Global,
    puts: &mut Vec<Put>,
    program: &Program,
    sig: &Sig,
    class: &[u8],
    tokens: &[Token],
    result_use: &ResultUse,
    receiver: &Option<Receiver>,
    parameters: &[Parameter],
    method: &Method,
) -> Result<(), OutOfMemory>
    ensures { OnOk result (insertions puts.new.items
        ≡ insertions puts.old.items
        ++ (spec.at_result program.now.slots sig.now tokens.now (result_view result_use.now)
        method.now.result_slot
        ++ spec.at_head program.now.slots sig.now class.now
        (drop 1 (behind tokens.now (spell_result (result_view result_use.now))))
        (receiver_view receiver.now) (parameter_views parameters.now) method.now)) }
{
    put_result(
        alloc,
        puts,
        program,
        sig,
        tokens,
        result_use,
        method.result_slot,
    )?;
    let paren = step(behind_result(tokens, result_use));
    put_head(
        alloc, puts, program, sig, class, paren, receiver, parameters, method,
    )
}

/// Puts the words of a member; the first fields and methods are those that it declares.
#[tactic(auto, using(crate::proofs::Cursors::behind_append))]
fn put_member(
    alloc: Global,
    puts: &mut Vec<Put>,
    program: &Program,
    sig: &Sig,
    class: &[u8],
    tokens: &[Token],
    member: &Member,
    fields: &[Field],
    methods: &[Method],
) -> Result<(), OutOfMemory>
    ensures { OnOk result (insertions puts.new.items
        ≡ insertions puts.old.items
        ++ spec.at_member program.now.slots sig.now class.now tokens.now
        (member_view member.now) fields.now methods.now) }
{
    match member {
        Member::Field {
            modifiers,
            type_use,
            ..
        } => {
            let qual = inferred_qual(program, sig, first_slot(fields));
            put_nullity(alloc, puts, behind_marks(tokens, modifiers), type_use, qual)
        }
        Member::Method {
            modifiers,
            result,
            receiver,
            parameters,
            ..
        } => match methods.split_first() {
            None => Ok(()),
            Some((method, _)) => put_method(
                alloc,
                puts,
                program,
                sig,
                class,
                behind_marks(tokens, modifiers),
                result,
                receiver,
                parameters,
                method,
            ),
        },
        Member::Constructor {
            modifiers,
            parameters,
            ..
        } => match methods.split_first() {
            None => Ok(()),
            Some((method, _)) => put_parameters(
                alloc,
                puts,
                program,
                sig,
                step(step(behind_marks(tokens, modifiers))),
                parameters,
                method.param_slots.as_slice(),
            ),
        },
    }
}

/// Puts the words of members, in their order.
#[tactic(auto, using(crate::proofs::Walking::next_part))]
pub fn put_members(
    alloc: Global,
    puts: &mut Vec<Put>,
    program: &Program,
    sig: &Sig,
    class: &[u8],
    tokens: &[Token],
    members: &[Member],
    fields: &[Field],
    methods: &[Method],
) -> Result<(), OutOfMemory>
    ensures { OnOk result (insertions puts.new.items
        ≡ insertions puts.old.items
        ++ spec.at_members program.now.slots sig.now class.now tokens.now
        (member_views members.now) fields.now methods.now) }
{
    let mut rest = tokens;
    let mut fields = fields;
    let mut methods = methods;
    for member in members {
        put_member(
            alloc, puts, program, sig, class, rest, member, fields, methods,
        )?;
        rest = behind_member(alloc, rest, member)?;
        fields = fields_behind(fields, member);
        methods = methods_behind(methods, member);
    }
    Ok(())
}
