//! Members.
ghost use Rattle.std.specs.Prelude.{◌≡◌};
ghost use Rattle.jn_places.specs.PlacedView.{placed_body, placed_member, placed_members, placed_parameter, placed_parameters, placed_receiver, placed_result};
ghost use Rattle.jn_renumber.specs.Renumbered.{renumbered_body, renumbered_mark, renumbered_marks, renumbered_member, renumbered_members, renumbered_parameter, renumbered_parameters, renumbered_receiver, renumbered_result};

use crate::locals::{
    renumber_declarator, renumber_declarators, renumber_local_marks, renumber_type_use,
};
use crate::names::{renumber_annotation, renumber_annotations, renumber_name};
use crate::statements::renumber_statements;
use jn_base::NameNo;
use jn_trees::{Member, Modifier, Parameter, Receiver, ResultUse, Stmt};

/// Renumbers a modifier.
fn renumber_mark(numbers: &[NameNo], modifier: &mut Modifier)
    ensures { modifier.new ≡ renumbered_mark numbers.now modifier.old }
{
    match modifier {
        Modifier::Annotation(annotation) => renumber_annotation(numbers, annotation),
        Modifier::Public(_span) => (),
        Modifier::Protected(_span) => (),
        Modifier::Private(_span) => (),
        Modifier::Static(_span) => (),
        Modifier::Final(_span) => (),
        Modifier::Abstract(_span) => (),
    }
}

/// Renumbers modifiers.
pub fn renumber_marks(numbers: &[NameNo], modifiers: &mut Vec<Modifier>)
    ensures { modifiers.new.items ≡ renumbered_marks numbers.now modifiers.old.items }
{
    for at in 0..modifiers.len() {
        renumber_mark(numbers, &mut modifiers[at]);
    }
}

/// Renumbers the names of a parameter.
fn renumber_parameter(numbers: &[NameNo], parameter: &mut Parameter)
    ensures { placed_parameter parameter.new
        ≡ renumbered_parameter numbers.now (placed_parameter parameter.old) }
{
    renumber_local_marks(numbers, &mut parameter.modifiers);
    renumber_type_use(numbers, &mut parameter.type_use);
    renumber_name(numbers, &mut parameter.name);
}

/// Renumbers the names of parameters.
fn renumber_parameters(numbers: &[NameNo], parameters: &mut Vec<Parameter>)
    ensures { placed_parameters parameters.new.items
        ≡ renumbered_parameters numbers.now (placed_parameters parameters.old.items) }
{
    for at in 0..parameters.len() {
        renumber_parameter(numbers, &mut parameters[at]);
    }
}

/// Renumbers the names of a receiver, where there is one.
fn renumber_receiver(numbers: &[NameNo], receiver: &mut Option<Receiver>)
    ensures { placed_receiver receiver.new
        ≡ renumbered_receiver numbers.now (placed_receiver receiver.old) }
{
    match receiver {
        None => (),
        Some(receiver) => {
            renumber_annotations(numbers, &mut receiver.annotations);
            renumber_name(numbers, &mut receiver.class);
        }
    }
}

/// Renumbers the names of what a method gives.
fn renumber_result(numbers: &[NameNo], result_use: &mut ResultUse)
    ensures { placed_result result_use.new
        ≡ renumbered_result numbers.now (placed_result result_use.old) }
{
    match result_use {
        ResultUse::Void(_span) => (),
        ResultUse::Value(type_use) => renumber_type_use(numbers, type_use),
    }
}

/// Renumbers the names of a method's body, where there is one.
fn renumber_body(numbers: &[NameNo], body: &mut Option<Vec<Stmt>>)
    ensures { placed_body body.new ≡ renumbered_body numbers.now (placed_body body.old) }
{
    match body {
        None => (),
        Some(statements) => renumber_statements(numbers, statements),
    }
}

/// Renumbers the names of a member.
fn renumber_member(numbers: &[NameNo], member: &mut Member)
    ensures { placed_member member.new ≡ renumbered_member numbers.now (placed_member member.old) }
{
    match member {
        Member::Field {
            modifiers,
            type_use,
            first,
            more,
            span: _span,
        } => {
            renumber_marks(numbers, modifiers);
            renumber_type_use(numbers, type_use);
            renumber_declarator(numbers, first);
            renumber_declarators(numbers, more);
        }
        Member::Method {
            modifiers,
            result,
            name,
            receiver,
            parameters,
            body,
            span: _span,
        } => {
            renumber_marks(numbers, modifiers);
            renumber_result(numbers, result);
            renumber_name(numbers, name);
            renumber_receiver(numbers, receiver);
            renumber_parameters(numbers, parameters);
            renumber_body(numbers, body);
        }
        Member::Constructor {
            modifiers,
            name,
            parameters,
            body,
            span: _span,
        } => {
            renumber_marks(numbers, modifiers);
            renumber_name(numbers, name);
            renumber_parameters(numbers, parameters);
            renumber_statements(numbers, body);
        }
    }
}

/// Renumbers the names of members.
pub fn renumber_members(numbers: &[NameNo], members: &mut Vec<Member>)
    ensures { placed_members members.new.items
        ≡ renumbered_members numbers.now (placed_members members.old.items) }
{
    for at in 0..members.len() {
        renumber_member(numbers, &mut members[at]);
    }
}
