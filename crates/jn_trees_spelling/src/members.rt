//! The tokens that spell members.
ghost use Rattle.std.specs.Prelude.{◌≡◌, ◌++◌, OnOk, None};
ghost use Rattle.jn_trees.specs.Spelling.{spell_mark as spec_mark, spell_all_marks as spec_all_marks, spell_parameter as spec_parameter, spell_more_parameters as spec_more_parameters, spell_parameters as spec_parameters, spell_result as spec_result, spell_method_head as spec_method_head, spell_constructor_head as spec_constructor_head, spell_method_body as spec_method_body, spell_field as spec_field, spell_member as spec_member};
ghost use Rattle.jn_trees.specs.View.{mark, marks, parameter_view, parameter_views, receiver_view, result_view, body_view, member_view, type_use_view, declarator_view, declarator_views};

use crate::expressions::spell_annotations;
use crate::locals::{spell_declarator, spell_local_marks, spell_more_declarators, spell_type_use};
use crate::put::{put, put_all};
use crate::statements::spell_body;
use jn_base::{NameNo, OutOfMemory};
use jn_trees::{
    Declarator, Member, Modifier, Parameter, Receiver, ResultUse, Stmt, TokenKind, TypeUse,
};

fn spell_modifier(kinds: &mut Vec<TokenKind>, modifier: Modifier) -> Result<(), OutOfMemory>
    ensures { OnOk result (kinds.new.items ≡ kinds.old.items ++ spec_mark (mark modifier)) }
{
    match modifier {
        Modifier::Annotation(annotation) => put_all(
            kinds,
            &[TokenKind::At, TokenKind::Id(annotation.name)],
        ),
        Modifier::Public(_) => put(kinds, TokenKind::Public),
        Modifier::Protected(_) => put(kinds, TokenKind::Protected),
        Modifier::Private(_) => put(kinds, TokenKind::Private),
        Modifier::Static(_) => put(kinds, TokenKind::Static),
        Modifier::Final(_) => put(kinds, TokenKind::Final),
        Modifier::Abstract(_) => put(kinds, TokenKind::Abstract),
    }
}

/// Puts the modifiers of a type or member after the tokens.
pub fn spell_modifiers(
    kinds: &mut Vec<TokenKind>,
    modifiers: &[Modifier],
) -> Result<(), OutOfMemory>
    ensures { OnOk result
        (kinds.new.items ≡ kinds.old.items ++ spec_all_marks (marks modifiers.now)) }
{
    for modifier in modifiers {
        spell_modifier(kinds, *modifier)?;
    }
    Ok(())
}

fn spell_parameter(kinds: &mut Vec<TokenKind>, parameter: &Parameter) -> Result<(), OutOfMemory>
    ensures { OnOk result
        (kinds.new.items ≡ kinds.old.items ++ spec_parameter (parameter_view parameter.now)) }
{
    spell_local_marks(kinds, &parameter.modifiers)?;
    spell_type_use(kinds, &parameter.type_use)?;
    put(kinds, TokenKind::Id(parameter.name.name))
}

/// Puts further parameters, each after a comma, and the closing parenthesis after the tokens.
fn spell_more_parameters(
    kinds: &mut Vec<TokenKind>,
    parameters: &[Parameter],
) -> Result<(), OutOfMemory>
    ensures { OnOk result (kinds.new.items
        ≡ kinds.old.items ++ spec_more_parameters (parameter_views parameters.now)) }
{
    for parameter in parameters {
        put(kinds, TokenKind::Comma)?;
        spell_parameter(kinds, parameter)?;
    }
    put(kinds, TokenKind::RightParen)
}

/// Puts the parameters, where no receiver stands before them, and the closing parenthesis after the tokens.
fn spell_plain_parameters(
    kinds: &mut Vec<TokenKind>,
    parameters: &[Parameter],
) -> Result<(), OutOfMemory>
    ensures { OnOk result (kinds.new.items
        ≡ kinds.old.items ++ spec_parameters None (parameter_views parameters.now)) }
{
    match parameters.split_first() {
        None => put(kinds, TokenKind::RightParen),
        Some((first, more)) => {
            spell_parameter(kinds, first)?;
            spell_more_parameters(kinds, more)
        }
    }
}

fn spell_parameters(
    kinds: &mut Vec<TokenKind>,
    receiver: &Option<Receiver>,
    parameters: &[Parameter],
) -> Result<(), OutOfMemory>
    ensures { OnOk result (kinds.new.items
        ≡ kinds.old.items
        ++ spec_parameters (receiver_view receiver.now) (parameter_views parameters.now)) }
{
    match receiver {
        None => spell_plain_parameters(kinds, parameters),
        Some(receiver) => {
            spell_annotations(kinds, &receiver.annotations)?;
            put_all(
                kinds,
                &[TokenKind::Id(receiver.class.name), TokenKind::This],
            )?;
            spell_more_parameters(kinds, parameters)
        }
    }
}

fn spell_result(kinds: &mut Vec<TokenKind>, result_use: &ResultUse) -> Result<(), OutOfMemory>
    ensures { OnOk result
        (kinds.new.items ≡ kinds.old.items ++ spec_result (result_view result_use.now)) }
{
    match result_use {
        ResultUse::Void(_) => put(kinds, TokenKind::Void),
        ResultUse::Value(type_use) => spell_type_use(kinds, type_use),
    }
}

/// Puts a method through its closing parenthesis after the tokens.
fn spell_method_head(
    kinds: &mut Vec<TokenKind>,
    modifiers: &[Modifier],
    result_use: &ResultUse,
    name: NameNo,
    receiver: &Option<Receiver>,
    parameters: &[Parameter],
) -> Result<(), OutOfMemory>
    ensures { OnOk result (kinds.new.items
        ≡ kinds.old.items
        ++ spec_method_head (marks modifiers.now) (result_view result_use.now) name
        (receiver_view receiver.now) (parameter_views parameters.now)) }
{
    spell_modifiers(kinds, modifiers)?;
    spell_result(kinds, result_use)?;
    put_all(kinds, &[TokenKind::Id(name), TokenKind::LeftParen])?;
    spell_parameters(kinds, receiver, parameters)
}

/// Puts a constructor through its closing parenthesis after the tokens.
fn spell_constructor_head(
    kinds: &mut Vec<TokenKind>,
    modifiers: &[Modifier],
    name: NameNo,
    parameters: &[Parameter],
) -> Result<(), OutOfMemory>
    ensures { OnOk result (kinds.new.items
        ≡ kinds.old.items
        ++ spec_constructor_head (marks modifiers.now) name (parameter_views parameters.now)) }
{
    spell_modifiers(kinds, modifiers)?;
    put_all(kinds, &[TokenKind::Id(name), TokenKind::LeftParen])?;
    spell_plain_parameters(kinds, parameters)
}

fn spell_method_body(
    kinds: &mut Vec<TokenKind>,
    body: &Option<Vec<Stmt>>,
) -> Result<(), OutOfMemory>
    ensures { OnOk result
        (kinds.new.items ≡ kinds.old.items ++ spec_method_body (body_view body.now)) }
{
    match body {
        None => put(kinds, TokenKind::Semicolon),
        Some(statements) => {
            put(kinds, TokenKind::LeftBrace)?;
            spell_body(kinds, statements)
        }
    }
}

fn spell_field(
    kinds: &mut Vec<TokenKind>,
    modifiers: &[Modifier],
    type_use: &TypeUse,
    first: &Declarator,
    more: &[Declarator],
) -> Result<(), OutOfMemory>
    ensures { OnOk result (kinds.new.items
        ≡ kinds.old.items
        ++ spec_field (marks modifiers.now) (type_use_view type_use.now)
        (declarator_view first.now) (declarator_views more.now)) }
{
    spell_modifiers(kinds, modifiers)?;
    spell_type_use(kinds, type_use)?;
    spell_declarator(kinds, first)?;
    spell_more_declarators(kinds, more)?;
    put(kinds, TokenKind::Semicolon)
}

/// Puts the member after the tokens.
pub fn spell_member(kinds: &mut Vec<TokenKind>, member: &Member) -> Result<(), OutOfMemory>
    ensures { OnOk result
        (kinds.new.items ≡ kinds.old.items ++ spec_member (member_view member.now)) }
{
    match member {
        Member::Field {
            modifiers,
            type_use,
            first,
            more,
            ..
        } => spell_field(kinds, modifiers, type_use, first, more),
        Member::Method {
            modifiers,
            result,
            name,
            receiver,
            parameters,
            body,
            ..
        } => {
            spell_method_head(kinds, modifiers, result, name.name, receiver, parameters)?;
            spell_method_body(kinds, body)
        }
        Member::Constructor {
            modifiers,
            name,
            parameters,
            body,
            ..
        } => {
            spell_constructor_head(kinds, modifiers, name.name, parameters)?;
            put(kinds, TokenKind::LeftBrace)?;
            spell_body(kinds, body)
        }
    }
}
