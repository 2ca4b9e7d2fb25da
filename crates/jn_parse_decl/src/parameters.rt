//! Parameters and receivers (JLS 8.4.1).
ghost use Rattle.std.specs.Prelude.{◌≡◌, ◌<◌, IfOk, Some};
ghost use Rattle.jn_trees.specs.View.{local_marks, type_use_view, receiver_view, parameter_view, parameter_views, parent_view};
ghost use Rattle.jn_trees.specs.Pieces.{kinds};
ghost use Rattle.jn_parse_stmt_law.specs.Parts.{read_marks, read_type_use as spec_type_use};
ghost use Rattle.jn_parse_decl_law.specs.PieceReader as reader;
ghost use Rattle.jn_parse_decl.specs.Front.{prepend_parameters, one_parameter, name_behind};
ghost use Rattle.jn_parse_decl.specs.Seen.{seen_parameter, seen_row, seen_parameters, names_seen};

use jn_base::OutOfMemory;
use jn_base::lists::put;
use jn_parse_stmt::{read_local_modifiers, read_type_use};
use jn_trees::reading::{expect, identifier};
use jn_trees::{
    Annotation, Base, Identifier, LocalModifier, Parameter, Receiver, Token, TokenKind, TypeUse,
    final_once,
};
use std::alloc::Global;

/// What stands between the parentheses of a method or a constructor.
#[derive(Drop)]
pub struct Parameters {
    pub receiver: Option<Receiver>,
    pub parameters: Vec<Parameter>,
}

/// What stands between the parentheses, through the closing one, and what follows that.
pub fn read_parameters(
    alloc: Global,
    tokens: &[Token],
) -> Result<Option<(Parameters, &[Token])>, OutOfMemory>
    ensures { IfOk result (λ o. seen_parameters o ≡ reader.read_parameters (kinds tokens.now)) }
{
    match expect(tokens, TokenKind::RightParen) {
        Some(rest) => Ok(Some((
            Parameters {
                receiver: None,
                parameters: Vec::new(alloc),
            },
            rest,
        ))),
        None => some_parameters(alloc, tokens),
    }
}

/// The receiver or the first parameter, and the parameters after it.
fn some_parameters(
    alloc: Global,
    tokens: &[Token],
) -> Result<Option<(Parameters, &[Token])>, OutOfMemory>
    ensures { IfOk result (λ o. seen_parameters o
        ≡ reader.after_type (reader.first_end (read_marks (kinds tokens.now)).0)
        (spec_type_use (read_marks (kinds tokens.now)).1)) }
{
    let (modifiers, rest) = read_local_modifiers(alloc, tokens)?;
    match read_type_use(alloc, rest)? {
        None => Ok(None),
        Some((type_use, rest)) => first_end(alloc, modifiers, type_use, rest),
    }
}

/// The receiver or the first parameter, whose type stands before these tokens, and the parameters after it.
fn first_end(
    alloc: Global,
    modifiers: Vec<LocalModifier>,
    type_use: TypeUse,
    tokens: &[Token],
) -> Result<Option<(Parameters, &[Token])>, OutOfMemory>
    ensures { IfOk result (λ o. seen_parameters o
        ≡ reader.first_end (local_marks modifiers.items) (type_use_view type_use)
        (kinds tokens.now)) }
{
    match expect(tokens, TokenKind::This) {
        Some(rest) => match receiver_of(alloc, &modifiers, &type_use)? {
            None => Ok(None),
            Some(receiver) => behind_receiver(alloc, receiver, rest),
        },
        None => match parameter_end(modifiers, type_use, tokens) {
            None => Ok(None),
            Some((first, rest)) => behind_first(alloc, first, rest),
        },
    }
}

/// The receiver, and the parameters after it.
fn behind_receiver(
    alloc: Global,
    receiver: Receiver,
    tokens: &[Token],
) -> Result<Option<(Parameters, &[Token])>, OutOfMemory>
    ensures { IfOk result (λ o. seen_parameters o
        ≡ reader.with_receiver (receiver_view (Some receiver))
        (reader.read_more_parameters (kinds tokens.now))) }
{
    match more_parameters(alloc, Vec::new(alloc), tokens)? {
        None => Ok(None),
        Some((parameters, rest)) => Ok(Some((
            Parameters {
                receiver: Some(receiver),
                parameters,
            },
            rest,
        ))),
    }
}

/// The first parameter, and those after it.
#[tactic(auto, using(crate::proofs::Rows::first_more))]
fn behind_first(
    alloc: Global,
    first: Parameter,
    tokens: &[Token],
) -> Result<Option<(Parameters, &[Token])>, OutOfMemory>
    ensures { IfOk result (λ o. seen_parameters o
        ≡ reader.without_receiver (reader.add_parameter (parameter_view first)
        (reader.read_more_parameters (kinds tokens.now)))) }
{
    let mut all = Vec::new(alloc);
    put(&mut all, first)?;
    match more_parameters(alloc, all, tokens)? {
        None => Ok(None),
        Some((parameters, rest)) => Ok(Some((
            Parameters {
                receiver: None,
                parameters,
            },
            rest,
        ))),
    }
}

/// These parameters, then those at the front with a comma before each, through the closing parenthesis, and what follows that.
fn more_parameters(
    alloc: Global,
    before: Vec<Parameter>,
    tokens: &[Token],
) -> Result<Option<(Vec<Parameter>, &[Token])>, OutOfMemory>
    ensures { IfOk result (λ o. seen_row o
        ≡ prepend_parameters (parameter_views before.items)
        (reader.read_more_parameters (kinds tokens.now))) }
{
    let mut all = before;
    let mut left = tokens;
    'parameters: loop {
        if let Some(rest) = expect(left, TokenKind::RightParen) {
            return Ok(Some((all, rest)));
        }
        match expect(left, TokenKind::Comma) {
            None => return Ok(None),
            Some(after) => match parameter(alloc, after)? {
                None => return Ok(None),
                Some((found, rest)) => {
                    put(&mut all, found)?;
                    left = rest;
                }
            },
        }
    }
}

/// The parameter at the front, and what follows it.
fn parameter(alloc: Global, tokens: &[Token]) -> Result<Option<(Parameter, &[Token])>, OutOfMemory>
    ensures { IfOk result (λ o. seen_parameter o ≡ one_parameter (kinds tokens.now)) }
{
    let (modifiers, rest) = read_local_modifiers(alloc, tokens)?;
    match read_type_use(alloc, rest)? {
        None => Ok(None),
        Some((type_use, rest)) => Ok(parameter_end(modifiers, type_use, rest)),
    }
}

/// The parameter whose name is at the front.
fn parameter_end(
    modifiers: Vec<LocalModifier>,
    type_use: TypeUse,
    tokens: &[Token],
) -> Option<(Parameter, &[Token])>
    ensures { seen_parameter result
        ≡ name_behind (local_marks modifiers.items) (type_use_view type_use) (kinds tokens.now) }
{
    match identifier(tokens) {
        None => None,
        Some((name, rest)) => Some((
            Parameter {
                modifiers,
                type_use,
                name,
            },
            rest,
        )),
    }
}

/// The receiver that these modifiers and this type make, where they make one.
fn receiver_of(
    alloc: Global,
    modifiers: &[LocalModifier],
    type_use: &TypeUse,
) -> Result<Option<Receiver>, OutOfMemory>
    ensures { IfOk result (λ o. receiver_view o
        ≡ reader.receiver_of (reader.annotation_names_of (local_marks modifiers.now))
        (reader.class_of (type_use_view type_use.now))) }
{
    match annotations_of(alloc, modifiers)? {
        None => Ok(None),
        Some(annotations) => match class_of(type_use) {
            None => Ok(None),
            Some(class) => Ok(Some(Receiver { annotations, class })),
        },
    }
}

/// These modifiers as annotations, where `final` isn't one of them.
fn annotations_of(
    alloc: Global,
    modifiers: &[LocalModifier],
) -> Result<Option<Vec<Annotation>>, OutOfMemory>
    ensures { IfOk result
        (λ o. names_seen o ≡ reader.annotation_names_of (local_marks modifiers.now)) }
{
    let mut all = Vec::new(alloc);
    for modifier in modifiers {
        match modifier {
            LocalModifier::Final(_) => return Ok(None),
            LocalModifier::Annotation(found) => put(&mut all, *found)?,
        }
    }
    Ok(Some(all))
}

/// The class that a type without brackets names.
fn class_of(type_use: &TypeUse) -> Option<Identifier>
    ensures { parent_view result ≡ reader.class_of (type_use_view type_use.now) }
{
    match &type_use.array {
        Some(_) => None,
        None => match &type_use.base {
            Base::Class(name) => Some(*name),
            _ => None,
        },
    }
}

/// Whether `final` stands at most once before each.
pub fn each_final_once(parameters: &[Parameter]) -> bool
    ensures { result ≡ reader.good_parameters (parameter_views parameters.now) }
{
    for parameter in parameters {
        if !final_once(&parameter.modifiers) {
            return false;
        }
    }
    true
}
