//! What statements and members share: annotations, modifiers of locals, uses of types, and declarators.
ghost use Rattle.std.specs.Prelude.{◌≡◌, ◌∷◌, ◌≤◌, length, List, IfOk, MatchOption, IfSome, None};
ghost use Rattle.jn_base.specs.declared.number.NameNo.{NameNo as SpecName};
ghost use Rattle.jn_trees.specs.declared.token.TokenKind.{TokenKind as Kind};
ghost use Rattle.jn_trees.specs.Pieces.{kinds};
ghost use Rattle.jn_trees.specs.View.{annotation_names, base_view, brackets_view, local_mark, local_marks, type_use_view, declarator_view, declarator_views, optional_view, parameter_view};
ghost use Rattle.jn_parse_expr_law.specs.Reader.{reader};
ghost use Rattle.jn_parse_stmt_law.specs.Parts.{read_annotations, read_marks, read_brackets, read_type_use, read_parameter, parameter_from, read_value, declarator_behind, all_declarators, declarators_behind, read_declarators};
ghost use Rattle.jn_parse_stmt.specs.Seen.{seen_as, mark_tokens, seen_declarators, maybe_declarators, read_base};

use crate::expression::expression;
use jn_base::OutOfMemory;
use jn_base::lists::put;
use jn_trees::reading::{annotation, covered, expect, identifier, next};
use jn_trees::{
    Annotation, Base, Declarator, Expr, Identifier, LocalModifier, Parameter, Token, TokenKind,
    TypeUse, final_once,
};
use std::alloc::Global;

/// The annotations that come first, and what follows them.
///
/// # Errors
///
/// [`OutOfMemory`] where the list found no memory.
pub fn read_annotations(
    alloc: Global,
    tokens: &[Token],
) -> Result<(Vec<Annotation>, &[Token]), OutOfMemory>
    ensures { IfOk result
        (λ r. read_annotations (kinds tokens.now) ≡ (annotation_names r.0.items, kinds r.1.now)) }
{
    let mut annotations = Vec::new(alloc);
    let mut left = tokens;
    'annotations: loop {
        match annotation(left) {
            None => return Ok((annotations, left)),
            Some((first, rest)) => {
                put(&mut annotations, first)?;
                left = rest;
            }
        }
    }
}

/// The annotation or the `final` that comes first, and what follows it.
fn local_modifier(tokens: &[Token]) -> Option<(LocalModifier, &[Token])>
    ensures none { result ≡ None → (name : SpecName) (rest : List Kind)
        → kinds tokens.now ≡ Kind.At ∷ Kind.Id name ∷ rest → ⊥ }
    ensures plain { result ≡ None → (rest : List Kind) → kinds tokens.now ≡ Kind.Final ∷ rest → ⊥ }
    ensures some { IfSome result
        (λ r. kinds tokens.now ≡ mark_tokens (local_mark r.0) (kinds r.1.now)) }
{
    match annotation(tokens) {
        Some((first, rest)) => Some((LocalModifier::Annotation(first), rest)),
        None => match expect(tokens, TokenKind::Final) {
            None => None,
            Some(rest) => Some((LocalModifier::Final(covered(tokens, rest)), rest)),
        },
    }
}

/// The annotations and `final`s that come first, and what follows them.
///
/// # Errors
///
/// [`OutOfMemory`] where the list found no memory.
pub fn read_local_modifiers(
    alloc: Global,
    tokens: &[Token],
) -> Result<(Vec<LocalModifier>, &[Token]), OutOfMemory>
    ensures { IfOk result
        (λ r. read_marks (kinds tokens.now) ≡ (local_marks r.0.items, kinds r.1.now)) }
{
    let mut modifiers = Vec::new(alloc);
    let mut left = tokens;
    'modifiers: loop {
        match local_modifier(left) {
            None => return Ok((modifiers, left)),
            Some((first, rest)) => {
                put(&mut modifiers, first)?;
                left = rest;
            }
        }
    }
}

/// The type without brackets that comes first, and what follows it.
fn base(tokens: &[Token]) -> Option<(Base, &[Token])>
    ensures { read_base (kinds tokens.now) ≡ seen_as base_view result }
{
    match next(tokens) {
        None => None,
        Some((first, rest)) => match first.kind {
            TokenKind::Id(name) => Some((
                Base::Class(Identifier {
                    name,
                    span: first.span,
                }),
                rest,
            )),
            TokenKind::Int => Some((Base::Int(first.span), rest)),
            TokenKind::Boolean => Some((Base::Boolean(first.span), rest)),
            _ => None,
        },
    }
}

/// What follows a pair of brackets, where one comes first.
fn bracket_pair(tokens: &[Token]) -> Option<&[Token]>
    ensures { MatchOption result
        ((rest : List Kind) → kinds tokens.now ≡ Kind.LeftBracket ∷ Kind.RightBracket ∷ rest → ⊥)
        (λ r. kinds tokens.now ≡ Kind.LeftBracket ∷ Kind.RightBracket ∷ kinds r.now) }
{
    match expect(tokens, TokenKind::LeftBracket) {
        None => None,
        Some(after) => expect(after, TokenKind::RightBracket),
    }
}

/// The annotations before the brackets that come first, and what follows the brackets; where none come, the tokens as they are.
fn brackets(
    alloc: Global,
    tokens: &[Token],
) -> Result<(Option<Vec<Annotation>>, &[Token]), OutOfMemory>
    ensures { IfOk result
        (λ r. read_brackets (kinds tokens.now) ≡ (brackets_view r.0, kinds r.1.now)) }
{
    let (annotations, after) = read_annotations(alloc, tokens)?;
    match bracket_pair(after) {
        None => Ok((None, tokens)),
        Some(rest) => Ok((Some(annotations), rest)),
    }
}

/// The use of a type that comes first, and what follows it.
///
/// # Errors
///
/// [`OutOfMemory`] where the annotations found no memory.
pub fn read_type_use(
    alloc: Global,
    tokens: &[Token],
) -> Result<Option<(TypeUse, &[Token])>, OutOfMemory>
    ensures { IfOk result (λ o. read_type_use (kinds tokens.now) ≡ seen_as type_use_view o) }
{
    match base(tokens) {
        None => Ok(None),
        Some((base, after)) => {
            let (array, rest) = brackets(alloc, after)?;
            Ok(Some((
                TypeUse {
                    base,
                    array,
                    span: covered(tokens, rest),
                },
                rest,
            )))
        }
    }
}

/// The parameter that comes first, and what follows it: modifiers, with `final` at most once, a type and a name. A declaration of locals begins so, too.
///
/// # Errors
///
/// [`OutOfMemory`] where a list found no memory.
pub fn read_parameter(
    alloc: Global,
    tokens: &[Token],
) -> Result<Option<(Parameter, &[Token])>, OutOfMemory>
    ensures { IfOk result (λ o. read_parameter (kinds tokens.now) ≡ seen_as parameter_view o) }
{
    let (modifiers, after) = read_local_modifiers(alloc, tokens)?;
    parameter_of(alloc, modifiers, after)
}

/// The parameter with these modifiers, which stand before the tokens, and what follows it.
fn parameter_of(
    alloc: Global,
    modifiers: Vec<LocalModifier>,
    tokens: &[Token],
) -> Result<Option<(Parameter, &[Token])>, OutOfMemory>
    ensures { IfOk result (λ o. parameter_from (local_marks modifiers.items) (kinds tokens.now)
        ≡ seen_as parameter_view o) }
{
    if !final_once(&modifiers) {
        return Ok(None);
    }
    match read_type_use(alloc, tokens)? {
        None => Ok(None),
        Some((type_use, after)) => match identifier(after) {
            None => Ok(None),
            Some((name, rest)) => Ok(Some((
                Parameter {
                    modifiers,
                    type_use,
                    name,
                },
                rest,
            ))),
        },
    }
}

/// The value after `=`, and what follows it; none where no `=` comes first or no value can be read, and then the tokens as they are.
fn value(
    alloc: Global,
    tokens: &[Token],
    depth: u32,
) -> Result<(Option<Box<Expr>>, &[Token]), OutOfMemory>
    ensures gives { IfOk result (λ r.
        read_value (reader depth).whole (kinds tokens.now) ≡ (optional_view r.0, kinds r.1.now)) }
    ensures shortens { IfOk result (λ r. length r.1.now ≤ length tokens.now) }
{
    match expect(tokens, TokenKind::Assign) {
        None => Ok((None, tokens)),
        Some(after) => match expression(alloc, after, depth)? {
            None => Ok((None, tokens)),
            Some((value, rest)) => Ok((Some(value), rest)),
        },
    }
}

/// The declarator of this name, which stands before the tokens, and what follows it.
fn declarator_of(
    alloc: Global,
    name: Identifier,
    tokens: &[Token],
    depth: u32,
) -> Result<(Declarator, &[Token]), OutOfMemory>
    ensures gives { IfOk result (λ r. declarator_behind (reader depth).whole name.name
        (kinds tokens.now)
        ≡ (declarator_view r.0, kinds r.1.now)) }
    ensures shortens { IfOk result (λ r. length r.1.now ≤ length tokens.now) }
{
    let (value, rest) = value(alloc, tokens, depth)?;
    Ok((Declarator { name, value }, rest))
}

/// The name after a comma, where both come first, and what follows it.
fn next_name(tokens: &[Token]) -> Option<(Identifier, &[Token])>
    ensures { MatchOption result
        ((name : SpecName) (rest : List Kind) → kinds tokens.now ≡ Kind.Comma ∷ Kind.Id name ∷ rest
        → ⊥)
        (λ r. kinds tokens.now ≡ Kind.Comma ∷ Kind.Id r.0.name ∷ kinds r.1.now) }
{
    match expect(tokens, TokenKind::Comma) {
        None => None,
        Some(after) => identifier(after),
    }
}

/// The declarators with a comma before each, and what follows them.
fn more_declarators(
    alloc: Global,
    tokens: &[Token],
    depth: u32,
) -> Result<(Vec<Declarator>, &[Token]), OutOfMemory>
    ensures { IfOk result (λ r. all_declarators (reader depth).whole (kinds tokens.now)
        ≡ (declarator_views r.0.items, kinds r.1.now)) }
{
    let mut declarators = Vec::new(alloc);
    let mut left = tokens;
    'declarators: loop {
        match next_name(left) {
            None => return Ok((declarators, left)),
            Some((name, after)) => {
                let (next, rest) = declarator_of(alloc, name, after, depth)?;
                put(&mut declarators, next)?;
                left = rest;
            }
        }
    }
}

/// The declarators of which the first has this name, which stands before the tokens, and what follows them.
pub fn declarators_of(
    alloc: Global,
    name: Identifier,
    tokens: &[Token],
    depth: u32,
) -> Result<(Declarator, Vec<Declarator>, &[Token]), OutOfMemory>
    ensures { IfOk result (λ r.
        declarators_behind (reader depth).whole name.name (kinds tokens.now) ≡ seen_declarators r) }
{
    let (first, after) = declarator_of(alloc, name, tokens, depth)?;
    let (more, rest) = more_declarators(alloc, after, depth)?;
    Ok((first, more, rest))
}

/// The declarators that come first, each value of nesting at most `depth`, and what follows them; None where no name comes first.
///
/// # Errors
///
/// [`OutOfMemory`] where a tree found no memory.
pub fn read_declarators(
    alloc: Global,
    tokens: &[Token],
    depth: u32,
) -> Result<Option<(Declarator, Vec<Declarator>, &[Token])>, OutOfMemory>
    ensures { IfOk result
        (λ o. read_declarators (reader depth).whole (kinds tokens.now) ≡ maybe_declarators o) }
{
    match identifier(tokens) {
        None => Ok(None),
        Some((name, after)) => {
            let (first, more, rest) = declarators_of(alloc, name, after, depth)?;
            Ok(Some((first, more, rest)))
        }
    }
}
