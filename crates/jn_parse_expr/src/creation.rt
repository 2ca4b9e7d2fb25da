//! New objects and arrays (JLS 15.9, 15.10).
ghost use Rattle.std.specs.Prelude.{◌≡◌, ◌-◌, ◌+◌, ◌<◌, ◌^◌, ℕ, Option, Some, None, IfOk, IfSome, option_map};
ghost use Rattle.jn_trees.specs.Trees.{NewTree, NewArrayTree, ArrayOfTree};
ghost use Rattle.jn_trees.specs.View.{view, views, annotation_names, base_view};
ghost use Rattle.jn_trees.specs.Longest.{Try};
ghost use Rattle.jn_trees.specs.Pieces.{kinds};
ghost use Rattle.jn_parse_expr_law.specs.Reader.{reader, TryAll, annotations as annotations_of, base_of, build_all, bind, close_array, array_behind, array_from, creation};
ghost use Rattle.jn_parse_expr.specs.Steps.{ReadAs, AllAs, ElementAs};

use crate::arguments::{read_arguments_in, read_elements_in};
use crate::whole::read_whole;
use jn_base::Span;
use jn_base::lists::put;
use jn_trees::reading::{annotation, covered, expect, identifier, next};
use jn_trees::{Annotation, Base, ElementType, Expr, Identifier, Token, TokenKind};
use std::alloc::{AllocError, Global};

/// The annotations at the front.
fn annotations(alloc: Global, tokens: &[Token]) -> Result<(Vec<Annotation>, &[Token]), AllocError>
    ensures { IfOk result
        (λ r. annotations_of (kinds tokens.now) ≡ (annotation_names r.0.items, kinds r.1.now)) }
{
    let mut all = Vec::new(alloc);
    let mut left = tokens;
    'annotations: loop {
        match annotation(left) {
            None => return Ok((all, left)),
            Some((first, rest)) => {
                put(&mut all, first)?;
                left = rest;
            }
        }
    }
}

/// The type without brackets that a token is.
fn base_at(token: Token) -> Option<Base>
    ensures { option_map base_view result ≡ base_of token.kind }
{
    match token.kind {
        TokenKind::Id(name) => Some(Base::Class(Identifier {
            name,
            span: token.span,
        })),
        TokenKind::Int => Some(Base::Int(token.span)),
        TokenKind::Boolean => Some(Base::Boolean(token.span)),
        _ => None,
    }
}

/// The type of a new array's elements.
fn read_element(
    alloc: Global,
    tokens: &[Token],
) -> Result<Option<(Box<ElementType>, &[Token])>, AllocError>
    ensures { IfOk result (λ o. ElementAs o (annotations_of (kinds tokens.now))) }
{
    let (annotations, rest) = annotations(alloc, tokens)?;
    match next(rest) {
        None => Ok(None),
        Some((first, rest)) => match base_at(first) {
            None => Ok(None),
            Some(base) => {
                let element = Box::new(alloc, ElementType { annotations, base })?;
                Ok(Some((element, rest)))
            }
        },
    }
}

fn new_object(class: Identifier, arguments: Vec<Expr>, span: Span) -> Expr
    ensures { view result ≡ NewTree class.name (views arguments.items) }
{
    Expr::New {
        class,
        arguments,
        span,
    }
}

/// A new object of a class, whose `new` stands at `start`.
fn object<'t>(
    alloc: Global,
    start: &[Token],
    class: Identifier,
    arguments: Option<(Vec<Expr>, u32, &'t [Token])>,
) -> Result<Option<(Box<Expr>, u32, &'t [Token])>, AllocError>
    requires { IfSome arguments (λ r. r.1 < 2 ^ 32 - 1) }
    ensures { IfOk result (λ r. (d e : ℕ) (o : TryAll) → d < e → AllAs d arguments.entry o
        → ReadAs e r (build_all (λ es. NewTree class.name es) o)) }
{
    match arguments {
        None => Ok(None),
        Some((arguments, nested, rest)) => {
            let tree = Box::new(alloc, new_object(class, arguments, covered(start, rest)))?;
            Ok(Some((tree, nested + 1, rest)))
        }
    }
}

fn new_array(element: Box<ElementType>, elements: Vec<Expr>, span: Span) -> Expr
    ensures { view result
        ≡ ArrayOfTree (annotation_names element.value.annotations.items) (base_view element.value.base)
        (views elements.items) }
{
    Expr::ArrayOf {
        element,
        elements,
        span,
    }
}

/// A new array of elements, whose `new` stands at `start`.
fn array_of<'t>(
    alloc: Global,
    start: &[Token],
    element: Box<ElementType>,
    elements: Option<(Vec<Expr>, u32, &'t [Token])>,
) -> Result<Option<(Box<Expr>, u32, &'t [Token])>, AllocError>
    requires { IfSome elements (λ r. r.1 < 2 ^ 32 - 1) }
    ensures { IfOk result (λ r. (d e : ℕ) (o : TryAll) → d < e → AllAs d elements.entry o
        → ReadAs e r (build_all
        (λ es. ArrayOfTree (annotation_names element.value.annotations.items) (base_view element.value.base)
        es)
        o)) }
{
    match elements {
        None => Ok(None),
        Some((elements, nested, rest)) => {
            let tree = Box::new(alloc, new_array(element, elements, covered(start, rest)))?;
            Ok(Some((tree, nested + 1, rest)))
        }
    }
}

fn array_tree(element: Box<ElementType>, length: Box<Expr>, span: Span) -> Expr
    ensures { view result
        ≡ NewArrayTree (annotation_names element.value.annotations.items) (base_view element.value.base)
        (view length.value) }
{
    Expr::NewArray {
        element,
        length,
        span,
    }
}

/// A new array of a length, with the bracket that closes it; its `new` stands at `start`.
fn array_with<'t>(
    alloc: Global,
    start: &[Token],
    element: Box<ElementType>,
    length: Option<(Box<Expr>, u32, &'t [Token])>,
) -> Result<Option<(Box<Expr>, u32, &'t [Token])>, AllocError>
    requires { IfSome length (λ r. r.1 < 2 ^ 32 - 1) }
    ensures { IfOk result (λ r. (d e : ℕ) (o : Try) → d < e → ReadAs d length.entry o
        → ReadAs e r (bind o
        (close_array (annotation_names element.value.annotations.items) (base_view element.value.base)))) }
{
    match length {
        None => Ok(None),
        Some((length, nested, rest)) => match expect(rest, TokenKind::RightBracket) {
            None => Ok(None),
            Some(rest) => {
                let tree = Box::new(alloc, array_tree(element, length, covered(start, rest)))?;
                Ok(Some((tree, nested + 1, rest)))
            }
        },
    }
}

/// What `new` begins, which stands at `start`.
#[cycle(parser)]
pub fn read_creation<'t>(
    alloc: Global,
    start: &[Token],
    tokens: &'t [Token],
    depth: u32,
) -> Result<Option<(Box<Expr>, u32, &'t [Token])>, AllocError>
    requires { 0 < depth }
    ensures { IfOk result (λ o. ReadAs depth o (creation (reader (depth - 1)) (kinds tokens.now))) }
{
    match identifier(tokens) {
        Some((class, rest)) => match expect(rest, TokenKind::LeftParen) {
            Some(inside) => {
                let arguments = read_arguments_in(alloc, inside, depth - 1)?;
                Ok(object(alloc, start, class, arguments)?)
            }
            None => {
                let element = Box::new(
                    alloc,
                    ElementType {
                        annotations: Vec::new(alloc),
                        base: Base::Class(class),
                    },
                )?;
                read_array(alloc, start, element, rest, depth)
            }
        },
        None => read_annotated(alloc, start, tokens, depth),
    }
}

/// A new array from the annotations on; its `new` stands at `start`.
#[cycle(parser)]
fn read_annotated<'t>(
    alloc: Global,
    start: &[Token],
    tokens: &'t [Token],
    depth: u32,
) -> Result<Option<(Box<Expr>, u32, &'t [Token])>, AllocError>
    requires { 0 < depth }
    ensures { IfOk result (λ o. ReadAs depth o (array_from (reader (depth - 1))
        (annotations_of (kinds tokens.now)).0 (annotations_of (kinds tokens.now)).1)) }
{
    match read_element(alloc, tokens)? {
        None => Ok(None),
        Some((element, rest)) => read_array(alloc, start, element, rest, depth),
    }
}

/// A new array from its opening bracket on; its `new` stands at `start`.
#[cycle(parser)]
fn read_array<'t>(
    alloc: Global,
    start: &[Token],
    element: Box<ElementType>,
    tokens: &'t [Token],
    depth: u32,
) -> Result<Option<(Box<Expr>, u32, &'t [Token])>, AllocError>
    requires { 0 < depth }
    ensures { IfOk result (λ o. ReadAs depth o (array_behind (reader (depth - 1))
        (annotation_names element.value.annotations.items) (base_view element.value.base) (kinds tokens.now))) }
{
    match expect(tokens, TokenKind::LeftBracket) {
        None => Ok(None),
        Some(inside) => match expect(inside, TokenKind::RightBracket) {
            None => {
                let length = read_whole(alloc, inside, depth - 1)?;
                array_with(alloc, start, element, length)
            }
            Some(rest) => match expect(rest, TokenKind::LeftBrace) {
                None => Ok(None),
                Some(inside) => {
                    let elements = read_elements_in(alloc, inside, depth - 1)?;
                    Ok(array_of(alloc, start, element, elements)?)
                }
            },
        },
    }
}
