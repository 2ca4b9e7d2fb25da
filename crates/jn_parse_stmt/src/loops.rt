//! What stands before the body of a loop.
ghost use Rattle.std.specs.Prelude.{◌≡◌, List, IfOk, None};
ghost use Rattle.jn_trees.specs.declared.token.TokenKind.{TokenKind as Kind};
ghost use Rattle.jn_trees.specs.Longest.{TryStatement};
ghost use Rattle.jn_trees.specs.Pieces.{kinds};
ghost use Rattle.jn_trees.specs.View.{statement_view, init_view, parameter_view};
ghost use Rattle.jn_parse_expr_law.specs.Reader.{reader};
ghost use Rattle.jn_parse_stmt_law.specs.Parts.{local_behind};
ghost use Rattle.jn_parse_stmt_law.specs.StatementReader.{while_statement, for_statement, for_from, for_named, for_each, for_local, for_rest};
ghost use Rattle.jn_parse_stmt.specs.Heads.{body_of, with_body};

use crate::lists::{arguments, closed, in_parentheses, initial, only_effects, optional};
use crate::parts::read_parameter;
use crate::simple::declaration;
use jn_base::lists::boxed;
use jn_base::{OutOfMemory, Span};
use jn_trees::reading::expect;
use jn_trees::{Expr, ForHead, ForInit, Parameter, Stmt, Token, TokenKind};
use std::alloc::Global;

/// What stands before the body of a loop.
#[derive(Drop)]
pub enum Head {
    /// `while (c)`
    While(Box<Expr>),
    /// `for (i; c; u)`
    For(Box<ForHead>),
    /// `for (T x : a)`
    ForEach(Box<Parameter>, Box<Expr>),
}

/// The loop with this head and this body.
#[inline(never)]
pub fn loop_of(
    alloc: Global,
    head: Head,
    body: Box<Stmt>,
    span: Span,
) -> Result<Box<Stmt>, OutOfMemory>
    ensures { IfOk result
        (λ b. statement_view b.value ≡ body_of head (statement_view body.value)) }
{
    let loop_statement = match head {
        Head::While(condition) => Stmt::While {
            condition,
            body,
            span,
        },
        Head::For(head) => Stmt::For { head, body, span },
        Head::ForEach(variable, array) => Stmt::ForEach {
            variable,
            array,
            body,
            span,
        },
    };
    boxed(alloc, loop_statement)
}

/// `while (c)` after its word.
#[inline(never)]
pub fn while_head(
    alloc: Global,
    tokens: &[Token],
    depth: u32,
) -> Result<Option<(Head, &[Token])>, OutOfMemory>
    ensures { IfOk result (λ o. (one : List Kind → TryStatement)
        → while_statement (reader depth).whole one (kinds tokens.now) ≡ with_body one o) }
{
    match in_parentheses(alloc, tokens, depth)? {
        None => Ok(None),
        Some((condition, rest)) => Ok(Some((Head::While(condition), rest))),
    }
}

/// The head of either `for` after its word.
#[inline(never)]
pub fn for_head(
    alloc: Global,
    tokens: &[Token],
    depth: u32,
) -> Result<Option<(Head, &[Token])>, OutOfMemory>
    ensures { IfOk result (λ o. (one : List Kind → TryStatement)
        → for_statement (reader depth).whole one (kinds tokens.now) ≡ with_body one o) }
{
    match expect(tokens, TokenKind::LeftParen) {
        None => Ok(None),
        Some(after) => match read_parameter(alloc, after)? {
            None => for_effects(alloc, after, depth),
            Some((front, after)) => for_named(alloc, front, after, depth),
        },
    }
}

/// `for (i; c; u)` after the opening parenthesis, where it begins with no declaration.
fn for_effects(
    alloc: Global,
    tokens: &[Token],
    depth: u32,
) -> Result<Option<(Head, &[Token])>, OutOfMemory>
    ensures { IfOk result (λ o. (one : List Kind → TryStatement)
        → for_from (reader depth).whole one (kinds tokens.now) None ≡ with_body one o) }
{
    match only_effects(initial(alloc, tokens, depth)?) {
        None => Ok(None),
        Some((expressions, after)) => {
            for_rest(alloc, ForInit::Expressions(expressions), after, depth)
        }
    }
}

/// The head of a `for` after modifiers, a type and a name.
fn for_named(
    alloc: Global,
    front: Parameter,
    tokens: &[Token],
    depth: u32,
) -> Result<Option<(Head, &[Token])>, OutOfMemory>
    ensures { IfOk result (λ o. (one : List Kind → TryStatement)
        → for_named (reader depth).whole one (parameter_view front) (kinds tokens.now)
        ≡ with_body one o) }
{
    match expect(tokens, TokenKind::Colon) {
        Some(after) => for_each(alloc, front, after, depth),
        None => for_local(alloc, front, tokens, depth),
    }
}

/// `for (T x : a)` after the colon.
fn for_each(
    alloc: Global,
    front: Parameter,
    tokens: &[Token],
    depth: u32,
) -> Result<Option<(Head, &[Token])>, OutOfMemory>
    ensures { IfOk result (λ o. (one : List Kind → TryStatement)
        → for_each (reader depth).whole one (parameter_view front) (kinds tokens.now)
        ≡ with_body one o) }
{
    match closed(alloc, tokens, depth)? {
        None => Ok(None),
        Some((array, rest)) => {
            let variable = boxed(alloc, front)?;
            Ok(Some((Head::ForEach(variable, array), rest)))
        }
    }
}

/// `for (i; c; u)` after the front of the declaration that it begins with.
fn for_local(
    alloc: Global,
    front: Parameter,
    tokens: &[Token],
    depth: u32,
) -> Result<Option<(Head, &[Token])>, OutOfMemory>
    ensures { IfOk result (λ o. (one : List Kind → TryStatement)
        → for_local (reader depth).whole one
        (local_behind (reader depth).whole (parameter_view front) (kinds tokens.now))
        ≡ with_body one o) }
{
    let (declaration, after) = declaration(alloc, front, tokens, depth)?;
    match expect(after, TokenKind::Semicolon) {
        None => Ok(None),
        Some(after) => {
            let init = ForInit::Declaration(boxed(alloc, declaration)?);
            for_rest(alloc, init, after, depth)
        }
    }
}

/// `for (i; c; u)` after the first semicolon.
fn for_rest(
    alloc: Global,
    init: ForInit,
    tokens: &[Token],
    depth: u32,
) -> Result<Option<(Head, &[Token])>, OutOfMemory>
    ensures { IfOk result (λ o. (one : List Kind → TryStatement)
        → for_rest (reader depth).whole one (init_view init) (kinds tokens.now) ≡ with_body one o) }
{
    match optional(alloc, tokens, depth)? {
        None => Ok(None),
        Some((condition, after)) => match only_effects(arguments(alloc, after, depth)?) {
            None => Ok(None),
            Some((update, rest)) => {
                let head = ForHead {
                    init,
                    condition,
                    update,
                };
                Ok(Some((Head::For(boxed(alloc, head)?), rest)))
            }
        },
    }
}
