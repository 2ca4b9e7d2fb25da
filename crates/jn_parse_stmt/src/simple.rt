//! Statements in which no other stands. Each answers in a box, so that the frames of nested statements stay small.
ghost use Rattle.std.specs.Prelude.{◌≡◌, IfOk};
ghost use Rattle.jn_trees.specs.Pieces.{kinds};
ghost use Rattle.jn_trees.specs.Trees.{BreakStatement, ContinueStatement, ThisCallStatement, SuperCallStatement};
ghost use Rattle.jn_trees.specs.View.{view, local_view, parameter_view};
ghost use Rattle.jn_parse_expr_law.specs.Reader.{reader};
ghost use Rattle.jn_parse_stmt_law.specs.Parts.{local_behind};
ghost use Rattle.jn_parse_stmt_law.specs.StatementReader.{loop_word, return_statement, constructor_call, effect_statement, local_statement, simple};
ghost use Rattle.jn_parse_stmt.specs.Seen.{seen_as, boxed_view};

use crate::expression::expression;
use crate::lists::{arguments, optional};
use crate::parts::{declarators_of, read_parameter};
use jn_base::OutOfMemory;
use jn_base::lists::boxed;
use jn_trees::reading::{covered, expect};
use jn_trees::{Context, Expr, LocalDeclaration, Parameter, Stmt, Token, TokenKind};
use std::alloc::Global;

/// `break;` after its word, where a loop stands around.
#[inline(never)]
pub fn break_statement<'t>(
    alloc: Global,
    tokens: &'t [Token],
    after: &'t [Token],
    context: Context,
) -> Result<Option<(Box<Stmt>, &'t [Token])>, OutOfMemory>
    ensures { IfOk result
        (λ o. loop_word context.in_loop BreakStatement (kinds after.now) ≡ seen_as boxed_view o) }
{
    if !context.in_loop {
        return Ok(None);
    }
    match expect(after, TokenKind::Semicolon) {
        None => Ok(None),
        Some(rest) => {
            let span = covered(tokens, rest);
            Ok(Some((boxed(alloc, Stmt::Break { span })?, rest)))
        }
    }
}

/// `continue;` after its word, where a loop stands around.
#[inline(never)]
pub fn continue_statement<'t>(
    alloc: Global,
    tokens: &'t [Token],
    after: &'t [Token],
    context: Context,
) -> Result<Option<(Box<Stmt>, &'t [Token])>, OutOfMemory>
    ensures { IfOk result (λ o.
        loop_word context.in_loop ContinueStatement (kinds after.now) ≡ seen_as boxed_view o) }
{
    if !context.in_loop {
        return Ok(None);
    }
    match expect(after, TokenKind::Semicolon) {
        None => Ok(None),
        Some(rest) => {
            let span = covered(tokens, rest);
            Ok(Some((boxed(alloc, Stmt::Continue { span })?, rest)))
        }
    }
}

/// `return e;` after its word.
#[inline(never)]
pub fn return_statement<'t>(
    alloc: Global,
    tokens: &'t [Token],
    after: &'t [Token],
    depth: u32,
) -> Result<Option<(Box<Stmt>, &'t [Token])>, OutOfMemory>
    ensures { IfOk result
        (λ o. return_statement (reader depth).whole (kinds after.now) ≡ seen_as boxed_view o) }
{
    match optional(alloc, after, depth)? {
        None => Ok(None),
        Some((value, rest)) => {
            let span = covered(tokens, rest);
            Ok(Some((boxed(alloc, Stmt::Return { value, span })?, rest)))
        }
    }
}

/// `this(..);` after its opening parenthesis, where it leads.
#[inline(never)]
pub fn this_call<'t>(
    alloc: Global,
    tokens: &'t [Token],
    after: &'t [Token],
    depth: u32,
    context: Context,
) -> Result<Option<(Box<Stmt>, &'t [Token])>, OutOfMemory>
    ensures { IfOk result (λ o. constructor_call (reader depth).whole context.leading
        ThisCallStatement (kinds after.now)
        ≡ seen_as boxed_view o) }
{
    if !context.leading {
        return Ok(None);
    }
    match arguments(alloc, after, depth)? {
        None => Ok(None),
        Some((arguments, after)) => match expect(after, TokenKind::Semicolon) {
            None => Ok(None),
            Some(rest) => {
                let span = covered(tokens, rest);
                Ok(Some((boxed(alloc, Stmt::ThisCall { arguments, span })?, rest)))
            }
        },
    }
}

/// `super(..);` after its opening parenthesis, where it leads.
#[inline(never)]
pub fn super_call<'t>(
    alloc: Global,
    tokens: &'t [Token],
    after: &'t [Token],
    depth: u32,
    context: Context,
) -> Result<Option<(Box<Stmt>, &'t [Token])>, OutOfMemory>
    ensures { IfOk result (λ o. constructor_call (reader depth).whole context.leading
        SuperCallStatement (kinds after.now)
        ≡ seen_as boxed_view o) }
{
    if !context.leading {
        return Ok(None);
    }
    match arguments(alloc, after, depth)? {
        None => Ok(None),
        Some((arguments, after)) => match expect(after, TokenKind::Semicolon) {
            None => Ok(None),
            Some(rest) => {
                let span = covered(tokens, rest);
                Ok(Some((boxed(alloc, Stmt::SuperCall { arguments, span })?, rest)))
            }
        },
    }
}

/// The expression and its semicolon, where it can stand as a statement.
fn effect_statement<'t>(
    alloc: Global,
    tokens: &'t [Token],
    expression: Box<Expr>,
    after: &'t [Token],
) -> Result<Option<(Box<Stmt>, &'t [Token])>, OutOfMemory>
    ensures { IfOk result
        (λ o. effect_statement (view expression.value) (kinds after.now) ≡ seen_as boxed_view o) }
{
    if !expression.is_effect() {
        return Ok(None);
    }
    match expect(after, TokenKind::Semicolon) {
        None => Ok(None),
        Some(rest) => {
            let span = covered(tokens, rest);
            Ok(Some((boxed(alloc, Stmt::Expression { expression, span })?, rest)))
        }
    }
}

/// The declaration of locals that begins with this front, which stands before the tokens, and what follows it.
pub fn declaration(
    alloc: Global,
    front: Parameter,
    tokens: &[Token],
    depth: u32,
) -> Result<(LocalDeclaration, &[Token]), OutOfMemory>
    ensures { IfOk result (λ r. local_behind (reader depth).whole (parameter_view front)
        (kinds tokens.now)
        ≡ (local_view r.0, kinds r.1.now)) }
{
    let Parameter {
        modifiers,
        type_use,
        name,
    } = front;
    let (first, more, rest) = declarators_of(alloc, name, tokens, depth)?;
    Ok((
        LocalDeclaration {
            modifiers,
            type_use,
            first,
            more,
        },
        rest,
    ))
}

/// The declaration with this front, and its semicolon.
fn local_statement<'t>(
    alloc: Global,
    tokens: &'t [Token],
    front: Parameter,
    after: &'t [Token],
    depth: u32,
) -> Result<Option<(Box<Stmt>, &'t [Token])>, OutOfMemory>
    ensures { IfOk result (λ o. local_statement
        (local_behind (reader depth).whole (parameter_view front) (kinds after.now))
        ≡ seen_as boxed_view o) }
{
    let (declaration, after) = declaration(alloc, front, after, depth)?;
    match expect(after, TokenKind::Semicolon) {
        None => Ok(None),
        Some(rest) => {
            let declaration = boxed(alloc, declaration)?;
            let span = covered(tokens, rest);
            Ok(Some((boxed(alloc, Stmt::Local { declaration, span })?, rest)))
        }
    }
}

/// A declaration of locals, directly in a block, or an expression statement.
#[inline(never)]
pub fn simple_statement(
    alloc: Global,
    tokens: &[Token],
    depth: u32,
    context: Context,
) -> Result<Option<(Box<Stmt>, &[Token])>, OutOfMemory>
    ensures { IfOk result (λ o.
        simple (reader depth).whole context.direct (kinds tokens.now) ≡ seen_as boxed_view o) }
{
    match read_parameter(alloc, tokens)? {
        Some((front, after)) => {
            if context.direct {
                local_statement(alloc, tokens, front, after, depth)
            } else {
                Ok(None)
            }
        }
        None => match expression(alloc, tokens, depth)? {
            None => Ok(None),
            Some((expression, after)) => effect_statement(alloc, tokens, expression, after),
        },
    }
}
