//! Statements in which others stand. What is built or read beside the recursion is in functions of its own, so that its frames stay small.
ghost use Rattle.std.specs.Prelude.{◌≡◌, ◌++◌, ◌∷◌, [], IfOk, OnOk, Some};
ghost use Rattle.jn_trees.specs.Longest.{TryStatement};
ghost use Rattle.jn_trees.specs.Trees.{Tree, EmptyStatement, BlockStatement, IfStatement, IfElseStatement};
ghost use Rattle.jn_trees.specs.Pieces.{kinds};
ghost use Rattle.jn_trees.specs.View.{view, statement_view, statement_views};
ghost use Rattle.jn_trees.specs.WellFormed.{under, in_block, loop_body};
ghost use Rattle.jn_parse_expr_law.specs.Reader.{reader};
ghost use Rattle.jn_parse_stmt_law.specs.StatementReader.{around, if_end, if_statement, while_statement, for_statement, do_end, do_statement, block_statement, read_block};
ghost use Rattle.jn_parse_stmt.specs.Seen.{seen_as, boxed_view, body_views};
ghost use Rattle.jn_parse_stmt.specs.Heads.{body_of, if_ended, read_one};

use crate::lists::in_parentheses;
use crate::loops::{Head, for_head, loop_of, while_head};
use crate::simple::{
    break_statement, continue_statement, return_statement, simple_statement, super_call, this_call,
};
use jn_base::lists::{boxed, put};
use jn_base::{OutOfMemory, Span};
use jn_trees::reading::{covered, expect, next};
use jn_trees::{Context, Expr, Stmt, Token, TokenKind};
use std::alloc::Global;

#[inline(never)]
fn block_of(alloc: Global, statements: Vec<Stmt>, span: Span) -> Result<Box<Stmt>, OutOfMemory>
    ensures { IfOk result
        (λ b. statement_view b.value ≡ BlockStatement (statement_views statements.items)) }
{
    boxed(alloc, Stmt::Block { statements, span })
}

#[inline(never)]
fn if_of(
    alloc: Global,
    condition: Box<Expr>,
    then: Box<Stmt>,
    span: Span,
) -> Result<Box<Stmt>, OutOfMemory>
    ensures { IfOk result (λ b.
        statement_view b.value ≡ IfStatement (view condition.value) (statement_view then.value)) }
{
    boxed(
        alloc,
        Stmt::If {
            condition,
            then,
            span,
        },
    )
}

#[inline(never)]
fn if_else_of(
    alloc: Global,
    condition: Box<Expr>,
    then: Box<Stmt>,
    otherwise: Box<Stmt>,
    span: Span,
) -> Result<Box<Stmt>, OutOfMemory>
    ensures { IfOk result (λ b. statement_view b.value
        ≡ IfElseStatement (view condition.value) (statement_view then.value)
        (statement_view otherwise.value)) }
{
    boxed(
        alloc,
        Stmt::IfElse {
            condition,
            then,
            otherwise,
            span,
        },
    )
}

/// Puts what is in the box after the others.
#[inline(never)]
fn put_boxed(statements: &mut Vec<Stmt>, next: Box<Stmt>) -> Result<(), OutOfMemory>
    ensures { OnOk result (statements.new.items ≡ statements.old.items ++ next.value ∷ []) }
{
    put(statements, Box::into_inner(next))?;
    Ok(())
}

/// The statement that comes first, of nesting at most `depth`, and what follows it.
#[cycle(statements)]
pub fn statement(
    alloc: Global,
    tokens: &[Token],
    depth: u32,
    context: Context,
) -> Result<Option<(Box<Stmt>, &[Token])>, OutOfMemory>
    ensures { IfOk result (λ o. read_one depth context (kinds tokens.now) ≡ seen_as boxed_view o) }
{
    if depth == 0 {
        return Ok(None);
    }
    let inner = depth - 1;
    match next(tokens) {
        None => simple_statement(alloc, tokens, inner, context),
        Some((first, after)) => match first.kind {
            TokenKind::LeftBrace => block(alloc, tokens, after, inner, context),
            TokenKind::Semicolon => empty_statement(alloc, first, after),
            TokenKind::Break => break_statement(alloc, tokens, after, context),
            TokenKind::Continue => continue_statement(alloc, tokens, after, context),
            TokenKind::Return => return_statement(alloc, tokens, after, inner),
            TokenKind::If => if_statement(alloc, tokens, after, inner, context),
            TokenKind::While => while_statement(alloc, tokens, after, inner),
            TokenKind::Do => do_statement(alloc, tokens, after, inner),
            TokenKind::For => for_statement(alloc, tokens, after, inner),
            TokenKind::This => match expect(after, TokenKind::LeftParen) {
                None => simple_statement(alloc, tokens, inner, context),
                Some(after) => this_call(alloc, tokens, after, inner, context),
            },
            TokenKind::Super => match expect(after, TokenKind::LeftParen) {
                None => simple_statement(alloc, tokens, inner, context),
                Some(after) => super_call(alloc, tokens, after, inner, context),
            },
            _ => simple_statement(alloc, tokens, inner, context),
        },
    }
}

#[inline(never)]
fn empty_statement(
    alloc: Global,
    semicolon: Token,
    rest: &[Token],
) -> Result<Option<(Box<Stmt>, &[Token])>, OutOfMemory>
    ensures { IfOk result (λ o.
        ◌≡◌ {A = TryStatement} (Some (EmptyStatement, kinds rest.now)) (seen_as boxed_view o)) }
{
    let span = semicolon.span;
    Ok(Some((boxed(alloc, Stmt::Empty { span })?, rest)))
}

/// `{ .. }` after its opening brace.
#[cycle(statements)]
fn block<'t>(
    alloc: Global,
    tokens: &'t [Token],
    after: &'t [Token],
    depth: u32,
    context: Context,
) -> Result<Option<(Box<Stmt>, &'t [Token])>, OutOfMemory>
    ensures { IfOk result (λ o. block_statement (read_one depth (in_block context))
        (kinds after.now)
        ≡ seen_as boxed_view o) }
{
    match body(alloc, after, depth, context.in_block())? {
        None => Ok(None),
        Some((statements, rest)) => {
            let span = covered(tokens, rest);
            Ok(Some((block_of(alloc, statements, span)?, rest)))
        }
    }
}

/// The statements through the closing brace.
#[cycle(statements)]
fn body(
    alloc: Global,
    tokens: &[Token],
    depth: u32,
    context: Context,
) -> Result<Option<(Vec<Stmt>, &[Token])>, OutOfMemory>
    ensures { IfOk result
        (λ o. read_block (read_one depth context) (kinds tokens.now) ≡ seen_as body_views o) }
{
    // (most blocks are small)
    let mut statements = Vec::with_capacity(alloc, 1)?;
    let mut left = tokens;
    'statements: loop {
        if let Some(rest) = expect(left, TokenKind::RightBrace) {
            return Ok(Some((statements, rest)));
        }
        match statement(alloc, left, depth, context)? {
            None => return Ok(None),
            Some((next, rest)) => {
                put_boxed(&mut statements, next)?;
                left = rest;
            }
        }
    }
}

/// `if (c) s`, with or without `else`, after its word.
#[cycle(statements)]
fn if_statement<'t>(
    alloc: Global,
    tokens: &'t [Token],
    after: &'t [Token],
    depth: u32,
    context: Context,
) -> Result<Option<(Box<Stmt>, &'t [Token])>, OutOfMemory>
    ensures { IfOk result (λ o. if_statement (reader depth).whole (read_one depth (under context))
        (kinds after.now)
        ≡ seen_as boxed_view o) }
{
    match in_parentheses(alloc, after, depth)? {
        None => Ok(None),
        Some((condition, after)) => match statement(alloc, after, depth, context.under())? {
            None => Ok(None),
            Some((then, rest)) => { if_end(alloc, tokens, condition, then, rest, depth, context) }
        },
    }
}

/// The `if` with these parts, with its `else` where one follows.
#[cycle(statements)]
fn if_end<'t>(
    alloc: Global,
    tokens: &'t [Token],
    condition: Box<Expr>,
    then: Box<Stmt>,
    rest: &'t [Token],
    depth: u32,
    context: Context,
) -> Result<Option<(Box<Stmt>, &'t [Token])>, OutOfMemory>
    ensures { IfOk result (λ o. if_end (read_one depth (under context)) (view condition.value)
        (statement_view then.value) (kinds rest.now)
        ≡ seen_as boxed_view o) }
{
    match else_part(alloc, &then, rest, depth, context)? {
        None => {
            let span = covered(tokens, rest);
            Ok(Some((if_of(alloc, condition, then, span)?, rest)))
        }
        Some((otherwise, last)) => {
            let span = covered(tokens, last);
            Ok(Some((if_else_of(alloc, condition, then, otherwise, span)?, last)))
        }
    }
}

/// The statement after an `else` that comes first, unless an `if` inside the part before it takes it.
#[cycle(statements)]
fn else_part<'t>(
    alloc: Global,
    then: &Stmt,
    tokens: &'t [Token],
    depth: u32,
    context: Context,
) -> Result<Option<(Box<Stmt>, &'t [Token])>, OutOfMemory>
    ensures { IfOk result (λ o. (e : Tree)
        → if_end (read_one depth (under context)) e (statement_view then.now) (kinds tokens.now)
        ≡ if_ended e (statement_view then.now) (kinds tokens.now) (seen_as boxed_view o)) }
{
    match expect(tokens, TokenKind::Else) {
        None => Ok(None),
        Some(after) => {
            if then.ends_open() {
                Ok(None)
            } else {
                statement(alloc, after, depth, context.under())
            }
        }
    }
}

/// `while (c) s` after its word.
#[cycle(statements)]
fn while_statement<'t>(
    alloc: Global,
    tokens: &'t [Token],
    after: &'t [Token],
    depth: u32,
) -> Result<Option<(Box<Stmt>, &'t [Token])>, OutOfMemory>
    ensures { IfOk result (λ o. while_statement (reader depth).whole (read_one depth loop_body)
        (kinds after.now)
        ≡ seen_as boxed_view o) }
{
    match while_head(alloc, after, depth)? {
        None => Ok(None),
        Some((head, after)) => loop_statement(alloc, tokens, head, after, depth),
    }
}

/// Either `for`, after its word.
#[cycle(statements)]
fn for_statement<'t>(
    alloc: Global,
    tokens: &'t [Token],
    after: &'t [Token],
    depth: u32,
) -> Result<Option<(Box<Stmt>, &'t [Token])>, OutOfMemory>
    ensures { IfOk result (λ o. for_statement (reader depth).whole (read_one depth loop_body)
        (kinds after.now)
        ≡ seen_as boxed_view o) }
{
    match for_head(alloc, after, depth)? {
        None => Ok(None),
        Some((head, after)) => loop_statement(alloc, tokens, head, after, depth),
    }
}

/// The loop with this head, after which its body stands.
#[cycle(statements)]
fn loop_statement<'t>(
    alloc: Global,
    tokens: &'t [Token],
    head: Head,
    after: &'t [Token],
    depth: u32,
) -> Result<Option<(Box<Stmt>, &'t [Token])>, OutOfMemory>
    ensures { IfOk result (λ o. around (body_of head)
        (read_one depth loop_body (kinds after.now))
        ≡ seen_as boxed_view o) }
{
    match statement(alloc, after, depth, Context::loop_body())? {
        None => Ok(None),
        Some((body, rest)) => {
            let span = covered(tokens, rest);
            Ok(Some((loop_of(alloc, head, body, span)?, rest)))
        }
    }
}

/// `do s while (c);` after its word.
#[cycle(statements)]
fn do_statement<'t>(
    alloc: Global,
    tokens: &'t [Token],
    after: &'t [Token],
    depth: u32,
) -> Result<Option<(Box<Stmt>, &'t [Token])>, OutOfMemory>
    ensures { IfOk result (λ o. do_statement (reader depth).whole (read_one depth loop_body)
        (kinds after.now)
        ≡ seen_as boxed_view o) }
{
    match statement(alloc, after, depth, Context::loop_body())? {
        None => Ok(None),
        Some((body, after)) => do_end(alloc, tokens, body, after, depth),
    }
}

/// `while (c);` after the body of a `do`.
#[inline(never)]
fn do_end<'t>(
    alloc: Global,
    tokens: &'t [Token],
    body: Box<Stmt>,
    after: &'t [Token],
    depth: u32,
) -> Result<Option<(Box<Stmt>, &'t [Token])>, OutOfMemory>
    ensures { IfOk result (λ o. do_end (reader depth).whole (statement_view body.value)
        (kinds after.now)
        ≡ seen_as boxed_view o) }
{
    match expect(after, TokenKind::While) {
        None => Ok(None),
        Some(after) => match in_parentheses(alloc, after, depth)? {
            None => Ok(None),
            Some((condition, after)) => match expect(after, TokenKind::Semicolon) {
                None => Ok(None),
                Some(rest) => {
                    let span = covered(tokens, rest);
                    let node = Stmt::Do {
                        body,
                        condition,
                        span,
                    };
                    Ok(Some((boxed(alloc, node)?, rest)))
                }
            },
        },
    }
}
