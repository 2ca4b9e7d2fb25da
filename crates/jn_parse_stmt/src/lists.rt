//! Expressions by themselves, in parentheses, before a semicolon and in lists.
ghost use Rattle.std.specs.Prelude.{◌≡◌, IfOk};
ghost use Rattle.jn_trees.specs.Longest.{seen};
ghost use Rattle.jn_trees.specs.Pieces.{kinds};
ghost use Rattle.jn_trees.specs.View.{views, optional_view};
ghost use Rattle.jn_parse_expr_law.specs.Reader.{reader, all_items, arguments_in};
ghost use Rattle.jn_parse_stmt_law.specs.Parts.{then_read, closed, are_effects, if_effects, read_initial, read_optional};
ghost use Rattle.jn_parse_stmt_law.specs.StatementReader.{in_parens};
ghost use Rattle.jn_parse_stmt.specs.Seen.{seen_as, all_views};

use crate::expression::expression;
use jn_base::OutOfMemory;
use jn_base::lists::put;
use jn_trees::reading::expect;
use jn_trees::{Expr, Token, TokenKind};
use std::alloc::Global;

fn are_effects(expressions: &[Expr]) -> bool
    ensures { result ≡ are_effects (views expressions.now) }
{
    for expression in expressions {
        if !expression.is_effect() {
            return false;
        }
    }
    true
}

/// What was read, where all of it can stand as statements.
pub fn only_effects<'t>(read: Option<(Vec<Expr>, &'t [Token])>) -> Option<(Vec<Expr>, &'t [Token])>
    ensures { then_read (seen_as all_views read.entry) if_effects ≡ seen_as all_views result }
{
    match read {
        None => None,
        Some((expressions, rest)) => {
            if are_effects(&expressions) {
                Some((expressions, rest))
            } else {
                None
            }
        }
    }
}

/// One expression or more with commas between them, and what follows them.
fn items(
    alloc: Global,
    tokens: &[Token],
    depth: u32,
) -> Result<Option<(Vec<Expr>, &[Token])>, OutOfMemory>
    ensures { IfOk result
        (λ o. all_items (reader depth).whole (kinds tokens.now) ≡ seen_as all_views o) }
{
    let mut items = Vec::new(alloc);
    let mut left = tokens;
    'items: loop {
        match expression(alloc, left, depth)? {
            None => return Ok(None),
            Some((item, rest)) => {
                put(&mut items, Box::into_inner(item))?;
                match expect(rest, TokenKind::Comma) {
                    None => return Ok(Some((items, rest))),
                    Some(after) => left = after,
                }
            }
        }
    }
}

/// The arguments through the closing parenthesis, and what follows it.
pub fn arguments(
    alloc: Global,
    tokens: &[Token],
    depth: u32,
) -> Result<Option<(Vec<Expr>, &[Token])>, OutOfMemory>
    ensures { IfOk result
        (λ o. arguments_in (reader depth).whole (kinds tokens.now) ≡ seen_as all_views o) }
{
    match expect(tokens, TokenKind::RightParen) {
        Some(rest) => Ok(Some((Vec::new(alloc), rest))),
        None => match items(alloc, tokens, depth)? {
            None => Ok(None),
            Some((arguments, after)) => match expect(after, TokenKind::RightParen) {
                None => Ok(None),
                Some(rest) => Ok(Some((arguments, rest))),
            },
        },
    }
}

/// The expressions, or none, through the semicolon, and what follows it.
pub fn initial(
    alloc: Global,
    tokens: &[Token],
    depth: u32,
) -> Result<Option<(Vec<Expr>, &[Token])>, OutOfMemory>
    ensures { IfOk result
        (λ o. read_initial (reader depth).whole (kinds tokens.now) ≡ seen_as all_views o) }
{
    match expect(tokens, TokenKind::Semicolon) {
        Some(rest) => Ok(Some((Vec::new(alloc), rest))),
        None => match items(alloc, tokens, depth)? {
            None => Ok(None),
            Some((expressions, after)) => match expect(after, TokenKind::Semicolon) {
                None => Ok(None),
                Some(rest) => Ok(Some((expressions, rest))),
            },
        },
    }
}

/// The expression before a closing parenthesis, and what follows that.
pub fn closed(
    alloc: Global,
    tokens: &[Token],
    depth: u32,
) -> Result<Option<(Box<Expr>, &[Token])>, OutOfMemory>
    ensures { IfOk result
        (λ o. then_read ((reader depth).whole (kinds tokens.now)) closed ≡ seen o) }
{
    match expression(alloc, tokens, depth)? {
        None => Ok(None),
        Some((expression, after)) => match expect(after, TokenKind::RightParen) {
            None => Ok(None),
            Some(rest) => Ok(Some((expression, rest))),
        },
    }
}

/// The expression in parentheses that comes first, and what follows them.
pub fn in_parentheses(
    alloc: Global,
    tokens: &[Token],
    depth: u32,
) -> Result<Option<(Box<Expr>, &[Token])>, OutOfMemory>
    ensures { IfOk result (λ o. in_parens (reader depth).whole (kinds tokens.now) ≡ seen o) }
{
    match expect(tokens, TokenKind::LeftParen) {
        None => Ok(None),
        Some(after) => closed(alloc, after, depth),
    }
}

/// The expression before a semicolon, if one stands there, and what follows the semicolon.
pub fn optional(
    alloc: Global,
    tokens: &[Token],
    depth: u32,
) -> Result<Option<(Option<Box<Expr>>, &[Token])>, OutOfMemory>
    ensures { IfOk result
        (λ o. read_optional (reader depth).whole (kinds tokens.now) ≡ seen_as optional_view o) }
{
    match expect(tokens, TokenKind::Semicolon) {
        Some(rest) => Ok(Some((None, rest))),
        None => match expression(alloc, tokens, depth)? {
            None => Ok(None),
            Some((expression, after)) => match expect(after, TokenKind::Semicolon) {
                None => Ok(None),
                Some(rest) => Ok(Some((Some(expression), rest))),
            },
        },
    }
}
