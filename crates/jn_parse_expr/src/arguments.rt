//! Lists of expressions in brackets (JLS 15.12, 10.6).
ghost use Rattle.std.specs.Prelude.{ℕ, IfOk};
ghost use Rattle.jn_trees.specs.Pieces.{kinds};
ghost use Rattle.jn_parse_expr_law.specs.Reader.{reader, TryAll, arguments, arguments_in, elements_in, all_items, bind_items, close_arguments, close_elements};
ghost use Rattle.jn_parse_expr.specs.Steps.{AllAs};

use crate::whole::read_whole;
use jn_base::lists::put;
use jn_base::number::larger;
use jn_trees::reading::expect;
use jn_trees::{Expr, Token, TokenKind};
use std::alloc::{AllocError, Global};

/// The arguments with the parenthesis that closes them.
fn closed_arguments<'t>(
    read: Option<(Vec<Expr>, u32, &'t [Token])>,
) -> Option<(Vec<Expr>, u32, &'t [Token])>
    ensures { (d : ℕ) (o : TryAll) → AllAs d read.entry o
        → AllAs d result (bind_items o close_arguments) }
{
    match read {
        None => None,
        Some((all, nested, rest)) => match expect(rest, TokenKind::RightParen) {
            None => None,
            Some(rest) => Some((all, nested, rest)),
        },
    }
}

/// The elements with the brace that closes them.
fn closed_elements<'t>(
    read: Option<(Vec<Expr>, u32, &'t [Token])>,
) -> Option<(Vec<Expr>, u32, &'t [Token])>
    ensures { (d : ℕ) (o : TryAll) → AllAs d read.entry o
        → AllAs d result (bind_items o close_elements) }
{
    match read {
        None => None,
        Some((all, nested, rest)) => match expect(rest, TokenKind::RightBrace) {
            None => None,
            Some(rest) => Some((all, nested, rest)),
        },
    }
}

/// The arguments in their parentheses.
#[cycle(parser)]
pub fn read_arguments(
    alloc: Global,
    tokens: &[Token],
    depth: u32,
) -> Result<Option<(Vec<Expr>, u32, &[Token])>, AllocError>
    ensures { IfOk result (λ o. AllAs depth o (arguments (reader depth).whole (kinds tokens.now))) }
{
    match expect(tokens, TokenKind::LeftParen) {
        None => Ok(None),
        Some(inside) => read_arguments_in(alloc, inside, depth),
    }
}

/// The arguments through the closing parenthesis.
#[cycle(parser)]
pub fn read_arguments_in(
    alloc: Global,
    tokens: &[Token],
    depth: u32,
) -> Result<Option<(Vec<Expr>, u32, &[Token])>, AllocError>
    ensures { IfOk result
        (λ o. AllAs depth o (arguments_in (reader depth).whole (kinds tokens.now))) }
{
    match expect(tokens, TokenKind::RightParen) {
        Some(rest) => Ok(Some((Vec::new(alloc), 0, rest))),
        None => {
            let items = read_items(alloc, tokens, depth)?;
            Ok(closed_arguments(items))
        }
    }
}

/// The elements through the closing brace.
#[cycle(parser)]
pub fn read_elements_in(
    alloc: Global,
    tokens: &[Token],
    depth: u32,
) -> Result<Option<(Vec<Expr>, u32, &[Token])>, AllocError>
    ensures { IfOk result
        (λ o. AllAs depth o (elements_in (reader depth).whole (kinds tokens.now))) }
{
    match expect(tokens, TokenKind::RightBrace) {
        Some(rest) => Ok(Some((Vec::new(alloc), 0, rest))),
        None => {
            let items = read_items(alloc, tokens, depth)?;
            Ok(closed_elements(items))
        }
    }
}

/// One expression or more, with commas between them; None where none stands after a comma.
#[cycle(parser)]
fn read_items(
    alloc: Global,
    tokens: &[Token],
    depth: u32,
) -> Result<Option<(Vec<Expr>, u32, &[Token])>, AllocError>
    ensures { IfOk result (λ o. AllAs depth o (all_items (reader depth).whole (kinds tokens.now))) }
{
    let mut all = Vec::new(alloc);
    let mut nested = 0;
    let mut left = tokens;
    'items: loop {
        match read_whole(alloc, left, depth)? {
            None => return Ok(None),
            Some((item, deeper, rest)) => {
                put(&mut all, Box::into_inner(item))?;
                nested = larger(nested, deeper);
                match expect(rest, TokenKind::Comma) {
                    None => return Ok(Some((all, nested, rest))),
                    Some(after) => left = after,
                }
            }
        }
    }
}
