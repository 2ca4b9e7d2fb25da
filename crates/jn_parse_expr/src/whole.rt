//! Whole expressions: assignments and conditionals (JLS 15.25, 15.26).
ghost use Rattle.std.specs.Prelude.{◌≡◌, ◌-◌, ◌<◌, IfOk};
ghost use Rattle.jn_trees.specs.Trees.{Tree};
ghost use Rattle.jn_trees.specs.WellFormed.{nesting};
ghost use Rattle.jn_trees.specs.View.{view};
ghost use Rattle.jn_trees.specs.Pieces.{kinds};
ghost use Rattle.jn_parse_expr_law.specs.Reader.{reader, assign_of, assign, choose};
ghost use Rattle.jn_parse_expr.specs.Steps.{ReadAs, TailAs};

use crate::operators::read_operand;
use crate::tail::{Tail, front, go_with};
use jn_base::number::larger;
use jn_trees::reading::expect;
use jn_trees::{AssignOperator, Expr, LOOSEST_POWER, Token, TokenKind};
use std::alloc::{AllocError, Global};

/// The assignment operator that a token is.
fn assign_operator(kind: TokenKind) -> Option<AssignOperator>
    ensures { result ≡ assign_of kind }
{
    match kind {
        TokenKind::Assign => Some(AssignOperator::Assign),
        TokenKind::PlusAssign => Some(AssignOperator::Add),
        TokenKind::MinusAssign => Some(AssignOperator::Subtract),
        TokenKind::StarAssign => Some(AssignOperator::Multiply),
        TokenKind::SlashAssign => Some(AssignOperator::Divide),
        TokenKind::PercentAssign => Some(AssignOperator::Remainder),
        _ => None,
    }
}

/// The longest expression at the front, with its nesting and the tokens after it.
#[cycle(parser)]
pub fn read_whole(
    alloc: Global,
    tokens: &[Token],
    depth: u32,
) -> Result<Option<(Box<Expr>, u32, &[Token])>, AllocError>
    ensures { IfOk result (λ o. ReadAs depth o ((reader depth).whole (kinds tokens.now))) }
{
    match read_conditional(alloc, tokens, depth)? {
        None => Ok(None),
        Some((left, nested, rest)) => {
            let tail = value_tail(alloc, &left, nested, rest, depth)?;
            Ok(Some(go_with(alloc, tokens, left, nested, rest, tail)?))
        }
    }
}

/// An assignment operator and the value.
#[cycle(parser)]
fn value_tail<'t>(
    alloc: Global,
    left: &Expr,
    nested: u32,
    tokens: &'t [Token],
    depth: u32,
) -> Result<Option<(Tail, u32, &'t [Token])>, AllocError>
    requires { nested ≡ nesting (view left.now) }
    ensures { IfOk result (λ o. TailAs depth (view left.now) o
        (assign (reader (depth - 1)) depth (view left.now) (kinds tokens.now))) }
{
    match front(tokens) {
        None => Ok(None),
        Some((first, after)) => match assign_operator(first) {
            None => Ok(None),
            Some(operator) => {
                if nested >= depth || !left.is_left_side() {
                    return Ok(None);
                }
                match read_whole(alloc, after, depth - 1)? {
                    None => Ok(None),
                    Some((value, deeper, rest)) => Ok(Some((
                        Tail::Value(operator, value),
                        larger(nested, deeper) + 1,
                        rest,
                    ))),
                }
            }
        },
    }
}

/// The longest conditional, or operand of one.
#[cycle(parser)]
fn read_conditional(
    alloc: Global,
    tokens: &[Token],
    depth: u32,
) -> Result<Option<(Box<Expr>, u32, &[Token])>, AllocError>
    ensures { IfOk result (λ o. ReadAs depth o ((reader depth).conditional (kinds tokens.now))) }
{
    match read_operand(alloc, tokens, LOOSEST_POWER, depth)? {
        None => Ok(None),
        Some((left, nested, rest)) => {
            let tail = choice_tail(alloc, nested, rest, depth)?;
            Ok(Some(go_with(alloc, tokens, left, nested, rest, tail)?))
        }
    }
}

/// The question mark and the two trees after it.
#[cycle(parser)]
fn choice_tail(
    alloc: Global,
    nested: u32,
    tokens: &[Token],
    depth: u32,
) -> Result<Option<(Tail, u32, &[Token])>, AllocError>
    ensures { IfOk result (λ o. (c : Tree) → nested ≡ nesting c
        → TailAs depth c o (choose (reader (depth - 1)) depth c (kinds tokens.now))) }
{
    match expect(tokens, TokenKind::Question) {
        None => Ok(None),
        Some(after) => {
            if nested >= depth {
                return Ok(None);
            }
            match read_whole(alloc, after, depth - 1)? {
                None => Ok(None),
                Some((then, deep, rest)) => match expect(rest, TokenKind::Colon) {
                    None => Ok(None),
                    Some(rest) => match read_conditional(alloc, rest, depth - 1)? {
                        None => Ok(None),
                        Some((otherwise, deeper, rest)) => Ok(Some((
                            Tail::Choice(then, otherwise),
                            larger(nested, larger(deep, deeper)) + 1,
                            rest,
                        ))),
                    },
                },
            }
        }
    }
}
