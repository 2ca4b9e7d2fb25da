//! Operators between two operands, and `instanceof` (JLS 15.17 to 15.24).
ghost use Rattle.std.specs.Prelude.{◌≡◌, ◌+◌, ◌-◌, ◌≤◌, ◌<◌, ◌^◌, ℕ, IfOk, IfSome};
ghost use Rattle.jn_trees.specs.Trees.{Tree};
ghost use Rattle.jn_trees.specs.WellFormed.{loosest_power, nesting};
ghost use Rattle.jn_trees.specs.Pieces.{kinds};
ghost use Rattle.jn_parse_expr_law.specs.Reader.{reader, sign, grow, grow_by, OperatorSign, test};
ghost use Rattle.jn_parse_expr.specs.Steps.{ReadAs, TailAs, sign_as, sign_power, front_power};

use crate::tail::{Tail, attach, front};
use crate::unary::read_unary;
use jn_base::number::larger;
use jn_trees::reading::identifier;
use jn_trees::{BinaryOperator, Expr, RELATIONAL, Token, TokenKind};
use std::alloc::{AllocError, Global};

/// The operator that a token is.
fn binary_operator(kind: TokenKind) -> Option<BinaryOperator>
    ensures { sign_as result (sign kind) }
{
    match kind {
        TokenKind::Star => Some(BinaryOperator::Multiply),
        TokenKind::Slash => Some(BinaryOperator::Divide),
        TokenKind::Percent => Some(BinaryOperator::Remainder),
        TokenKind::Plus => Some(BinaryOperator::Add),
        TokenKind::Minus => Some(BinaryOperator::Subtract),
        TokenKind::Less => Some(BinaryOperator::Less),
        TokenKind::Greater => Some(BinaryOperator::Greater),
        TokenKind::LessEqual => Some(BinaryOperator::LessEqual),
        TokenKind::GreaterEqual => Some(BinaryOperator::GreaterEqual),
        TokenKind::EqualEqual => Some(BinaryOperator::Equal),
        TokenKind::NotEqual => Some(BinaryOperator::NotEqual),
        TokenKind::AndAnd => Some(BinaryOperator::And),
        TokenKind::OrOr => Some(BinaryOperator::Or),
        _ => None,
    }
}

/// The power of the operator that a token is, where `instanceof` is one; 0 where it is none.
fn power_of(kind: TokenKind) -> u32
    ensures { result ≡ sign_power (sign kind) }
{
    match binary_operator(kind) {
        Some(operator) => operator.power(),
        None => {
            if kind == TokenKind::Instanceof {
                RELATIONAL
            } else {
                0
            }
        }
    }
}

/// The power of the operator at the front; 0 where none stands there.
fn power_at(tokens: &[Token]) -> u32
    ensures { result ≡ front_power (kinds tokens.now) }
{
    match front(tokens) {
        None => 0,
        Some((first, _)) => power_of(first),
    }
}

/// The longest operand whose operators have at most this power; with power 0 a unary expression.
#[cycle(parser)]
pub fn read_operand(
    alloc: Global,
    tokens: &[Token],
    power: u32,
    depth: u32,
) -> Result<Option<(Box<Expr>, u32, &[Token])>, AllocError>
    requires { power ≤ loosest_power }
    ensures { IfOk result (λ o. ReadAs depth o ((reader depth).operand power (kinds tokens.now))) }
{
    if depth == 0 {
        return Ok(None);
    }
    if power == 0 {
        return read_unary(alloc, tokens, depth);
    }
    match read_unary(alloc, tokens, depth)? {
        None => Ok(None),
        Some((first, first_nested, first_rest)) => {
            let mut left = first;
            let mut nested = first_nested;
            let mut rest = first_rest;
            // The operators of this power and of lower ones are read.
            let mut level = 0;
            'operators: loop {
                let next = power_at(rest);
                if next <= level || next > power {
                    return Ok(Some((left, nested, rest)));
                }
                match grow_tail(alloc, nested, rest, next - 1, depth)? {
                    None => return Ok(Some((left, nested, rest))),
                    Some((tail, deeper, after)) => {
                        left = attach(alloc, tokens, left, tail, after)?;
                        nested = deeper;
                        rest = after;
                        level = next - 1;
                    }
                }
            }
        }
    }
}

/// The operator at the front, which is of the next power, and its right operand.
#[cycle(parser)]
fn grow_tail(
    alloc: Global,
    nested: u32,
    tokens: &[Token],
    power: u32,
    depth: u32,
) -> Result<Option<(Tail, u32, &[Token])>, AllocError>
    requires small { power < loosest_power }
    requires next { front_power (kinds tokens.now) ≡ power + 1 }
    ensures rises { IfOk result (λ o. IfSome o (λ r. nested < r.1)) }
    ensures gives { IfOk result (λ o. (l : Tree) → nested ≡ nesting l
        → TailAs depth l o (grow (reader (depth - 1)) depth power l (kinds tokens.now))) }
{
    match front(tokens) {
        None => Ok(None),
        Some((first, rest)) => {
            if nested >= depth {
                return Ok(None);
            }
            match binary_operator(first) {
                Some(operator) => operand_tail(alloc, operator, nested, rest, power, depth),
                None => Ok(class_tail(nested, rest)),
            }
        }
    }
}

/// The right operand of an operator of the next power.
#[cycle(parser)]
fn operand_tail(
    alloc: Global,
    operator: BinaryOperator,
    nested: u32,
    tokens: &[Token],
    power: u32,
    depth: u32,
) -> Result<Option<(Tail, u32, &[Token])>, AllocError>
    requires small { power < loosest_power }
    requires next { sign_power (OperatorSign operator) ≡ power + 1 }
    requires room { nested < depth }
    ensures rises { IfOk result (λ o. IfSome o (λ r. nested < r.1)) }
    ensures gives { IfOk result (λ o. (l : Tree) → nested ≡ nesting l
        → TailAs depth l o
        (grow_by (reader (depth - 1)) power l (OperatorSign operator) (kinds tokens.now))) }
{
    match read_operand(alloc, tokens, power, depth - 1)? {
        None => Ok(None),
        Some((right, deeper, rest)) => Ok(Some((
            Tail::Operand(operator, right),
            larger(nested, deeper) + 1,
            rest,
        ))),
    }
}

/// The class after `instanceof`.
fn class_tail(nested: u32, tokens: &[Token]) -> Option<(Tail, u32, &[Token])>
    requires { nested < 2 ^ 32 - 1 }
    ensures rises { IfSome result (λ r. nested < r.1) }
    ensures gives { (l : Tree) (d : ℕ) → nested ≡ nesting l → nested < d
        → TailAs d l result (test l (kinds tokens.now)) }
{
    let (class, rest) = identifier(tokens)?;
    Some((Tail::Class(class), nested + 1, rest))
}
