//! Unary expressions: signs, steps and casts (JLS 15.14 to 15.16).
ghost use Rattle.std.specs.Prelude.{◌≡◌, ◌-◌, ◌+◌, ◌<◌, ◌^◌, ℕ, IfOk, IfSome, [], ◌∷◌, Option, nat_eq, option_map};
ghost use Rattle.jn_trees.specs.Trees.{PrefixTree};
ghost use Rattle.jn_trees.specs.WellFormed.{nesting};
ghost use Rattle.jn_trees.specs.View.{view};
ghost use Rattle.jn_trees.specs.Longest.{Try};
ghost use Rattle.jn_trees.specs.Pieces.{kinds};
ghost use Rattle.jn_parse_expr_law.specs.Follow.{reach_of};
ghost use Rattle.jn_parse_expr_law.specs.Reader.{reader, step_of as step_at, after, least, build, unary, cast, prefix};
ghost use Rattle.jn_parse_expr.specs.Steps.{ReadAs, TailAs, sign_before, signed_by, name_at, name_in_paren};

use crate::operators::read_operand;
use crate::primary::{Primary, cut, read_primary};
use crate::tail::{Tail, front, go_with};
use jn_trees::reading::{covered, next};
use jn_trees::{Expr, Identifier, Literal, Step, Token, TokenKind, UnaryOperator};
use std::alloc::{AllocError, Global};

/// The sign that a token is.
fn sign_of(kind: TokenKind) -> Option<UnaryOperator>
    ensures { result ≡ sign_before kind }
{
    match kind {
        TokenKind::Plus => Some(UnaryOperator::Plus),
        TokenKind::Minus => Some(UnaryOperator::Minus),
        TokenKind::Not => Some(UnaryOperator::Not),
        _ => None,
    }
}

/// The step that a token is.
fn step_of(kind: TokenKind) -> Option<Step>
    ensures { result ≡ step_at kind }
{
    match kind {
        TokenKind::PlusPlus => Some(Step::Increment),
        TokenKind::MinusMinus => Some(Step::Decrement),
        _ => None,
    }
}

/// The name of a tree that is a name.
fn name_of(tree: &Expr) -> Option<Identifier>
    ensures { option_map (λ n. n.name) result ≡ name_at (view tree.now) }
{
    match tree {
        Expr::Name { name } => Some(*name),
        _ => None,
    }
}

/// The name of a tree that is a name in parentheses.
fn cast_class(tree: &Expr) -> Option<Identifier>
    ensures { option_map (λ n. n.name) result ≡ name_in_paren (view tree.now) }
{
    match tree {
        Expr::Paren { inner, .. } => name_of(inner),
        _ => None,
    }
}

/// Whether a token begins what a cast to a class can stand before.
fn begins(kind: TokenKind) -> bool
    ensures { result ≡ nat_eq (reach_of (kind ∷ [])) 0 }
{
    match kind {
        TokenKind::Id(_) => true,
        TokenKind::Number(_) => true,
        TokenKind::Str(_) => true,
        TokenKind::True => true,
        TokenKind::False => true,
        TokenKind::Null => true,
        TokenKind::This => true,
        TokenKind::Super => true,
        TokenKind::New => true,
        TokenKind::LeftParen => true,
        TokenKind::Not => true,
        _ => false,
    }
}

/// Whether the tokens begin as what a cast to a class can stand before.
fn begins_operand(tokens: &[Token]) -> bool
    ensures { result ≡ nat_eq (reach_of (kinds tokens.now)) 0 }
{
    match front(tokens) {
        None => false,
        Some((first, _)) => begins(first),
    }
}

/// A step after a left side.
fn step_tail<'t>(
    left: &Expr,
    nested: u32,
    tokens: &'t [Token],
    depth: u32,
) -> Option<(Tail, u32, &'t [Token])>
    requires { nested ≡ nesting (view left.now) }
    ensures { TailAs depth (view left.now) result (after depth (view left.now) (kinds tokens.now)) }
{
    match front(tokens) {
        None => None,
        Some((first, rest)) => match step_of(first) {
            None => None,
            Some(step) => {
                if nested >= depth || !left.is_left_side() {
                    return None;
                }
                Some((Tail::Step(step), nested + 1, rest))
            }
        },
    }
}

/// The least number after its minus sign, which stands at `start`.
fn least_number<'t>(
    alloc: Global,
    start: &[Token],
    tokens: &'t [Token],
    depth: u32,
) -> Result<Option<(Box<Expr>, u32, &'t [Token])>, AllocError>
    ensures { IfOk result (λ o. ReadAs depth o (least depth (kinds tokens.now))) }
{
    match next(tokens) {
        None => Ok(None),
        Some((first, rest)) => match first.kind {
            TokenKind::Number(value) => {
                if value != 2147483648 || depth <= 1 {
                    return Ok(None);
                }
                let number = Expr::Literal {
                    literal: Literal::Number(value),
                    span: first.span,
                };
                let operand = Box::new(alloc, number)?;
                let tree = Expr::Unary {
                    operator: UnaryOperator::Minus,
                    operand,
                    span: covered(start, rest),
                };
                let boxed = Box::new(alloc, tree)?;
                Ok(Some((boxed, 2, rest)))
            }
            _ => Ok(None),
        },
    }
}

/// An operand with a sign before it, which stands at `start`; where there is none, the least number at the tokens after a minus.
fn signed<'t>(
    alloc: Global,
    start: &[Token],
    operator: UnaryOperator,
    read: Option<(Box<Expr>, u32, &'t [Token])>,
    tokens: &'t [Token],
    depth: u32,
) -> Result<Option<(Box<Expr>, u32, &'t [Token])>, AllocError>
    requires { IfSome read (λ r. r.1 < 2 ^ 32 - 1) }
    ensures { IfOk result (λ r. (d : ℕ) (o : Try) → d < depth → ReadAs d read.entry o
        → ReadAs depth r (signed_by depth operator (kinds tokens.now) o)) }
{
    match read {
        None => {
            if operator == UnaryOperator::Minus {
                least_number(alloc, start, tokens, depth)
            } else {
                Ok(None)
            }
        }
        Some((operand, nested, rest)) => {
            let span = covered(start, rest);
            let tree = Expr::Unary {
                operator,
                operand,
                span,
            };
            let boxed = Box::new(alloc, tree)?;
            Ok(Some((boxed, nested + 1, rest)))
        }
    }
}

/// A left side with a step before it, which stands at `start`.
fn stepped<'t>(
    alloc: Global,
    start: &[Token],
    step: Step,
    read: Option<(Box<Expr>, u32, &'t [Token])>,
) -> Result<Option<(Box<Expr>, u32, &'t [Token])>, AllocError>
    requires { IfSome read (λ r. r.1 < 2 ^ 32 - 1) }
    ensures { IfOk result (λ r. (d e : ℕ) (o : Try) → d < e → ReadAs d read.entry o
        → ReadAs e r (build (λ p. PrefixTree step p) o)) }
{
    match read {
        None => Ok(None),
        Some((target, nested, rest)) => {
            let span = covered(start, rest);
            let boxed = Box::new(alloc, Expr::Prefix { step, target, span })?;
            Ok(Some((boxed, nested + 1, rest)))
        }
    }
}

/// A unary expression.
#[cycle(parser)]
pub fn read_unary(
    alloc: Global,
    tokens: &[Token],
    depth: u32,
) -> Result<Option<(Box<Expr>, u32, &[Token])>, AllocError>
    requires { 0 < depth }
    ensures { IfOk result
        (λ o. ReadAs depth o (unary (reader (depth - 1)) depth (kinds tokens.now))) }
{
    match read_primary(alloc, tokens, depth)? {
        None => read_prefix(alloc, tokens, depth),
        Some(
            Primary {
                tree,
                nested,
                rest,
                ..
            },
        ) => {
            let tail = step_tail(&tree, nested, rest, depth);
            let (left, nested, rest) = go_with(alloc, tokens, tree, nested, rest, tail)?;
            let tail = cast_tail(alloc, &left, rest, depth)?;
            Ok(Some(go_with(alloc, tokens, left, nested, rest, tail)?))
        }
    }
}

/// The operand of a cast, after the class in its parentheses.
#[cycle(parser)]
fn cast_tail<'t>(
    alloc: Global,
    left: &Expr,
    tokens: &'t [Token],
    depth: u32,
) -> Result<Option<(Tail, u32, &'t [Token])>, AllocError>
    requires { 0 < depth }
    ensures { IfOk result (λ o. TailAs depth (view left.now) o
        (cast (reader (depth - 1)) (view left.now) (kinds tokens.now))) }
{
    match cast_class(left) {
        None => Ok(None),
        Some(class) => {
            if !begins_operand(tokens) {
                return Ok(None);
            }
            match read_operand(alloc, tokens, 0, depth - 1)? {
                None => Ok(None),
                Some((operand, nested, rest)) => {
                    Ok(Some((Tail::Cast(class, operand), nested + 1, rest)))
                }
            }
        }
    }
}

/// What a sign or a step begins.
#[cycle(parser)]
fn read_prefix(
    alloc: Global,
    tokens: &[Token],
    depth: u32,
) -> Result<Option<(Box<Expr>, u32, &[Token])>, AllocError>
    requires { 0 < depth }
    ensures { IfOk result
        (λ o. ReadAs depth o (prefix (reader (depth - 1)) depth (kinds tokens.now))) }
{
    match front(tokens) {
        None => Ok(None),
        Some((first, rest)) => match sign_of(first) {
            Some(operator) => {
                let operand = read_operand(alloc, rest, 0, depth - 1)?;
                Ok(signed(alloc, tokens, operator, operand, rest, depth)?)
            }
            None => match step_of(first) {
                Some(step) => {
                    let target = read_left_side(alloc, rest, depth - 1)?;
                    Ok(stepped(alloc, tokens, step, target)?)
                }
                None => Ok(None),
            },
        },
    }
}

/// The longest left side of an assignment.
#[cycle(parser)]
fn read_left_side(
    alloc: Global,
    tokens: &[Token],
    depth: u32,
) -> Result<Option<(Box<Expr>, u32, &[Token])>, AllocError>
    ensures { IfOk result (λ o. ReadAs depth o ((reader depth).left (kinds tokens.now))) }
{
    if depth == 0 {
        return Ok(None);
    }
    match read_primary(alloc, tokens, depth)? {
        None => Ok(None),
        Some(primary) => Ok(cut(alloc, tokens, primary)?),
    }
}
