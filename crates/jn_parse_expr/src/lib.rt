//! Expressions from tokens.
#![tactic(auto)]

ghost use Rattle.std.specs.Prelude.{◌≡◌, ◌-◌, ◌≤◌, ◌<◌, ◌^◌, IfOk, IfSome, drop, length};
ghost use Rattle.jn_trees.specs.Longest.{IsLongest, seen};
ghost use Rattle.jn_trees.specs.Pieces.{kinds};
ghost use Rattle.jn_parse_expr.specs.Places.{seen_at};

mod arguments;
mod creation;
mod operators;
mod primary;
mod tail;
mod unary;
mod whole;

use crate::whole::read_whole;
use jn_base::OutOfMemory;
use jn_parse_expr_law::law::expressions_are_read_once;
use jn_trees::{Expr, Token};
use std::alloc::Global;

/// The longest well-formed expression of nesting at most `depth` that the front of the tokens spells, and what follows it; None exactly where there is none.
///
/// Time is linear in the tokens, and the stack that it takes in `depth`. The tree comes in the box in which it was read.
///
/// # Errors
///
/// [`OutOfMemory`] where the tree found no memory.
pub fn read_expr(
    alloc: Global,
    tokens: &[Token],
    depth: u32,
) -> Result<Option<(Box<Expr>, &[Token])>, OutOfMemory>
    ensures { IfOk result (λ o. IsLongest depth (kinds tokens.now) (seen o)) }
{
    expressions_are_read_once();
    match read_whole(alloc, tokens, depth)? {
        None => Ok(None),
        Some((tree, _, rest)) => Ok(Some((tree, rest))),
    }
}

/// The tokens from a place on.
fn tokens_from(tokens: &[Token], at: u32) -> &[Token]
    requires { at ≤ length tokens.now }
    ensures { kinds result.now ≡ drop at (kinds tokens.now) }
{
    &tokens[at as usize..]
}

/// The place at which the rest begins.
fn place_before(tokens: &[Token], rest: &[Token]) -> u32
    requires few { length tokens.now < 2 ^ 32 }
    requires shorter { length rest.now ≤ length tokens.now }
    ensures { result ≡ length tokens.now - length rest.now }
{
    (tokens.len() - rest.len()) as u32
}

/// The longest well-formed expression of nesting at most `depth` that the tokens from `at` on spell, and the place after it; None exactly where there is none.
///
/// # Errors
///
/// [`OutOfMemory`] where the tree found no memory.
pub fn parse_expr(
    alloc: Global,
    tokens: &[Token],
    at: u32,
    depth: u32,
) -> Result<Option<(Expr, u32)>, OutOfMemory>
    requires few { length tokens.now < 2 ^ 32 }
    requires inside { at ≤ length tokens.now }
    ensures longest { IfOk result
        (λ o. IsLongest depth (drop at (kinds tokens.now)) (seen_at (kinds tokens.now) o)) }
    ensures inside { IfOk result (λ o. IfSome o (λ r. (at < r.1) × (r.1 ≤ length tokens.now))) }
{
    match read_expr(alloc, tokens_from(tokens, at), depth)? {
        None => Ok(None),
        Some((tree, rest)) => {
            let place = place_before(tokens, rest);
            Ok(Some((Box::into_inner(tree), place)))
        }
    }
}
