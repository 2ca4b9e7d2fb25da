//! Expressions, as the reader of the grammar has them.
ghost use Rattle.std.specs.Prelude.{◌≡◌, ◌≤◌, length, IfOk, IfSome};
ghost use Rattle.jn_trees.specs.Longest.{seen};
ghost use Rattle.jn_trees.specs.Pieces.{kinds};
ghost use Rattle.jn_parse_expr_law.specs.Reader.{reader};

use jn_base::OutOfMemory;
use jn_parse_expr::read_expr;
use jn_parse_expr_law::law::expressions_are_read_once;
use jn_trees::{Expr, Token};
use std::alloc::Global;

/// The expression of nesting at most `depth` that comes first, in a box, and what follows it.
pub fn expression(
    alloc: Global,
    tokens: &[Token],
    depth: u32,
) -> Result<Option<(Box<Expr>, &[Token])>, OutOfMemory>
    ensures gives { IfOk result (λ o. (reader depth).whole (kinds tokens.now) ≡ seen o) }
    ensures shortens { IfOk result (λ o. IfSome o (λ r. length r.1.now ≤ length tokens.now)) }
{
    expressions_are_read_once();
    let read = read_expr(alloc, tokens, depth)?;
    Ok(read)
}
