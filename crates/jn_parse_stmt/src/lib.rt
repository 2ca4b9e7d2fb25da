//! Statements from tokens.
#![tactic(auto)]

ghost use Rattle.std.specs.Prelude.{IfOk};
ghost use Rattle.jn_trees.specs.Longest.{IsLongestStatement, seen_statement};
ghost use Rattle.jn_trees.specs.Pieces.{kinds};

mod expression;
mod lists;
mod loops;
mod nested;
mod parts;
mod simple;

use jn_base::OutOfMemory;
use jn_parse_stmt_law::law::statements_are_read_once;
use jn_trees::{Context, Stmt, Token};
pub use parts::{
    read_annotations, read_declarators, read_local_modifiers, read_parameter, read_type_use,
};
use std::alloc::Global;

/// The longest statement, well formed in this context and of nesting at most `depth`, that the front of the tokens spells, and what follows it; None exactly where there is none.
///
/// # Errors
///
/// [`OutOfMemory`] where a tree found no memory.
pub fn read_statement(
    alloc: Global,
    tokens: &[Token],
    depth: u32,
    context: Context,
) -> Result<Option<(Stmt, &[Token])>, OutOfMemory>
    ensures { IfOk result
        (λ o. IsLongestStatement context depth (kinds tokens.now) (seen_statement o)) }
{
    statements_are_read_once();
    match nested::statement(alloc, tokens, depth, context)? {
        None => Ok(None),
        Some((statement, rest)) => Ok(Some((Box::into_inner(statement), rest))),
    }
}
