//! Declarators and statements, as deep as a file may nest them.
ghost use Rattle.std.specs.Prelude.{◌≡◌, IfOk};
ghost use Rattle.jn_trees.specs.WellFormed.{deepest};
ghost use Rattle.jn_trees.specs.Longest.{seen_statement};
ghost use Rattle.jn_trees.specs.Pieces.{kinds};
ghost use Rattle.jn_parse_stmt.specs.Seen.{maybe_declarators};
ghost use Rattle.jn_parse_decl_law.specs.PieceReader as reader;

use jn_base::OutOfMemory;
use jn_parse_stmt::{read_declarators, read_statement};
use jn_parse_stmt_law::law::statements_are_read_once;
use jn_trees::{Context, DEEPEST, Declarator, Stmt, Token};
use std::alloc::Global;

/// The declarators of fields at the front, and what follows them.
pub fn field_declarators(
    alloc: Global,
    tokens: &[Token],
) -> Result<Option<(Declarator, Vec<Declarator>, &[Token])>, OutOfMemory>
    ensures { IfOk result
        (λ o. maybe_declarators o ≡ reader.read_field_declarators (kinds tokens.now)) }
{
    declarators_within(alloc, tokens, DEEPEST)
}

fn declarators_within(
    alloc: Global,
    tokens: &[Token],
    depth: u32,
) -> Result<Option<(Declarator, Vec<Declarator>, &[Token])>, OutOfMemory>
    requires { depth ≡ deepest }
    ensures { IfOk result
        (λ o. maybe_declarators o ≡ reader.read_field_declarators (kinds tokens.now)) }
{
    read_declarators(alloc, tokens, depth)
}

/// The statement of a body at the front, where it may be the first of a constructor, and what follows it.
pub fn body_statement(
    alloc: Global,
    tokens: &[Token],
    leading: bool,
) -> Result<Option<(Stmt, &[Token])>, OutOfMemory>
    ensures { IfOk result
        (λ o. seen_statement o ≡ reader.read_body_statement leading (kinds tokens.now)) }
{
    statement_within(alloc, tokens, DEEPEST, leading)
}

fn statement_within(
    alloc: Global,
    tokens: &[Token],
    depth: u32,
    leading: bool,
) -> Result<Option<(Stmt, &[Token])>, OutOfMemory>
    requires { depth ≡ deepest }
    ensures { IfOk result
        (λ o. seen_statement o ≡ reader.read_body_statement leading (kinds tokens.now)) }
{
    statements_are_read_once();
    let context = Context {
        in_loop: false,
        direct: true,
        leading,
    };
    read_statement(alloc, tokens, depth, context)
}
