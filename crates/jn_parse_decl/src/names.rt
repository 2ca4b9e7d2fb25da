//! Names after marks, and lists of them.
ghost use Rattle.std.specs.Prelude.{◌≡◌, ◌∷◌, List, MatchOption, IfOk};
ghost use Rattle.jn_base.specs.declared.number.NameNo.{NameNo as Name};
ghost use Rattle.jn_trees.specs.declared.token.TokenKind.{TokenKind as Kind};
ghost use Rattle.jn_trees.specs.View.{identifier_names, parent_view};
ghost use Rattle.jn_trees.specs.Pieces.{kinds};
ghost use Rattle.jn_parse_decl_law.specs.PieceReader.{read_dots, read_more_names, read_parent, read_implements, read_extends, add_name};
ghost use Rattle.jn_parse_decl.specs.Front.{prepend};

use jn_base::OutOfMemory;
use jn_base::lists::put;
use jn_trees::reading::{expect, identifier};
use jn_trees::{Identifier, Token, TokenKind};
use std::alloc::Global;

/// The name after this mark, and what follows it.
pub fn behind_mark(tokens: &[Token], mark: TokenKind) -> Option<(Identifier, &[Token])>
    ensures { MatchOption result
        ((n : Name) (rest : List Kind) → kinds tokens.now ≡ mark ∷ Kind.Id n ∷ rest → ⊥)
        (λ r. kinds tokens.now ≡ mark ∷ Kind.Id r.0.name ∷ kinds r.1.now) }
{
    let rest = expect(tokens, mark)?;
    identifier(rest)
}

/// The names at the front with a dot before each, as many as there are, and what follows them.
pub fn dotted_names(
    alloc: Global,
    tokens: &[Token],
) -> Result<(Vec<Identifier>, &[Token]), OutOfMemory>
    ensures { IfOk result
        (λ r. read_dots (kinds tokens.now) ≡ (identifier_names r.0.items, kinds r.1.now)) }
{
    let mut all = Vec::new(alloc);
    let mut left = tokens;
    'names: loop {
        match behind_mark(left, TokenKind::Dot) {
            None => return Ok((all, left)),
            Some((name, rest)) => {
                put(&mut all, name)?;
                left = rest;
            }
        }
    }
}

/// These names, then those at the front with a comma before each, as many as there are, and what follows them.
fn more_names(
    before: Vec<Identifier>,
    tokens: &[Token],
) -> Result<(Vec<Identifier>, &[Token]), OutOfMemory>
    ensures { IfOk result (λ r. prepend (identifier_names before.items)
        (read_more_names (kinds tokens.now))
        ≡ (identifier_names r.0.items, kinds r.1.now)) }
{
    let mut all = before;
    let mut left = tokens;
    'names: loop {
        match behind_mark(left, TokenKind::Comma) {
            None => return Ok((all, left)),
            Some((name, rest)) => {
                put(&mut all, name)?;
                left = rest;
            }
        }
    }
}

/// The name after `extends`, where it is at the front, and what follows it.
pub fn parent(tokens: &[Token]) -> (Option<Identifier>, &[Token])
    ensures { read_parent (kinds tokens.now) ≡ (parent_view result.0, kinds result.1.now) }
{
    match behind_mark(tokens, TokenKind::Extends) {
        None => (None, tokens),
        Some((name, rest)) => (Some(name), rest),
    }
}

/// The names after `implements`, where it is at the front, and what follows them.
pub fn implemented(
    alloc: Global,
    tokens: &[Token],
) -> Result<(Vec<Identifier>, &[Token]), OutOfMemory>
    ensures { IfOk result
        (λ r. read_implements (kinds tokens.now) ≡ (identifier_names r.0.items, kinds r.1.now)) }
{
    match behind_mark(tokens, TokenKind::Implements) {
        None => Ok((Vec::new(alloc), tokens)),
        Some((first, rest)) => names_from(alloc, first, rest),
    }
}

/// The names after `extends`, where it is at the front, and what follows them.
pub fn extended(alloc: Global, tokens: &[Token]) -> Result<(Vec<Identifier>, &[Token]), OutOfMemory>
    ensures { IfOk result
        (λ r. read_extends (kinds tokens.now) ≡ (identifier_names r.0.items, kinds r.1.now)) }
{
    match behind_mark(tokens, TokenKind::Extends) {
        None => Ok((Vec::new(alloc), tokens)),
        Some((first, rest)) => names_from(alloc, first, rest),
    }
}

/// A first name and those after it.
fn names_from(
    alloc: Global,
    first: Identifier,
    tokens: &[Token],
) -> Result<(Vec<Identifier>, &[Token]), OutOfMemory>
    ensures { IfOk result (λ r. add_name first.name (read_more_names (kinds tokens.now))
        ≡ (identifier_names r.0.items, kinds r.1.now)) }
{
    let mut all = Vec::new(alloc);
    put(&mut all, first)?;
    more_names(all, tokens)
}
