//! The lines that begin a file (JLS 7.4, 7.5).
ghost use Rattle.std.specs.Prelude.{◌≡◌, ◌∷◌, List, IfOk, MatchOption};
ghost use Rattle.jn_trees.specs.declared.token.TokenKind.{TokenKind as Kind};
ghost use Rattle.jn_trees.specs.View.{identifier_names};
ghost use Rattle.jn_trees.specs.Pieces.{kinds};
ghost use Rattle.jn_parse_decl_law.specs.PieceReader.{read_package, package_end, read_import, import_end};
ghost use Rattle.jn_parse_decl.specs.Seen.{seen_piece};

use crate::names::dotted_names;
use crate::piece::Piece;
use jn_base::OutOfMemory;
use jn_trees::reading::{covered, expect, identifier};
use jn_trees::{Import, PackageLine, QualifiedName, Token, TokenKind};
use std::alloc::Global;

/// The package line whose word stands first in `from` and before these tokens.
pub fn package_line<'t>(
    alloc: Global,
    from: &[Token],
    tokens: &'t [Token],
) -> Result<Option<(Piece, &'t [Token])>, OutOfMemory>
    ensures { IfOk result (λ o. seen_piece o ≡ read_package (kinds tokens.now)) }
{
    match identifier(tokens) {
        None => Ok(None),
        Some((first, rest)) => {
            let (more, rest) = dotted_names(alloc, rest)?;
            Ok(ended_package(from, QualifiedName { first, more }, rest))
        }
    }
}

/// The package line whose name stands before these tokens.
fn ended_package<'t>(
    from: &[Token],
    name: QualifiedName,
    tokens: &'t [Token],
) -> Option<(Piece, &'t [Token])>
    ensures { seen_piece result
        ≡ package_end name.first.name (identifier_names name.more.items) (kinds tokens.now) }
{
    match expect(tokens, TokenKind::Semicolon) {
        None => None,
        Some(rest) => {
            let span = covered(from, rest);
            Some((Piece::Package(PackageLine { name, span }), rest))
        }
    }
}

/// The import whose word stands first in `from` and before these tokens.
pub fn import_line<'t>(
    alloc: Global,
    from: &[Token],
    tokens: &'t [Token],
) -> Result<Option<(Piece, &'t [Token])>, OutOfMemory>
    ensures { IfOk result (λ o. seen_piece o ≡ read_import (kinds tokens.now)) }
{
    match identifier(tokens) {
        None => Ok(None),
        Some((first, rest)) => {
            let (more, rest) = dotted_names(alloc, rest)?;
            Ok(ended_import(from, QualifiedName { first, more }, rest))
        }
    }
}

/// The import whose name stands before these tokens.
fn ended_import<'t>(
    from: &[Token],
    name: QualifiedName,
    tokens: &'t [Token],
) -> Option<(Piece, &'t [Token])>
    ensures { seen_piece result
        ≡ import_end name.first.name (identifier_names name.more.items) (kinds tokens.now) }
{
    let (all, rest) = match expect(tokens, TokenKind::Semicolon) {
        Some(rest) => (false, rest),
        None => (true, ended_star(tokens)?),
    };
    let span = covered(from, rest);
    Some((Piece::Import(Import { name, all, span }), rest))
}

/// What follows `.*;`.
fn ended_star(tokens: &[Token]) -> Option<&[Token]>
    ensures { MatchOption result
        ((rest : List Kind) → kinds tokens.now ≡ Kind.Dot ∷ Kind.Star ∷ Kind.Semicolon ∷ rest → ⊥)
        (λ r. kinds tokens.now ≡ Kind.Dot ∷ Kind.Star ∷ Kind.Semicolon ∷ kinds r.now) }
{
    let rest = expect(tokens, TokenKind::Dot)?;
    let rest = expect(rest, TokenKind::Star)?;
    expect(rest, TokenKind::Semicolon)
}
