//! One piece from the front of tokens.
ghost use Rattle.std.specs.Prelude.{◌≡◌, IfOk};
ghost use Rattle.jn_trees.specs.Pieces.{kinds};
ghost use Rattle.jn_parse_decl_law.specs.PieceReader as reader;
ghost use Rattle.jn_parse_decl.specs.Seen.{seen_piece, around_view};

use crate::heads::read_type_head;
use crate::lines::{import_line, package_line};
use crate::members::read_member;
use crate::nested::body_statement;
use crate::piece::{Around, Piece};
use jn_base::OutOfMemory;
use jn_trees::reading::expect;
use jn_trees::{Token, TokenKind};
use std::alloc::Global;

/// The piece at the front, well formed where it stands, and what follows it.
pub fn read_piece(
    alloc: Global,
    tokens: &[Token],
    around: Around,
) -> Result<Option<(Piece, &[Token])>, OutOfMemory>
    ensures { IfOk result
        (λ o. seen_piece o ≡ reader.piece_reader (around_view around) (kinds tokens.now)) }
{
    match around {
        Around::AtStart => read_first(alloc, tokens),
        Around::BehindLines => read_line(alloc, tokens),
        Around::BehindTypes => read_type_head(alloc, tokens),
        Around::InType(owner) => read_member(alloc, tokens, owner),
        Around::InBody { leading, .. } => read_in_body(alloc, tokens, leading),
    }
}

/// What may stand first in a file.
fn read_first(alloc: Global, tokens: &[Token]) -> Result<Option<(Piece, &[Token])>, OutOfMemory>
    ensures { IfOk result (λ o. seen_piece o ≡ reader.read_first (kinds tokens.now)) }
{
    match expect(tokens, TokenKind::Package) {
        Some(rest) => package_line(alloc, tokens, rest),
        None => read_line(alloc, tokens),
    }
}

/// What may stand after a line.
fn read_line(alloc: Global, tokens: &[Token]) -> Result<Option<(Piece, &[Token])>, OutOfMemory>
    ensures { IfOk result (λ o. seen_piece o ≡ reader.read_line (kinds tokens.now)) }
{
    match expect(tokens, TokenKind::Import) {
        Some(rest) => import_line(alloc, tokens, rest),
        None => read_type_head(alloc, tokens),
    }
}

/// What may stand in a body, where its next statement may be the first of a constructor.
fn read_in_body(
    alloc: Global,
    tokens: &[Token],
    leading: bool,
) -> Result<Option<(Piece, &[Token])>, OutOfMemory>
    ensures { IfOk result (λ o. seen_piece o ≡ reader.read_in_body leading (kinds tokens.now)) }
{
    match expect(tokens, TokenKind::RightBrace) {
        Some(rest) => Ok(Some((Piece::BodyEnd, rest))),
        None => match body_statement(alloc, tokens, leading)? {
            Some((statement, rest)) => Ok(Some((Piece::Statement(statement), rest))),
            None => Ok(None),
        },
    }
}
