//! Heads of types, through the opening brace (JLS 8.1, 9.1).
ghost use Rattle.std.specs.Prelude.{◌≡◌, IfOk};
ghost use Rattle.jn_trees.specs.View.{marks, identifier_names, parent_view};
ghost use Rattle.jn_trees.specs.Pieces.{kinds};
ghost use Rattle.jn_parse_decl_law.specs.PieceReader as reader;
ghost use Rattle.jn_parse_decl.specs.Seen.{seen_piece};

use crate::modifiers::{may_all_stand, read_modifiers};
use crate::names::{extended, implemented, parent};
use crate::piece::{Piece, TypeHead};
use jn_base::OutOfMemory;
use jn_trees::reading::{expect, identifier};
use jn_trees::{Bearer, Identifier, Modifier, Token, TokenKind};
use std::alloc::Global;

/// The head of a type at the front, well formed, and what follows it.
pub fn read_type_head(
    alloc: Global,
    tokens: &[Token],
) -> Result<Option<(Piece, &[Token])>, OutOfMemory>
    ensures { IfOk result (λ o. seen_piece o ≡ reader.read_type_head (kinds tokens.now)) }
{
    let (modifiers, rest) = read_modifiers(alloc, tokens)?;
    type_behind(alloc, modifiers, rest)
}

/// The head of a type whose modifiers stand before these tokens.
fn type_behind(
    alloc: Global,
    modifiers: Vec<Modifier>,
    tokens: &[Token],
) -> Result<Option<(Piece, &[Token])>, OutOfMemory>
    ensures { IfOk result
        (λ o. seen_piece o ≡ reader.type_behind (marks modifiers.items) (kinds tokens.now)) }
{
    match expect(tokens, TokenKind::Class) {
        Some(rest) => class_head(alloc, modifiers, rest),
        None => match expect(tokens, TokenKind::Interface) {
            Some(rest) => interface_head(alloc, modifiers, rest),
            None => Ok(None),
        },
    }
}

/// The head of a class whose name is at the front.
fn class_head(
    alloc: Global,
    modifiers: Vec<Modifier>,
    tokens: &[Token],
) -> Result<Option<(Piece, &[Token])>, OutOfMemory>
    ensures { IfOk result
        (λ o. seen_piece o ≡ reader.read_class (marks modifiers.items) (kinds tokens.now)) }
{
    match identifier(tokens) {
        None => Ok(None),
        Some((name, rest)) => {
            let (parent, rest) = parent(rest);
            let (interfaces, rest) = implemented(alloc, rest)?;
            Ok(class_end(modifiers, name, parent, interfaces, rest))
        }
    }
}

/// The head of a class whose brace is at the front.
fn class_end(
    modifiers: Vec<Modifier>,
    name: Identifier,
    parent: Option<Identifier>,
    interfaces: Vec<Identifier>,
    tokens: &[Token],
) -> Option<(Piece, &[Token])>
    ensures { seen_piece result
        ≡ reader.class_end (marks modifiers.items) name.name (parent_view parent)
        (identifier_names interfaces.items) (kinds tokens.now) }
{
    match expect(tokens, TokenKind::LeftBrace) {
        None => None,
        Some(rest) => {
            if may_all_stand(&modifiers, Bearer::Class) {
                let head = TypeHead::Class {
                    modifiers,
                    name,
                    parent,
                    interfaces,
                };
                Some((Piece::TypeHead(head), rest))
            } else {
                None
            }
        }
    }
}

/// The head of an interface whose name is at the front.
fn interface_head(
    alloc: Global,
    modifiers: Vec<Modifier>,
    tokens: &[Token],
) -> Result<Option<(Piece, &[Token])>, OutOfMemory>
    ensures { IfOk result
        (λ o. seen_piece o ≡ reader.read_interface (marks modifiers.items) (kinds tokens.now)) }
{
    match identifier(tokens) {
        None => Ok(None),
        Some((name, rest)) => {
            let (parents, rest) = extended(alloc, rest)?;
            Ok(interface_end(modifiers, name, parents, rest))
        }
    }
}

/// The head of an interface whose brace is at the front.
fn interface_end(
    modifiers: Vec<Modifier>,
    name: Identifier,
    parents: Vec<Identifier>,
    tokens: &[Token],
) -> Option<(Piece, &[Token])>
    ensures { seen_piece result
        ≡ reader.interface_end (marks modifiers.items) name.name (identifier_names parents.items)
        (kinds tokens.now) }
{
    match expect(tokens, TokenKind::LeftBrace) {
        None => None,
        Some(rest) => {
            if may_all_stand(&modifiers, Bearer::Interface) {
                let head = TypeHead::Interface {
                    modifiers,
                    name,
                    parents,
                };
                Some((Piece::TypeHead(head), rest))
            } else {
                None
            }
        }
    }
}
