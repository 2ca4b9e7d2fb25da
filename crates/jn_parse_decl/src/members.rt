//! Members: fields and methods without body whole, others through the brace of their body (JLS 8.3, 8.4, 8.8, 9.3, 9.4).
ghost use Rattle.std.specs.Prelude.{◌≡◌, ◌∷◌, List, IfOk, MatchOption, None};
ghost use Rattle.jn_base.specs.declared.number.NameNo.{NameNo as Name};
ghost use Rattle.jn_trees.specs.declared.token.TokenKind.{TokenKind as Kind};
ghost use Rattle.jn_trees.specs.View.{marks, type_use_view, declarator_view, declarator_views, receiver_view, parameter_views, result_view};
ghost use Rattle.jn_trees.specs.Pieces.{kinds};
ghost use Rattle.jn_parse_decl_law.specs.PieceReader as reader;
ghost use Rattle.jn_parse_decl.specs.Seen.{seen_piece};

use crate::modifiers::{may_all_stand, read_modifiers};
use crate::nested::field_declarators;
use crate::parameters::{Parameters, each_final_once, read_parameters};
use crate::piece::{ConstructorHead, FieldParts, MethodHead, Piece};
use jn_base::{NameNo, OutOfMemory};
use jn_parse_stmt::read_type_use;
use jn_trees::reading::{covered, expect, identifier};
use jn_trees::{
    Bearer, Identifier, Modifier, Owner, Receiver, ResultUse, Token, TokenKind, TypeUse, has_static,
};
use std::alloc::Global;

/// The piece at the front of what stands in a type, well formed there, and what follows it.
pub fn read_member(
    alloc: Global,
    tokens: &[Token],
    owner: Owner,
) -> Result<Option<(Piece, &[Token])>, OutOfMemory>
    ensures { IfOk result (λ o. seen_piece o ≡ reader.read_member owner (kinds tokens.now)) }
{
    match expect(tokens, TokenKind::RightBrace) {
        Some(rest) => Ok(Some((Piece::TypeEnd, rest))),
        None => {
            let (modifiers, rest) = read_modifiers(alloc, tokens)?;
            member_behind(alloc, owner, modifiers, rest)
        }
    }
}

/// The name at the front and the opening parenthesis after it, and what follows them.
fn called(tokens: &[Token]) -> Option<(Identifier, &[Token])>
    ensures { MatchOption result
        ((n : Name) (rest : List Kind) → kinds tokens.now ≡ Kind.Id n ∷ Kind.LeftParen ∷ rest → ⊥)
        (λ r. kinds tokens.now ≡ Kind.Id r.0.name ∷ Kind.LeftParen ∷ kinds r.1.now) }
{
    let (name, rest) = identifier(tokens)?;
    let rest = expect(rest, TokenKind::LeftParen)?;
    Some((name, rest))
}

/// The member whose modifiers stand before these tokens.
fn member_behind(
    alloc: Global,
    owner: Owner,
    modifiers: Vec<Modifier>,
    tokens: &[Token],
) -> Result<Option<(Piece, &[Token])>, OutOfMemory>
    ensures { IfOk result (λ o.
        seen_piece o ≡ reader.member_behind owner (marks modifiers.items) (kinds tokens.now)) }
{
    match expect(tokens, TokenKind::Void) {
        Some(rest) => {
            let gives = ResultUse::Void(covered(tokens, rest));
            void_method(alloc, owner, modifiers, gives, rest)
        }
        None => match called(tokens) {
            Some((name, rest)) => constructor(alloc, owner, modifiers, name, rest),
            None => match read_type_use(alloc, tokens)? {
                None => Ok(None),
                Some((type_use, rest)) => typed_member(alloc, owner, modifiers, type_use, rest),
            },
        },
    }
}

/// The method whose `void` stands before these tokens.
fn void_method(
    alloc: Global,
    owner: Owner,
    modifiers: Vec<Modifier>,
    gives: ResultUse,
    tokens: &[Token],
) -> Result<Option<(Piece, &[Token])>, OutOfMemory>
    requires { result_view gives ≡ None }
    ensures { IfOk result
        (λ o. seen_piece o ≡ reader.void_method owner (marks modifiers.items) (kinds tokens.now)) }
{
    match called(tokens) {
        None => Ok(None),
        Some((name, rest)) => method(alloc, owner, modifiers, gives, name, rest),
    }
}

/// The method or field whose type stands before these tokens.
fn typed_member(
    alloc: Global,
    owner: Owner,
    modifiers: Vec<Modifier>,
    type_use: TypeUse,
    tokens: &[Token],
) -> Result<Option<(Piece, &[Token])>, OutOfMemory>
    ensures { IfOk result (λ o. seen_piece o
        ≡ reader.typed_member owner (marks modifiers.items) (type_use_view type_use)
        (kinds tokens.now)) }
{
    match called(tokens) {
        Some((name, rest)) => {
            let gives = ResultUse::Value(type_use);
            method(alloc, owner, modifiers, gives, name, rest)
        }
        None => field(alloc, modifiers, type_use, tokens),
    }
}

/// The field whose type stands before these tokens.
fn field(
    alloc: Global,
    modifiers: Vec<Modifier>,
    type_use: TypeUse,
    tokens: &[Token],
) -> Result<Option<(Piece, &[Token])>, OutOfMemory>
    ensures { IfOk result (λ o. seen_piece o
        ≡ reader.after_declarators
        (reader.field_end (marks modifiers.items) (type_use_view type_use))
        (reader.read_field_declarators (kinds tokens.now))) }
{
    match field_declarators(alloc, tokens)? {
        None => Ok(None),
        Some((first, more, rest)) => {
            let parts = FieldParts {
                modifiers,
                type_use,
                first,
                more,
            };
            Ok(field_end(parts, rest))
        }
    }
}

/// The field whose declarators stand before these tokens.
fn field_end(parts: FieldParts, tokens: &[Token]) -> Option<(Piece, &[Token])>
    ensures { seen_piece result
        ≡ reader.field_end (marks parts.modifiers.items) (type_use_view parts.type_use)
        (declarator_view parts.first) (declarator_views parts.more.items) (kinds tokens.now) }
{
    match expect(tokens, TokenKind::Semicolon) {
        None => None,
        Some(rest) => {
            if may_all_stand(&parts.modifiers, Bearer::Field) {
                Some((Piece::Field(parts), rest))
            } else {
                None
            }
        }
    }
}

/// The method whose opening parenthesis stands before these tokens.
fn method(
    alloc: Global,
    owner: Owner,
    modifiers: Vec<Modifier>,
    gives: ResultUse,
    name: Identifier,
    tokens: &[Token],
) -> Result<Option<(Piece, &[Token])>, OutOfMemory>
    ensures { IfOk result (λ o. seen_piece o
        ≡ reader.after_parameters
        (reader.method_end owner (marks modifiers.items) (result_view gives) name.name)
        (reader.read_parameters (kinds tokens.now))) }
{
    match read_parameters(alloc, tokens)? {
        None => Ok(None),
        Some((found, rest)) => {
            let Parameters {
                receiver,
                parameters,
            } = found;
            let head = MethodHead {
                modifiers,
                result: gives,
                name,
                receiver,
                parameters,
            };
            Ok(method_end(owner, head, rest))
        }
    }
}

/// The method whose parameters stand before these tokens.
fn method_end(owner: Owner, head: MethodHead, tokens: &[Token]) -> Option<(Piece, &[Token])>
    ensures { seen_piece result
        ≡ reader.method_end owner (marks head.modifiers.items) (result_view head.result)
        head.name.name (receiver_view head.receiver) (parameter_views head.parameters.items)
        (kinds tokens.now) }
{
    match expect(tokens, TokenKind::LeftBrace) {
        Some(rest) => {
            if !owner.interface && may_method(owner, &head) {
                Some((Piece::MethodHead(head), rest))
            } else {
                None
            }
        }
        None => match expect(tokens, TokenKind::Semicolon) {
            None => None,
            Some(rest) => {
                if may_method(owner, &head) {
                    Some((Piece::Method(head), rest))
                } else {
                    None
                }
            }
        },
    }
}

/// The constructor whose opening parenthesis stands before these tokens.
fn constructor(
    alloc: Global,
    owner: Owner,
    modifiers: Vec<Modifier>,
    name: Identifier,
    tokens: &[Token],
) -> Result<Option<(Piece, &[Token])>, OutOfMemory>
    ensures { IfOk result (λ o. seen_piece o
        ≡ reader.after_parameters (reader.constructor_end owner (marks modifiers.items) name.name)
        (reader.read_parameters (kinds tokens.now))) }
{
    match read_parameters(alloc, tokens)? {
        None => Ok(None),
        Some((found, rest)) => {
            let Parameters {
                receiver,
                parameters,
            } = found;
            let head = ConstructorHead {
                modifiers,
                name,
                parameters,
            };
            Ok(constructor_end(owner, head, receiver, rest))
        }
    }
}

/// The constructor whose parameters stand before these tokens.
fn constructor_end(
    owner: Owner,
    head: ConstructorHead,
    receiver: Option<Receiver>,
    tokens: &[Token],
) -> Option<(Piece, &[Token])>
    ensures { seen_piece result
        ≡ reader.constructor_end owner (marks head.modifiers.items) head.name.name
        (receiver_view receiver) (parameter_views head.parameters.items) (kinds tokens.now) }
{
    match expect(tokens, TokenKind::LeftBrace) {
        None => None,
        Some(rest) => {
            if may_constructor(owner, &head, &receiver) {
                Some((Piece::ConstructorHead(head), rest))
            } else {
                None
            }
        }
    }
}

/// Whether a method may have this head.
fn may_method(owner: Owner, head: &MethodHead) -> bool
    ensures { result
        ≡ reader.good_method_head owner (marks head.now.modifiers.items)
        (receiver_view head.now.receiver) (parameter_views head.now.parameters.items) }
{
    may_mark_method(owner.interface, &head.modifiers)
        && (may_receive(owner.name, &head.modifiers, &head.receiver)
            && each_final_once(&head.parameters))
}

/// Whether a method of a class or interface may have these modifiers.
fn may_mark_method(interface: bool, modifiers: &[Modifier]) -> bool
    ensures { result ≡ reader.good_method_marks interface (marks modifiers.now) }
{
    if interface {
        may_all_stand(modifiers, Bearer::InterfaceMethod)
    } else {
        may_all_stand(modifiers, Bearer::Method)
    }
}

/// Whether the receiver, if there is one, may stand in a method with these modifiers.
fn may_receive(owner: NameNo, modifiers: &[Modifier], receiver: &Option<Receiver>) -> bool
    ensures { result
        ≡ reader.good_receiver owner (marks modifiers.now) (receiver_view receiver.now) }
{
    match receiver {
        None => true,
        Some(receiver) => !has_static(modifiers) && receiver.class.name.0 == owner.0,
    }
}

/// Whether a constructor may have this head, and no receiver stands there.
fn may_constructor(owner: Owner, head: &ConstructorHead, receiver: &Option<Receiver>) -> bool
    ensures { result
        ≡ reader.good_constructor_head owner (marks head.now.modifiers.items) head.now.name.name
        (receiver_view receiver.now) (parameter_views head.now.parameters.items) }
{
    may_all_stand(&head.modifiers, Bearer::Constructor)
        && (!owner.interface
            && (head.name.name.0 == owner.name.0
                && (receiver.is_none() && each_final_once(&head.parameters))))
}
