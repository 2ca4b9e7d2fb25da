//! Members read whole: a field, a method without body, or a head with its body.
ghost use Rattle.std.specs.Prelude.{◌≡◌, Some, IfOk};
ghost use Rattle.jn_trees.specs.View.{member_views};
ghost use Rattle.jn_trees.specs.Pieces.{kinds};
ghost use Rattle.jn_parse_decl.specs.Ahead.{AreMembers, IsBodyRead, IsMemberRead, first_member, head_piece, may_lead};
ghost use Rattle.jn_parse_decl.specs.Seen.{piece_view, member_opening};

use crate::building::{MemberHead, field_of, member_of, method_of};
use crate::members::read_member;
use crate::nested::body_statement;
use crate::piece::Piece;
use jn_base::OutOfMemory;
use jn_base::lists::put;
use jn_sharing::make_room;
use jn_trees::reading::{covered, expect};
use jn_trees::{Member, Owner, Stmt, Token, TokenKind};
use std::alloc::Global;

/// How many bytes the trees of members take for each of their tokens, rather more than most do.
const TREE_BYTES: usize = 64;

/// The members at the front, in turn, until at most `stop` tokens are left or none can be read whole, and what follows them.
///
/// The memory of their trees is asked for in one piece first, so that several workers that read don't wait for each other there.
pub fn read_members(
    alloc: Global,
    tokens: &[Token],
    owner: Owner,
    stop: usize,
) -> Result<(Vec<Member>, &[Token]), OutOfMemory>
    ensures { IfOk result
        (λ r. AreMembers owner (kinds tokens.now) (member_views r.0.items) (kinds r.1.now)) }
{
    let share = tokens.len().saturating_sub(stop);
    make_room(alloc, share.saturating_mul(TREE_BYTES));
    let mut members = Vec::new(alloc);
    let mut left = tokens;
    'members: loop {
        if left.len() <= stop {
            return Ok((members, left));
        }
        match whole_member(alloc, left, owner)? {
            None => return Ok((members, left)),
            Some((member, rest)) => {
                put(&mut members, member)?;
                left = rest;
            }
        }
    }
}

/// The member at the front, read whole, and what follows it. None where no member can be, as at the end of a type.
fn whole_member(
    alloc: Global,
    tokens: &[Token],
    owner: Owner,
) -> Result<Option<(Member, &[Token])>, OutOfMemory>
    ensures { IfOk result (λ o. IsMemberRead owner (kinds tokens.now) o) }
{
    match read_member(alloc, tokens, owner)? {
        None => Ok(None),
        Some((piece, rest)) => whole_behind(alloc, owner, piece, tokens, rest),
    }
}

/// The member that begins with this piece, which stands before `rest`.
fn whole_behind<'t>(
    alloc: Global,
    owner: Owner,
    piece: Piece,
    tokens: &[Token],
    rest: &'t [Token],
) -> Result<Option<(Member, &'t [Token])>, OutOfMemory>
    requires { Some (piece_view piece, kinds rest.now) ≡ first_member owner (kinds tokens.now) }
    ensures { IfOk result (λ o. IsMemberRead owner (kinds tokens.now) o) }
{
    match piece {
        Piece::Field(parts) => Ok(Some((field_of(parts, covered(tokens, rest)), rest))),
        Piece::Method(head) => Ok(Some((method_of(head, covered(tokens, rest)), rest))),
        Piece::MethodHead(head) => with_body(alloc, owner, MemberHead::Method(head), tokens, rest),
        Piece::ConstructorHead(head) => {
            with_body(alloc, owner, MemberHead::Constructor(head), tokens, rest)
        }
        other => {
            drop(other);
            Ok(None)
        }
    }
}

/// The member with this head, whose body begins with `rest`.
fn with_body<'t>(
    alloc: Global,
    owner: Owner,
    head: MemberHead,
    tokens: &[Token],
    rest: &'t [Token],
) -> Result<Option<(Member, &'t [Token])>, OutOfMemory>
    requires { first_member owner (kinds tokens.now)
        ≡ Some (head_piece (member_opening head), kinds rest.now) }
    ensures { IfOk result (λ o. IsMemberRead owner (kinds tokens.now) o) }
{
    match read_body(alloc, owner, leads(&head), rest) {
        Err(_) => {
            drop(head);
            Err(OutOfMemory)
        }
        Ok(None) => {
            drop(head);
            Ok(None)
        }
        Ok(Some((statements, end))) => {
            Ok(Some((member_of(head, statements, covered(tokens, end)), end)))
        }
    }
}

/// Whether the first statement after this head may call a constructor.
fn leads(head: &MemberHead) -> bool
    ensures { result ≡ may_lead (member_opening head.now) }
{
    match head {
        MemberHead::Method(_) => false,
        MemberHead::Constructor(_) => true,
    }
}

/// The statements of the body at the front, and what follows its brace. None where one of them can't be read.
fn read_body(
    alloc: Global,
    owner: Owner,
    leading: bool,
    tokens: &[Token],
) -> Result<Option<(Vec<Stmt>, &[Token])>, OutOfMemory>
    ensures { IfOk result (λ o. IsBodyRead owner leading (kinds tokens.now) o) }
{
    let _owner = owner;
    let mut statements = Vec::new(alloc);
    let mut leads = leading;
    let mut left = tokens;
    'statements: loop {
        match expect(left, TokenKind::RightBrace) {
            Some(rest) => return Ok(Some((statements, rest))),
            None => match body_statement(alloc, left, leads)? {
                None => return Ok(None),
                Some((statement, rest)) => {
                    put(&mut statements, statement)?;
                    leads = false;
                    left = rest;
                }
            },
        }
    }
}
