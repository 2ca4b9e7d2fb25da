//! Modifiers of types and members (JLS 8.1.1, 8.3.1, 8.4.3, 8.8.3, 9.4).
ghost use Rattle.std.specs.Prelude.{◌≡◌, ◌&&◌, ◌∷◌, [], List, MatchOption, IfOk, IfSome, option_map, length, ◌<◌};
ghost use Rattle.jn_base.specs.declared.number.NameNo.{NameNo as Name};
ghost use Rattle.jn_trees.specs.declared.token.TokenKind.{TokenKind as Kind};
ghost use Rattle.jn_trees.specs.View.{mark, marks};
ghost use Rattle.jn_trees.specs.Pieces.{kinds};
ghost use Rattle.jn_parse_decl_law.specs.PieceReader.{read_all_marks, add_mark, good_marks};
ghost use Rattle.jn_trees.specs.Bearers.{may};
ghost use Rattle.jn_parse_decl.specs.Front.{word_mark};

use crate::names::behind_mark;
use jn_base::OutOfMemory;
use jn_base::lists::put;
use jn_trees::reading::{covered, next};
use jn_trees::{Annotation, Bearer, Modifier, Token, TokenKind, every_may_stand, no_clash};
use std::alloc::Global;

/// Whether each of these may stand before that, and no two clash.
pub fn may_all_stand(modifiers: &[Modifier], bearer: Bearer) -> bool
    ensures { result ≡ good_marks (may bearer) (marks modifiers.now) }
{
    every_may_stand(modifiers, bearer) && no_clash(modifiers)
}

/// The modifier that one word is.
fn word(token: &Token) -> Option<Modifier>
    ensures { option_map mark result ≡ word_mark token.now.kind }
{
    match token.kind {
        TokenKind::Public => Some(Modifier::Public(token.span)),
        TokenKind::Protected => Some(Modifier::Protected(token.span)),
        TokenKind::Private => Some(Modifier::Private(token.span)),
        TokenKind::Static => Some(Modifier::Static(token.span)),
        TokenKind::Final => Some(Modifier::Final(token.span)),
        TokenKind::Abstract => Some(Modifier::Abstract(token.span)),
        _ => None,
    }
}

/// The modifier at the front where no annotation is, and what follows it.
fn word_modifier(tokens: &[Token]) -> Option<(Modifier, &[Token])>
    ensures reads { ((n : Name) (rest : List Kind)
        → kinds tokens.now ≡ Kind.At ∷ Kind.Id n ∷ rest → ⊥)
        → MatchOption result (read_all_marks (kinds tokens.now) ≡ ([], kinds tokens.now))
        (λ r. read_all_marks (kinds tokens.now)
        ≡ add_mark (mark r.0) (read_all_marks (kinds r.1.now))) }
    ensures shorter { IfSome result (λ r. length (kinds r.1.now) < length (kinds tokens.now)) }
{
    let (first, rest) = next(tokens)?;
    let found = word(&first)?;
    Some((found, rest))
}

/// The modifier at the front, and what follows it.
fn modifier(tokens: &[Token]) -> Option<(Modifier, &[Token])>
    ensures reads { MatchOption result (read_all_marks (kinds tokens.now) ≡ ([], kinds tokens.now))
        (λ r. read_all_marks (kinds tokens.now)
        ≡ add_mark (mark r.0) (read_all_marks (kinds r.1.now))) }
    ensures shorter { IfSome result (λ r. length (kinds r.1.now) < length (kinds tokens.now)) }
{
    match behind_mark(tokens, TokenKind::At) {
        Some((name, rest)) => Some((
            Modifier::Annotation(Annotation {
                name: name.name,
                span: covered(tokens, rest),
            }),
            rest,
        )),
        None => word_modifier(tokens),
    }
}

/// The modifiers at the front, as many as there are, and what follows them.
pub fn read_modifiers(
    alloc: Global,
    tokens: &[Token],
) -> Result<(Vec<Modifier>, &[Token]), OutOfMemory>
    ensures { IfOk result
        (λ r. read_all_marks (kinds tokens.now) ≡ (marks r.0.items, kinds r.1.now)) }
{
    let mut all = Vec::new(alloc);
    let mut left = tokens;
    'modifiers: loop {
        match modifier(left) {
            None => return Ok((all, left)),
            Some((found, rest)) => {
                put(&mut all, found)?;
                left = rest;
            }
        }
    }
}
