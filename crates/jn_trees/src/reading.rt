//! Tokens taken one by one from the front.
ghost use Rattle.std.specs.Prelude.{◌≡◌, ◌∷◌, List, [], MatchOption};
ghost use Rattle.jn_base.specs.declared.number.NameNo.{NameNo as SpecName};
ghost use Rattle.jn_trees.specs.declared.token.TokenKind.{TokenKind as Kind};
ghost use Rattle.jn_trees.specs.Covered.{covered, span_of};
ghost use Rattle.jn_trees.specs.Pieces.{kinds};
ghost use Rattle.std.specs.Prelude.{slice_get};

use crate::expression::{Annotation, Identifier};
use crate::token::{Token, TokenKind};
use jn_base::{FileNo, Span};

/// The first token, and what follows it.
pub fn next(tokens: &[Token]) -> Option<(Token, &[Token])>
    ensures { MatchOption result (tokens.now ≡ []) (λ r. tokens.now ≡ r.0 ∷ r.1.now) }
{
    let (first, rest) = tokens.split_first()?;
    Some((*first, rest))
}

/// What follows this token, where it comes first.
pub fn expect(tokens: &[Token], kind: TokenKind) -> Option<&[Token]>
    ensures { MatchOption result ((rest : List Kind) → kinds tokens.now ≡ kind ∷ rest → ⊥)
        (λ r. kinds tokens.now ≡ kind ∷ kinds r.now) }
{
    match next(tokens) {
        None => None,
        Some((first, rest)) => { if first.kind == kind { Some(rest) } else { None } }
    }
}

/// The identifier that comes first, and what follows it.
pub fn identifier(tokens: &[Token]) -> Option<(Identifier, &[Token])>
    ensures { MatchOption result
        ((name : SpecName) (rest : List Kind) → kinds tokens.now ≡ Kind.Id name ∷ rest → ⊥)
        (λ r. kinds tokens.now ≡ Kind.Id r.0.name ∷ kinds r.1.now) }
{
    match next(tokens) {
        None => None,
        Some((first, rest)) => match first.kind {
            TokenKind::Id(name) => Some((
                Identifier {
                    name,
                    span: first.span,
                },
                rest,
            )),
            _ => None,
        },
    }
}

/// The annotation that comes first, and what follows it (JLS 9.7).
pub fn annotation(tokens: &[Token]) -> Option<(Annotation, &[Token])>
    ensures { MatchOption result
        ((name : SpecName) (rest : List Kind) → kinds tokens.now ≡ Kind.At ∷ Kind.Id name ∷ rest
        → ⊥)
        (λ r. kinds tokens.now ≡ Kind.At ∷ Kind.Id r.0.name ∷ kinds r.1.now) }
{
    match expect(tokens, TokenKind::At) {
        None => None,
        Some(after) => match identifier(after) {
            None => None,
            Some((name, rest)) => Some((
                Annotation {
                    name: name.name,
                    span: covered(tokens, rest),
                },
                rest,
            )),
        },
    }
}

fn span_at(tokens: &[Token], place: usize) -> Span
    ensures { result ≡ span_of (slice_get tokens.now place) }
{
    if place < tokens.len() {
        tokens[place].span
    } else {
        Span {
            file: FileNo(0),
            from: 0,
            to: 0,
        }
    }
}

/// The place of the tokens that stand before the rest, which is what they end with.
pub fn covered(tokens: &[Token], rest: &[Token]) -> Span
    ensures { result ≡ covered tokens.now rest.now }
{
    let first = span_at(tokens, 0);
    let last = span_at(
        tokens,
        tokens.len().saturating_sub(rest.len()).saturating_sub(1),
    );
    Span {
        file: first.file,
        from: first.from,
        to: last.to,
    }
}
