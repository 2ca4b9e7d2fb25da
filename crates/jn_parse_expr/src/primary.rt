//! Primaries: what stands by itself, with its fields, calls and indices (JLS 15.8 to 15.13).
ghost use Rattle.std.specs.Prelude.{◌≡◌, ◌-◌, ◌+◌, ◌≤◌, ◌<◌, ◌^◌, ℕ, IfOk, IfSome, MatchOption, option_map, List, ◌∷◌, Option, Some};
ghost use Rattle.jn_base.specs.declared.number.NameNo.{NameNo as SpecName};
ghost use Rattle.jn_trees.specs.declared.token.TokenKind.{TokenKind as Kind};
ghost use Rattle.jn_trees.specs.Trees.{Tree, NameTree, OwnCallTree, SuperCallTree};
ghost use Rattle.jn_trees.specs.WellFormed.{nesting};
ghost use Rattle.jn_trees.specs.View.{view, views};
ghost use Rattle.jn_trees.specs.Longest.{Try};
ghost use Rattle.jn_trees.specs.Pieces.{kinds};
ghost use Rattle.jn_parse_expr_law.specs.Reader.{reader, TryAll, trim, primary, link as link_at, member, close_index, close_paren, bind, build_all, called, head, super_call};
ghost use Rattle.jn_parse_expr.specs.Steps.{ReadAs, TailAs, AllAs, PrimaryAs, IsLinked, literal_at, word, word_at};

use crate::arguments::read_arguments;
use crate::creation::read_creation;
use crate::tail::{Tail, attach};
use crate::whole::read_whole;
use jn_base::Span;
use jn_base::number::larger;
use jn_trees::reading::{covered, expect, identifier, next};
use jn_trees::{Expr, Identifier, Literal, Token, TokenKind};
use std::alloc::{AllocError, Global};

/// A primary, its nesting and the tokens after it. Where it ends in a link to a tree on its left, `before` is that tree's nesting, and `link` has the tokens from the link on.
#[derive(Drop)]
pub struct Primary<'t> {
    pub tree: Box<Expr>,
    pub nested: u32,
    pub rest: &'t [Token],
    pub before: u32,
    pub link: &'t [Token],
}

/// A name that stands first, boxed.
fn boxed_name(alloc: Global, name: Identifier) -> Result<Box<Expr>, AllocError>
    ensures { IfOk result (λ e. view e.value ≡ NameTree name.name) }
{
    Ok(Box::new(alloc, Expr::Name { name })?)
}

/// The longest left side of an assignment that a primary at `start` begins with: all of it, or what stands before the brackets of a call.
pub fn cut<'t>(
    alloc: Global,
    start: &'t [Token],
    primary: Primary<'t>,
) -> Result<Option<(Box<Expr>, u32, &'t [Token])>, AllocError>
    requires nests { primary.nested ≡ nesting (view primary.tree.value) }
    requires linked { IsLinked (kinds start.now) (view primary.tree.value) primary.before
        (kinds primary.link.now) (kinds primary.rest.now) }
    ensures { IfOk result (λ o. (d : ℕ) → primary.entry.nested ≤ d
        → ReadAs d o (trim (view primary.entry.tree.value) (kinds primary.entry.rest.now))) }
{
    let Primary {
        tree,
        nested,
        rest,
        before,
        link,
    } = primary;
    if tree.is_left_side() {
        return Ok(Some((tree, nested, rest)));
    }
    match Box::into_inner(tree) {
        Expr::Call { target, name, .. } => {
            let rest = &link[2..];
            let span = covered(start, rest);
            let boxed = Box::new(alloc, Expr::Field { target, name, span })?;
            Ok(Some((boxed, before + 1, rest)))
        }
        Expr::OwnCall { name, .. } => {
            let boxed = boxed_name(alloc, name)?;
            Ok(Some((boxed, 1, &start[1..])))
        }
        other => {
            drop(other);
            Ok(None)
        }
    }
}

/// The literal that a token is; the number 2147483648 is none.
fn literal_of(kind: TokenKind) -> Option<Literal>
    ensures { result ≡ literal_at kind }
{
    match kind {
        TokenKind::Number(value) => {
            if value < 2147483648 {
                Some(Literal::Number(value))
            } else {
                None
            }
        }
        TokenKind::Str(text) => Some(Literal::Str(text)),
        TokenKind::True => Some(Literal::True),
        TokenKind::False => Some(Literal::False),
        TokenKind::Null => Some(Literal::Null),
        _ => None,
    }
}

/// A literal or `this`.
fn word_of(token: Token) -> Option<Expr>
    ensures { option_map view result ≡ word_at token.kind }
{
    let span = token.span;
    if token.kind == TokenKind::This {
        return Some(Expr::This { span });
    }
    match literal_of(token.kind) {
        None => None,
        Some(literal) => Some(Expr::Literal { literal, span }),
    }
}

/// The literal or `this` at the front.
fn read_word(
    alloc: Global,
    tokens: &[Token],
) -> Result<Option<(Box<Expr>, u32, &[Token])>, AllocError>
    ensures { IfOk result (λ o. ReadAs 1 o (word (kinds tokens.now))) }
{
    match next(tokens) {
        None => Ok(None),
        Some((first, rest)) => match word_of(first) {
            None => Ok(None),
            Some(tree) => {
                let boxed = Box::new(alloc, tree)?;
                Ok(Some((boxed, 1, rest)))
            }
        },
    }
}

/// The longest primary.
#[cycle(parser)]
pub fn read_primary(
    alloc: Global,
    tokens: &[Token],
    depth: u32,
) -> Result<Option<Primary<'_>>, AllocError>
    requires { 0 < depth }
    ensures { IfOk result (λ o. PrimaryAs (kinds tokens.now) depth o
        (primary (reader (depth - 1)) depth (kinds tokens.now))) }
{
    match read_head(alloc, tokens, depth)? {
        None => Ok(None),
        Some((first, first_nested, first_rest)) => {
            let mut tree = first;
            let mut nested = first_nested;
            let mut rest = first_rest;
            let mut before = 0;
            let mut link = tokens;
            'links: loop {
                match link_tail(alloc, &tree, nested, rest, depth)? {
                    None => {
                        return Ok(Some(Primary {
                            tree,
                            nested,
                            rest,
                            before,
                            link,
                        }));
                    }
                    Some((tail, deeper, after)) => {
                        tree = attach(alloc, tokens, tree, tail, after)?;
                        before = nested;
                        link = rest;
                        nested = deeper;
                        rest = after;
                    }
                }
            }
        }
    }
}

/// A field, a call or an index.
#[cycle(parser)]
fn link_tail<'t>(
    alloc: Global,
    left: &Expr,
    nested: u32,
    tokens: &'t [Token],
    depth: u32,
) -> Result<Option<(Tail, u32, &'t [Token])>, AllocError>
    requires some { 0 < depth }
    requires nests { nested ≡ nesting (view left.now) }
    ensures rises { IfOk result (λ o. IfSome o (λ r. nested < r.1)) }
    ensures gives { IfOk result (λ o. TailAs depth (view left.now) o
        (link_at (reader (depth - 1)) depth (view left.now) (kinds tokens.now))) }
{
    if nested >= depth {
        return Ok(None);
    }
    match expect(tokens, TokenKind::Dot) {
        Some(after) => member_tail(alloc, nested, after, depth),
        None => match expect(tokens, TokenKind::LeftBracket) {
            None => Ok(None),
            Some(after) => {
                if left.is_indexable() {
                    index_tail(alloc, nested, after, depth)
                } else {
                    Ok(None)
                }
            }
        },
    }
}

/// The name after a dot, and the arguments of a call.
#[cycle(parser)]
fn member_tail(
    alloc: Global,
    nested: u32,
    tokens: &[Token],
    depth: u32,
) -> Result<Option<(Tail, u32, &[Token])>, AllocError>
    requires { nested < depth }
    ensures rises { IfOk result (λ o. IfSome o (λ r. nested < r.1)) }
    ensures gives { IfOk result (λ o. (p : Tree) → nested ≡ nesting p
        → TailAs depth p o (member (reader (depth - 1)) p (kinds tokens.now))) }
{
    match identifier(tokens) {
        None => Ok(None),
        Some((name, rest)) => match read_arguments(alloc, rest, depth - 1)? {
            None => Ok(Some((Tail::Field(name), nested + 1, rest))),
            Some((arguments, deeper, rest)) => Ok(Some((
                Tail::Call(name, arguments),
                larger(nested, deeper) + 1,
                rest,
            ))),
        },
    }
}

/// The index after its opening bracket.
#[cycle(parser)]
fn index_tail(
    alloc: Global,
    nested: u32,
    tokens: &[Token],
    depth: u32,
) -> Result<Option<(Tail, u32, &[Token])>, AllocError>
    requires { nested < depth }
    ensures rises { IfOk result (λ o. IfSome o (λ r. nested < r.1)) }
    ensures gives { IfOk result (λ o. (p : Tree) → nested ≡ nesting p
        → TailAs depth p o (bind ((reader (depth - 1)).whole (kinds tokens.now)) (close_index p))) }
{
    match read_whole(alloc, tokens, depth - 1)? {
        None => Ok(None),
        Some((index, deeper, rest)) => match expect(rest, TokenKind::RightBracket) {
            None => Ok(None),
            Some(rest) => Ok(Some((Tail::Index(index), larger(nested, deeper) + 1, rest))),
        },
    }
}

fn own_call(name: Identifier, arguments: Vec<Expr>, span: Span) -> Expr
    ensures { view result ≡ OwnCallTree name.name (views arguments.items) }
{
    Expr::OwnCall {
        name,
        arguments,
        span,
    }
}

fn super_method(name: Identifier, arguments: Vec<Expr>, span: Span) -> Expr
    ensures { view result ≡ SuperCallTree name.name (views arguments.items) }
{
    Expr::SuperCall {
        name,
        arguments,
        span,
    }
}

/// A name, or a call of an own method.
fn named<'t>(
    alloc: Global,
    start: &[Token],
    name: Identifier,
    tokens: &'t [Token],
    arguments: Option<(Vec<Expr>, u32, &'t [Token])>,
) -> Result<(Box<Expr>, u32, &'t [Token]), AllocError>
    requires { IfSome arguments (λ r. r.1 < 2 ^ 32 - 1) }
    ensures { IfOk result (λ r. (d e : ℕ) (o : TryAll) → d < e → AllAs d arguments.entry o
        → ReadAs e (Some r) (Some
        (called (NameTree name.name) (λ es. OwnCallTree name.name es) (kinds tokens.now) o))) }
{
    match arguments {
        None => {
            let tree = boxed_name(alloc, name)?;
            Ok((tree, 1, tokens))
        }
        Some((arguments, nested, rest)) => {
            let tree = Box::new(alloc, own_call(name, arguments, covered(start, rest)))?;
            Ok((tree, nested + 1, rest))
        }
    }
}

/// A call of the parent's method.
fn super_named<'t>(
    alloc: Global,
    start: &[Token],
    name: Identifier,
    arguments: Option<(Vec<Expr>, u32, &'t [Token])>,
) -> Result<Option<(Box<Expr>, u32, &'t [Token])>, AllocError>
    requires { IfSome arguments (λ r. r.1 < 2 ^ 32 - 1) }
    ensures { IfOk result (λ r. (d e : ℕ) (o : TryAll) → d < e → AllAs d arguments.entry o
        → ReadAs e r (build_all (λ es. SuperCallTree name.name es) o)) }
{
    match arguments {
        None => Ok(None),
        Some((arguments, nested, rest)) => {
            let tree = Box::new(alloc, super_method(name, arguments, covered(start, rest)))?;
            Ok(Some((tree, nested + 1, rest)))
        }
    }
}

/// An expression with the parenthesis that closes it; the other stands at `start`.
fn in_parens<'t>(
    alloc: Global,
    start: &[Token],
    read: Option<(Box<Expr>, u32, &'t [Token])>,
) -> Result<Option<(Box<Expr>, u32, &'t [Token])>, AllocError>
    requires { IfSome read (λ r. r.1 < 2 ^ 32 - 1) }
    ensures { IfOk result (λ r.
        (d e : ℕ) (o : Try) → d < e → ReadAs d read.entry o → ReadAs e r (bind o close_paren)) }
{
    match read {
        None => Ok(None),
        Some((inner, nested, rest)) => match expect(rest, TokenKind::RightParen) {
            None => Ok(None),
            Some(rest) => {
                let span = covered(start, rest);
                let boxed = Box::new(alloc, Expr::Paren { inner, span })?;
                Ok(Some((boxed, nested + 1, rest)))
            }
        },
    }
}

/// The name after `super` and a dot.
fn super_name(tokens: &[Token]) -> Option<(Identifier, &[Token])>
    ensures { MatchOption result
        ((name : SpecName) (rest : List Kind) → kinds tokens.now ≡ Kind.Dot ∷ Kind.Id name ∷ rest
        → ⊥)
        (λ r. kinds tokens.now ≡ Kind.Dot ∷ Kind.Id r.0.name ∷ kinds r.1.now) }
{
    match expect(tokens, TokenKind::Dot) {
        None => None,
        Some(rest) => identifier(rest),
    }
}

/// What a primary begins with.
#[cycle(parser)]
fn read_head(
    alloc: Global,
    tokens: &[Token],
    depth: u32,
) -> Result<Option<(Box<Expr>, u32, &[Token])>, AllocError>
    requires { 0 < depth }
    ensures { IfOk result (λ o. ReadAs depth o (head (reader (depth - 1)) (kinds tokens.now))) }
{
    if let Some((name, rest)) = identifier(tokens) {
        let arguments = read_arguments(alloc, rest, depth - 1)?;
        return Ok(Some(named(alloc, tokens, name, rest, arguments)?));
    }
    if let Some(rest) = expect(tokens, TokenKind::LeftParen) {
        let inner = read_whole(alloc, rest, depth - 1)?;
        return in_parens(alloc, tokens, inner);
    }
    if let Some(rest) = expect(tokens, TokenKind::New) {
        return read_creation(alloc, tokens, rest, depth);
    }
    if let Some(rest) = expect(tokens, TokenKind::Super) {
        return read_super(alloc, tokens, rest, depth);
    }
    read_word(alloc, tokens)
}

/// A call after `super`, which stands at `start`.
#[cycle(parser)]
fn read_super<'t>(
    alloc: Global,
    start: &[Token],
    tokens: &'t [Token],
    depth: u32,
) -> Result<Option<(Box<Expr>, u32, &'t [Token])>, AllocError>
    requires { 0 < depth }
    ensures { IfOk result
        (λ o. ReadAs depth o (super_call (reader (depth - 1)) (kinds tokens.now))) }
{
    match super_name(tokens) {
        None => Ok(None),
        Some((name, rest)) => {
            let arguments = read_arguments(alloc, rest, depth - 1)?;
            Ok(super_named(alloc, start, name, arguments)?)
        }
    }
}
