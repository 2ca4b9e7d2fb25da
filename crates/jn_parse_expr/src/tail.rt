//! What goes on with a tree that stands to the left.
ghost use Rattle.std.specs.Prelude.{◌≡◌, ◌≤◌, ◌∷◌, [], Option, Some, IfOk, MatchOption, ℕ};
ghost use Rattle.jn_trees.specs.Trees.{CallTree};
ghost use Rattle.jn_trees.specs.WellFormed.{nesting};
ghost use Rattle.jn_trees.specs.View.{view, views};
ghost use Rattle.jn_trees.specs.Longest.{Try};
ghost use Rattle.jn_trees.specs.Pieces.{kinds};
ghost use Rattle.jn_parse_expr.specs.Steps.{attached, ReadAs, TailAs, or_else};

use jn_base::Span;
use jn_trees::reading::{covered, next};
use jn_trees::{AssignOperator, BinaryOperator, Expr, Identifier, Step, Token, TokenKind};
use std::alloc::{AllocError, Global};

/// What goes on with a tree that stands to the left.
#[derive(Drop)]
pub enum Tail {
    /// `.x`
    Field(Identifier),
    /// `.m(..)`
    Call(Identifier, Vec<Expr>),
    /// `[i]`
    Index(Box<Expr>),
    /// `++`
    Step(Step),
    /// The operand of a cast: the tree to the left is the class in its parentheses.
    Cast(Identifier, Box<Expr>),
    /// `+ e`
    Operand(BinaryOperator, Box<Expr>),
    /// `instanceof C`
    Class(Identifier),
    /// `? a : b`
    Choice(Box<Expr>, Box<Expr>),
    /// `= e`
    Value(AssignOperator, Box<Expr>),
}

/// What the first token is, and what follows it.
pub fn front(tokens: &[Token]) -> Option<(TokenKind, &[Token])>
    ensures { MatchOption result (kinds tokens.now ≡ [])
        (λ r. kinds tokens.now ≡ r.0 ∷ kinds r.1.now) }
{
    match next(tokens) {
        None => None,
        Some((first, rest)) => Some((first.kind, rest)),
    }
}

fn with_call(target: Box<Expr>, name: Identifier, arguments: Vec<Expr>, span: Span) -> Expr
    ensures { view result ≡ CallTree (view target.value) name.name (views arguments.items) }
{
    Expr::Call {
        target,
        name,
        arguments,
        span,
    }
}

/// The tree to the left with what goes on with it, in its place.
fn joined(left: Box<Expr>, tail: Tail, span: Span) -> Expr
    ensures { view result ≡ attached (view left.value) tail }
{
    match tail {
        Tail::Field(name) => Expr::Field {
            target: left,
            name,
            span,
        },
        Tail::Call(name, arguments) => with_call(left, name, arguments, span),
        Tail::Index(index) => Expr::Index {
            array: left,
            index,
            span,
        },
        Tail::Step(step) => Expr::Postfix {
            target: left,
            step,
            span,
        },
        Tail::Cast(class, operand) => {
            drop(left);
            Expr::Cast {
                class,
                operand,
                span,
            }
        }
        Tail::Operand(operator, right) => Expr::Binary {
            left,
            operator,
            right,
            span,
        },
        Tail::Class(class) => Expr::InstanceOf {
            operand: left,
            class,
            span,
        },
        Tail::Choice(then, otherwise) => Expr::Conditional {
            condition: left,
            then,
            otherwise,
            span,
        },
        Tail::Value(operator, value) => Expr::Assign {
            target: left,
            operator,
            value,
            span,
        },
    }
}

/// The tree to the left with what goes on with it, from its first token at `start` to before the rest.
pub fn attach(
    alloc: Global,
    start: &[Token],
    left: Box<Expr>,
    tail: Tail,
    rest: &[Token],
) -> Result<Box<Expr>, AllocError>
    ensures { IfOk result (λ e. view e.value ≡ attached (view left.value) tail) }
{
    let tree = joined(left, tail, covered(start, rest));
    Ok(Box::new(alloc, tree)?)
}

/// The tree to the left with what goes on with it, where something does, with its nesting and the tokens after it.
pub fn go_with<'t>(
    alloc: Global,
    start: &[Token],
    left: Box<Expr>,
    nested: u32,
    rest: &'t [Token],
    tail: Option<(Tail, u32, &'t [Token])>,
) -> Result<(Box<Expr>, u32, &'t [Token]), AllocError>
    requires { nested ≡ nesting (view left.value) }
    ensures { IfOk result (λ r. (d : ℕ) (o : Try) → nested ≤ d
        → TailAs d (view left.value) tail.entry o
        → ReadAs d (Some r) (or_else o (Some (view left.value, kinds rest.now)))) }
{
    match tail {
        None => Ok((left, nested, rest)),
        Some((tail, deeper, after)) => {
            let tree = attach(alloc, start, left, tail, after)?;
            Ok((tree, deeper, after))
        }
    }
}
