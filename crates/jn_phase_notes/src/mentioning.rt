//! Members where expressions name them.
ghost use Rattle.std.specs.Prelude.{◌≡◌, ◌++◌, ◌∷◌, [], OnOk};
ghost use Rattle.jn_places.specs.PlacedView.{placed_view, placed_views};
ghost use Rattle.jn_phase_notes.specs.Mentions as spec;

use jn_base::{NameNo, Seq, Span};
use jn_scopes::forms::count;
use jn_trees::{Expr, Identifier};
use std::alloc::AllocError;

/// How a member is named: a call of a method, an object that is made, a call of another constructor, or a field after a dot.
#[derive(Clone, Copy)]
pub enum Kind {
    Calls,
    Makes,
    Builds,
    Reads,
}

/// A member where it is named, by its name or, of a constructor, that of its class, and with how many arguments.
#[derive(Clone, Copy)]
pub struct Mention {
    pub kind: Kind,
    pub name: NameNo,
    pub span: Span,
    pub arguments: usize,
}

/// Puts a member that is named at its own name.
pub(crate) fn put_mention(
    found: &mut Seq<Mention>,
    kind: Kind,
    name: Identifier,
    span: Span,
    arguments: usize,
) -> Result<(), AllocError>
    ensures { OnOk result (found.new ≡ found.old ++ spec.mention kind name span arguments ∷ []) }
{
    let name = name.name;
    found.push(Mention {
        kind,
        name,
        span,
        arguments,
    })
}

/// Puts those of an expression: its own, then those of its parts.
#[cycle(mentioning)]
pub(crate) fn expression(tree: &Expr, found: &mut Seq<Mention>) -> Result<(), AllocError>
    ensures { OnOk result (found.new ≡ found.old ++ spec.mentions (placed_view tree.now)) }
{
    match tree {
        Expr::Literal { .. } => Ok(()),
        Expr::Name { .. } => Ok(()),
        Expr::This { .. } => Ok(()),
        Expr::Paren { inner, .. } => expression(inner, found),
        Expr::Field { target, name, .. } => {
            put_mention(found, Kind::Reads, *name, name.span, 0)?;
            expression(target, found)
        }
        Expr::Call {
            target,
            name,
            arguments,
            ..
        } => {
            let listed: &[Expr] = arguments;
            put_mention(found, Kind::Calls, *name, name.span, count(listed))?;
            expression(target, found)?;
            all(listed, found)
        }
        Expr::OwnCall {
            name,
            arguments,
            ..
        } => {
            let listed: &[Expr] = arguments;
            put_mention(found, Kind::Calls, *name, name.span, count(listed))?;
            all(listed, found)
        }
        Expr::SuperCall {
            name,
            arguments,
            ..
        } => {
            let listed: &[Expr] = arguments;
            put_mention(found, Kind::Calls, *name, name.span, count(listed))?;
            all(listed, found)
        }
        Expr::Index { array, index, .. } => {
            expression(array, found)?;
            expression(index, found)
        }
        Expr::New {
            class,
            arguments,
            ..
        } => {
            let listed: &[Expr] = arguments;
            put_mention(found, Kind::Makes, *class, class.span, count(listed))?;
            all(listed, found)
        }
        Expr::NewArray { length, .. } => expression(length, found),
        Expr::ArrayOf { elements, .. } => all(elements, found),
        Expr::Postfix { target, .. } => expression(target, found),
        Expr::Prefix { target, .. } => expression(target, found),
        Expr::Unary { operand, .. } => expression(operand, found),
        Expr::Cast { operand, .. } => expression(operand, found),
        Expr::Binary { left, right, .. } => {
            expression(left, found)?;
            expression(right, found)
        }
        Expr::InstanceOf { operand, .. } => expression(operand, found),
        Expr::Conditional {
            condition,
            then,
            otherwise,
            ..
        } => {
            expression(condition, found)?;
            expression(then, found)?;
            expression(otherwise, found)
        }
        Expr::Assign { target, value, .. } => {
            expression(target, found)?;
            expression(value, found)
        }
    }
}

/// Puts those of several expressions, one after the other.
#[cycle(mentioning)]
pub(crate) fn all(trees: &[Expr], found: &mut Seq<Mention>) -> Result<(), AllocError>
    ensures { OnOk result (found.new ≡ found.old ++ spec.mentions_of_all (placed_views trees.now)) }
{
    for tree in trees {
        expression(tree, found)?;
    }
    Ok(())
}
