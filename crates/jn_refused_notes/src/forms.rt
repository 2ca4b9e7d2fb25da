//! Expressions that may not be of the subset.
ghost use Rattle.std.specs.Prelude.{◌≡◌, ◌++◌, OnOk};
ghost use Rattle.jn_places.specs.PlacedView.{placed_optional, placed_view, placed_views};
ghost use Rattle.jn_refused_notes.specs.Refused as spec;

use crate::causes::{Cause, Refusal, refuse};
use crate::marks::annotations;
use jn_base::{NameNo, Seq, Span};
use jn_known::EQUALS;
use jn_lower_rows::annotations::{NULLITY_ALONE, is_object_member};
use jn_scopes::types::{is_class_use, is_equality};
use jn_trees::{BinaryOperator, ElementType, Expr, Identifier};
use std::alloc::AllocError;

/// Puts the name of a member of Object that is declared.
pub(crate) fn declared_name(name: Identifier, found: &mut Seq<Refusal>) -> Result<(), AllocError>
    ensures { OnOk result (found.new ≡ found.old ++ spec.name_refusals name) }
{
    if is_object_member(name.name) {
        refuse(found, Cause::ObjectMember, name.span)
    } else {
        Ok(())
    }
}

/// Why a method of the name isn't called.
fn call_cause(name: NameNo) -> Cause
    ensures { result ≡ spec.call_cause name.0 }
{
    if name.0 == EQUALS.0 {
        Cause::OtherEquals
    } else if is_object_member(name) {
        Cause::ObjectMember
    } else {
        Cause::OtherMember
    }
}

fn equality(
    operator: BinaryOperator,
    span: Span,
    found: &mut Seq<Refusal>,
) -> Result<(), AllocError>
    ensures { OnOk result (found.new ≡ found.old ++ spec.equality_refusals operator span) }
{
    if is_equality(operator) {
        refuse(found, Cause::OfReferences, span)
    } else {
        Ok(())
    }
}

/// Puts the annotations of the type of an array's elements, where the array is made.
fn element_type(written: &ElementType, found: &mut Seq<Refusal>) -> Result<(), AllocError>
    ensures { OnOk result (found.new
        ≡ found.old ++ spec.element_refusals written.now.annotations.items written.now.base) }
{
    let reference = is_class_use(written.base);
    annotations(NULLITY_ALONE, reference, &written.annotations, found)
}

/// Puts those of an expression: its own, then those of its parts.
#[cycle(refusing)]
pub(crate) fn expression(tree: &Expr, found: &mut Seq<Refusal>) -> Result<(), AllocError>
    ensures { OnOk result (found.new ≡ found.old ++ spec.refusals (placed_view tree.now)) }
{
    match tree {
        Expr::Literal { .. } => Ok(()),
        Expr::Name { .. } => Ok(()),
        Expr::This { .. } => Ok(()),
        Expr::Paren { inner, .. } => expression(inner, found),
        Expr::Field { target, name, .. } => {
            refuse(found, Cause::OtherMember, name.span)?;
            expression(target, found)
        }
        Expr::Call {
            target,
            name,
            arguments,
            ..
        } => {
            let listed: &[Expr] = arguments;
            refuse(found, call_cause(name.name), name.span)?;
            expression(target, found)?;
            all(listed, found)
        }
        Expr::OwnCall {
            name,
            arguments,
            ..
        } => {
            let listed: &[Expr] = arguments;
            refuse(found, call_cause(name.name), name.span)?;
            all(listed, found)
        }
        Expr::SuperCall {
            name,
            arguments,
            ..
        } => {
            let listed: &[Expr] = arguments;
            refuse(found, call_cause(name.name), name.span)?;
            all(listed, found)
        }
        Expr::Index { array, index, .. } => {
            expression(array, found)?;
            expression(index, found)
        }
        Expr::New { arguments, .. } => all(arguments, found),
        Expr::NewArray {
            element,
            length,
            ..
        } => {
            element_type(element, found)?;
            expression(length, found)
        }
        Expr::ArrayOf {
            element,
            elements,
            ..
        } => {
            let listed: &[Expr] = elements;
            element_type(element, found)?;
            all(listed, found)
        }
        Expr::Postfix { target, .. } => expression(target, found),
        Expr::Prefix { target, .. } => expression(target, found),
        Expr::Unary { operand, .. } => expression(operand, found),
        Expr::Cast { operand, .. } => expression(operand, found),
        Expr::Binary {
            left,
            operator,
            right,
            span,
        } => {
            equality(*operator, *span, found)?;
            expression(left, found)?;
            expression(right, found)
        }
        Expr::InstanceOf { operand, .. } => expression(operand, found),
        Expr::Conditional {
            condition,
            then,
            otherwise,
            ..
        } => {
            expression(condition, found)?;
            expression(then, found)?;
            expression(otherwise, found)
        }
        Expr::Assign { target, value, .. } => {
            expression(target, found)?;
            expression(value, found)
        }
    }
}

/// Puts those of several expressions, one after the other.
#[cycle(refusing)]
pub(crate) fn all(trees: &[Expr], found: &mut Seq<Refusal>) -> Result<(), AllocError>
    ensures { OnOk result (found.new ≡ found.old ++ spec.refusals_of_all (placed_views trees.now)) }
{
    for tree in trees {
        expression(tree, found)?;
    }
    Ok(())
}

/// Puts those of an expression that may be absent.
pub(crate) fn optional(tree: &Option<Box<Expr>>, found: &mut Seq<Refusal>) -> Result<(), AllocError>
    ensures { OnOk result
        (found.new ≡ found.old ++ spec.optional_refusals (placed_optional tree.now)) }
{
    match tree {
        None => Ok(()),
        Some(given) => expression(given, found),
    }
}
