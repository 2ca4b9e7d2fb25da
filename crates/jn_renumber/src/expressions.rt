//! Expressions.
ghost use Rattle.std.specs.Prelude.{◌≡◌};
ghost use Rattle.jn_places.specs.PlacedView.{placed_view, placed_views};
ghost use Rattle.jn_renumber.specs.Renumbered.{renumbered, renumbered_list};

use crate::names::{renumber_annotations, renumber_base, renumber_literal, renumber_name};
use jn_base::NameNo;
use jn_trees::Expr;

/// Renumbers the names of an expression.
#[cycle(renumbering)]
pub fn renumber(numbers: &[NameNo], expression: &mut Expr)
    ensures { placed_view expression.new ≡ renumbered numbers.now (placed_view expression.old) }
{
    match expression {
        Expr::Literal {
            literal,
            span: _span,
        } => renumber_literal(numbers, literal),
        Expr::Name { name } => renumber_name(numbers, name),
        Expr::This { span: _span } => (),
        Expr::Paren { inner, span: _span } => renumber(numbers, inner),
        Expr::Field {
            target,
            name,
            span: _span,
        } => {
            renumber(numbers, target);
            renumber_name(numbers, name);
        }
        Expr::Call {
            target,
            name,
            arguments,
            span: _span,
        } => {
            renumber(numbers, target);
            renumber_name(numbers, name);
            renumber_list(numbers, arguments);
        }
        Expr::OwnCall {
            name,
            arguments,
            span: _span,
        } => {
            renumber_name(numbers, name);
            renumber_list(numbers, arguments);
        }
        Expr::SuperCall {
            name,
            arguments,
            span: _span,
        } => {
            renumber_name(numbers, name);
            renumber_list(numbers, arguments);
        }
        Expr::Index {
            array,
            index,
            span: _span,
        } => {
            renumber(numbers, array);
            renumber(numbers, index);
        }
        Expr::New {
            class,
            arguments,
            span: _span,
        } => {
            renumber_name(numbers, class);
            renumber_list(numbers, arguments);
        }
        Expr::NewArray {
            element,
            length,
            span: _span,
        } => {
            renumber_annotations(numbers, &mut element.annotations);
            renumber_base(numbers, &mut element.base);
            renumber(numbers, length);
        }
        Expr::ArrayOf {
            element,
            elements,
            span: _span,
        } => {
            renumber_annotations(numbers, &mut element.annotations);
            renumber_base(numbers, &mut element.base);
            renumber_list(numbers, elements);
        }
        Expr::Postfix {
            target,
            step: _step,
            span: _span,
        } => renumber(numbers, target),
        Expr::Prefix {
            step: _step,
            target,
            span: _span,
        } => renumber(numbers, target),
        Expr::Unary {
            operator: _operator,
            operand,
            span: _span,
        } => renumber(numbers, operand),
        Expr::Cast {
            class,
            operand,
            span: _span,
        } => {
            renumber_name(numbers, class);
            renumber(numbers, operand);
        }
        Expr::Binary {
            left,
            operator: _operator,
            right,
            span: _span,
        } => {
            renumber(numbers, left);
            renumber(numbers, right);
        }
        Expr::InstanceOf {
            operand,
            class,
            span: _span,
        } => {
            renumber(numbers, operand);
            renumber_name(numbers, class);
        }
        Expr::Conditional {
            condition,
            then,
            otherwise,
            span: _span,
        } => {
            renumber(numbers, condition);
            renumber(numbers, then);
            renumber(numbers, otherwise);
        }
        Expr::Assign {
            target,
            operator: _operator,
            value,
            span: _span,
        } => {
            renumber(numbers, target);
            renumber(numbers, value);
        }
    }
}

/// Renumbers the names of expressions.
#[cycle(renumbering)]
pub fn renumber_list(numbers: &[NameNo], expressions: &mut Vec<Expr>)
    ensures { placed_views expressions.new.items
        ≡ renumbered_list numbers.now (placed_views expressions.old.items) }
{
    for at in 0..expressions.len() {
        renumber(numbers, &mut expressions[at]);
    }
}
