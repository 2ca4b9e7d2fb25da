//! Which expressions are well formed.
ghost use Rattle.std.specs.Prelude.{◌≡◌, ◌↔◌, IsTrue};
ghost use Rattle.jn_trees.specs.WellFormed.{Good, AllGood, GoodLiteral};
ghost use Rattle.jn_trees_spelling.specs.Parts.{is_least_signed};
ghost use Rattle.jn_trees.specs.View.{view, views};

use crate::levels::{
    CONDITIONAL_RANK, DISJUNCTION_RANK, PRIMARY_RANK, RELATIONAL_RANK, UNARY_RANK, is_castable,
    is_least_number, level, rank,
};
use jn_trees::{Expr, Literal, UnaryOperator};

fn good_literal(literal: Literal) -> bool
    ensures { IsTrue result ↔ GoodLiteral literal }
{
    match literal {
        Literal::Number(value) => value < 2147483648,
        _ => true,
    }
}

/// Whether the expression is well formed.
#[cycle(good)]
pub fn good(expression: &Expr) -> bool
    ensures { IsTrue result ↔ Good (view expression.now) }
{
    match expression {
        Expr::Literal { literal, .. } => good_literal(*literal),
        Expr::Name { .. } => true,
        Expr::This { .. } => true,
        Expr::Paren { inner, .. } => good(inner),
        Expr::Field { target, .. } => good(target) && rank(target) <= PRIMARY_RANK,
        Expr::Call {
            target,
            arguments,
            ..
        } => good(target) && rank(target) <= PRIMARY_RANK && all_good(arguments),
        Expr::OwnCall { arguments, .. } => all_good(arguments),
        Expr::SuperCall { arguments, .. } => all_good(arguments),
        Expr::Index { array, index, .. } => {
            good(array) && rank(array) <= PRIMARY_RANK && array.is_indexable() && good(index)
        }
        Expr::New { arguments, .. } => all_good(arguments),
        Expr::NewArray { length, .. } => good(length),
        Expr::ArrayOf { elements, .. } => all_good(elements),
        Expr::Postfix { target, .. } => good(target) && target.is_left_side(),
        Expr::Prefix { target, .. } => good(target) && target.is_left_side(),
        Expr::Unary {
            operator,
            operand,
            ..
        } => { is_least(*operator, operand) || good(operand) && rank(operand) <= UNARY_RANK }
        Expr::Cast { operand, .. } => good(operand) && is_castable(operand),
        Expr::Binary {
            left,
            operator,
            right,
            ..
        } => {
            good(left)
                && rank(left) <= level(*operator)
                && good(right)
                && rank(right) < level(*operator)
        }
        Expr::InstanceOf { operand, .. } => good(operand) && rank(operand) <= RELATIONAL_RANK,
        Expr::Conditional {
            condition,
            then,
            otherwise,
            ..
        } => {
            good(condition)
                && rank(condition) <= DISJUNCTION_RANK
                && good(then)
                && good(otherwise)
                && rank(otherwise) <= CONDITIONAL_RANK
        }
        Expr::Assign { target, value, .. } => good(target) && target.is_left_side() && good(value),
    }
}

/// Whether each of the expressions is well formed.
#[cycle(good)]
pub fn all_good(expressions: &[Expr]) -> bool
    ensures { IsTrue result ↔ AllGood (views expressions.now) }
{
    for expression in expressions {
        if !good(expression) {
            return false;
        }
    }
    true
}

fn is_least(operator: UnaryOperator, operand: &Expr) -> bool
    ensures { result ≡ is_least_signed operator (view operand.now) }
{
    match operator {
        UnaryOperator::Minus => is_least_number(operand),
        _ => false,
    }
}
