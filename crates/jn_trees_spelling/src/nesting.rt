//! How deep expressions are nested, or the largest `u32` where they are deeper.
ghost use Rattle.std.specs.Prelude.{◌≡◌, ◌-◌, ◌^◌, min};
ghost use Rattle.jn_trees.specs.WellFormed.{nesting as spec_nesting, nesting_all as spec_all, nesting_optional as spec_optional};
ghost use Rattle.jn_trees.specs.View.{view, views, optional_view};

use jn_base::number::larger;
use jn_trees::Expr;

/// How deep an expression is nested; each expression inside another adds one.
#[cycle(nesting)]
pub fn nesting(expression: &Expr) -> u32
    ensures { result ≡ min (spec_nesting (view expression.now)) (2 ^ 32 - 1) }
{
    match expression {
        Expr::Literal { .. } => 1,
        Expr::Name { .. } => 1,
        Expr::This { .. } => 1,
        Expr::Paren { inner, .. } => nesting(inner).saturating_add(1),
        Expr::Field { target, .. } => nesting(target).saturating_add(1),
        Expr::Call {
            target,
            arguments,
            ..
        } => { larger(nesting(target), nesting_all(arguments)).saturating_add(1) }
        Expr::OwnCall { arguments, .. } => nesting_all(arguments).saturating_add(1),
        Expr::SuperCall { arguments, .. } => nesting_all(arguments).saturating_add(1),
        Expr::Index { array, index, .. } => larger(nesting(array), nesting(index)).saturating_add(
            1,
        ),
        Expr::New { arguments, .. } => nesting_all(arguments).saturating_add(1),
        Expr::NewArray { length, .. } => nesting(length).saturating_add(1),
        Expr::ArrayOf { elements, .. } => nesting_all(elements).saturating_add(1),
        Expr::Postfix { target, .. } => nesting(target).saturating_add(1),
        Expr::Prefix { target, .. } => nesting(target).saturating_add(1),
        Expr::Unary { operand, .. } => nesting(operand).saturating_add(1),
        Expr::Cast { operand, .. } => nesting(operand).saturating_add(1),
        Expr::Binary { left, right, .. } => larger(nesting(left), nesting(right)).saturating_add(1),
        Expr::InstanceOf { operand, .. } => nesting(operand).saturating_add(1),
        Expr::Conditional {
            condition,
            then,
            otherwise,
            ..
        } => {
            larger(
                nesting(condition),
                larger(nesting(then), nesting(otherwise)),
            )
            .saturating_add(1)
        }
        Expr::Assign { target, value, .. } => larger(
            nesting(target),
            nesting(value),
        ).saturating_add(1),
    }
}

/// How deep the deepest of the expressions is nested; 0 where there are none.
#[cycle(nesting)]
pub fn nesting_all(expressions: &[Expr]) -> u32
    ensures { result ≡ min (spec_all (views expressions.now)) (2 ^ 32 - 1) }
{
    let mut deepest: u32 = 0;
    for expression in expressions {
        deepest = larger(deepest, nesting(expression));
    }
    deepest
}

/// How deep the expression is nested; 0 where there is none.
pub fn nesting_optional(expression: &Option<Box<Expr>>) -> u32
    ensures { result ≡ min (spec_optional (optional_view expression.now)) (2 ^ 32 - 1) }
{
    match expression {
        None => 0,
        Some(expression) => nesting(expression),
    }
}
