//! How strongly expressions bind, and what may stand in which place.
ghost use Rattle.std.specs.Prelude.{◌≡◌};
ghost use Rattle.jn_trees.specs.WellFormed.{operator_rank, power as spec_power, rank as spec_rank, is_least_literal as spec_is_least_literal, is_least_number as spec_is_least_number, is_castable as spec_is_castable};
ghost use Rattle.jn_trees_spelling.specs.Parts.{is_not_sign};
ghost use Rattle.jn_trees.specs.View.{view};

use jn_trees::{BinaryOperator, Expr, LOOSEST_POWER, Literal, RELATIONAL, UnaryOperator};

/// The rank of what stands by itself (JLS 15.8).
pub const PRIMARY_RANK: u32 = 1;

/// The rank of what has a step after (JLS 15.14).
pub const POSTFIX_RANK: u32 = PRIMARY_RANK + 1;

/// The rank of what has a sign, a step or a cast before (JLS 15.15, 15.16).
pub const UNARY_RANK: u32 = POSTFIX_RANK + 1;

/// The rank of a comparison by `<` or `instanceof` (JLS 15.20).
pub const RELATIONAL_RANK: u32 = RELATIONAL + UNARY_RANK;

/// The rank of `||`, the weakest of the operators between two operands (JLS 15.24).
pub const DISJUNCTION_RANK: u32 = LOOSEST_POWER + UNARY_RANK;

/// The rank of a conditional (JLS 15.25).
pub const CONDITIONAL_RANK: u32 = DISJUNCTION_RANK + 1;

/// The rank of an assignment (JLS 15.26).
pub const ASSIGNMENT_RANK: u32 = CONDITIONAL_RANK + 1;

/// The rank of what has this operator between operands.
pub fn level(operator: BinaryOperator) -> u32
    ensures { result ≡ operator_rank (spec_power operator) }
{
    operator.power() + UNARY_RANK
}

/// How weakly an expression binds.
pub fn rank(expression: &Expr) -> u32
    ensures { result ≡ spec_rank (view expression.now) }
{
    match expression {
        Expr::Postfix { .. } => POSTFIX_RANK,
        Expr::Prefix { .. } => UNARY_RANK,
        Expr::Unary { .. } => UNARY_RANK,
        Expr::Cast { .. } => UNARY_RANK,
        Expr::Binary { operator, .. } => level(*operator),
        Expr::InstanceOf { .. } => RELATIONAL_RANK,
        Expr::Conditional { .. } => CONDITIONAL_RANK,
        Expr::Assign { .. } => ASSIGNMENT_RANK,
        _ => PRIMARY_RANK,
    }
}

fn is_least_literal(literal: Literal) -> bool
    ensures { result ≡ spec_is_least_literal literal }
{
    match literal {
        Literal::Number(value) => value == 2147483648,
        _ => false,
    }
}

/// Whether the expression is the number 2,147,483,648, which may stand after a minus sign alone.
pub fn is_least_number(expression: &Expr) -> bool
    ensures { result ≡ spec_is_least_number (view expression.now) }
{
    match expression {
        Expr::Literal { literal, .. } => is_least_literal(*literal),
        _ => false,
    }
}

/// Whether a cast may stand before the expression.
pub fn is_castable(expression: &Expr) -> bool
    ensures { result ≡ spec_is_castable (view expression.now) }
{
    match expression {
        Expr::Unary { operator, .. } => is_not(*operator),
        Expr::Prefix { .. } => false,
        Expr::Binary { .. } => false,
        Expr::InstanceOf { .. } => false,
        Expr::Conditional { .. } => false,
        Expr::Assign { .. } => false,
        _ => true,
    }
}

fn is_not(operator: UnaryOperator) -> bool
    ensures { result ≡ is_not_sign operator }
{
    match operator {
        UnaryOperator::Not => true,
        _ => false,
    }
}
