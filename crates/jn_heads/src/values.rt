//! Values of static fields' initializers, and calls of `this(..)` (JLS 8.3.2, 8.8.7.1).
ghost use Rattle.std.specs.Prelude.{◌≡◌};
ghost use Rattle.jn_heads.specs.Extract as spec;
ghost use Rattle.jn_places.specs.PlacedView.{placed_view, placed_optional, placed_statement, placed_statements};

use jn_trees::{Expr, Literal, Stmt, UnaryOperator};

fn literal_value(literal: Literal) -> i32
    ensures { result ≡ spec.literal_value literal }
{
    match literal {
        Literal::Number(value) => {
            if value < 2147483648 {
                value as i32
            } else {
                i32::MIN
            }
        }
        Literal::True => 1,
        _ => 0,
    }
}

fn negative_value(literal: Literal) -> i32
    ensures { result ≡ spec.negative_value literal }
{
    match literal {
        Literal::Number(value) => {
            if value < 2147483648 {
                -(value as i32)
            } else {
                i32::MIN
            }
        }
        _ => 0,
    }
}

fn negated_tree(tree: &Expr) -> i32
    ensures { result ≡ spec.negated_tree (placed_view tree.now) }
{
    match tree {
        Expr::Literal { literal, .. } => negative_value(*literal),
        _ => 0,
    }
}

fn tree_value(tree: &Expr) -> i32
    ensures { result ≡ spec.tree_value (placed_view tree.now) }
{
    match tree {
        Expr::Literal { literal, .. } => literal_value(*literal),
        Expr::Unary {
            operator,
            operand,
            ..
        } => match operator {
            UnaryOperator::Minus => negated_tree(operand),
            _ => 0,
        },
        _ => 0,
    }
}

/// The value that a static field starts with; 0 for another field.
pub fn first_value(is_static: bool, value: &Option<Box<Expr>>) -> i32
    ensures { result ≡ spec.first_value is_static (placed_optional value.now) }
{
    match value {
        None => 0,
        Some(tree) => { if is_static { tree_value(tree) } else { 0 } }
    }
}

#[tactic(auto, using(crate::proofs::Views::count_views))]
fn this_call(statement: &Stmt) -> Option<usize>
    ensures { result ≡ spec.this_call (placed_statement statement.now) }
{
    match statement {
        Stmt::ThisCall { arguments, .. } => Some(arguments.len()),
        _ => None,
    }
}

/// The number of arguments of `this(..)`, where a body begins with it.
pub fn first_call(body: &[Stmt]) -> Option<usize>
    ensures { result ≡ spec.first_call (placed_statements body.now) }
{
    match body.first() {
        None => None,
        Some(statement) => this_call(statement),
    }
}
