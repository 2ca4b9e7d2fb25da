//! Shapes of expressions.
ghost use Rattle.std.specs.Prelude.{◌≡◌, cond, not};
ghost use Rattle.jn_lower_expr.specs.Lowering as lowering;
ghost use Rattle.jn_meaning.specs.Expressions as spec;
ghost use Rattle.jn_meaning.specs.Operations.{is_null_value};
ghost use Rattle.jn_meaning.specs.Worlds.{Has, World, then_do};
ghost use Rattle.jn_tree_world.specs.Outcomes.{Means};
ghost use Rattle.jn_places.specs.PlacedView.{placed_view};

use jn_base::Span;
use jn_machine::Value;
use jn_scopes::forms::span_of;
use jn_tree_world::Halt;
use jn_tree_world::values::is_null as is_null_value;
use jn_trees::{BinaryOperator, Expr, UnaryOperator};

/// Where an expression stands as an operand: what stands in its parentheses.
pub fn operand_span(tree: &Expr) -> Span
    ensures { result ≡ spec.operand_span (placed_view tree.now) }
{
    match tree {
        Expr::Paren { inner, .. } => operand_span(inner),
        _ => span_of(tree),
    }
}

/// Whether the operator is `!`.
pub fn is_not(operator: UnaryOperator) -> bool
    ensures { result ≡ lowering.is_not operator }
{
    match operator {
        UnaryOperator::Not => true,
        _ => false,
    }
}

/// Whether a test for null holds on the side of null: that of `==`, not that of `!=`.
fn is_on_null(operator: BinaryOperator) -> bool
    ensures { result ≡ spec.is_on_null operator }
{
    match operator {
        BinaryOperator::Equal => true,
        _ => false,
    }
}

/// Whether a test for null holds of the value (JLS 15.21.3).
pub fn null_holds(operator: BinaryOperator, value: &Option<Value>) -> Result<bool, Halt>
    ensures { (w : World) → Means
        (then_do (is_null_value value.now w)
        (λ b w. Has (cond (spec.is_on_null operator) b (not b)) w))
        result w }
{
    let null = is_null_value(value)?;
    if is_on_null(operator) {
        Ok(null)
    } else {
        Ok(!null)
    }
}
