//! Shapes of expressions.
ghost use Rattle.std.specs.Prelude.{◌≡◌};
ghost use Rattle.jn_lowering.specs.Expressions as spec;
ghost use Rattle.jn_lowering.specs.Scopes as scopes;
ghost use Rattle.jn_places.specs.PlacedView.{placed_view, placed_views};

use jn_base::Span;
use jn_trees::{Expr, Literal};

/// From the expression's first token through its last.
pub fn span_of(tree: &Expr) -> Span
    ensures { result ≡ spec.span_of (placed_view tree.now) }
{
    match tree {
        Expr::Literal { span, .. } => *span,
        Expr::Name { name } => name.span,
        Expr::This { span } => *span,
        Expr::Paren { span, .. } => *span,
        Expr::Field { span, .. } => *span,
        Expr::Call { span, .. } => *span,
        Expr::OwnCall { span, .. } => *span,
        Expr::SuperCall { span, .. } => *span,
        Expr::Index { span, .. } => *span,
        Expr::New { span, .. } => *span,
        Expr::NewArray { span, .. } => *span,
        Expr::ArrayOf { span, .. } => *span,
        Expr::Postfix { span, .. } => *span,
        Expr::Prefix { span, .. } => *span,
        Expr::Unary { span, .. } => *span,
        Expr::Cast { span, .. } => *span,
        Expr::Binary { span, .. } => *span,
        Expr::InstanceOf { span, .. } => *span,
        Expr::Conditional { span, .. } => *span,
        Expr::Assign { span, .. } => *span,
    }
}

/// Whether the expression is `null`, perhaps in parentheses.
pub fn is_null(tree: &Expr) -> bool
    ensures { result ≡ spec.is_null (placed_view tree.now) }
{
    match tree {
        Expr::Literal { literal, .. } => match literal {
            Literal::Null => true,
            _ => false,
        },
        Expr::Paren { inner, .. } => is_null(inner),
        _ => false,
    }
}

/// How many expressions there are.
#[tactic(auto, using(crate::proofs::Seen::count_views))]
pub fn count(trees: &[Expr]) -> usize
    ensures { result ≡ scopes.count (placed_views trees.now) }
{
    trees.len()
}
