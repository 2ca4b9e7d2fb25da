//! Whether a value that stands in a local's register must be copied, since a later operand assigns that local (JLS 15.7).
ghost use Rattle.std.specs.Prelude.{◌≡◌, ◌&&◌, ◌||◌, ltb};
ghost use Rattle.jn_places.specs.PlacedView.{placed_view, placed_views};
ghost use Rattle.jn_lowering.specs.Expressions as expressions;
ghost use Rattle.jn_scopes.specs.Views.{scope_in};
ghost use Rattle.jn_lower_expr.specs.Lowering.{later_in, later_of};

use jn_points::Operand;
use jn_scopes::Context;
use jn_scopes::assigns::{assigns, assigns_any};
use jn_trees::Expr;

fn is_later(c: &Context, later: Option<&Expr>, reg: u32) -> bool
    ensures { result ≡ later_of c.now later.entry reg }
{
    match later {
        None => false,
        Some(tree) => assigns(tree, c, reg),
    }
}

/// Where this expression follows, or none.
pub fn copied(c: &Context, later: Option<&Expr>, value: Operand) -> bool
    ensures { result ≡ (ltb value.reg.0 c.now.first && later_of c.now later.entry value.reg.0) }
{
    value.reg.0 < c.first && is_later(c, later, value.reg.0)
}

/// Where the expression follows.
pub fn copied_by(c: &Context, next: &Expr, value: Operand) -> bool
    ensures { result
        ≡ (ltb value.reg.0 c.now.first
        && expressions.assigns c.now.program.now c.now.class.0 (scope_in c.now) value.reg.0
        (placed_view next.now)) }
{
    value.reg.0 < c.first && assigns(next, c, value.reg.0)
}

/// Where the expression follows, and then another or none.
pub fn copied_by_either(c: &Context, next: &Expr, later: Option<&Expr>, value: Operand) -> bool
    ensures { result
        ≡ (ltb value.reg.0 c.now.first
        && (expressions.assigns c.now.program.now c.now.class.0 (scope_in c.now) value.reg.0
        (placed_view next.now)
        || later_of c.now later.entry value.reg.0)) }
{
    value.reg.0 < c.first && (assigns(next, c, value.reg.0) || is_later(c, later, value.reg.0))
}

/// Where these expressions follow.
pub fn copied_before(c: &Context, rest: &[Expr], value: Operand) -> bool
    ensures { result
        ≡ (ltb value.reg.0 c.now.first && later_in c.now (placed_views rest.now) value.reg.0) }
{
    value.reg.0 < c.first && assigns_any(rest, c, value.reg.0)
}
