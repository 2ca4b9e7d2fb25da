//! One expression where it stands: its points, or its rows (JLS 15).
ghost use Rattle.std.specs.Prelude.{◌≡◌, ◌++◌, [], IfOk, IfNone, IfSome, OnOk, true, false};
ghost use Rattle.jn_lower_expr.specs.Lowering.{Gives, Tests, lowered};
ghost use Rattle.jn_lower_rows.specs.Views.{rows_in};
ghost use Rattle.jn_places.specs.PlacedView.{placed_view};

use crate::rows::{is_empty, push_all};
use jn_base::{OutOfMemory, PointNo, Row, Seq};
use jn_lower_expr::emitter::Emitter;
use jn_lower_expr::lower::{condition, value};
use jn_lower_expr::temporaries::Temporaries;
use jn_lower_rows::expressions::expression;
use jn_lower_rows::setting::Setting;
use jn_points::Operand;
use jn_scopes::Context;
use jn_trees::Expr;

/// Adds the rows J1 to J5 of an expression, and answers whether it has none.
fn is_clean(tree: &Expr, c: &Context, at: Setting, rows: &mut Seq<Row>) -> Result<bool, OutOfMemory>
    ensures rows { OnOk result (rows.new ≡ rows.old ++ rows_in c.now at (placed_view tree.now)) }
    ensures clean { IfOk result
        (λ clean. clean ≡ true → rows_in c.now at (placed_view tree.now) ≡ []) }
    ensures broken { IfOk result
        (λ clean. clean ≡ false → rows_in c.now at (placed_view tree.now) ≡ [] → ⊥) }
{
    let mut own = Seq::new(c.alloc);
    expression(tree, c, at, &mut own)?;
    push_all(rows, own.as_slice())?;
    Ok(is_empty(&own))
}

/// The operand of an expression, whose points are added after those that there are; or None exactly where it has a row J1 to
/// J5. Its rows are added, and no others; where there is one, neither points nor temporaries change.
///
/// The only error is want of memory, which more than 2^32 - 2 points, labels or registers count as.
pub fn lower_expr(
    tree: &Expr,
    c: &Context,
    at: Setting,
    e: &mut Emitter,
    t: &mut Temporaries,
    rows: &mut Seq<Row>,
) -> Result<Option<Operand>, OutOfMemory>
    ensures rows { OnOk result (rows.new ≡ rows.old ++ rows_in c.now at (placed_view tree.now)) }
    ensures none { IfOk result (λ o. IfNone o
        ((rows_in c.now at (placed_view tree.now) ≡ [] → ⊥) × (e.new ≡ e.old) × (t.new ≡ t.old))) }
    ensures some { IfOk result (λ o. IfSome o (λ operand. (rows_in c.now at (placed_view tree.now)
        ≡ [])
        × Gives (lowered c.now t.old (placed_view tree.now)).value e.old operand e.new t.new)) }
{
    if !is_clean(tree, c, at, rows)? {
        return Ok(None);
    }
    let given = value(tree, c, e, t)?;
    Ok(Some(given.operand))
}

/// Adds the points of an expression as a condition with two targets, and answers true; or answers false exactly where it has a
/// row J1 to J5. Its rows are added, and no others; where there is one, neither points nor temporaries change.
///
/// The only error is want of memory, which more than 2^32 - 2 points, labels or registers count as.
pub fn lower_cond(
    tree: &Expr,
    c: &Context,
    at: Setting,
    e: &mut Emitter,
    t: &mut Temporaries,
    yes: PointNo,
    no: PointNo,
    rows: &mut Seq<Row>,
) -> Result<bool, OutOfMemory>
    ensures rows { OnOk result (rows.new ≡ rows.old ++ rows_in c.now at (placed_view tree.now)) }
    ensures broken { IfOk result (λ lowered_it. lowered_it ≡ false
        → (rows_in c.now at (placed_view tree.now) ≡ [] → ⊥) × (e.new ≡ e.old) × (t.new ≡ t.old)) }
    ensures clean { IfOk result (λ lowered_it. lowered_it ≡ true
        → (rows_in c.now at (placed_view tree.now) ≡ [])
        × Tests (lowered c.now t.old (placed_view tree.now)).condition yes.0 no.0 e.old e.new
        t.new) }
{
    if !is_clean(tree, c, at, rows)? {
        return Ok(false);
    }
    condition(tree, c, e, t, yes, no)?;
    Ok(true)
}
