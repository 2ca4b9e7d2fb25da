//! Statements without others in them, as flows (JLS 14.4 and 14.8).
ghost use Rattle.std.specs.Prelude.{ℕ, OnOk};
ghost use Rattle.jn_meaning.specs.Expressions.{Caller};
ghost use Rattle.jn_meaning.specs.Statements as spec;
ghost use Rattle.jn_heap.specs.Values.{usual_limits};
ghost use Rattle.jn_places.specs.PlacedView.{placed_local, placed_view};
ghost use Rattle.jn_tree_world.specs.Outcomes.{MeansAs};
ghost use Rattle.jn_tree_world.specs.Worlds.{world_of};
ghost use Rattle.jn_tree_simple.specs.Doing.{declares_at};
ghost use Rattle.jn_tree_simple.specs.Standings.{flow_of, standing_of};
ghost use Rattle.jn_tree_stmt.specs.Running.{Grown};

use jn_tree_expr::{Calling, Enters};
use jn_tree_simple::pieces::{declaration, effect};
use jn_tree_simple::{Flow, Site, Standing};
use jn_tree_world::{Halt, World};
use jn_trees::{Expr, LocalDeclaration, Names};

/// An expression for its effects (JLS 14.8).
pub fn expression<F: Enters>(
    tree: &Expr,
    b: &Site,
    names: &Names,
    call: &Calling<F>,
    st: &Standing,
    w: &mut World,
) -> Result<Flow, Halt>
    ensures means { (turns : ℕ) (m : Caller) → F.keeps call.now m
        → MeansAs flow_of (spec.effect b.now.program.now names.now usual_limits.longest m turns
        b.now.class.0 (standing_of st.now) (placed_view tree.now) (world_of w.old)) result
        (world_of w.new) }
{
    effect(tree, b, names, call, st, w)?;
    Ok(Flow::Onward)
}

/// A declaration of locals (JLS 14.4.2).
pub fn declare<F: Enters>(
    tree: &LocalDeclaration,
    b: &Site,
    names: &Names,
    call: &Calling<F>,
    st: &mut Standing,
    w: &mut World,
) -> Result<Flow, Halt>
    ensures means { (turns : ℕ) (m : Caller) → F.keeps call.now m
        → MeansAs flow_of (declares_at b.now names.now m turns (standing_of st.old)
        (placed_local tree.now) (world_of w.old)) result (world_of w.new) }
    ensures scope { OnOk result (Grown st.old.scope st.new.scope) }
{
    declaration(tree, b, names, call, st, w)?;
    Ok(Flow::Onward)
}
