//! What each turn of a loop does besides its body, and where a loop goes on after its body (JLS 14.12 to 14.17).
ghost use Rattle.std.specs.Prelude.{◌≡◌, ℕ};
ghost use Rattle.jn_meaning.specs.Expressions.{Caller};
ghost use Rattle.jn_places.specs.PlacedView.{placed_view, placed_views};
ghost use Rattle.jn_tree_world.specs.Outcomes.{Means, MeansAs};
ghost use Rattle.jn_tree_world.specs.Worlds.{world_of};
ghost use Rattle.jn_tree_simple.specs.Doing.{effects_at, holds_at};
ghost use Rattle.jn_tree_simple.specs.Standings.{flow_of, standing_of};
ghost use Rattle.jn_tree_stmt.specs.Leaving as spec;
ghost use Rattle.jn_tree_stmt.specs.Leaving.{left_of};

use jn_tree_expr::{Calling, Enters};
use jn_tree_simple::pieces::{effects, holds_in};
use jn_tree_simple::{Flow, Site, Standing};
use jn_tree_world::{Halt, World};
use jn_trees::{Expr, Names};

/// The flow that leaves statements one after the other, if this one does (JLS 14.1).
pub fn stops_turn(flow: Flow) -> Option<Flow>
    ensures { left_of result ≡ spec.stops_turn (flow_of flow) }
{
    match flow {
        Flow::Onward => None,
        Flow::Breaks => Some(Flow::Breaks),
        Flow::Continues => Some(Flow::Continues),
        Flow::Returns(value) => Some(Flow::Returns(value)),
    }
}

/// The flow with which a loop is left, if this flow of its body leaves it: after a `break` it goes on after the loop.
pub fn leaves(flow: Flow) -> Option<Flow>
    ensures { left_of result ≡ spec.leaves (flow_of flow) }
{
    match flow {
        Flow::Onward | Flow::Continues => None,
        Flow::Breaks => Some(Flow::Onward),
        Flow::Returns(value) => Some(Flow::Returns(value)),
    }
}

/// The update of a `for`, unless the loop is left (JLS 14.14.1.2).
pub fn update<F: Enters>(
    left: Option<Flow>,
    trees: &[Expr],
    b: &Site,
    names: &Names,
    call: &Calling<F>,
    st: &Standing,
    w: &mut World,
) -> Result<Option<Flow>, Halt>
    ensures means { (turns : ℕ) (m : Caller) → F.keeps call.now m
        → MeansAs left_of (spec.updated (left_of left) (world_of w.old)
        (effects_at b.now names.now m turns (standing_of st.now) (placed_views trees.now)))
        result (world_of w.new) }
{
    if let Some(flow) = left {
        return Ok(Some(flow));
    }
    effects(trees, b, names, call, st, w)?;
    Ok(None)
}

/// Whether the condition of a loop holds, and the unit of fuel that it takes.
pub fn tested<F: Enters>(
    tree: &Expr,
    b: &Site,
    names: &Names,
    call: &Calling<F>,
    st: &Standing,
    w: &mut World,
) -> Result<bool, Halt>
    ensures means { (turns : ℕ) (m : Caller) → F.keeps call.now m
        → Means (spec.tested (holds_at b.now names.now m turns (standing_of st.now)
        (placed_view tree.now)) (world_of w.old)) result (world_of w.new) }
{
    let holds = holds_in(tree, b, names, call, st, w)?;
    w.spend()?;
    Ok(holds)
}

/// The condition of a `do`, unless the loop is left: where it doesn't hold the loop is over (JLS 14.13).
pub fn conclude<F: Enters>(
    left: Option<Flow>,
    tree: &Expr,
    b: &Site,
    names: &Names,
    call: &Calling<F>,
    st: &Standing,
    w: &mut World,
) -> Result<Option<Flow>, Halt>
    ensures means { (turns : ℕ) (m : Caller) → F.keeps call.now m
        → MeansAs left_of (spec.concluded (left_of left) (world_of w.old)
        (holds_at b.now names.now m turns (standing_of st.now) (placed_view tree.now)))
        result (world_of w.new) }
{
    if let Some(flow) = left {
        return Ok(Some(flow));
    }
    if tested(tree, b, names, call, st, w)? {
        Ok(None)
    } else {
        Ok(Some(Flow::Onward))
    }
}

/// The condition of a loop after the last turn, where no unit of fuel is left.
pub fn last_test<F: Enters>(
    tree: &Expr,
    b: &Site,
    names: &Names,
    call: &Calling<F>,
    st: &Standing,
    w: &mut World,
) -> Result<Flow, Halt>
    ensures means { (turns : ℕ) (m : Caller) → F.keeps call.now m
        → MeansAs flow_of (spec.last_test (holds_at b.now names.now m turns (standing_of st.now)
        (placed_view tree.now)) (world_of w.old)) result (world_of w.new) }
{
    holds_in(tree, b, names, call, st, w)?;
    Err(Halt::FuelOut)
}
