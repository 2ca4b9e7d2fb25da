//! A `for` over an array besides its body (JLS 14.14.2): what it begins with, its test and its next index.
ghost use Rattle.std.specs.Prelude.{◌≡◌, ℕ, List, IfOk, OnOk};
ghost use Rattle.jn_heap.specs.Values.{usual_limits};
ghost use Rattle.jn_meaning.specs.Expressions.{Caller, operand_span};
ghost use Rattle.jn_meaning.specs.Statements as spec;
ghost use Rattle.jn_meaning.specs.Worlds.{Has, then_do};
ghost use Rattle.jn_places.specs.PlacedView.{placed_parameter, placed_view};
ghost use Rattle.jn_tree_world.specs.Outcomes.{Found, Goes, Means, MeansAs};
ghost use Rattle.jn_tree_world.specs.Worlds.{world_of};
ghost use Rattle.jn_tree_simple.specs.Doing.{IsHidden, each_holds, each_moves};
ghost use Rattle.jn_tree_simple.specs.Standings.{flow_of, standing_of};
ghost use Rattle.jn_tree_stmt.specs.Leaving as leaving;
ghost use Rattle.jn_tree_stmt.specs.Leaving.{left_of};
ghost use Rattle.jn_tree_stmt.specs.Running.{behind_variable};

use jn_lower_stmt::types::kind_of;
use jn_scopes::types::has_final;
use jn_tree_expr::forms::operand_span;
use jn_tree_expr::{Calling, Enters};
use jn_tree_simple::each::{Hidden, begin, holds, move_on};
use jn_tree_simple::standing::local_at;
use jn_tree_simple::{Flow, Site, Standing};
use jn_tree_world::{Halt, World};
use jn_trees::{Expr, Names, Parameter};

/// The three locals of the loop, after those that there are.
fn hidden(array: &Expr, st: &Standing) -> Result<Hidden, Halt>
    ensures { Found (λ h. (IsHidden h st.now.count) × (h.at ≡ operand_span (placed_view array.now)))
        result }
{
    let first = local_at(st.count, 0)?;
    let index = local_at(st.count, 1)?;
    let item = local_at(st.count, 2)?;
    Ok(Hidden {
        array: first,
        index,
        item,
        at: operand_span(array),
    })
}

/// The variable comes into scope, after two locals without names.
fn declare_variable(variable: &Parameter, b: &Site, st: &mut Standing) -> Result<(), Halt>
    ensures { Found (λ u. standing_of st.new ≡ behind_variable b.now.program.now (standing_of st.old)
        (placed_parameter variable.now)) result }
{
    let kind = kind_of(b.program, &variable.type_use, &variable.modifiers);
    let fixed = has_final(&variable.modifiers);
    st.further(2)?;
    st.declare(b, variable.name.name, kind, fixed)
}

/// The array, evaluated once, and index 0; the variable comes into scope.
pub fn start<F: Enters>(
    variable: &Parameter,
    array: &Expr,
    b: &Site,
    names: &Names,
    call: &Calling<F>,
    st: &mut Standing,
    w: &mut World,
) -> Result<Hidden, Halt>
    ensures means { (turns : ℕ) (m : Caller) → F.keeps call.now m
        → Goes (then_do (spec.each_begun b.now.program.now names.now usual_limits.longest m turns
        b.now.class.0 (standing_of st.old) (placed_view array.now) (world_of w.old))
        (λ z w. Has tt w)) result (world_of w.new) }
    ensures hidden { IfOk result (λ h. IsHidden h st.old.count) }
    ensures at { IfOk result (λ h. h.at ≡ operand_span (placed_view array.now)) }
    ensures behind { OnOk result (standing_of st.new
        ≡ behind_variable b.now.program.now (standing_of st.old) (placed_parameter variable.now)) }
{
    let locals = hidden(array, st)?;
    begin(array, locals.array, locals.index, b, names, call, st, w)?;
    declare_variable(variable, b, st)?;
    Ok(locals)
}

/// Whether there is an element left, and the unit of fuel that this takes.
pub fn tested(b: &Site, w: &mut World, locals: Hidden) -> Result<bool, Halt>
    ensures { (names : List (List ℕ)) (turns : ℕ) (m : Caller) (r : ℕ) → IsHidden locals r
        → Means (leaving.tested (each_holds b.now names m turns locals.at r) (world_of w.old)) result
        (world_of w.new) }
{
    let left = holds(b, w, locals)?;
    w.spend()?;
    Ok(left)
}

/// The test after the last turn, where no unit of fuel is left.
pub fn last_test(b: &Site, w: &World, locals: Hidden) -> Result<Flow, Halt>
    ensures { (names : List (List ℕ)) (turns : ℕ) (m : Caller) (r : ℕ) → IsHidden locals r
        → MeansAs flow_of (leaving.last_test (each_holds b.now names m turns locals.at r)
        (world_of w.now)) result (world_of w.now) }
{
    holds(b, w, locals)?;
    Err(Halt::FuelOut)
}

/// The next index, unless the loop is left.
pub fn update(
    left: Option<Flow>,
    b: &Site,
    w: &mut World,
    locals: Hidden,
) -> Result<Option<Flow>, Halt>
    ensures { (names : List (List ℕ)) (turns : ℕ) (m : Caller) (r : ℕ) → IsHidden locals r
        → MeansAs left_of (leaving.updated (left_of left) (world_of w.old)
        (λ w. spec.then_onward (each_moves b.now names m turns locals.at r w))) result
        (world_of w.new) }
{
    if let Some(flow) = left {
        return Ok(Some(flow));
    }
    move_on(b, w, locals)?;
    Ok(None)
}
