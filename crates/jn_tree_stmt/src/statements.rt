//! Statements that have others in them (JLS 14).
ghost use Rattle.std.specs.Prelude.{◌≡◌, ℕ, OnOk, true};
ghost use Rattle.jn_meaning.specs.Expressions.{Caller};
ghost use Rattle.jn_meaning.specs.Statements as spec;
ghost use Rattle.jn_places.specs.Placed.{PlacedFor, PlacedForEach, PlacedIf};
ghost use Rattle.jn_places.specs.PlacedView.{placed_init, placed_optional, placed_statement, placed_statements, placed_type_use, placed_view, placed_views};
ghost use Rattle.jn_base.specs.declared.place.Span.{Span};
ghost use Rattle.jn_tree_world.specs.Outcomes.{MeansAs};
ghost use Rattle.jn_tree_world.specs.Worlds.{world_of};
ghost use Rattle.jn_tree_simple.specs.Doing.{IsHidden, each_holds, each_moves, each_takes, effects_at, holds_at};
ghost use Rattle.jn_tree_simple.specs.Standings.{flow_of, standing_of};
ghost use Rattle.jn_tree_stmt.specs.Leaving.{done_round, left_of, round};
ghost use Rattle.jn_tree_stmt.specs.Running.{Grown, all_run_at, has_else, runs_at};
ghost use Rattle.jn_meaning.specs.Worlds.{then_do};

use crate::each;
use crate::simple::{declare, expression};
use crate::turns::{conclude, last_test, leaves, stops_turn, tested, update};
use jn_tree_expr::{Calling, Enters};
use jn_tree_simple::each::{Hidden, take};
use jn_tree_simple::pieces::{begin, holds_in, pass_over, returned};
use jn_tree_simple::{Flow, Site, Standing};
use jn_tree_world::{Halt, World};
use jn_trees::{Expr, ForHead, Names, Parameter, Stmt};

/// Statements one after the other (JLS 14.2). A loop makes at most so many turns.
#[cycle(executing)]
pub fn execute_all<F: Enters>(
    trees: &[Stmt],
    b: &Site,
    turns: u64,
    names: &Names,
    call: &Calling<F>,
    st: &mut Standing,
    w: &mut World,
) -> Result<Flow, Halt>
    ensures means { (m : Caller) → F.keeps call.now m
        → MeansAs flow_of (all_run_at b.now names.now m turns (standing_of st.old)
        (placed_statements trees.now) (world_of w.old)) result (world_of w.new) }
    ensures scope { OnOk result (Grown st.old.scope st.new.scope) }
{
    for tree in trees {
        let flow = execute(tree, b, turns, names, call, st, w)?;
        if let Some(left) = stops_turn(flow) {
            return Ok(left);
        }
    }
    Ok(Flow::Onward)
}

/// A statement. After it its names are out of scope, but for those of a declaration (JLS 6.3).
#[cycle(executing)]
fn execute<F: Enters>(
    tree: &Stmt,
    b: &Site,
    turns: u64,
    names: &Names,
    call: &Calling<F>,
    st: &mut Standing,
    w: &mut World,
) -> Result<Flow, Halt>
    ensures means { (m : Caller) → F.keeps call.now m
        → MeansAs flow_of (runs_at b.now names.now m turns (standing_of st.old)
        (placed_statement tree.now) (world_of w.old)) result (world_of w.new) }
    ensures behind { OnOk result (standing_of st.new
        ≡ spec.behind b.now.program.now (standing_of st.old) (placed_statement tree.now)) }
{
    let before = st.mark();
    let flow = inside(tree, b, turns, names, call, st, w)?;
    st.back(before);
    pass_over(tree, b, st)?;
    Ok(flow)
}

/// What a statement does; names that it declares may stay in scope.
#[cycle(executing)]
fn inside<F: Enters>(
    tree: &Stmt,
    b: &Site,
    turns: u64,
    names: &Names,
    call: &Calling<F>,
    st: &mut Standing,
    w: &mut World,
) -> Result<Flow, Halt>
    ensures means { (m : Caller) → F.keeps call.now m
        → MeansAs flow_of (runs_at b.now names.now m turns (standing_of st.old)
        (placed_statement tree.now) (world_of w.old)) result (world_of w.new) }
    ensures scope { OnOk result (Grown st.old.scope st.new.scope) }
{
    match tree {
        Stmt::Block { statements, .. } => execute_all(statements, b, turns, names, call, st, w),
        Stmt::Empty { .. } => Ok(Flow::Onward),
        Stmt::Expression {
            expression: effect,
            ..
        } => expression(effect, b, names, call, st, w),
        Stmt::Break { .. } => Ok(Flow::Breaks),
        Stmt::Continue { .. } => Ok(Flow::Continues),
        Stmt::Return { value, .. } => returned(value, b, names, call, st, w),
        Stmt::Local { declaration, .. } => declare(declaration, b, names, call, st, w),
        Stmt::If {
            condition,
            then,
            ..
        } => if_then(then, condition, b, turns, names, call, st, w),
        Stmt::IfElse { .. } => if_else(tree, b, turns, names, call, st, w),
        Stmt::While {
            condition,
            body,
            ..
        } => repeat(body, condition, &[], b, turns, names, call, st, w),
        Stmt::Do {
            body,
            condition,
            ..
        } => repeat_do(body, condition, b, turns, names, call, st, w),
        Stmt::For { head, body, .. } => repeat_for(body, head, b, turns, names, call, st, w),
        Stmt::ForEach {
            variable,
            array,
            body,
            ..
        } => for_each(body, variable, array, b, turns, names, call, st, w),
        Stmt::ThisCall { .. } | Stmt::SuperCall { .. } => Ok(Flow::Onward),
    }
}

/// `if` without `else` (JLS 14.9.1).
#[cycle(executing)]
fn if_then<F: Enters>(
    then: &Stmt,
    condition: &Expr,
    b: &Site,
    turns: u64,
    names: &Names,
    call: &Calling<F>,
    st: &mut Standing,
    w: &mut World,
) -> Result<Flow, Halt>
    ensures means { (m : Caller) → F.keeps call.now m
        → (span : Span) → MeansAs flow_of (runs_at b.now names.now m turns (standing_of st.old)
        (PlacedIf (placed_view condition.now) (placed_statement then.now) span) (world_of w.old))
        result (world_of w.new) }
    ensures scope { OnOk result (Grown st.old.scope st.new.scope) }
{
    if holds_in(condition, b, names, call, st, w)? {
        execute(then, b, turns, names, call, st, w)
    } else {
        Ok(Flow::Onward)
    }
}

/// `if` with `else` (JLS 14.9.2).
#[cycle(executing)]
fn if_else<F: Enters>(
    tree: &Stmt,
    b: &Site,
    turns: u64,
    names: &Names,
    call: &Calling<F>,
    st: &mut Standing,
    w: &mut World,
) -> Result<Flow, Halt>
    requires branches { has_else (placed_statement tree.now) ≡ true }
    ensures means { (m : Caller) → F.keeps call.now m
        → MeansAs flow_of (runs_at b.now names.now m turns (standing_of st.old)
        (placed_statement tree.now) (world_of w.old)) result (world_of w.new) }
    ensures scope { OnOk result (Grown st.old.scope st.new.scope) }
{
    match tree {
        Stmt::IfElse {
            condition,
            then,
            otherwise,
            ..
        } => {
            if holds_in(condition, b, names, call, st, w)? {
                return execute(then, b, turns, names, call, st, w);
            }
            pass_over(then, b, st)?;
            execute(otherwise, b, turns, names, call, st, w)
        }
        _ => unreachable!(),
    }
}

/// The body of a loop once, and the update, unless the loop is left.
#[cycle(executing)]
fn turn<F: Enters>(
    body: &Stmt,
    updates: &[Expr],
    b: &Site,
    turns: u64,
    names: &Names,
    call: &Calling<F>,
    st: &mut Standing,
    w: &mut World,
) -> Result<Option<Flow>, Halt>
    ensures means { (m : Caller) → F.keeps call.now m
        → MeansAs left_of (round (runs_at b.now names.now m turns (standing_of st.old)
        (placed_statement body.now))
        (effects_at b.now names.now m turns
        (spec.behind b.now.program.now (standing_of st.old) (placed_statement body.now))
        (placed_views updates.now)) (world_of w.old)) result (world_of w.new) }
    ensures stays { OnOk result (standing_of st.new ≡ standing_of st.old) }
{
    let before = st.mark();
    let flow = execute(body, b, turns, names, call, st, w)?;
    let left = update(leaves(flow), updates, b, names, call, st, w)?;
    st.back(before);
    Ok(left)
}

/// A `while`, or a `for` with a condition (JLS 14.12 and 14.14.1).
#[cycle(executing)]
fn repeat<F: Enters>(
    body: &Stmt,
    condition: &Expr,
    updates: &[Expr],
    b: &Site,
    turns: u64,
    names: &Names,
    call: &Calling<F>,
    st: &mut Standing,
    w: &mut World,
) -> Result<Flow, Halt>
    ensures means { (m : Caller) → F.keeps call.now m
        → MeansAs flow_of (spec.repeated turns
        (holds_at b.now names.now m turns (standing_of st.old) (placed_view condition.now))
        (runs_at b.now names.now m turns (standing_of st.old) (placed_statement body.now))
        (effects_at b.now names.now m turns
        (spec.behind b.now.program.now (standing_of st.old) (placed_statement body.now))
        (placed_views updates.now)) (world_of w.old)) result (world_of w.new) }
    ensures stays { OnOk result (standing_of st.new ≡ standing_of st.old) }
{
    for _ in 0..turns {
        if !tested(condition, b, names, call, st, w)? {
            return Ok(Flow::Onward);
        }
        if let Some(flow) = turn(body, updates, b, turns, names, call, st, w)? {
            return Ok(flow);
        }
    }
    last_test(condition, b, names, call, st, w)
}

/// A `for` without condition (JLS 14.14.1).
#[cycle(executing)]
fn repeat_endless<F: Enters>(
    body: &Stmt,
    updates: &[Expr],
    b: &Site,
    turns: u64,
    names: &Names,
    call: &Calling<F>,
    st: &mut Standing,
    w: &mut World,
) -> Result<Flow, Halt>
    ensures means { (m : Caller) → F.keeps call.now m
        → MeansAs flow_of (spec.endless turns
        (runs_at b.now names.now m turns (standing_of st.old) (placed_statement body.now))
        (effects_at b.now names.now m turns
        (spec.behind b.now.program.now (standing_of st.old) (placed_statement body.now))
        (placed_views updates.now)) (world_of w.old)) result (world_of w.new) }
    ensures stays { OnOk result (standing_of st.new ≡ standing_of st.old) }
{
    for _ in 0..turns {
        if let Some(flow) = turn(body, updates, b, turns, names, call, st, w)? {
            return Ok(flow);
        }
        w.spend()?;
    }
    match turn(body, updates, b, turns, names, call, st, w)? {
        Some(flow) => Ok(flow),
        None => Err(Halt::FuelOut),
    }
}

/// A `for` (JLS 14.14.1).
#[cycle(executing)]
fn repeat_for<F: Enters>(
    body: &Stmt,
    head: &ForHead,
    b: &Site,
    turns: u64,
    names: &Names,
    call: &Calling<F>,
    st: &mut Standing,
    w: &mut World,
) -> Result<Flow, Halt>
    ensures means { (m : Caller) → F.keeps call.now m
        → (span : Span) → MeansAs flow_of (runs_at b.now names.now m turns (standing_of st.old)
        (PlacedFor (placed_init head.now.init) (placed_optional head.now.condition)
        (placed_views head.now.update.items) (placed_statement body.now) span) (world_of w.old))
        result (world_of w.new) }
    ensures scope { OnOk result (Grown st.old.scope st.new.scope) }
{
    begin(&head.init, b, names, call, st, w)?;
    match &head.condition {
        None => repeat_endless(body, &head.update, b, turns, names, call, st, w),
        Some(condition) => repeat(body, condition, &head.update, b, turns, names, call, st, w),
    }
}

/// The body of a `do` once, and its condition, unless the loop is left.
#[cycle(executing)]
fn turn_do<F: Enters>(
    body: &Stmt,
    condition: &Expr,
    b: &Site,
    turns: u64,
    names: &Names,
    call: &Calling<F>,
    st: &mut Standing,
    w: &mut World,
) -> Result<Option<Flow>, Halt>
    ensures means { (m : Caller) → F.keeps call.now m
        → MeansAs left_of (done_round
        (runs_at b.now names.now m turns (standing_of st.old) (placed_statement body.now))
        (holds_at b.now names.now m turns
        (spec.behind b.now.program.now (standing_of st.old) (placed_statement body.now))
        (placed_view condition.now)) (world_of w.old)) result (world_of w.new) }
    ensures stays { OnOk result (standing_of st.new ≡ standing_of st.old) }
{
    let before = st.mark();
    let flow = execute(body, b, turns, names, call, st, w)?;
    let left = conclude(leaves(flow), condition, b, names, call, st, w)?;
    st.back(before);
    Ok(left)
}

/// The body of a `do` after the last turn, and its condition, where no unit of fuel is left.
#[cycle(executing)]
fn end_do<F: Enters>(
    body: &Stmt,
    condition: &Expr,
    b: &Site,
    turns: u64,
    names: &Names,
    call: &Calling<F>,
    st: &mut Standing,
    w: &mut World,
) -> Result<Flow, Halt>
    ensures means { (m : Caller) → F.keeps call.now m
        → MeansAs flow_of (spec.done_while 0
        (runs_at b.now names.now m turns (standing_of st.old) (placed_statement body.now))
        (holds_at b.now names.now m turns
        (spec.behind b.now.program.now (standing_of st.old) (placed_statement body.now))
        (placed_view condition.now)) (world_of w.old)) result (world_of w.new) }
    ensures stays { OnOk result (standing_of st.new ≡ standing_of st.old) }
{
    let before = st.mark();
    let flow = execute(body, b, turns, names, call, st, w)?;
    if let Some(left) = leaves(flow) {
        st.back(before);
        return Ok(left);
    }
    let last = last_test(condition, b, names, call, st, w);
    st.back(before);
    last
}

/// A `do` (JLS 14.13).
#[cycle(executing)]
fn repeat_do<F: Enters>(
    body: &Stmt,
    condition: &Expr,
    b: &Site,
    turns: u64,
    names: &Names,
    call: &Calling<F>,
    st: &mut Standing,
    w: &mut World,
) -> Result<Flow, Halt>
    ensures means { (m : Caller) → F.keeps call.now m
        → MeansAs flow_of (spec.done_while turns
        (runs_at b.now names.now m turns (standing_of st.old) (placed_statement body.now))
        (holds_at b.now names.now m turns
        (spec.behind b.now.program.now (standing_of st.old) (placed_statement body.now))
        (placed_view condition.now)) (world_of w.old)) result (world_of w.new) }
    ensures stays { OnOk result (standing_of st.new ≡ standing_of st.old) }
{
    for _ in 0..turns {
        if let Some(flow) = turn_do(body, condition, b, turns, names, call, st, w)? {
            return Ok(flow);
        }
    }
    end_do(body, condition, b, turns, names, call, st, w)
}

/// The element in the variable, the body once, and the next index, unless the loop is left.
#[cycle(executing)]
fn turn_each<F: Enters>(
    body: &Stmt,
    locals: Hidden,
    b: &Site,
    turns: u64,
    names: &Names,
    call: &Calling<F>,
    st: &mut Standing,
    w: &mut World,
) -> Result<Option<Flow>, Halt>
    ensures means { (m : Caller) → F.keeps call.now m
        → (r : ℕ) → IsHidden locals r → MeansAs left_of (round
        (λ w. then_do (each_takes b.now names.now m turns locals.at r w)
        (λ x w. runs_at b.now names.now m turns (standing_of st.old) (placed_statement body.now) w))
        (λ w. spec.then_onward (each_moves b.now names.now m turns locals.at r w)) (world_of w.old))
        result (world_of w.new) }
    ensures stays { OnOk result (standing_of st.new ≡ standing_of st.old) }
{
    let before = st.mark();
    take(b, w, locals)?;
    let flow = execute(body, b, turns, names, call, st, w)?;
    let left = each::update(leaves(flow), b, w, locals)?;
    st.back(before);
    Ok(left)
}

/// The turns of a `for` over an array, the three locals of which are there.
#[cycle(executing)]
fn repeat_each<F: Enters>(
    body: &Stmt,
    locals: Hidden,
    b: &Site,
    turns: u64,
    names: &Names,
    call: &Calling<F>,
    st: &mut Standing,
    w: &mut World,
) -> Result<Flow, Halt>
    ensures means { (m : Caller) → F.keeps call.now m
        → (r : ℕ) → IsHidden locals r → MeansAs flow_of (spec.repeated turns
        (each_holds b.now names.now m turns locals.at r)
        (λ w. then_do (each_takes b.now names.now m turns locals.at r w)
        (λ x w. runs_at b.now names.now m turns (standing_of st.old) (placed_statement body.now) w))
        (λ w. spec.then_onward (each_moves b.now names.now m turns locals.at r w)) (world_of w.old))
        result (world_of w.new) }
    ensures stays { OnOk result (standing_of st.new ≡ standing_of st.old) }
{
    for _ in 0..turns {
        if !each::tested(b, w, locals)? {
            return Ok(Flow::Onward);
        }
        if let Some(flow) = turn_each(body, locals, b, turns, names, call, st, w)? {
            return Ok(flow);
        }
    }
    each::last_test(b, w, locals)
}

/// A `for` over an array (JLS 14.14.2).
#[cycle(executing)]
fn for_each<F: Enters>(
    body: &Stmt,
    variable: &Parameter,
    array: &Expr,
    b: &Site,
    turns: u64,
    names: &Names,
    call: &Calling<F>,
    st: &mut Standing,
    w: &mut World,
) -> Result<Flow, Halt>
    ensures means { (m : Caller) → F.keeps call.now m
        → (span : Span) → MeansAs flow_of (runs_at b.now names.now m turns (standing_of st.old)
        (PlacedForEach variable.now.modifiers.items (placed_type_use variable.now.type_use)
        variable.now.name (placed_view array.now) (placed_statement body.now) span) (world_of w.old))
        result (world_of w.new) }
    ensures scope { OnOk result (Grown st.old.scope st.new.scope) }
{
    let locals = each::start(variable, array, b, names, call, st, w)?;
    repeat_each(body, locals, b, turns, names, call, st, w)
}
