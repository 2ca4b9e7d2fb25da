//! Statements without others in them (JLS 14.4, 14.8, 14.14 and 14.17).
ghost use Rattle.std.specs.Prelude.{◌≡◌, ℕ, OnOk};
ghost use Rattle.jn_meaning.specs.Expressions.{Caller};
ghost use Rattle.jn_meaning.specs.Statements as spec;
ghost use Rattle.jn_places.specs.PlacedView.{placed_declarator, placed_declarators, placed_init, placed_local, placed_optional, placed_statement, placed_view, placed_views};
ghost use Rattle.jn_lower_stmt.specs.Views.{rows_of};
ghost use Rattle.jn_scopes.specs.Views.{bound_of};
ghost use Rattle.jn_heap.specs.Values.{usual_limits};
ghost use Rattle.jn_tree_world.specs.Outcomes.{Found, Means, MeansAs};
ghost use Rattle.jn_tree_world.specs.Worlds.{world_of};
ghost use Rattle.jn_tree_simple.specs.Doing.{begins_at, declares_at, effects_at, holds_at, value_at};
ghost use Rattle.jn_tree_simple.specs.Standings.{flow_of, onward_of, standing_of};

use crate::flow::Flow;
use crate::standing::{Site, Standing, count_behind, has_value, local_at};
use jn_base::RegNo;
use jn_lower_stmt::state::LocalKind;
use jn_lower_stmt::types::kind_of;
use jn_machine::Value;
use jn_scopes::types::has_final;
use jn_tree_expr::{Calling, Enters, condition, value};
use jn_tree_world::{Halt, World};
use jn_trees::{Declarator, Expr, ForInit, LocalDeclaration, Names, Stmt};

/// An expression's value (JLS 15).
pub fn value_in<F: Enters>(
    tree: &Expr,
    b: &Site,
    names: &Names,
    call: &Calling<F>,
    st: &Standing,
    w: &mut World,
) -> Result<Option<Value>, Halt>
    ensures means { (turns : ℕ) (m : Caller) → F.keeps call.now m
        → Means (value_at b.now names.now m turns (standing_of st.now) (placed_view tree.now) (world_of w.old))
        result (world_of w.new) }
{
    value(tree, &b.context(&st.scope), names, call, w)
}

/// Whether an expression holds as a condition.
pub fn holds_in<F: Enters>(
    tree: &Expr,
    b: &Site,
    names: &Names,
    call: &Calling<F>,
    st: &Standing,
    w: &mut World,
) -> Result<bool, Halt>
    ensures means { (turns : ℕ) (m : Caller) → F.keeps call.now m
        → Means (holds_at b.now names.now m turns (standing_of st.now) (placed_view tree.now) (world_of w.old))
        result (world_of w.new) }
{
    condition(tree, &b.context(&st.scope), names, call, w)
}

/// An expression for its effects (JLS 14.8).
pub fn effect<F: Enters>(
    tree: &Expr,
    b: &Site,
    names: &Names,
    call: &Calling<F>,
    st: &Standing,
    w: &mut World,
) -> Result<(), Halt>
    ensures means { (turns : ℕ) (m : Caller) → F.keeps call.now m
        → MeansAs onward_of (spec.effect b.now.program.now names.now usual_limits.longest m turns b.now.class.0
        (standing_of st.now) (placed_view tree.now) (world_of w.old)) result (world_of w.new) }
{
    value_in(tree, b, names, call, st, w)?;
    Ok(())
}

/// Expressions for their effects, one after the other (JLS 14.14.1).
pub fn effects<F: Enters>(
    trees: &[Expr],
    b: &Site,
    names: &Names,
    call: &Calling<F>,
    st: &Standing,
    w: &mut World,
) -> Result<(), Halt>
    ensures means { (turns : ℕ) (m : Caller) → F.keeps call.now m
        → MeansAs onward_of (effects_at b.now names.now m turns (standing_of st.now) (placed_views trees.now)
        (world_of w.old)) result (world_of w.new) }
{
    for tree in trees {
        effect(tree, b, names, call, st, w)?;
    }
    Ok(())
}

/// `return` (JLS 14.17).
pub fn returned<F: Enters>(
    tree: &Option<Box<Expr>>,
    b: &Site,
    names: &Names,
    call: &Calling<F>,
    st: &Standing,
    w: &mut World,
) -> Result<Flow, Halt>
    ensures means { (turns : ℕ) (m : Caller) → F.keeps call.now m
        → MeansAs flow_of (spec.returned b.now.program.now names.now usual_limits.longest m turns
        b.now.class.0 (standing_of st.now) (placed_optional tree.now) (world_of w.old)) result
        (world_of w.new) }
{
    match tree {
        None => Ok(Flow::Returns(None)),
        Some(given) => {
            let value = value_in(given, b, names, call, st, w)?;
            Ok(Flow::Returns(value))
        }
    }
}

/// A local gets its first value, where it has one (JLS 14.4.2).
pub fn initialize<F: Enters>(
    tree: &Option<Box<Expr>>,
    local: RegNo,
    b: &Site,
    names: &Names,
    call: &Calling<F>,
    st: &Standing,
    w: &mut World,
) -> Result<(), Halt>
    ensures means { (turns : ℕ) (m : Caller) → F.keeps call.now m
        → MeansAs onward_of (spec.initialized b.now.program.now names.now usual_limits.longest m turns
        b.now.class.0 (standing_of st.now) local.0 (placed_optional tree.now) (world_of w.old)) result
        (world_of w.new) }
{
    match tree {
        None => Ok(()),
        Some(given) => {
            let value = value_in(given, b, names, call, st, w)?;
            w.set_local(local, value)?;
            Ok(())
        }
    }
}

/// The name of a declarator comes into scope.
fn declare_name(
    tree: &Declarator,
    kind: LocalKind,
    is_final: bool,
    b: &Site,
    st: &mut Standing,
) -> Result<(), Halt>
    ensures { Found (λ u. standing_of st.new ≡ spec.behind_declarator kind.base
        (bound_of kind.bound) is_final (rows_of kind.fault) (standing_of st.old)
        (placed_declarator tree.now)) result }
{
    st.declare(b, tree.name.name, kind, is_final && has_value(tree))
}

/// The names of declarators come into scope.
fn declare_names(
    trees: &[Declarator],
    kind: LocalKind,
    is_final: bool,
    b: &Site,
    st: &mut Standing,
) -> Result<(), Halt>
    ensures { Found (λ u. standing_of st.new ≡ spec.behind_declarators kind.base
        (bound_of kind.bound) is_final (rows_of kind.fault) (standing_of st.old)
        (placed_declarators trees.now)) result }
{
    for tree in trees {
        declare_name(tree, kind, is_final, b, st)?;
    }
    Ok(())
}

/// The names of a declaration come into scope.
fn declare_all(tree: &LocalDeclaration, b: &Site, st: &mut Standing) -> Result<(), Halt>
    ensures { Found (λ u. standing_of st.new
        ≡ spec.behind_declaration b.now.program.now (standing_of st.old) (placed_local tree.now))
        result }
{
    let kind = kind_of(b.program, &tree.type_use, &tree.modifiers);
    let is_final = has_final(&tree.modifiers);
    declare_name(&tree.first, kind, is_final, b, st)?;
    declare_names(&tree.more, kind, is_final, b, st)
}

/// One declared local: its name, then its first value (JLS 14.4.2).
fn declarator<F: Enters>(
    tree: &Declarator,
    kind: LocalKind,
    is_final: bool,
    b: &Site,
    names: &Names,
    call: &Calling<F>,
    st: &mut Standing,
    w: &mut World,
) -> Result<(), Halt>
    ensures means { (turns : ℕ) (m : Caller) → F.keeps call.now m
        → MeansAs onward_of (spec.initialized b.now.program.now names.now usual_limits.longest m turns
        b.now.class.0 (spec.behind_declarator kind.base (bound_of kind.bound) is_final
        (rows_of kind.fault) (standing_of st.old) (placed_declarator tree.now))
        st.old.count (placed_declarator tree.now).value (world_of w.old)) result (world_of w.new) }
    ensures behind { OnOk result (standing_of st.new ≡ spec.behind_declarator kind.base
        (bound_of kind.bound) is_final (rows_of kind.fault) (standing_of st.old)
        (placed_declarator tree.now)) }
{
    let local = local_at(st.count, 0)?;
    declare_name(tree, kind, is_final, b, st)?;
    initialize(&tree.value, local, b, names, call, st, w)
}

/// Declared locals, one after the other.
fn declarators<F: Enters>(
    trees: &[Declarator],
    kind: LocalKind,
    is_final: bool,
    b: &Site,
    names: &Names,
    call: &Calling<F>,
    st: &mut Standing,
    w: &mut World,
) -> Result<(), Halt>
    ensures means { (turns : ℕ) (m : Caller) → F.keeps call.now m
        → MeansAs onward_of (spec.declarators b.now.program.now names.now usual_limits.longest m turns
        b.now.class.0 kind.base (bound_of kind.bound) is_final (rows_of kind.fault)
        (standing_of st.old) (placed_declarators trees.now) (world_of w.old)) result (world_of w.new) }
    ensures behind { OnOk result (standing_of st.new ≡ spec.behind_declarators kind.base
        (bound_of kind.bound) is_final (rows_of kind.fault) (standing_of st.old)
        (placed_declarators trees.now)) }
{
    for tree in trees {
        declarator(tree, kind, is_final, b, names, call, st, w)?;
    }
    Ok(())
}

/// A declaration of locals (JLS 14.4.2).
pub fn declaration<F: Enters>(
    tree: &LocalDeclaration,
    b: &Site,
    names: &Names,
    call: &Calling<F>,
    st: &mut Standing,
    w: &mut World,
) -> Result<(), Halt>
    ensures means { (turns : ℕ) (m : Caller) → F.keeps call.now m
        → MeansAs onward_of (declares_at b.now names.now m turns (standing_of st.old)
        (placed_local tree.now) (world_of w.old)) result (world_of w.new) }
    ensures behind { OnOk result (standing_of st.new
        ≡ spec.behind_declaration b.now.program.now (standing_of st.old) (placed_local tree.now)) }
{
    let kind = kind_of(b.program, &tree.type_use, &tree.modifiers);
    let is_final = has_final(&tree.modifiers);
    declarator(&tree.first, kind, is_final, b, names, call, st, w)?;
    declarators(&tree.more, kind, is_final, b, names, call, st, w)
}

/// What a `for` begins with (JLS 14.14.1).
pub fn begin<F: Enters>(
    tree: &ForInit,
    b: &Site,
    names: &Names,
    call: &Calling<F>,
    st: &mut Standing,
    w: &mut World,
) -> Result<(), Halt>
    ensures means { (turns : ℕ) (m : Caller) → F.keeps call.now m
        → MeansAs onward_of (begins_at b.now names.now m turns (standing_of st.old)
        (placed_init tree.now) (world_of w.old)) result (world_of w.new) }
    ensures behind { OnOk result (standing_of st.new
        ≡ spec.behind_init b.now.program.now (standing_of st.old) (placed_init tree.now)) }
{
    match tree {
        ForInit::Expressions(trees) => effects(trees, b, names, call, st, w),
        ForInit::Declaration(local) => declaration(local, b, names, call, st, w),
    }
}

/// A statement that isn't done: the names of a declaration come into scope, and its locals are counted.
pub fn pass_over(tree: &Stmt, b: &Site, st: &mut Standing) -> Result<(), Halt>
    ensures { Found (λ u. standing_of st.new
        ≡ spec.behind b.now.program.now (standing_of st.old) (placed_statement tree.now)) result }
{
    match tree {
        Stmt::Local { declaration, .. } => declare_all(declaration, b, st),
        _ => {
            st.count = count_behind(tree, st.count)?;
            Ok(())
        }
    }
}
