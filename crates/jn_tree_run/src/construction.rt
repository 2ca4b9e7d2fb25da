//! The call of another constructor with which one begins, and the initializers of fields (JLS 8.8.7 and 12.5).
ghost use Rattle.std.specs.Prelude.{◌≡◌, ◌∷◌, [], ℕ, List, Some};
ghost use Rattle.jn_heap.specs.Values.{usual_limits};
ghost use Rattle.jn_lowering.specs.Bodies as source;
ghost use Rattle.jn_lowering.specs.Bodies.{declarators_of};
ghost use Rattle.jn_machine.specs.Parts.{prepended};
ghost use Rattle.jn_meaning.specs.Bodies as spec;
ghost use Rattle.jn_meaning.specs.Expressions.{Caller, meant};
ghost use Rattle.jn_meaning.specs.Operations as ops;
ghost use Rattle.jn_places.specs.PlacedView.{placed_declarator, placed_declarators, placed_member, placed_members, placed_statements, placed_view, placed_views};
ghost use Rattle.jn_points.specs.declared.program.Program as program;
ghost use Rattle.jn_scopes.specs.Views.{scope_in};
ghost use Rattle.jn_tree_expr.specs.Meaning.{number_of};
ghost use Rattle.jn_tree_world.specs.Outcomes.{Found, Means, MeansAs};
ghost use Rattle.jn_tree_world.specs.Worlds.{items_in, world_of};
ghost use Rattle.jn_tree_simple.specs.Standings.{onward_of};

use jn_base::{ClassNo, FieldNo, MethodNo, RegNo, Span};
use jn_lower_stmt::pieces::through;
use jn_machine::Value;
use jn_scopes::forms::span_of;
use jn_scopes::heads::is_under_object;
use jn_scopes::members::{constructor_of, declared_field, is_static_field, parent_or_object};
use jn_scopes::{Context, Variables};
use jn_tree_expr::{Calling, Enters, evaluated, value};
use jn_tree_simple::Site;
use jn_tree_world::frames::all_there;
use jn_tree_world::place::write_place;
use jn_tree_world::{Halt, Place, World};
use jn_trees::{Declarator, Expr, Member, Names, Stmt};
use std::alloc::Global;

/// A list of one value.
fn one(alloc: Global, value: Value) -> Result<Vec<Value>, Halt>
    ensures { Found (λ r. r.items ≡ value ∷ []) result }
{
    let mut values = Vec::new(alloc);
    match values.push(value) {
        Err(_) => Err(Halt::OutOfMemory),
        Ok(()) => Ok(values),
    }
}

/// The values after the object, where all are there.
fn gather(
    alloc: Global,
    object: Value,
    arguments: &[Option<Value>],
) -> Result<Option<Vec<Value>>, Halt>
    ensures { Found
        (λ r. items_in r ≡ prepended (object ∷ []) (ops.all_there arguments.now)) result }
{
    let front = one(alloc, object)?;
    all_there(front, arguments)
}

/// A constructor of the class or its superclass, on `this` (JLS 8.8.7.1).
fn call_on_this<F: Enters>(
    ctor: usize,
    this: Option<Value>,
    arguments: &[Option<Value>],
    alloc: Global,
    call: &Calling<F>,
    w: &mut World,
) -> Result<(), Halt>
    ensures { (P : program.Program) (names : List (List ℕ)) (longest turns k : ℕ) (m : Caller)
        → F.keeps call.now m
        → MeansAs onward_of (spec.on_this P names longest m turns k this
        (ops.all_there arguments.now) ctor (world_of w.old)) result (world_of w.new) }
{
    let Some(object) = this else {
        return Err(Halt::Senseless);
    };
    let Some(values) = gather(alloc, object, arguments)? else {
        return Err(Halt::Senseless);
    };
    call.enter(ctor, values, w)?;
    Ok(())
}

/// The same of the constructor, where there is one.
fn call_found<F: Enters>(
    ctor: Option<MethodNo>,
    arguments: &[Option<Value>],
    alloc: Global,
    call: &Calling<F>,
    w: &mut World,
) -> Result<(), Halt>
    ensures { (P : program.Program) (names : List (List ℕ)) (longest turns k : ℕ) (m : Caller)
        → F.keeps call.now m
        → MeansAs onward_of (spec.called_ctor P names longest m turns k (number_of ctor)
        arguments.now (world_of w.old)) result (world_of w.new) }
{
    match ctor {
        None => Ok(()),
        Some(found) => {
            let this = w.local(RegNo(0))?;
            call_on_this(found.0 as usize, this, arguments, alloc, call, w)
        }
    }
}

/// `this(..)` or `super(..)`: the arguments, then the constructor (JLS 8.8.7.1).
fn call_ctor<F: Enters>(
    class: ClassNo,
    arguments: &[Expr],
    c: &Context,
    names: &Names,
    call: &Calling<F>,
    w: &mut World,
) -> Result<(), Halt>
    ensures { (turns k : ℕ) (m : Caller) → c.now.class.0 ≡ source.class c.now.program.now k
        → F.keeps call.now m
        → MeansAs onward_of (spec.ctor_call c.now.program.now names.now usual_limits.longest m turns
        k (scope_in c.now) class.0 (placed_views arguments.now) (world_of w.old)) result
        (world_of w.new) }
{
    let values = evaluated(arguments, c, names, call, w)?;
    let ctor = constructor_of(c.program, class, arguments.len());
    call_found(ctor, &values, c.alloc, call, w)
}

/// The call of the superclass's constructor that isn't written; a class right under Object has none (JLS 8.8.7).
fn call_unwritten<F: Enters>(
    c: &Context,
    names: &Names,
    call: &Calling<F>,
    w: &mut World,
) -> Result<(), Halt>
    ensures { (turns k : ℕ) (m : Caller) → c.now.class.0 ≡ source.class c.now.program.now k
        → F.keeps call.now m
        → MeansAs onward_of (spec.unwritten_call c.now.program.now names.now usual_limits.longest m
        turns k (scope_in c.now) (world_of w.old)) result (world_of w.new) }
{
    if is_under_object(c.program, c.class) {
        return Ok(());
    }
    let parent = parent_or_object(c.program, c.class);
    call_ctor(parent, &[], c, names, call, w)
}

/// The call of another constructor with which a constructor begins (JLS 8.8.7).
pub fn construct<F: Enters>(
    body: &[Stmt],
    c: &Context,
    names: &Names,
    call: &Calling<F>,
    w: &mut World,
) -> Result<(), Halt>
    ensures { (turns k : ℕ) (m : Caller) → c.now.class.0 ≡ source.class c.now.program.now k
        → F.keeps call.now m
        → MeansAs onward_of (spec.construction c.now.program.now names.now usual_limits.longest m
        turns k (scope_in c.now) (placed_statements body.now) (world_of w.old)) result
        (world_of w.new) }
{
    let [first, ..] = body else {
        return call_unwritten(c, names, call, w);
    };
    match first {
        Stmt::ThisCall { arguments, .. } => call_ctor(c.class, arguments, c, names, call, w),
        Stmt::SuperCall { arguments, .. } => {
            let parent = parent_or_object(c.program, c.class);
            call_ctor(parent, arguments, c, names, call, w)
        }
        _ => call_unwritten(c, names, call, w),
    }
}

/// The value of a field's initializer, in which no local is in scope (JLS 8.3.2).
fn first_value<F: Enters>(
    tree: &Expr,
    b: &Site,
    names: &Names,
    call: &Calling<F>,
    w: &mut World,
) -> Result<Option<Value>, Halt>
    ensures { (m : Caller) → F.keeps call.now m
        → Means ((meant b.now.program.now names.now usual_limits.longest m b.now.class.0 []
        (placed_view tree.now)).value (world_of w.old)) result (world_of w.new) }
{
    let none = Variables::new(b.alloc);
    let given = value(tree, &b.outside(&none), names, call, w)?;
    Ok(given)
}

/// A field that isn't static gets its first value.
fn write_first<F: Enters>(
    tree: &Expr,
    field: FieldNo,
    name: Span,
    b: &Site,
    names: &Names,
    call: &Calling<F>,
    w: &mut World,
) -> Result<(), Halt>
    ensures { (turns k : ℕ) (m : Caller) → b.now.class.0 ≡ source.class b.now.program.now k
        → F.keeps call.now m
        → MeansAs onward_of (spec.writes_field b.now.program.now names.now usual_limits.longest m
        turns k (Some field.0) name (placed_view tree.now) (world_of w.old)) result
        (world_of w.new) }
{
    if is_static_field(b.program, field) {
        return Ok(());
    }
    let first = first_value(tree, b, names, call, w)?;
    let this = w.local(RegNo(0))?;
    let place = Place::Field(this, name, field);
    write_place(
        b.program.program(),
        w,
        &place,
        through(name, span_of(tree)),
        first,
    )?;
    Ok(())
}

/// The initializer of a field, where it has one (JLS 8.3.2).
fn initialize<F: Enters>(
    tree: &Declarator,
    b: &Site,
    names: &Names,
    call: &Calling<F>,
    w: &mut World,
) -> Result<(), Halt>
    ensures { (turns k : ℕ) (m : Caller) → b.now.class.0 ≡ source.class b.now.program.now k
        → F.keeps call.now m
        → MeansAs onward_of (spec.initializes b.now.program.now names.now usual_limits.longest m
        turns k (placed_declarator tree.now).name.span (placed_declarator tree.now).name.name.0
        (placed_declarator tree.now).value (world_of w.old)) result (world_of w.new) }
{
    match &tree.value {
        None => Ok(()),
        Some(first) => match declared_field(b.program, b.class, tree.name.name) {
            None => Ok(()),
            Some(field) => write_first(first, field, tree.name.span, b, names, call, w),
        },
    }
}

fn initialize_all<F: Enters>(
    trees: &[Declarator],
    b: &Site,
    names: &Names,
    call: &Calling<F>,
    w: &mut World,
) -> Result<(), Halt>
    ensures { (turns k : ℕ) (m : Caller) → b.now.class.0 ≡ source.class b.now.program.now k
        → F.keeps call.now m
        → MeansAs onward_of (spec.initializers_of b.now.program.now names.now usual_limits.longest m
        turns k (placed_declarators trees.now) (world_of w.old)) result (world_of w.new) }
{
    for tree in trees {
        initialize(tree, b, names, call, w)?;
    }
    Ok(())
}

/// The initializers that a member has.
fn initialize_member<F: Enters>(
    tree: &Member,
    b: &Site,
    names: &Names,
    call: &Calling<F>,
    w: &mut World,
) -> Result<(), Halt>
    ensures { (turns k : ℕ) (m : Caller) → b.now.class.0 ≡ source.class b.now.program.now k
        → F.keeps call.now m
        → MeansAs onward_of (spec.initializers_of b.now.program.now names.now usual_limits.longest m
        turns k (declarators_of (placed_member tree.now)) (world_of w.old)) result
        (world_of w.new) }
{
    match tree {
        Member::Field { first, more, .. } => {
            initialize(first, b, names, call, w)?;
            initialize_all(more, b, names, call, w)
        }
        Member::Method { .. } => Ok(()),
        Member::Constructor { .. } => Ok(()),
    }
}

/// The initializers of a class's fields, in textual order (JLS 12.5).
pub fn initializers<F: Enters>(
    trees: &[Member],
    b: &Site,
    names: &Names,
    call: &Calling<F>,
    w: &mut World,
) -> Result<(), Halt>
    ensures { (turns k : ℕ) (m : Caller) → b.now.class.0 ≡ source.class b.now.program.now k
        → F.keeps call.now m
        → MeansAs onward_of (spec.initializers b.now.program.now names.now usual_limits.longest m
        turns k (placed_members trees.now) (world_of w.old)) result (world_of w.new) }
{
    for tree in trees {
        initialize_member(tree, b, names, call, w)?;
    }
    Ok(())
}
