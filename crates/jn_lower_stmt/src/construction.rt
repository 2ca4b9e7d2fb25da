//! The call of another constructor with which a constructor begins, and the initializers of fields (JLS 8.8.7 and 12.5).
ghost use Rattle.std.specs.Prelude.{◌≡◌, ℕ, option_map, OnOk, Some};
ghost use Rattle.jn_points.specs.declared.point.PointKind.TheVariants.{FieldWrite};
ghost use Rattle.jn_points.specs.declared.program.Program as program;
ghost use Rattle.jn_lowering.specs.Bodies as spec;
ghost use Rattle.jn_lowering.specs.Calls.{Operands};
ghost use Rattle.jn_lower_expr.specs.Lowering.{Runs};
ghost use Rattle.jn_lower_expr.specs.declared.emitter.Emitter as emitted;
ghost use Rattle.jn_places.specs.PlacedView.{placed_declarator, placed_declarators, placed_member, placed_members, placed_statements, placed_view, placed_views};
ghost use Rattle.jn_lower_stmt.specs.Stating.{StepsOn};

use crate::pieces::through;
use crate::state::{BodyContext, State, evaluate_all, evaluate_outside};
use jn_base::{ClassNo, FieldNo, MethodNo, OutOfMemory, RegNo, Seq, Span};
use jn_lower_expr::emitter::Emitter;
use jn_lower_expr::values::step;
use jn_points::{Operand, PointKind};
use jn_scopes::forms::span_of;
use jn_scopes::heads::{is_under_object, name_span};
use jn_scopes::members::{constructor_of, declared_field, is_static_field, parent_or_object};
use jn_trees::{Declarator, Expr, Member, Stmt};

/// Calls the constructor, where there is one.
fn call(
    e: &mut Emitter,
    ctor: Option<MethodNo>,
    own: bool,
    span: Span,
    args: Seq<Operand>,
) -> Result<(), OutOfMemory>
    ensures { OnOk result ((P : program.Program) (m first : ℕ) (vs : Operands)
        (start : emitted.Emitter)
        → Runs vs.fragment start e.old → args ≡ vs.values
        → Runs (spec.called_ctor P m first (option_map (λ k. k.0) ctor) own span vs) start e.new) }
{
    match ctor {
        None => Ok(()),
        Some(ctor) => {
            step(e, PointKind::CtorCall { ctor, args, own }, span)?;
            Ok(())
        }
    }
}

/// A call of a constructor of the class (JLS 8.8.7.1).
fn call_ctor(
    method: MethodNo,
    own: bool,
    class: ClassNo,
    arguments: &[Expr],
    span: Span,
    c: &BodyContext,
    e: &mut Emitter,
    s: &mut State,
) -> Result<(), OutOfMemory>
    requires class { c.now.class.0 ≡ spec.class c.now.program.now method.0 }
    ensures { OnOk result (StepsOn
        (spec.ctor_call c.now.program.now method.0 c.now.first s.old own class.0
        (placed_views arguments.now) span)
        e.old e.new s.new) }
{
    let outer = s.begin(c.alloc);
    let args = evaluate_all(arguments, c, e, s)?;
    call(
        e,
        constructor_of(c.program, class, arguments.len()),
        own,
        span,
        args,
    )?;
    s.end(outer);
    Ok(())
}

/// The call of the superclass's constructor that is not written; a class right under Object has none (JLS 8.8.7).
fn unwritten_call(
    method: MethodNo,
    c: &BodyContext,
    e: &mut Emitter,
    s: &mut State,
) -> Result<(), OutOfMemory>
    requires class { c.now.class.0 ≡ spec.class c.now.program.now method.0 }
    ensures { OnOk result (StepsOn
        (spec.unwritten_call c.now.program.now method.0 c.now.first s.old) e.old e.new s.new) }
{
    if is_under_object(c.program, c.class) {
        return Ok(());
    }
    let parent = parent_or_object(c.program, c.class);
    let name = name_span(c.program, method);
    call_ctor(method, false, parent, &[], name, c, e, s)?;
    Ok(())
}

/// The call of another constructor with which a constructor begins (JLS 8.8.7).
pub fn construct(
    body: &[Stmt],
    method: MethodNo,
    c: &BodyContext,
    e: &mut Emitter,
    s: &mut State,
) -> Result<(), OutOfMemory>
    requires class { c.now.class.0 ≡ spec.class c.now.program.now method.0 }
    ensures { OnOk result (StepsOn
        (spec.construction c.now.program.now method.0 c.now.first s.old
        (placed_statements body.now))
        e.old e.new s.new) }
{
    let [first, ..] = body else {
        unwritten_call(method, c, e, s)?;
        return Ok(());
    };
    match first {
        Stmt::ThisCall { arguments, span } => {
            call_ctor(method, true, c.class, arguments, *span, c, e, s)?;
            Ok(())
        }
        Stmt::SuperCall { arguments, span } => {
            let parent = parent_or_object(c.program, c.class);
            call_ctor(method, false, parent, arguments, *span, c, e, s)?;
            Ok(())
        }
        _ => {
            unwritten_call(method, c, e, s)?;
            Ok(())
        }
    }
}

/// Writes a field's first value to the new object (JLS 12.5).
fn write_first(
    field: FieldNo,
    method: MethodNo,
    name: Span,
    value: &Expr,
    c: &BodyContext,
    e: &mut Emitter,
    s: &mut State,
) -> Result<(), OutOfMemory>
    requires class { c.now.class.0 ≡ spec.class c.now.program.now method.0 }
    ensures { OnOk result (StepsOn
        (spec.writes_field c.now.program.now method.0 c.now.first (Some field.0) name s.old
        (placed_view value.now))
        e.old e.new s.new) }
{
    if is_static_field(c.program, field) {
        return Ok(());
    }
    let outer = s.begin(c.alloc);
    let given = evaluate_outside(value, c, e, s)?;
    let object = Operand {
        reg: RegNo(0),
        span: name,
    };
    let kind = PointKind::FieldWrite {
        object,
        field,
        value: given,
    };
    step(e, kind, through(name, span_of(value)))?;
    s.end(outer);
    Ok(())
}

/// The initializer of a field, if it has one (JLS 8.3.2).
fn initializer(
    tree: &Declarator,
    method: MethodNo,
    c: &BodyContext,
    e: &mut Emitter,
    s: &mut State,
) -> Result<(), OutOfMemory>
    requires class { c.now.class.0 ≡ spec.class c.now.program.now method.0 }
    ensures { OnOk result (StepsOn
        (spec.initializes c.now.program.now method.0 c.now.first
        (placed_declarator tree.now).name.span (placed_declarator tree.now).name.name.0 s.old
        (placed_declarator tree.now).value)
        e.old e.new s.new) }
{
    match &tree.value {
        None => Ok(()),
        Some(value) => match declared_field(c.program, c.class, tree.name.name) {
            None => Ok(()),
            Some(field) => {
                write_first(field, method, tree.name.span, value, c, e, s)?;
                Ok(())
            }
        },
    }
}

fn initializers_of(
    trees: &[Declarator],
    method: MethodNo,
    c: &BodyContext,
    e: &mut Emitter,
    s: &mut State,
) -> Result<(), OutOfMemory>
    requires class { c.now.class.0 ≡ spec.class c.now.program.now method.0 }
    ensures { OnOk result (StepsOn
        (spec.initializers_of c.now.program.now method.0 c.now.first s.old
        (placed_declarators trees.now))
        e.old e.new s.new) }
{
    for tree in trees {
        initializer(tree, method, c, e, s)?;
    }
    Ok(())
}

fn member_initializers(
    tree: &Member,
    method: MethodNo,
    c: &BodyContext,
    e: &mut Emitter,
    s: &mut State,
) -> Result<(), OutOfMemory>
    requires class { c.now.class.0 ≡ spec.class c.now.program.now method.0 }
    ensures { OnOk result (StepsOn
        (spec.initializers_of c.now.program.now method.0 c.now.first s.old
        (spec.declarators_of (placed_member tree.now)))
        e.old e.new s.new) }
{
    match tree {
        Member::Field { first, more, .. } => {
            initializer(first, method, c, e, s)?;
            initializers_of(more, method, c, e, s)?;
            Ok(())
        }
        Member::Method { .. } => Ok(()),
        Member::Constructor { .. } => Ok(()),
    }
}

/// The initializers of a class's fields, in textual order (JLS 12.5).
pub fn initializers(
    trees: &[Member],
    method: MethodNo,
    c: &BodyContext,
    e: &mut Emitter,
    s: &mut State,
) -> Result<(), OutOfMemory>
    requires class { c.now.class.0 ≡ spec.class c.now.program.now method.0 }
    ensures { OnOk result (StepsOn
        (spec.initializers c.now.program.now method.0 c.now.first s.old (placed_members trees.now))
        e.old e.new s.new) }
{
    for tree in trees {
        member_initializers(tree, method, c, e, s)?;
    }
    Ok(())
}
