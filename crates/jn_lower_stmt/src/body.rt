//! Bodies of methods and constructors (JLS 8.4.7, 8.8.7 and 12.5).
ghost use Rattle.std.specs.Prelude.{◌≡◌, ◌∷◌, [], OnOk};
ghost use Rattle.jn_points.specs.Lookup.{ctor_of, method_at};
ghost use Rattle.jn_lowering.specs.Bodies as spec;
ghost use Rattle.jn_places.specs.PlacedView.{placed_members, placed_statements};
ghost use Rattle.jn_lower_stmt.specs.Stating.{StepsOn};

use crate::construction::{construct, initializers};
use crate::forms::statements;
use crate::pieces::label;
use crate::state::{BodyContext, State, Ways};
use jn_base::{MethodNo, OutOfMemory};
use jn_lower_expr::emitter::{Emitter, place};
use jn_lower_expr::values::step;
use jn_points::PointKind;
use jn_scopes::heads::{is_ctor, name_span};
use jn_trees::{Member, Parameter, Stmt};

/// What the body of a method is made of: the trees of the method, and of its class's members.
#[derive(Clone, Copy)]
pub struct Source<'a> {
    pub method: MethodNo,
    pub parameters: &'a [Parameter],
    pub body: &'a [Stmt],
    pub members: &'a [Member],
}

/// A written `this(..)` at the beginning (JLS 8.8.7.1).
fn calls_own(body: &[Stmt]) -> bool
    ensures { result ≡ spec.calls_own (placed_statements body.now) }
{
    match body {
        [first, ..] => is_own_call(first),
        [] => false,
    }
}

fn is_own_call(tree: &Stmt) -> bool
    ensures { result ≡ spec.calls_own (placed_statements (tree.now ∷ [])) }
{
    match tree {
        Stmt::ThisCall { .. } => true,
        _ => false,
    }
}

/// A constructor's call of another one.
fn call_of(
    source: &Source,
    c: &BodyContext,
    e: &mut Emitter,
    s: &mut State,
) -> Result<(), OutOfMemory>
    requires class { c.now.class.0 ≡ spec.class c.now.program.now source.now.method.0 }
    ensures { OnOk result (StepsOn
        (spec.call_of c.now.program.now source.now.method.0 c.now.first
        (ctor_of (method_at c.now.program.now source.now.method.0)) s.old
        (placed_statements source.now.body.now))
        e.old e.new s.new) }
{
    if is_ctor(c.program, source.method) {
        construct(source.body, source.method, c, e, s)?;
    }
    Ok(())
}

/// The initializers of fields, unless another constructor of the class is called (JLS 12.5).
fn own_initializers(
    source: &Source,
    c: &BodyContext,
    e: &mut Emitter,
    s: &mut State,
) -> Result<(), OutOfMemory>
    requires class { c.now.class.0 ≡ spec.class c.now.program.now source.now.method.0 }
    ensures { OnOk result (StepsOn
        (spec.own_initializers c.now.program.now source.now.method.0 c.now.first s.old
        (placed_statements source.now.body.now) (placed_members source.now.members.now))
        e.old e.new s.new) }
{
    if calls_own(source.body) {
        return Ok(());
    }
    initializers(source.members, source.method, c, e, s)?;
    Ok(())
}

fn fields_of(
    source: &Source,
    c: &BodyContext,
    e: &mut Emitter,
    s: &mut State,
) -> Result<(), OutOfMemory>
    requires class { c.now.class.0 ≡ spec.class c.now.program.now source.now.method.0 }
    ensures { OnOk result (StepsOn
        (spec.fields_of c.now.program.now source.now.method.0 c.now.first
        (ctor_of (method_at c.now.program.now source.now.method.0)) s.old
        (placed_statements source.now.body.now) (placed_members source.now.members.now))
        e.old e.new s.new) }
{
    if is_ctor(c.program, source.method) {
        own_initializers(source, c, e, s)?;
    }
    Ok(())
}

/// A constructor's call and initializers, then the statements, then a return.
pub fn whole(
    source: &Source,
    c: &BodyContext,
    e: &mut Emitter,
    s: &mut State,
) -> Result<(), OutOfMemory>
    requires class { c.now.class.0 ≡ spec.class c.now.program.now source.now.method.0 }
    ensures { OnOk result (StepsOn
        (spec.whole c.now.program.now source.now.method.0 c.now.first s.old
        (placed_statements source.now.body.now) (placed_members source.now.members.now))
        e.old e.new s.new) }
{
    let start = label(e)?;
    let fields = label(e)?;
    let end = label(e)?;
    place(e, start)?;
    call_of(source, c, e, s)?;
    place(e, fields)?;
    fields_of(source, c, e, s)?;
    let ways = Ways {
        out: end,
        again: end,
    };
    statements(source.body, c, e, s, ways)?;
    place(e, end)?;
    step(
        e,
        PointKind::Return { value: None },
        name_span(c.program, source.method),
    )?;
    Ok(())
}
