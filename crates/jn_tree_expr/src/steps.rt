//! `++` and `--` after the place that they change (JLS 15.14 and 15.15).
ghost use Rattle.std.specs.Prelude.{◌≡◌, Some, pos};
ghost use Rattle.jn_heap.specs.Values.{Number, Plain, usual_limits};
ghost use Rattle.jn_lowering.specs.Forms.{step_operator};
ghost use Rattle.jn_meaning.specs.Expressions as spec;
ghost use Rattle.jn_meaning.specs.Operations.{operated, read_place, write_place};
ghost use Rattle.jn_meaning.specs.Worlds.{Has, got, then_do};
ghost use Rattle.jn_tree_world.specs.Outcomes.{Means};
ghost use Rattle.jn_tree_world.specs.Worlds.{place_of, world_of};

use jn_base::Span;
use jn_machine::{Primitive, Value};
use jn_points::{BaseType, Operator};
use jn_scopes::Context;
use jn_tree_world::operators::{binary, operated, step_operator};
use jn_tree_world::place::{old_value, read_place, write_place};
use jn_tree_world::values::copied;
use jn_tree_world::{Halt, Place, World};
use jn_trees::{Names, Step};

/// One.
fn one() -> Option<Value>
    ensures { result ≡ Some (Plain (Number (pos 1))) }
{
    Some(Value::plain(Primitive::int(1)))
}

/// 1 is added or subtracted, and the new value written.
fn stepped(
    names: &Names,
    c: &Context,
    w: &mut World,
    place: &Place,
    step: Step,
    value: &Option<Value>,
    span: Span,
) -> Result<Option<Value>, Halt>
    ensures { Means (spec.stepped c.now.program.now names.now usual_limits.longest span
        (step_operator step) (place_of place.now) value.now (world_of w.old)) result
        (world_of w.new) }
{
    let _texts = names.len();
    let made = binary(step_operator(step), value, &one(), span)?;
    write_place(c.program.program(), w, place, span, made)
}

/// The new value, after the place (JLS 15.15.1 and 15.15.2).
pub fn steps_before(
    names: &Names,
    c: &Context,
    w: &mut World,
    place: &Place,
    at: Span,
    step: Step,
    span: Span,
) -> Result<Option<Value>, Halt>
    ensures { Means (then_do
        (read_place c.now.program.now (place_of place.now) at (world_of w.old))
        (λ x w. spec.stepped c.now.program.now names.now usual_limits.longest span
        (step_operator step) (place_of place.now) x w))
        result (world_of w.new) }
{
    let value = read_place(c.program.program(), w, place, at)?;
    stepped(names, c, w, place, step, &value, span)
}

/// The old value, after the place (JLS 15.14.2 and 15.14.3).
pub fn steps_behind(
    names: &Names,
    c: &Context,
    w: &mut World,
    place: &Place,
    at: Span,
    step: Step,
    span: Span,
) -> Result<Option<Value>, Halt>
    ensures { Means (then_do
        (read_place c.now.program.now (place_of place.now) at (world_of w.old))
        (λ x w. then_do (spec.old_value (place_of place.now) span x w)
        (λ old w. then_do (spec.stepped c.now.program.now names.now usual_limits.longest span
        (step_operator step) (place_of place.now) x w)
        (λ z w. Has old w))))
        result (world_of w.new) }
{
    let value = read_place(c.program.program(), w, place, at)?;
    let old = old_value(place, span, copied(&value)?)?;
    stepped(names, c, w, place, step, &value, span)?;
    Ok(old)
}

/// What an operator makes of the old value and the other side is written (JLS 15.26.2).
pub fn combine(
    c: &Context,
    w: &mut World,
    place: &Place,
    operator: Operator,
    bases: (BaseType, BaseType),
    old: &Option<Value>,
    value: &Option<Value>,
    span: Span,
) -> Result<Option<Value>, Halt>
    ensures { Means (then_do (got span
        (operated c.now.program.now usual_limits.longest operator bases.0 bases.1 old.now value.now)
        (world_of w.old))
        (λ z w. write_place c.now.program.now (place_of place.now) span z w))
        result (world_of w.new) }
{
    let made = operated(c.alloc, operator, bases, old, value, span)?;
    write_place(c.program.program(), w, place, span, made)
}
