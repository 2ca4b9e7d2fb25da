//! What operators make of their operands.
ghost use Rattle.std.specs.Prelude.{◌≡◌, IfOk, List};
ghost use Rattle.jn_base.specs.declared.place.Row.{Row};
ghost use Rattle.jn_points.specs.declared.point.BaseType.TheVariants.{Int, Ref};
ghost use Rattle.jn_points.specs.declared.point.Operand.{Operand};
ghost use Rattle.jn_points.specs.declared.point.PointKind.TheVariants.{Cast, NewArray, Unary};
ghost use Rattle.jn_lowering.specs.Bases as bases;
ghost use Rattle.jn_lowering.specs.Calls as call;
ghost use Rattle.jn_lowering.specs.Forms as form;
ghost use Rattle.jn_lowering.specs.Fragments.{then};
ghost use Rattle.jn_lower_expr.specs.Lowering.{Continues, ContinuesTwo, is_local_spot, spot_of};

use crate::emitter::Emitter;
use crate::places::{Place, Spot, write};
use crate::temporaries::Temporaries;
use crate::values::{Typed, step, temporary};
use jn_base::{ClassNo, OutOfMemory, RegNo, Span};
use jn_points::lookup::is_reference;
use jn_points::{BaseType, Literal as Constant, Operand, Operator, PointKind};
use jn_scopes::Context;
use jn_scopes::types::{binary_type, joins};
use jn_trees::Step;

/// A sign before a value.
pub fn sign(
    c: &Context,
    e: &mut Emitter,
    t: &mut Temporaries,
    negate: bool,
    of: Operand,
    span: Span,
) -> Result<Typed, OutOfMemory>
    ensures { IfOk result (λ o. Continues
        (λ v. form.gives c.now.program.now c.now.first v.behind v.fragment Int span
        (λ dst. Unary dst negate v.operand))
        Int e.old t.old of e.new o t.new) }
{
    let base = BaseType::Int;
    let dst = temporary(c, t, base)?;
    step(e, PointKind::Unary { dst, negate, of }, span)?;
    Ok(Typed {
        operand: Operand { reg: dst, span },
        base,
    })
}

/// A cast.
pub fn cast(
    c: &Context,
    e: &mut Emitter,
    t: &mut Temporaries,
    class: ClassNo,
    of: Operand,
    span: Span,
) -> Result<Typed, OutOfMemory>
    ensures { IfOk result (λ o. Continues
        (λ v. form.gives c.now.program.now c.now.first v.behind v.fragment (Ref class) span
        (λ dst. Cast dst v.operand class))
        (Ref class) e.old t.old of e.new o t.new) }
{
    let base = BaseType::Ref(class);
    let dst = temporary(c, t, base)?;
    step(e, PointKind::Cast { dst, of, class }, span)?;
    Ok(Typed {
        operand: Operand { reg: dst, span },
        base,
    })
}

/// An array of the type and of so many elements.
pub fn new_array(
    c: &Context,
    e: &mut Emitter,
    t: &mut Temporaries,
    base: BaseType,
    length: Operand,
    span: Span,
) -> Result<Typed, OutOfMemory>
    ensures { IfOk result (λ o. Continues
        (λ v. form.gives c.now.program.now c.now.first v.behind v.fragment base span
        (λ dst. NewArray dst base v.operand))
        base e.old t.old length e.new o t.new) }
{
    let dst = temporary(c, t, base)?;
    step(e, PointKind::NewArray { dst, base, length }, span)?;
    Ok(Typed {
        operand: Operand { reg: dst, span },
        base,
    })
}

/// Whether the operator is `==`.
pub fn is_equal(operator: Operator) -> bool
    ensures { result ≡ form.is_equal operator }
{
    match operator {
        Operator::Equal => true,
        _ => false,
    }
}

/// Whether an operator on sides of these types compares references (JLS 15.21.3).
pub fn references(operator: Operator, left: BaseType, right: BaseType) -> bool
    ensures { result ≡ form.references operator left right }
{
    match operator {
        Operator::Equal => is_reference(left) && is_reference(right),
        Operator::NotEqual => is_reference(left) && is_reference(right),
        _ => false,
    }
}

fn binary_kind(
    operator: Operator,
    left_base: BaseType,
    right_base: BaseType,
    left: Operand,
    right: Operand,
    dst: RegNo,
) -> PointKind
    ensures { result ≡ form.binary_kind operator left_base right_base left right dst }
{
    if joins(operator, left_base, right_base) {
        PointKind::Concat { dst, left, right }
    } else if references(operator, left_base, right_base) {
        PointKind::SameRef {
            dst,
            equal: is_equal(operator),
            left,
            right,
        }
    } else {
        PointKind::Binary {
            dst,
            operator,
            left,
            right,
        }
    }
}

/// What an operator between two values gives: `+` with a String at a side joins, `==` and `!=` of references compare them.
pub fn combine(
    c: &Context,
    e: &mut Emitter,
    t: &mut Temporaries,
    operator: Operator,
    left: Typed,
    right: Typed,
    span: Span,
) -> Result<Typed, OutOfMemory>
    ensures { IfOk result (λ o. ContinuesTwo
        (λ l r. form.combined c.now.program.now c.now.first r.behind (then l.fragment r.fragment)
        span operator left.base right.base l.operand r.operand)
        (bases.binary_type operator left.base right.base) e.old t.old left.operand right.operand
        e.new o t.new) }
{
    let base = binary_type(operator, left.base, right.base);
    let dst = temporary(c, t, base)?;
    let kind = binary_kind(
        operator,
        left.base,
        right.base,
        left.operand,
        right.operand,
        dst,
    );
    step(e, kind, span)?;
    Ok(Typed {
        operand: Operand { reg: dst, span },
        base,
    })
}

fn step_operator(step: Step) -> Operator
    ensures { result ≡ form.step_operator step }
{
    match step {
        Step::Increment => Operator::Add,
        Step::Decrement => Operator::Sub,
    }
}

/// One more or less than the old value, after the last value that was given, written to the place.
pub fn step_by_one(
    c: &Context,
    e: &mut Emitter,
    t: &mut Temporaries,
    by: Step,
    spot: &Spot,
    old: Operand,
    span: Span,
) -> Result<Typed, OutOfMemory>
    ensures { IfOk result (λ o. (x : Operand)
        → Continues
        (λ v. call.stepped c.now.program.now c.now.first span (form.step_operator by)
        (spot_of c.now.faults.now spot.now) old
        (call.one c.now.program.now c.now.first v.behind v.fragment span))
        Int e.old t.old x e.new o t.new) }
{
    let base = BaseType::Int;
    let one = temporary(c, t, base)?;
    step(
        e,
        PointKind::Const {
            dst: one,
            value: Constant::Int(1),
        },
        span,
    )?;
    let dst = temporary(c, t, base)?;
    let operator = step_operator(by);
    step(
        e,
        PointKind::Binary {
            dst,
            operator,
            left: old,
            right: Operand { reg: one, span },
        },
        span,
    )?;
    let given = Operand { reg: dst, span };
    write(c, e, spot, span, given)?;
    Ok(Typed {
        operand: given,
        base,
    })
}

fn is_local_spot(spot: &Spot) -> bool
    ensures { (rows : List Row) → result ≡ is_local_spot (spot_of rows spot.now) }
{
    match spot {
        Spot::Local(_) => true,
        _ => false,
    }
}

/// The old value of what is stepped after, which is copied where it stands in a local.
pub fn old_value(
    c: &Context,
    e: &mut Emitter,
    t: &mut Temporaries,
    place: &Place,
    given: Operand,
    span: Span,
) -> Result<Typed, OutOfMemory>
    ensures { IfOk result (λ o. Continues
        (call.old_value c.now.program.now c.now.first (spot_of c.now.faults.now place.now.spot)
        place.now.base span)
        place.now.base e.old t.old given e.new o t.new) }
{
    let base = place.base;
    if is_local_spot(&place.spot) {
        let dst = temporary(c, t, base)?;
        step(
            e,
            PointKind::Move {
                dst,
                from: given,
                bound: None,
            },
            span,
        )?;
        Ok(Typed {
            operand: Operand { reg: dst, span },
            base,
        })
    } else {
        Ok(Typed {
            operand: Operand {
                reg: given.reg,
                span,
            },
            base,
        })
    }
}
