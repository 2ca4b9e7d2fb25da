//! The parts of a `for` over an array (JLS 14.14.2): three registers in a row are those of the array, the index and the local.
ghost use Rattle.std.specs.Prelude.{◌≡◌, ◌+◌, None, IfOk, OnOk};
ghost use Rattle.jn_points.specs.Lookup.{elem_base};
ghost use Rattle.jn_places.specs.PlacedView.{placed_view};
ghost use Rattle.jn_lowering.specs.Forms.{branch, register};
ghost use Rattle.jn_lowering.specs.Statements as spec;
ghost use Rattle.jn_scopes.specs.Views.{bound_of};
ghost use Rattle.jn_lower_stmt.specs.Stating.{GivesIn, StepsOn, TestsIn, moved_to, valued};

use crate::state::{BodyContext, State, evaluate};
use jn_base::{OutOfMemory, PointNo, RegNo, Span};
use jn_lower_expr::emitter::Emitter;
use jn_lower_expr::places::qualifier;
use jn_lower_expr::values::{branch, step};
use jn_points::lookup::elem_base;
use jn_points::{BaseType, Literal, Operand, Operator, PointKind};
use jn_scopes::Bound;
use jn_trees::Expr;

/// The register so many after the array's.
fn behind(array: RegNo, more: u32) -> Result<RegNo, OutOfMemory>
    ensures { IfOk result (λ reg. reg ≡ register (array.0 + more)) }
{
    match array.0.checked_add(more) {
        Some(number) => Ok(RegNo(number)),
        None => Err(OutOfMemory),
    }
}

/// The array in its register, and the index to begin with.
fn started(
    tree: &Expr,
    array: RegNo,
    c: &BodyContext,
    e: &mut Emitter,
    s: &mut State,
) -> Result<Operand, OutOfMemory>
    ensures { IfOk result (λ o. (o.span ≡ (valued c.now s.old (placed_view tree.now)).operand.span)
        × GivesIn
        (spec.each_start c.now.program.now c.now.class.0 c.now.first o.span array.0
        (valued c.now s.old (placed_view tree.now)))
        s.old e.old o e.new s.new) }
{
    let given = evaluate(tree, c, e, s)?;
    let at = given.span;
    step(
        e,
        PointKind::Move {
            dst: array,
            from: given,
            bound: None,
        },
        at,
    )?;
    let dst = s.temporary(c, BaseType::Int)?;
    step(
        e,
        PointKind::Const {
            dst,
            value: Literal::Int(0),
        },
        at,
    )?;
    Ok(Operand { reg: dst, span: at })
}

/// Before the loop: the array and the index stand in their registers.
pub fn start_with(
    tree: &Expr,
    array: RegNo,
    c: &BodyContext,
    e: &mut Emitter,
    s: &mut State,
) -> Result<Span, OutOfMemory>
    ensures { IfOk result (λ at. (at ≡ (valued c.now s.old (placed_view tree.now)).operand.span)
        × StepsOn
        (moved_to at (array.0 + 1) None s.old (spec.each_start c.now.program.now c.now.class.0
        c.now.first at array.0 (valued c.now s.old (placed_view tree.now))))
        e.old e.new s.new) }
{
    let from = started(tree, array, c, e, s)?;
    let index = behind(array, 1)?;
    step(
        e,
        PointKind::Move {
            dst: index,
            from,
            bound: None,
        },
        from.span,
    )?;
    Ok(from.span)
}

/// The array's length.
fn length(
    array: RegNo,
    at: Span,
    c: &BodyContext,
    e: &mut Emitter,
    s: &mut State,
) -> Result<Operand, OutOfMemory>
    ensures { IfOk result (λ o. GivesIn
        (spec.each_length c.now.program.now c.now.class.0 c.now.first at array.0 s.old.temporaries)
        s.old e.old o e.new s.new) }
{
    let dst = s.temporary(c, BaseType::Int)?;
    let array = Operand {
        reg: array,
        span: at,
    };
    step(e, PointKind::ArrayLen { dst, array }, at)?;
    Ok(Operand { reg: dst, span: at })
}

/// Whether the index is below the length.
fn is_below(
    array: RegNo,
    at: Span,
    c: &BodyContext,
    e: &mut Emitter,
    s: &mut State,
) -> Result<Operand, OutOfMemory>
    ensures { IfOk result (λ o. GivesIn
        (spec.each_tested c.now.program.now c.now.class.0 c.now.first at array.0 s.old.temporaries)
        s.old e.old o e.new s.new) }
{
    let right = length(array, at, c, e, s)?;
    let index = behind(array, 1)?;
    let dst = s.temporary(c, BaseType::Bool)?;
    let left = Operand {
        reg: index,
        span: at,
    };
    step(
        e,
        PointKind::Binary {
            dst,
            operator: Operator::Less,
            left,
            right,
        },
        at,
    )?;
    Ok(Operand { reg: dst, span: at })
}

/// Goes on where there is an element left.
pub fn goes_on(
    array: RegNo,
    at: Span,
    c: &BodyContext,
    e: &mut Emitter,
    s: &mut State,
    yes: PointNo,
    no: PointNo,
) -> Result<(), OutOfMemory>
    ensures { OnOk result (TestsIn
        (branch (spec.each_tested c.now.program.now c.now.class.0 c.now.first at array.0
        s.old.temporaries))
        s.old yes.0 no.0 e.old e.new s.new) }
{
    let below = is_below(array, at, c, e, s)?;
    branch(e, below, yes, no)?;
    Ok(())
}

/// The element at the index.
fn element(
    array: RegNo,
    at: Span,
    base: BaseType,
    c: &BodyContext,
    e: &mut Emitter,
    s: &mut State,
) -> Result<Operand, OutOfMemory>
    ensures { IfOk result (λ o. GivesIn
        (spec.each_element c.now.program.now c.now.class.0 c.now.first at array.0 base
        s.old.temporaries)
        s.old e.old o e.new s.new) }
{
    let index = behind(array, 1)?;
    let dst = s.temporary(c, base)?;
    let array = Operand {
        reg: array,
        span: at,
    };
    let index = Operand {
        reg: index,
        span: at,
    };
    step(e, PointKind::ElemRead { dst, array, index }, at)?;
    Ok(Operand { reg: dst, span: at })
}

/// The local gets the element at the index of an array of the type.
pub fn item(
    array: RegNo,
    at: Span,
    base: BaseType,
    bound: Option<Bound>,
    c: &BodyContext,
    e: &mut Emitter,
    s: &mut State,
) -> Result<(), OutOfMemory>
    ensures { OnOk result (StepsOn
        (moved_to at (array.0 + 2) (bound_of bound) s.old (spec.each_element c.now.program.now
        c.now.class.0 c.now.first at array.0 (elem_base base) s.old.temporaries))
        e.old e.new s.new) }
{
    let from = element(array, at, elem_base(base), c, e, s)?;
    let local = behind(array, 2)?;
    let bound = qualifier(bound);
    step(
        e,
        PointKind::Move {
            dst: local,
            from,
            bound,
        },
        at,
    )?;
    Ok(())
}

/// The number one.
fn one(at: Span, c: &BodyContext, e: &mut Emitter, s: &mut State) -> Result<Operand, OutOfMemory>
    ensures { IfOk result (λ o. GivesIn
        (spec.each_one c.now.program.now c.now.class.0 c.now.first at s.old.temporaries) s.old e.old
        o e.new s.new) }
{
    let dst = s.temporary(c, BaseType::Int)?;
    step(
        e,
        PointKind::Const {
            dst,
            value: Literal::Int(1),
        },
        at,
    )?;
    Ok(Operand { reg: dst, span: at })
}

/// The index and one.
fn increased(
    array: RegNo,
    at: Span,
    c: &BodyContext,
    e: &mut Emitter,
    s: &mut State,
) -> Result<Operand, OutOfMemory>
    ensures { IfOk result (λ o. GivesIn
        (spec.each_next c.now.program.now c.now.class.0 c.now.first at array.0
        (spec.each_one c.now.program.now c.now.class.0 c.now.first at s.old.temporaries))
        s.old e.old o e.new s.new) }
{
    let right = one(at, c, e, s)?;
    let index = behind(array, 1)?;
    let dst = s.temporary(c, BaseType::Int)?;
    let left = Operand {
        reg: index,
        span: at,
    };
    step(
        e,
        PointKind::Binary {
            dst,
            operator: Operator::Add,
            left,
            right,
        },
        at,
    )?;
    Ok(Operand { reg: dst, span: at })
}

/// The index is that of the next element.
pub fn moves_on(
    array: RegNo,
    at: Span,
    c: &BodyContext,
    e: &mut Emitter,
    s: &mut State,
) -> Result<(), OutOfMemory>
    ensures { OnOk result (StepsOn
        (moved_to at (array.0 + 1) None s.old (spec.each_next c.now.program.now c.now.class.0
        c.now.first at array.0
        (spec.each_one c.now.program.now c.now.class.0 c.now.first at s.old.temporaries)))
        e.old e.new s.new) }
{
    let from = increased(array, at, c, e, s)?;
    let index = behind(array, 1)?;
    step(
        e,
        PointKind::Move {
            dst: index,
            from,
            bound: None,
        },
        at,
    )?;
    Ok(())
}
