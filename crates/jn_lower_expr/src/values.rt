//! Values in registers.
ghost use Rattle.std.specs.Prelude.{◌≡◌, ◌+◌, ◌&&◌, true, None, IfOk, OnOk, ltb, ℕ, Bool};
ghost use Rattle.jn_points.specs.declared.point.BaseType.TheVariants.{Void};
ghost use Rattle.jn_points.specs.declared.point.PointKind.TheVariants.{Const, Move};
ghost use Rattle.jn_lowering.specs.Temporaries.{take_one};
ghost use Rattle.jn_lowering.specs.Fragments.{asks, does, goes, nothing};
ghost use Rattle.jn_lowering.specs.Forms as form;
ghost use Rattle.jn_lowering.specs.Bases as bases;
ghost use Rattle.jn_points.specs.declared.point.PointKind.TheVariants.{Branch};
ghost use Rattle.jn_points.specs.declared.point.Literal.TheVariants.{Truth};
ghost use Rattle.jn_lower_expr.specs.Lowering.{Adds, Continues, Evaluates, Runs, is_plain};

use crate::emitter::{Emitter, put};
use crate::temporaries::Temporaries;
use jn_base::{OutOfMemory, PointNo, RegNo, Span};
use jn_points::{BaseType, Literal as Constant, Operand, PointKind};
use jn_scopes::Context;
use jn_scopes::types::literal_type;
use jn_trees::Literal;

/// A register with a value, and the type of the value.
#[derive(Clone, Copy)]
pub struct Typed {
    pub operand: Operand,
    pub base: BaseType,
}

/// A point that leads nowhere but to the next one.
pub fn step(e: &mut Emitter, kind: PointKind, span: Span) -> Result<(), OutOfMemory>
    requires plain { is_plain kind ≡ true }
    ensures { OnOk result (Runs (does span kind) e.old e.new) }
{
    put(e, kind, span)?;
    Ok(())
}

/// Goes to the label.
pub fn jump(e: &mut Emitter, to: PointNo, span: Span) -> Result<(), OutOfMemory>
    ensures { OnOk result ((second : ℕ) → Adds (goes span) to.0 second e.old e.new) }
{
    put(e, PointKind::Goto { to }, span)?;
    Ok(())
}

/// Tests the value.
pub fn branch(e: &mut Emitter, of: Operand, yes: PointNo, no: PointNo) -> Result<(), OutOfMemory>
    ensures { OnOk result
        (Adds (asks of.span (λ first second. Branch of first second)) yes.0 no.0 e.old e.new) }
{
    put(e, PointKind::Branch { of, yes, no }, of.span)?;
    Ok(())
}

/// Moves the value to the register.
pub fn move_to(e: &mut Emitter, dst: RegNo, from: Operand) -> Result<(), OutOfMemory>
    ensures { OnOk result (Runs (does from.span (Move dst from None)) e.old e.new) }
{
    let span = from.span;
    step(
        e,
        PointKind::Move {
            dst,
            from,
            bound: None,
        },
        span,
    )
}

/// Sets the register to true or false.
pub fn set_truth(e: &mut Emitter, dst: RegNo, truth: bool, span: Span) -> Result<(), OutOfMemory>
    ensures { OnOk result (Runs (does span (Const dst (Truth truth))) e.old e.new) }
{
    step(
        e,
        PointKind::Const {
            dst,
            value: Constant::Truth(truth),
        },
        span,
    )
}

/// The register of a temporary of the type.
pub fn temporary(c: &Context, t: &mut Temporaries, base: BaseType) -> Result<RegNo, OutOfMemory>
    ensures register { IfOk result (λ r. r.0 ≡ c.now.first + (take_one t.old base).number) }
    ensures behind { OnOk result (t.new ≡ (take_one t.old base).behind) }
{
    let number = t.take(base)?;
    match c.first.checked_add(number) {
        Some(reg) => Ok(RegNo(reg)),
        None => Err(OutOfMemory),
    }
}

/// A value of type void, which no point writes.
pub fn void(c: &Context, t: &mut Temporaries, span: Span) -> Result<Typed, OutOfMemory>
    ensures register { IfOk result (λ o.
        (o.operand.reg.0 ≡ c.now.first + (take_one t.old Void).number) × (o.operand.span ≡ span)) }
    ensures typed { IfOk result (λ o. o.base ≡ Void) }
    ensures behind { OnOk result (t.new ≡ (take_one t.old Void).behind) }
{
    let reg = temporary(c, t, BaseType::Void)?;
    Ok(Typed {
        operand: Operand { reg, span },
        base: BaseType::Void,
    })
}

fn int_of(number: u32) -> i32
    ensures { result ≡ form.int_of number }
{
    if number < 2147483648 {
        number as i32
    } else {
        -2147483648
    }
}

fn constant(literal: Literal) -> Constant
    ensures { result ≡ form.constant literal }
{
    match literal {
        Literal::Number(number) => Constant::Int(int_of(number)),
        Literal::Str(text) => Constant::Str(text),
        Literal::True => Constant::Truth(true),
        Literal::False => Constant::Truth(false),
        Literal::Null => Constant::Null,
    }
}

/// A literal.
pub fn literal(
    c: &Context,
    e: &mut Emitter,
    t: &mut Temporaries,
    literal: Literal,
    span: Span,
) -> Result<Typed, OutOfMemory>
    ensures { IfOk result (λ o. Evaluates
        (form.gives c.now.program.now c.now.first t.old nothing (bases.literal_type literal) span
        (λ dst. Const dst (form.constant literal)))
        (bases.literal_type literal) e.old o e.new t.new) }
{
    let base = literal_type(literal);
    let dst = temporary(c, t, base)?;
    let value = constant(literal);
    step(e, PointKind::Const { dst, value }, span)?;
    Ok(Typed {
        operand: Operand { reg: dst, span },
        base,
    })
}

/// A value that stands in a local's register is copied where a later operand assigns that local (JLS 15.7).
pub fn keep(
    c: &Context,
    e: &mut Emitter,
    t: &mut Temporaries,
    copied: bool,
    given: Typed,
) -> Result<Typed, OutOfMemory>
    ensures { IfOk result (λ o. (later : ℕ → Bool)
        → copied ≡ (ltb given.operand.reg.0 c.now.first && later given.operand.reg.0)
        → Continues (form.kept c.now.program.now c.now.first later given.base) given.base e.old
        t.old given.operand e.new o t.new) }
{
    if copied {
        let span = given.operand.span;
        let dst = temporary(c, t, given.base)?;
        step(
            e,
            PointKind::Move {
                dst,
                from: given.operand,
                bound: None,
            },
            span,
        )?;
        Ok(Typed {
            operand: Operand { reg: dst, span },
            base: given.base,
        })
    } else {
        Ok(given)
    }
}
