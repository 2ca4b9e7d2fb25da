//! Places that are read and assigned.
ghost use Rattle.std.specs.Prelude.{◌≡◌, IfOk, OnOk, Some, None, Option};
ghost use Rattle.jn_points.specs.declared.point.BaseType.{BaseType};
ghost use Rattle.jn_lowering.specs.Bases as bases;
ghost use Rattle.jn_lowering.specs.Forms as form;
ghost use Rattle.jn_lowering.specs.Calls as call;
ghost use Rattle.jn_scopes.specs.Views.{access_of, bound_of, meaning_of};
ghost use Rattle.jn_lower_expr.specs.declared.emitter.Emitter as emitted;
ghost use Rattle.jn_lower_expr.specs.Lowering.{Evaluates, Finds, Runs, access_spot, spot_of};
ghost use Rattle.std.specs.Prelude.{List};
ghost use Rattle.jn_base.specs.declared.place.Row.{Row};

use crate::emitter::Emitter;
use crate::temporaries::Temporaries;
use crate::values::{Typed, step, temporary, void};
use jn_base::{FieldNo, OutOfMemory, RegNo, Span};
use jn_points::{BaseType, Operand, PointKind};
use jn_quals::Qual;
use jn_scopes::members::{field_base, is_static_field};
use jn_scopes::types::{access_type, meaning_type};
use jn_scopes::{Access, Bound, Context, Meaning, Variable};

/// What is read and assigned, with its object, array and index evaluated.
#[derive(Clone, Copy)]
pub enum Spot {
    Local(Variable),
    Static(FieldNo),
    Field(Operand, FieldNo),
    Element(Operand, Operand, BaseType),
    Length(Operand),
    Nothing,
}

/// A spot, and the type of what is read there.
#[derive(Clone, Copy)]
pub struct Place {
    pub spot: Spot,
    pub base: BaseType,
}

fn name_spot(c: &Context, meaning: Meaning, span: Span) -> Spot
    ensures { spot_of c.now.faults.now result
        ≡ call.name_spot c.now.program.now (meaning_of c.now.faults.now meaning) span }
{
    match meaning {
        Meaning::Local(variable) => Spot::Local(variable),
        Meaning::Field(field) => {
            if is_static_field(c.program, field) {
                Spot::Static(field)
            } else {
                Spot::Field(
                    Operand {
                        reg: RegNo(0),
                        span,
                    },
                    field,
                )
            }
        }
        _ => Spot::Nothing,
    }
}

/// The place that an identifier names.
pub fn name_place(c: &Context, meaning: Meaning, span: Span) -> Place
    ensures spot { spot_of c.now.faults.now result.spot
        ≡ call.name_spot c.now.program.now (meaning_of c.now.faults.now meaning) span }
    ensures base { result.base
        ≡ bases.meaning_type c.now.program.now (meaning_of c.now.faults.now meaning) }
{
    Place {
        spot: name_spot(c, meaning, span),
        base: meaning_type(c, meaning),
    }
}

fn access_spot(access: Access, object: Operand) -> Spot
    ensures { (rows : List Row) → spot_of rows result ≡ access_spot (access_of access) object }
{
    match access {
        Access::Class(field) => Spot::Static(field),
        Access::Object(field) => Spot::Field(object, field),
        Access::Length => Spot::Length(object),
        Access::Nothing => Spot::Nothing,
    }
}

/// The place that a field access names, with its object evaluated.
pub fn access_place(c: &Context, access: Access, object: Operand) -> Place
    ensures spot { spot_of c.now.faults.now result.spot ≡ access_spot (access_of access) object }
    ensures base { result.base ≡ bases.access_type c.now.program.now (access_of access) }
{
    Place {
        spot: access_spot(access, object),
        base: access_type(c, access),
    }
}

/// Reads the place.
pub fn read(
    c: &Context,
    e: &mut Emitter,
    t: &mut Temporaries,
    place: Place,
    span: Span,
) -> Result<Typed, OutOfMemory>
    ensures { IfOk result (λ o. (p : form.Located) (base : BaseType) (start : emitted.Emitter)
        → Finds p base c.now.faults.now start place e.old t.old
        → Evaluates (form.read_of c.now.program.now c.now.first p span) base start o e.new t.new) }
{
    match place.spot {
        Spot::Local(variable) => {
            Ok(Typed {
                operand: Operand {
                    reg: variable.reg,
                    span,
                },
                base: place.base,
            })
        }
        Spot::Static(field) => {
            let dst = temporary(c, t, field_base(c.program, field))?;
            step(e, PointKind::StaticRead { dst, field }, span)?;
            Ok(Typed {
                operand: Operand { reg: dst, span },
                base: place.base,
            })
        }
        Spot::Field(object, field) => {
            let dst = temporary(c, t, field_base(c.program, field))?;
            step(e, PointKind::FieldRead { dst, object, field }, span)?;
            Ok(Typed {
                operand: Operand { reg: dst, span },
                base: place.base,
            })
        }
        Spot::Element(array, index, base) => {
            let dst = temporary(c, t, base)?;
            step(e, PointKind::ElemRead { dst, array, index }, span)?;
            Ok(Typed {
                operand: Operand { reg: dst, span },
                base: place.base,
            })
        }
        Spot::Length(array) => {
            let dst = temporary(c, t, BaseType::Int)?;
            step(e, PointKind::ArrayLen { dst, array }, span)?;
            Ok(Typed {
                operand: Operand { reg: dst, span },
                base: place.base,
            })
        }
        Spot::Nothing => {
            let given = void(c, t, span)?;
            Ok(Typed {
                operand: given.operand,
                base: place.base,
            })
        }
    }
}

/// The qualifier of a written bound.
pub fn qualifier(bound: Option<Bound>) -> Option<Qual>
    ensures { result ≡ bound_of bound }
{
    match bound {
        None => None,
        Some(bound) => Some(written(bound)),
    }
}

fn written(bound: Bound) -> Qual
    ensures { result
        ≡ record { null = bound.null; committed = bound.committed; free = bound.free } }
{
    let null = if bound.null { 1 } else { 0 };
    let committed = if bound.committed { 2 } else { 0 };
    let free = if bound.free { 4 } else { 0 };
    Qual::of_bits(null + committed + free)
}

/// Writes the place.
#[tactic(auto, using(crate::proofs::Giving::rests))]
pub fn write(
    c: &Context,
    e: &mut Emitter,
    spot: &Spot,
    span: Span,
    value: Operand,
) -> Result<(), OutOfMemory>
    ensures { OnOk result (Runs
        (form.write c.now.program.now c.now.first (spot_of c.now.faults.now spot.now) span value)
        e.old e.new) }
{
    match spot {
        Spot::Local(variable) => step(
            e,
            PointKind::Move {
                dst: variable.reg,
                from: value,
                bound: qualifier(variable.bound),
            },
            span,
        ),
        Spot::Static(field) => step(
            e,
            PointKind::StaticWrite {
                field: *field,
                value,
            },
            span,
        ),
        Spot::Field(object, field) => step(
            e,
            PointKind::FieldWrite {
                object: *object,
                field: *field,
                value,
            },
            span,
        ),
        Spot::Element(array, index, _) => step(
            e,
            PointKind::ElemWrite {
                array: *array,
                index: *index,
                value,
            },
            span,
        ),
        _ => Ok(()),
    }
}

/// The register in which what was assigned stands: the local's, or that of the value.
pub fn assigned(c: &Context, spot: &Spot, span: Span, value: Operand) -> Operand
    ensures { result
        ≡ call.assigned_operand c.now.program.now c.now.first (spot_of c.now.faults.now spot.now)
        span value }
{
    match spot {
        Spot::Local(variable) => Operand {
            reg: variable.reg,
            span,
        },
        _ => Operand {
            reg: value.reg,
            span,
        },
    }
}
