//! Tests of values, and what is learnt from them.
ghost use Rattle.std.specs.Prelude.{◌≡◌, OnOk, Some};
ghost use Rattle.jn_places.specs.PlacedView.{placed_view};
ghost use Rattle.jn_lowering.specs.Calls as call;
ghost use Rattle.jn_lowering.specs.Expressions as expressions;
ghost use Rattle.jn_lowering.specs.Temporaries.{Temporaries as temporaries};
ghost use Rattle.jn_scopes.specs.Views.{access_of, meaning_of, scope_in};
ghost use Rattle.jn_lower_expr.specs.Lowering.{ContinuesTest, reg_of};

use crate::emitter::{Emitter, put};
use jn_base::{ClassNo, OutOfMemory, PointNo, RegNo, Span};
use jn_points::{Operand, Origin, PointKind};
use jn_scopes::lookup::{access, meaning};
use jn_scopes::members::is_static_field;
use jn_scopes::types::type_of;
use jn_scopes::{Access, Context, Meaning};
use jn_trees::{BinaryOperator, Expr};

/// The register of `this`, a parameter or a local.
fn register_of(tree: &Expr, c: &Context) -> Option<RegNo>
    ensures { reg_of result
        ≡ expressions.register_of c.now.program.now c.now.class.0 (scope_in c.now)
        (placed_view tree.now) }
{
    match tree {
        Expr::Name { name } => match meaning(c, name.name) {
            Meaning::Local(variable) => Some(variable.reg),
            _ => None,
        },
        Expr::This { .. } => Some(RegNo(0)),
        Expr::Paren { inner, .. } => register_of(inner, c),
        _ => None,
    }
}

fn name_origin(c: &Context, meaning: Meaning) -> Option<Origin>
    ensures { result
        ≡ expressions.name_origin c.now.program.now c.now.class.0
        (meaning_of c.now.faults.now meaning) }
{
    match meaning {
        Meaning::Field(field) => {
            if is_static_field(c.program, field) {
                None
            } else {
                Some(Origin {
                    reg: RegNo(0),
                    field,
                })
            }
        }
        _ => None,
    }
}

fn access_origin(c: &Context, reg: RegNo, access: Access) -> Option<Origin>
    ensures { result
        ≡ expressions.access_origin c.now.program.now c.now.class.0 (Some reg.0)
        (access_of access) }
{
    match access {
        Access::Object(field) => Some(Origin { reg, field }),
        _ => None,
    }
}

/// The field of which something is learnt from a test of the expression: one that is read through `this`, a parameter or a local.
pub fn origin_of(tree: &Expr, c: &Context) -> Option<Origin>
    ensures { result
        ≡ expressions.origin_of c.now.program.now c.now.class.0 (scope_in c.now)
        (placed_view tree.now) }
{
    match tree {
        Expr::Name { name } => name_origin(c, meaning(c, name.name)),
        Expr::Paren { inner, .. } => origin_of(inner, c),
        Expr::Field { target, name, .. } => match register_of(target, c) {
            None => None,
            Some(reg) => {
                let base = type_of(target, c);
                access_origin(c, reg, access(c, target, base, name.name))
            }
        },
        _ => None,
    }
}

fn is_on_null(c: &Context, operator: BinaryOperator) -> bool
    ensures { result ≡ expressions.on_null c.now.program.now c.now.class.0 c.now.first operator }
{
    match operator {
        BinaryOperator::Equal => true,
        _ => false,
    }
}

/// Compares the value with null.
pub fn test_null(
    c: &Context,
    e: &mut Emitter,
    operator: BinaryOperator,
    of: Operand,
    origin: Option<Origin>,
    span: Span,
    yes: PointNo,
    no: PointNo,
) -> Result<(), OutOfMemory>
    ensures { OnOk result ((t : temporaries)
        → ContinuesTest
        (call.null_tested
        (expressions.on_null c.now.program.now c.now.class.0 c.now.first operator) origin
        span)
        yes.0 no.0 e.old t of e.new) }
{
    if is_on_null(c, operator) {
        put(
            e,
            PointKind::TestNull {
                of,
                origin,
                null: yes,
                non_null: no,
            },
            span,
        )?;
        Ok(())
    } else {
        put(
            e,
            PointKind::TestNull {
                of,
                origin,
                null: no,
                non_null: yes,
            },
            span,
        )?;
        Ok(())
    }
}

/// Tests whether the value is an object of the class.
pub fn test_instance(
    e: &mut Emitter,
    class: ClassNo,
    of: Operand,
    origin: Option<Origin>,
    span: Span,
    yes: PointNo,
    no: PointNo,
) -> Result<(), OutOfMemory>
    ensures { OnOk result ((t : temporaries)
        → ContinuesTest (call.instance_tested class.0 origin span) yes.0 no.0 e.old t of e.new) }
{
    put(
        e,
        PointKind::TestInst {
            of,
            class,
            origin,
            yes,
            no,
        },
        span,
    )?;
    Ok(())
}
