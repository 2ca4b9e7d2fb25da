//! A constructor's fields that are left unassigned.
ghost use Rattle.std.specs.Prelude.{◌≡◌, ◌++◌, ◌&&◌, eqb, false, not, OnOk, length, Some};
ghost use Rattle.jn_points.specs.Lookup.{method_of_body, body_at};
ghost use Rattle.jn_sigs.specs.Signature.{field_qual};
ghost use Rattle.jn_env.specs.Keys.{is_on};
ghost use Rattle.jn_transfer.specs.Rules.{is_unset, unset_at, unset_from, ctor_rows};

use crate::rules::push_if;
use jn_base::{Code, FieldNo, Row, either};
use jn_env::bits::is_assigned_by;
use jn_env::{Env, FieldNumbers};
use jn_points::{Body, Point, PointKind};
use jn_transfer::Analysis;
use jn_transfer::lookup::field_qual;
use std::alloc::AllocError;

/// The constructor's row, where it returns with a field that is not assigned.
pub fn push_ctor(
    rows: &mut Vec<Row>,
    analysis: &Analysis,
    info: &Body,
    slots: &[Option<Env>],
) -> Result<(), AllocError>
    requires body { body_at analysis.now.program analysis.now.body ≡ Some info.now }
    requires long { length slots.now ≡ length info.now.points }
    ensures { OnOk result (rows.new.items
        ≡ rows.old.items
        ++ ctor_rows analysis.now.program analysis.now.sig analysis.now.body
        (method_of_body analysis.now.program (Some info.now)) slots.now) }
{
    match analysis
        .program()
        .methods
        .as_slice()
        .get(info.method.0 as usize)
    {
        None => Ok(()),
        Some(method) => push_if(
            rows,
            leaves_unset(analysis, method.ctor, info.points.as_slice(), slots),
            method.span,
            Code::CtorFields,
        ),
    }
}

fn leaves_unset(analysis: &Analysis, is_ctor: bool, points: &[Point], slots: &[Option<Env>]) -> bool
    requires long { length slots.now ≡ length points.now }
    ensures { result
        ≡ (is_ctor
        && unset_from analysis.now.program analysis.now.sig analysis.now.body points.now 0
        slots.now) }
{
    is_ctor && is_unset_at_end(analysis, points, slots)
}

/// Whether at some reached Return a field is not assigned.
fn is_unset_at_end(analysis: &Analysis, points: &[Point], slots: &[Option<Env>]) -> bool
    requires long { length slots.now ≡ length points.now }
    ensures { result
        ≡ unset_from analysis.now.program analysis.now.sig analysis.now.body points.now 0
        slots.now }
{
    let mut unset = false;
    for at in 0..points.len() {
        unset = either(unset, is_unset_at(analysis, &points[at].kind, &slots[at]));
    }
    unset
}

fn is_unset_at(analysis: &Analysis, kind: &PointKind, slot: &Option<Env>) -> bool
    ensures { result
        ≡ unset_at analysis.now.program analysis.now.sig analysis.now.body kind.now slot.now }
{
    match kind {
        PointKind::Return { .. } => match slot {
            None => false,
            Some(env) => is_unset(analysis, env),
        },
        _ => false,
    }
}

/// Whether a field whose slot has no null is not assigned.
fn is_unset(analysis: &Analysis, env: &Env) -> bool
    ensures { result ≡ is_unset analysis.now.program analysis.now.sig analysis.now.body env.now }
{
    let own = &analysis.keys().own;
    let mut unset = false;
    for field in own.as_slice() {
        unset = either(unset, lacks_value(analysis, own, env, *field));
    }
    unset
}

/// Whether the field's slot has no null, and it is not assigned.
fn lacks_value(analysis: &Analysis, own: &FieldNumbers, env: &Env, field: u32) -> bool
    ensures { result
        ≡ (not (field_qual analysis.now.program analysis.now.sig field).null
        && not (is_on (λ k. eqb k field) own.now env.now.assigned)) }
{
    !field_qual(analysis.program(), analysis.sig(), field).has_null()
        && !is_assigned_by(own, env, FieldNo(field))
}
