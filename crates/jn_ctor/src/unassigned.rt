//! The fields that a constructor leaves unassigned at some of its ends.
ghost use Rattle.std.specs.Prelude.{◌≡◌, ◌<◌, ◌++◌, ◌∷◌, ◌^◌, [], IfOk, OnOk, cond, filter, length, Some, None};
ghost use Rattle.jn_env.specs.Code.{AreKeys};
ghost use Rattle.jn_env.specs.Order.{env_in};
ghost use Rattle.jn_ctor.specs.Unassigned.{field_numbers, lacks, lacks_from, unassigned_at_end};

use jn_base::{BodyNo, FieldNo, OutOfMemory, either};
use jn_env::{Env, FlowTable, Keys, env_at, find_keys};
use jn_points::{Point, PointKind, Program};
use jn_sigs::Sig;
use std::alloc::{AllocError, Global};

/// The reference fields of the body's class that aren't assigned at some reached return of the
/// body under the table, by rising numbers; none where the body is no constructor's.
///
/// # Errors
/// No memory was found.
pub fn unassigned_at_end(
    alloc: Global,
    program: &Program,
    _sig: &Sig,
    body: BodyNo,
    table: &FlowTable,
) -> Result<Vec<FieldNo>, OutOfMemory>
    requires inside { body.0 < length program.now.bodies }
    requires few { length program.now.fields < 2 ^ 32 }
    ensures { IfOk result
        (λ fields. field_numbers fields.items ≡ unassigned_at_end program.now body.0 table.now) }
{
    let keys = find_keys(alloc, program, body)?;
    Ok(unassigned_by(alloc, program, &keys, body, table)?)
}

/// The same with the body's keys.
fn unassigned_by(
    alloc: Global,
    program: &Program,
    keys: &Keys,
    body: BodyNo,
    table: &FlowTable,
) -> Result<Vec<FieldNo>, AllocError>
    requires inside { body.0 < length program.now.bodies }
    requires keys { AreKeys program.now body.0 keys.now }
    ensures { IfOk result
        (λ fields. field_numbers fields.items ≡ unassigned_at_end program.now body.0 table.now) }
{
    let info = &program.bodies.as_slice()[body.0 as usize];
    let points = info.points.as_slice();
    unassigned(alloc, keys.own.as_slice(), points, table.slots())
}

fn unassigned(
    alloc: Global,
    own: &[u32],
    points: &[Point],
    slots: &[Option<Env>],
) -> Result<Vec<FieldNo>, AllocError>
    ensures { IfOk result (λ fields. field_numbers fields.items
        ≡ filter (λ f. lacks_from own.now f points.now 0 slots.now) own.now) }
{
    let mut fields = Vec::new(alloc);
    for field in own {
        let wanted = is_left(own, points, slots, *field);
        push_if(&mut fields, wanted, FieldNo(*field))?;
    }
    Ok(fields)
}

fn push_if(fields: &mut Vec<FieldNo>, wanted: bool, field: FieldNo) -> Result<(), AllocError>
    ensures { OnOk result (fields.new.items ≡ fields.old.items ++ cond wanted (field ∷ []) []) }
{
    if wanted {
        fields.push(field)?;
    }
    Ok(())
}

/// Whether some reached return lacks the field.
fn is_left(own: &[u32], points: &[Point], slots: &[Option<Env>], field: u32) -> bool
    ensures { result ≡ lacks_from own.now field points.now 0 slots.now }
{
    let mut left = false;
    for at in 0..points.len() {
        left = either(left, lacks(own, &points[at].kind, slots, at, field));
    }
    left
}

/// Whether the point is a reached return that lacks the field.
fn lacks(own: &[u32], kind: &PointKind, slots: &[Option<Env>], at: usize, field: u32) -> bool
    ensures { result ≡ lacks own.now field kind.now (env_in slots.now at) }
{
    match kind {
        PointKind::Return { .. } => match env_at(slots, at) {
            None => false,
            Some(env) => !env.is_assigned(own, field),
        },
        _ => false,
    }
}
