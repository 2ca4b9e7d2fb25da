//! What takes the value of which a row speaks: a field, a parameter, a receiver or a result.
ghost use Rattle.std.specs.Prelude.{◌≡◌, ◌<◌, ◌^◌, ◌∷◌, [], length, Some, slice_index_or};
ghost use Rattle.jn_points.specs.Lookup.{body_at, points_of};
ghost use Rattle.jn_sigs.specs.Signature.{slot_quals};
ghost use Rattle.jn_env.specs.Order.{env_in};
ghost use Rattle.jn_tables_law.specs.Inferable.{IsInferable};
ghost use Rattle.jn_transfer.specs.Rules.{lacks_init};
ghost use Rattle.jn_notes.specs.Spoken as spec;

use crate::reads::{Rule, Sought, body_result, receiver_qual, same_span, write_taken};
use jn_base::{BodyNo, MethodNo, PointNo, SlotNo, least};
use jn_env::{Env, FlowTable, env_at};
use jn_note_words::owners::Owner;
use jn_origins::slots::table_of;
use jn_points::{Operand, Point, PointKind, Program};
use jn_quals::Qual;
use jn_reasons::Spot;
use jn_reasons_law::Bit;
use jn_sigs::Sig;
use jn_transfer::lookup::slot_qual;

fn lacks_init(qual: Qual, taken: Qual) -> bool
    ensures { result ≡ lacks_init qual taken }
{
    (qual.has_committed() && !taken.has_committed()) || (qual.has_free() && !taken.has_free())
}

/// Whether a value isn't taken: since it may be null, or by how far it is constructed.
fn is_refused(bit: Bit, qual: Qual, taken: Qual) -> bool
    ensures { result ≡ spec.is_refused bit qual taken }
{
    match bit {
        Bit::Nullable => qual.has_null() && !taken.has_null(),
        Bit::Committed => lacks_init(qual, taken),
        Bit::Free => lacks_init(qual, taken),
    }
}

/// Where a value goes that stands at the span and isn't taken.
fn by_pass(sought: Sought, env: &Env, value: Operand, taken: Qual, to: Owner) -> Option<Owner>
    ensures { result ≡ spec.by_pass sought env.now (spec.pass value taken to) }
{
    if same_span(value.span, sought.span) && is_refused(sought.bit, env.qual(value.reg), taken) {
        Some(to)
    } else {
        None
    }
}

fn by_one(sought: Sought, env: &Env, value: Operand, taken: Qual, to: Owner) -> Option<Owner>
    ensures { result ≡ spec.by_passes sought env.now (spec.pass value taken to ∷ []) }
{
    by_pass(sought, env, value, taken, to)
}

fn by_maybe(
    sought: Sought,
    env: &Env,
    value: Option<Operand>,
    taken: Qual,
    to: Owner,
) -> Option<Owner>
    ensures { result ≡ spec.by_passes sought env.now (spec.pass_if value taken to) }
{
    match value {
        None => None,
        Some(value) => by_one(sought, env, value, taken, to),
    }
}

/// The first argument that isn't taken.
fn by_slots(
    sought: Sought,
    sig: &Sig,
    env: &Env,
    method: MethodNo,
    slots: &[Option<SlotNo>],
    args: &[Operand],
) -> Option<Owner>
    ensures { result
        ≡ spec.by_passes sought env.now
        (spec.pass_args method.0 0 (slot_quals sig.now slots.now) args.now) }
{
    for i in 0..least(slots.len(), args.len()) {
        let to = Owner::OfParameter(method.0, i);
        let found = by_pass(sought, env, args[i], slot_qual(sig, slots[i]), to);
        if found.is_some() {
            return found;
        }
    }
    None
}

fn by_args(
    sought: Sought,
    program: &Program,
    sig: &Sig,
    env: &Env,
    method: MethodNo,
    args: &[Operand],
) -> Option<Owner>
    ensures { result
        ≡ spec.by_passes sought env.now
        (spec.call_passes program.now sig.now method.0 args.now) }
{
    match program.methods.as_slice().get(method.0 as usize) {
        None => None,
        Some(info) => by_slots(sought, sig, env, method, info.param_slots.as_slice(), args),
    }
}

fn by_argument(
    sought: Sought,
    program: &Program,
    sig: &Sig,
    env: &Env,
    kind: &PointKind,
) -> Option<Owner>
    ensures { result
        ≡ spec.by_passes sought env.now
        (spec.argument_passes program.now sig.now kind.now) }
{
    match kind {
        PointKind::New { ctor, args, .. } => {
            by_args(sought, program, sig, env, *ctor, args.as_slice())
        }
        PointKind::CtorCall { ctor, args, .. } => {
            by_args(sought, program, sig, env, *ctor, args.as_slice())
        }
        PointKind::Call { method, args, .. } => {
            by_args(sought, program, sig, env, *method, args.as_slice())
        }
        _ => None,
    }
}

fn by_write(
    sought: Sought,
    program: &Program,
    sig: &Sig,
    env: &Env,
    kind: &PointKind,
) -> Option<Owner>
    ensures { result
        ≡ spec.by_passes sought env.now
        (spec.write_passes program.now sig.now env.now kind.now) }
{
    match kind {
        PointKind::FieldWrite {
            object,
            field,
            value,
        } => {
            let taken = write_taken(program, sig, env.qual(object.reg), *field);
            by_one(sought, env, *value, taken, Owner::OfField(field.0))
        }
        _ => None,
    }
}

fn by_receiver(
    sought: Sought,
    program: &Program,
    sig: &Sig,
    env: &Env,
    kind: &PointKind,
) -> Option<Owner>
    ensures { result
        ≡ spec.by_passes sought env.now
        (spec.receiver_passes program.now sig.now kind.now) }
{
    match kind {
        PointKind::Call {
            method,
            receiver,
            ..
        } => by_maybe(
            sought,
            env,
            *receiver,
            receiver_qual(program, sig, *method),
            Owner::OfReceiver(method.0),
        ),
        _ => None,
    }
}

/// The number of a body's method.
fn method_no(program: &Program, body: BodyNo) -> u32
    ensures { result ≡ spec.method_no (body_at program.now body.0) }
{
    match program.bodies.as_slice().get(body.0 as usize) {
        None => 0,
        Some(info) => info.method.0,
    }
}

fn by_result(
    sought: Sought,
    program: &Program,
    sig: &Sig,
    body: BodyNo,
    env: &Env,
    kind: &PointKind,
) -> Option<Owner>
    ensures { result
        ≡ spec.by_passes sought env.now
        (spec.result_passes program.now sig.now body.0 kind.now) }
{
    match kind {
        PointKind::Return { value } => by_maybe(
            sought,
            env,
            *value,
            body_result(program, sig, body),
            Owner::OfResult(method_no(program, body)),
        ),
        _ => None,
    }
}

/// Where the first value of a point goes that the rule doesn't take.
fn by_kind(
    sought: Sought,
    program: &Program,
    sig: &Sig,
    body: BodyNo,
    env: &Env,
    kind: &PointKind,
) -> Option<Owner>
    ensures { result
        ≡ spec.by_passes sought env.now
        (spec.passes program.now sig.now sought.rule body.0 env.now kind.now) }
{
    match sought.rule {
        Rule::Dereference => None,
        Rule::Write => by_write(sought, program, sig, env, kind),
        Rule::Argument => by_argument(sought, program, sig, env, kind),
        Rule::Receiver => by_receiver(sought, program, sig, env, kind),
        Rule::Result => by_result(sought, program, sig, body, env, kind),
        Rule::Local => None,
        Rule::Element => None,
    }
}

/// At a point, where it is reached.
pub(crate) fn by_point(
    sought: Sought,
    program: &Program,
    sig: &Sig,
    spot: Spot,
    point: &Point,
    slots: &[Option<Env>],
) -> Option<Owner>
    ensures { result
        ≡ spec.taker_by program.now sig.now sought spot.body.0 (Some point.now)
        (env_in slots.now spot.point.0) }
{
    match env_at(slots, spot.point.0 as usize) {
        None => None,
        Some(env) => by_kind(sought, program, sig, spot.body, env, &point.kind),
    }
}

fn by_points(
    sought: Sought,
    program: &Program,
    sig: &Sig,
    body: BodyNo,
    points: &[Point],
    slots: &[Option<Env>],
) -> Option<Owner>
    requires points { points.now ≡ points_of (body_at program.now body.0) }
    requires short { length points.now < 2 ^ 32 }
    ensures { result ≡ spec.taker_in program.now sig.now sought body.0 slots.now }
{
    for at in 0..points.len() {
        let point = PointNo(at as u32);
        let found = by_point(
            sought,
            program,
            sig,
            Spot { body, point },
            &points[at],
            slots,
        );
        if found.is_some() {
            return found;
        }
    }
    None
}

/// The first of a body.
fn by_body(
    sought: Sought,
    program: &Program,
    sig: &Sig,
    body: BodyNo,
    tables: &[FlowTable],
) -> Option<Owner>
    requires inside { body.0 < length program.now.bodies }
    requires short { length (points_of (body_at program.now body.0)) < 2 ^ 32 }
    ensures { result
        ≡ spec.taker_in program.now sig.now sought body.0
        (slice_index_or tables.now body.0 []) }
{
    let info = &program.bodies.as_slice()[body.0 as usize];
    let points = info.points.as_slice();
    by_points(sought, program, sig, body, points, table_of(tables, body))
}

/// What takes the value at the span where the rule is broken, by body, point and operand the first.
pub fn taker(sought: Sought, program: &Program, sig: &Sig, tables: &[FlowTable]) -> Option<Owner>
    requires inferable { IsInferable program.now }
    ensures { result ≡ spec.taker program.now sig.now sought tables.now }
{
    for body in 0..program.bodies.len() {
        let found = by_body(sought, program, sig, BodyNo(body as u32), tables);
        if found.is_some() {
            return found;
        }
    }
    None
}
