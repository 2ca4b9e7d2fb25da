//! Registers that are read where a rule has its row.
ghost use Rattle.std.specs.Prelude.{◌≡◌, ◌<◌, ◌^◌, ◌∷◌, [], length, None, Some, slice_index_or};
ghost use Rattle.jn_quals.specs.Order.{join, null_only};
ghost use Rattle.jn_points.specs.Lookup.{body_at, method_at, method_in, points_of, slots_of};
ghost use Rattle.jn_env.specs.Order.{env_in};
ghost use Rattle.jn_sigs.specs.Signature.{receiver_of, result_of, slot_quals};
ghost use Rattle.jn_tables_law.specs.Inferable.{IsInferable};
ghost use Rattle.jn_reasons_law.specs.Items.{on};
ghost use Rattle.jn_notes.specs.Asked.{by_ask, by_asks, by_body, by_point, register_item, same_span, seeks, sought_of};
ghost use Rattle.jn_notes.specs.Asks as spec;

use jn_base::{BodyNo, Code, FieldNo, MethodNo, PointNo, Row, SlotNo, Span, least};
use jn_env::{Env, FlowTable, env_at};
use jn_origins::slots::table_of;
use jn_points::lookup::{is_monotonic, reg_base};
use jn_points::{BaseType, Operand, Point, PointKind, Program, StrOperation};
use jn_quals::Qual;
use jn_reasons::Spot;
use jn_reasons_law::{Bit, Item};
use jn_sigs::Sig;
use jn_transfer::lookup::{elem_qual, field_qual, result_qual, slot_qual};

/// A rule that asks something of a value.
#[derive(Clone, Copy, Debug, PartialEq, Eq)]
pub enum Rule {
    /// What is dereferenced isn't null.
    Dereference,
    /// A field takes what its type says.
    Write,
    /// A parameter takes what its type says.
    Argument,
    /// A method is called on what its receiver says.
    Receiver,
    /// A body gives what its result says.
    Result,
    /// A local takes what its type says.
    Local,
    /// An array takes what its elements' type says.
    Element,
}

/// What is sought: a register that is read at this span, and there has the bit, which the rule doesn't take.
#[derive(Clone, Copy)]
pub struct Sought {
    pub span: Span,
    pub rule: Rule,
    pub bit: Bit,
}

/// What a row of a value speaks of.
pub fn sought_of(row: Row) -> Option<Sought>
    ensures { result ≡ sought_of row.span row.code }
{
    let span = row.span;
    match row.code {
        Code::Deref => seeks(span, Rule::Dereference, Bit::Nullable),
        Code::Field => seeks(span, Rule::Write, Bit::Nullable),
        Code::FieldInit => seeks(span, Rule::Write, Bit::Free),
        Code::Arg => seeks(span, Rule::Argument, Bit::Nullable),
        Code::ArgInit => seeks(span, Rule::Argument, Bit::Free),
        Code::RecvInit => seeks(span, Rule::Receiver, Bit::Free),
        Code::Return => seeks(span, Rule::Result, Bit::Nullable),
        Code::ReturnInit => seeks(span, Rule::Result, Bit::Free),
        Code::Local => seeks(span, Rule::Local, Bit::Nullable),
        Code::LocalInit => seeks(span, Rule::Local, Bit::Free),
        Code::Elem => seeks(span, Rule::Element, Bit::Nullable),
        Code::ElemInit => seeks(span, Rule::Element, Bit::Free),
        _ => None,
    }
}

fn seeks(span: Span, rule: Rule, bit: Bit) -> Option<Sought>
    ensures { result ≡ seeks span rule bit }
{
    Some(Sought { span, rule, bit })
}

/// Whether both are the same bytes of the same file.
pub fn same_span(left: Span, right: Span) -> bool
    ensures { result ≡ same_span left right }
{
    left.file.0 == right.file.0 && left.from == right.from && left.to == right.to
}

fn is_on(qual: Qual, bit: Bit) -> bool
    ensures { result ≡ on bit qual }
{
    match bit {
        Bit::Nullable => qual.has_null(),
        Bit::Committed => qual.has_committed(),
        Bit::Free => qual.has_free(),
    }
}

/// The value's register, where it stands at the span and has the bit, and that isn't taken.
fn by_ask(sought: Sought, spot: Spot, env: &Env, value: Operand, taken: Qual) -> Option<Item>
    ensures { result
        ≡ by_ask sought spot.body.0 spot.point.0 env.now (spec.ask value taken) }
{
    let there = same_span(value.span, sought.span);
    if there && is_on(env.qual(value.reg), sought.bit) && !is_on(taken, sought.bit) {
        let Spot { body, point } = spot;
        Some(Item::AtRegister(body.0, point.0, value.reg.0, sought.bit))
    } else {
        None
    }
}

fn by_one(sought: Sought, spot: Spot, env: &Env, value: Operand, taken: Qual) -> Option<Item>
    ensures { result
        ≡ by_asks sought spot.body.0 spot.point.0 env.now (spec.ask value taken ∷ []) }
{
    by_ask(sought, spot, env, value, taken)
}

fn by_maybe(
    sought: Sought,
    spot: Spot,
    env: &Env,
    value: Option<Operand>,
    taken: Qual,
) -> Option<Item>
    ensures { result
        ≡ by_asks sought spot.body.0 spot.point.0 env.now (spec.ask_if value taken) }
{
    match value {
        None => None,
        Some(value) => by_one(sought, spot, env, value, taken),
    }
}

/// All of these values are taken alike.
fn by_each(sought: Sought, spot: Spot, env: &Env, values: &[Operand], taken: Qual) -> Option<Item>
    ensures { result
        ≡ by_asks sought spot.body.0 spot.point.0 env.now (spec.ask_each values.now taken) }
{
    for value in values {
        let found = by_ask(sought, spot, env, *value, taken);
        if found.is_some() {
            return found;
        }
    }
    None
}

/// What is whole, and what is null and what is under construction where these hold.
fn taking(null: bool, free: bool) -> Qual
    ensures { result ≡ spec.taking null free }
{
    if null {
        if free {
            Qual::all()
        } else {
            Qual::null_or_committed()
        }
    } else if free {
        Qual::all().without_null()
    } else {
        Qual::committed_only()
    }
}

fn by_dereference(sought: Sought, spot: Spot, env: &Env, kind: &PointKind) -> Option<Item>
    ensures { result
        ≡ by_asks sought spot.body.0 spot.point.0 env.now (spec.dereference_asks kind.now) }
{
    let taken = taking(false, true);
    match kind {
        PointKind::FieldRead { object, .. } => by_one(sought, spot, env, *object, taken),
        PointKind::FieldWrite { object, .. } => by_one(sought, spot, env, *object, taken),
        PointKind::ElemRead { array, .. } => by_one(sought, spot, env, *array, taken),
        PointKind::ElemWrite { array, .. } => by_one(sought, spot, env, *array, taken),
        PointKind::ArrayLen { array, .. } => by_one(sought, spot, env, *array, taken),
        PointKind::Call { receiver, .. } => by_maybe(sought, spot, env, *receiver, taken),
        PointKind::StrOp { of, .. } => by_one(sought, spot, env, *of, taken),
        _ => None,
    }
}

/// What a field of an object takes.
pub(crate) fn write_taken(program: &Program, sig: &Sig, object: Qual, field: FieldNo) -> Qual
    ensures { result ≡ spec.write_taken program.now sig.now object field.0 }
{
    let null = takes_null(program, sig, field);
    taking(null, !object.has_committed())
}

/// Whether null may be written to the field.
fn takes_null(program: &Program, sig: &Sig, field: FieldNo) -> bool
    ensures { result ≡ spec.takes_null program.now sig.now field.0 }
{
    field_qual(program, sig, field.0).has_null() && !is_monotonic(program, field.0)
}

fn by_write(
    sought: Sought,
    program: &Program,
    sig: &Sig,
    spot: Spot,
    env: &Env,
    kind: &PointKind,
) -> Option<Item>
    ensures { result
        ≡ by_asks sought spot.body.0 spot.point.0 env.now
        (spec.write_asks program.now sig.now env.now kind.now) }
{
    match kind {
        PointKind::FieldWrite {
            object,
            field,
            value,
        } => {
            let taken = write_taken(program, sig, env.qual(object.reg), *field);
            by_one(sought, spot, env, *value, taken)
        }
        _ => None,
    }
}

fn by_slots(
    sought: Sought,
    sig: &Sig,
    spot: Spot,
    env: &Env,
    slots: &[Option<SlotNo>],
    args: &[Operand],
) -> Option<Item>
    ensures { result
        ≡ by_asks sought spot.body.0 spot.point.0 env.now
        (spec.ask_args (slot_quals sig.now slots.now) args.now) }
{
    for i in 0..least(slots.len(), args.len()) {
        let found = by_ask(sought, spot, env, args[i], slot_qual(sig, slots[i]));
        if found.is_some() {
            return found;
        }
    }
    None
}

fn by_args(
    sought: Sought,
    program: &Program,
    sig: &Sig,
    spot: Spot,
    env: &Env,
    method: MethodNo,
    args: &[Operand],
) -> Option<Item>
    ensures { result
        ≡ by_asks sought spot.body.0 spot.point.0 env.now
        (spec.ask_args (slot_quals sig.now (slots_of (method_at program.now method.0))) args.now) }
{
    match program.methods.as_slice().get(method.0 as usize) {
        None => None,
        Some(info) => by_slots(sought, sig, spot, env, info.param_slots.as_slice(), args),
    }
}

fn by_equals(
    sought: Sought,
    spot: Spot,
    env: &Env,
    op: StrOperation,
    other: Option<Operand>,
) -> Option<Item>
    ensures { result
        ≡ by_asks sought spot.body.0 spot.point.0 env.now (spec.equals_asks op other) }
{
    match op {
        StrOperation::Length => None,
        StrOperation::IsEmpty => None,
        StrOperation::Equals => by_maybe(sought, spot, env, other, taking(true, false)),
    }
}

fn by_argument(
    sought: Sought,
    program: &Program,
    sig: &Sig,
    spot: Spot,
    env: &Env,
    kind: &PointKind,
) -> Option<Item>
    ensures { result
        ≡ by_asks sought spot.body.0 spot.point.0 env.now
        (spec.argument_asks program.now sig.now kind.now) }
{
    match kind {
        PointKind::New { ctor, args, .. } => {
            by_args(sought, program, sig, spot, env, *ctor, args.as_slice())
        }
        PointKind::CtorCall { ctor, args, .. } => {
            by_args(sought, program, sig, spot, env, *ctor, args.as_slice())
        }
        PointKind::Call { method, args, .. } => {
            by_args(sought, program, sig, spot, env, *method, args.as_slice())
        }
        PointKind::StrOp { op, other, .. } => by_equals(sought, spot, env, *op, *other),
        _ => None,
    }
}

/// What a method's receiver may be; that it isn't null is asked by another rule.
fn receiver_taken(program: &Program, sig: &Sig, method: MethodNo) -> Qual
    ensures { result ≡ join null_only (receiver_of sig.now (method_at program.now method.0)) }
{
    Qual::null_only().join(receiver_qual(program, sig, method))
}

/// The qualifier of a method's receiver; empty where there is none.
pub(crate) fn receiver_qual(program: &Program, sig: &Sig, method: MethodNo) -> Qual
    ensures { result ≡ receiver_of sig.now (method_at program.now method.0) }
{
    match program.methods.as_slice().get(method.0 as usize) {
        None => Qual::none(),
        Some(info) => slot_qual(sig, info.receiver),
    }
}

fn by_receiver(
    sought: Sought,
    program: &Program,
    sig: &Sig,
    spot: Spot,
    env: &Env,
    kind: &PointKind,
) -> Option<Item>
    ensures { result
        ≡ by_asks sought spot.body.0 spot.point.0 env.now
        (spec.receiver_asks program.now sig.now kind.now) }
{
    match kind {
        PointKind::Call {
            method,
            receiver,
            ..
        } => by_maybe(
            sought,
            spot,
            env,
            *receiver,
            receiver_taken(program, sig, *method),
        ),
        _ => None,
    }
}

/// The qualifier of the result of the body's method; empty where there is none.
pub(crate) fn body_result(program: &Program, sig: &Sig, body: BodyNo) -> Qual
    ensures { result ≡ result_of sig.now (method_in program.now body.0) }
{
    match program.bodies.as_slice().get(body.0 as usize) {
        None => Qual::none(),
        Some(info) => result_qual(program, sig, info.method),
    }
}

fn by_result(
    sought: Sought,
    program: &Program,
    sig: &Sig,
    spot: Spot,
    env: &Env,
    kind: &PointKind,
) -> Option<Item>
    ensures { result
        ≡ by_asks sought spot.body.0 spot.point.0 env.now
        (spec.result_asks program.now sig.now spot.body.0 kind.now) }
{
    match kind {
        PointKind::Return { value } => by_maybe(
            sought,
            spot,
            env,
            *value,
            body_result(program, sig, spot.body),
        ),
        _ => None,
    }
}

fn by_bound(
    sought: Sought,
    spot: Spot,
    env: &Env,
    from: Operand,
    bound: Option<Qual>,
) -> Option<Item>
    ensures { result
        ≡ by_asks sought spot.body.0 spot.point.0 env.now (spec.bound_asks from bound) }
{
    match bound {
        None => None,
        Some(taken) => by_one(sought, spot, env, from, taken),
    }
}

fn by_local(sought: Sought, spot: Spot, env: &Env, kind: &PointKind) -> Option<Item>
    ensures { result
        ≡ by_asks sought spot.body.0 spot.point.0 env.now (spec.local_asks kind.now) }
{
    match kind {
        PointKind::Move { from, bound, .. } => by_bound(sought, spot, env, *from, *bound),
        _ => None,
    }
}

/// What an array of this type takes.
fn elem_taken(base: BaseType) -> Qual
    ensures { result ≡ spec.elem_taken base }
{
    taking(elem_qual(base).has_null(), false)
}

fn by_element(
    sought: Sought,
    program: &Program,
    spot: Spot,
    env: &Env,
    kind: &PointKind,
) -> Option<Item>
    ensures { result
        ≡ by_asks sought spot.body.0 spot.point.0 env.now
        (spec.element_asks program.now spot.body.0 kind.now) }
{
    match kind {
        PointKind::ElemWrite { array, value, .. } => {
            let base = reg_base(program, spot.body.0 as usize, array.reg);
            by_one(sought, spot, env, *value, elem_taken(base))
        }
        PointKind::ArrayOf { base, values, .. } => {
            by_each(sought, spot, env, values.as_slice(), elem_taken(*base))
        }
        _ => None,
    }
}

/// The first value of a point of which the rule asks what it isn't.
fn by_kind(
    sought: Sought,
    program: &Program,
    sig: &Sig,
    spot: Spot,
    env: &Env,
    kind: &PointKind,
) -> Option<Item>
    ensures { result
        ≡ by_asks sought spot.body.0 spot.point.0 env.now
        (spec.asks program.now sig.now sought.rule spot.body.0 env.now kind.now) }
{
    match sought.rule {
        Rule::Dereference => by_dereference(sought, spot, env, kind),
        Rule::Write => by_write(sought, program, sig, spot, env, kind),
        Rule::Argument => by_argument(sought, program, sig, spot, env, kind),
        Rule::Receiver => by_receiver(sought, program, sig, spot, env, kind),
        Rule::Result => by_result(sought, program, sig, spot, env, kind),
        Rule::Local => by_local(sought, spot, env, kind),
        Rule::Element => by_element(sought, program, spot, env, kind),
    }
}

/// A point, where it is reached.
pub(crate) fn by_point(
    sought: Sought,
    program: &Program,
    sig: &Sig,
    spot: Spot,
    point: &Point,
    slots: &[Option<Env>],
) -> Option<Item>
    ensures { result
        ≡ by_point program.now sig.now sought spot.body.0 spot.point.0 (Some point.now)
        (env_in slots.now spot.point.0) }
{
    match env_at(slots, spot.point.0 as usize) {
        None => None,
        Some(env) => by_kind(sought, program, sig, spot, env, &point.kind),
    }
}

fn by_points(
    sought: Sought,
    program: &Program,
    sig: &Sig,
    body: BodyNo,
    points: &[Point],
    slots: &[Option<Env>],
) -> Option<Item>
    requires points { points.now ≡ points_of (body_at program.now body.0) }
    requires short { length points.now < 2 ^ 32 }
    ensures { result ≡ by_body program.now sig.now sought body.0 slots.now }
{
    for at in 0..points.len() {
        let point = PointNo(at as u32);
        let found = by_point(
            sought,
            program,
            sig,
            Spot { body, point },
            &points[at],
            slots,
        );
        if found.is_some() {
            return found;
        }
    }
    None
}

/// The first of a body.
fn by_body(
    sought: Sought,
    program: &Program,
    sig: &Sig,
    body: BodyNo,
    tables: &[FlowTable],
) -> Option<Item>
    requires inside { body.0 < length program.now.bodies }
    requires short { length (points_of (body_at program.now body.0)) < 2 ^ 32 }
    ensures { result
        ≡ by_body program.now sig.now sought body.0
        (slice_index_or tables.now body.0 []) }
{
    let info = &program.bodies.as_slice()[body.0 as usize];
    let points = info.points.as_slice();
    by_points(sought, program, sig, body, points, table_of(tables, body))
}

/// The first register that is read at the span and has the bit where the rule doesn't take it, by body, point and operand.
pub fn register_item(
    sought: Sought,
    program: &Program,
    sig: &Sig,
    tables: &[FlowTable],
) -> Option<Item>
    requires inferable { IsInferable program.now }
    ensures { result ≡ register_item program.now sig.now sought tables.now }
{
    for body in 0..program.bodies.len() {
        let found = by_body(sought, program, sig, BodyNo(body as u32), tables);
        if found.is_some() {
            return found;
        }
    }
    None
}
