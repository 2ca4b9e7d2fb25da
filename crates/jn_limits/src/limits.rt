//! A body that is too large.
ghost use Rattle.std.specs.Prelude.{◌≡◌, ◌+◌, ◌++◌, ◌∷◌, ◌&&◌, [], filter, ltb, length, map, IfOk, OnOk, MatchOption, nat_eq};
ghost use Rattle.std.specs.HashSet as bag;
ghost use Rattle.std.specs.Set.{distinct_count};
ghost use Rattle.jn_base.specs.declared.code.Code.TheVariants.{J6};
ghost use Rattle.jn_points.specs.Lookup.{method_at, ref_field};
ghost use Rattle.jn_env.specs.Keys.{is_own, kind_keys, origin_key};
ghost use Rattle.jn_lowering.specs.Annotations as annotated;
ghost use Rattle.jn_lowering.specs.Bodies as bodies;
ghost use Rattle.jn_lowering.specs.BodyRows as spec;
ghost use Rattle.jn_limits.specs.Large.{AllNarrow, IsNarrow, code, facts_at, facts_of};

use jn_base::{Code, FieldNo, MethodNo, RegNo, Row, Seq};
use jn_env::keys::is_ref_field;
use jn_index::indexed::IndexedProgram;
use jn_points::lookup::owner;
use jn_points::{Body, Origin, PointKind};
use jn_scopes::heads::{class_of, is_ctor, name_span};
use std::alloc::{AllocError, Global};
use std::collections::HashSet;

/// A field of the object in a register.
#[derive(Clone, Copy)]
struct Fact {
    reg: RegNo,
    field: FieldNo,
}

fn fact_of_origin(origin: Option<Origin>) -> Option<Fact>
    ensures { MatchOption result (origin_key origin ≡ [])
        (λ k. origin_key origin ≡ record { reg = k.reg.0; field = k.field.0 } ∷ []) }
{
    match origin {
        None => None,
        Some(origin) => Some(Fact {
            reg: origin.reg,
            field: origin.field,
        }),
    }
}

/// The field that a point reads, writes or tests through a register.
fn fact_of(kind: &PointKind) -> Option<Fact>
    ensures { MatchOption result (kind_keys kind.now ≡ [])
        (λ k. kind_keys kind.now ≡ record { reg = k.reg.0; field = k.field.0 } ∷ []) }
{
    match kind {
        PointKind::FieldRead { object, field, .. } => Some(Fact {
            reg: object.reg,
            field: *field,
        }),
        PointKind::FieldWrite { object, field, .. } => Some(Fact {
            reg: object.reg,
            field: *field,
        }),
        PointKind::TestInst { origin, .. } => fact_of_origin(*origin),
        PointKind::TestNull { origin, .. } => fact_of_origin(*origin),
        _ => None,
    }
}

fn is_fact(program: &IndexedProgram, locals: u32, fact: Fact) -> bool
    ensures { result ≡ (ltb fact.reg.0 locals && ref_field program.now fact.field.0) }
{
    fact.reg.0 < locals && is_ref_field(program.program(), fact.field.0)
}

fn code_of(fact: Fact) -> u64
    ensures is { result ≡ code (record { reg = fact.reg.0; field = fact.field.0 }) }
    ensures narrow { IsNarrow (record { reg = fact.reg.0; field = fact.field.0 }) }
{
    u64::from(fact.reg.0) * 4_294_967_296 + u64::from(fact.field.0)
}

fn add_fact(
    codes: &mut Vec<u64>,
    program: &IndexedProgram,
    locals: u32,
    kind: &PointKind,
) -> Result<(), AllocError>
    ensures { OnOk result ((codes.new.items
        ≡ codes.old.items ++ map code (facts_at program.now locals kind.now))
        × AllNarrow (facts_at program.now locals kind.now)) }
{
    if let Some(fact) = fact_of(kind)
        && is_fact(program, locals, fact)
    {
        codes.push(code_of(fact))?;
    }
    Ok(())
}

fn fact_codes(alloc: Global, program: &IndexedProgram, body: &Body) -> Result<Vec<u64>, AllocError>
    ensures { IfOk result (λ codes. (codes.items
        ≡ map code (facts_of program.now body.now.locals body.now.points))
        × AllNarrow (facts_of program.now body.now.locals body.now.points)) }
{
    let mut codes = Vec::new(alloc);
    let points = body.points.as_slice();
    for point in points {
        add_fact(&mut codes, program, body.locals, &point.kind)?;
    }
    Ok(codes)
}

/// The codes, each once.
fn set_of(alloc: Global, codes: &[u64]) -> Result<HashSet<u64>, AllocError>
    ensures { IfOk result (bag.IsFromIterResult nat_eq codes.now) }
{
    codes.iter().copied().collect(alloc)
}

fn distinct(alloc: Global, codes: &[u64]) -> Result<usize, AllocError>
    ensures { IfOk result (λ n. n ≡ distinct_count nat_eq codes.now) }
{
    let set = set_of(alloc, codes)?;
    Ok(set.len())
}

/// How many reference fields are read, tested or written through `this`, a parameter or a local.
fn fact_count(alloc: Global, program: &IndexedProgram, body: &Body) -> Result<usize, AllocError>
    ensures { IfOk result (λ n. n ≡ length (spec.facts program.now body.now)) }
{
    let codes = fact_codes(alloc, program, body)?;
    distinct(alloc, &codes)
}

fn is_own_field(program: &IndexedProgram, method: MethodNo, field: u32) -> bool
    ensures { result ≡ is_own program.now (method_at program.now method.0) field }
{
    is_ctor(program, method)
        && owner(program.program(), field) == class_of(program, method).0
        && is_ref_field(program.program(), field)
}

/// How many of the fields are reference fields of a constructor's class.
fn count_own(program: &IndexedProgram, method: MethodNo, fields: &[u32]) -> usize
    ensures { result
        ≡ length (filter (is_own program.now (method_at program.now method.0)) fields.now) }
{
    let mut count = 0;
    for field in fields {
        if is_own_field(program, method, *field) {
            count += 1;
        }
    }
    count
}

/// How many reference fields a constructor's class has, by the program's lists.
fn listed_count(program: &IndexedProgram, method: MethodNo) -> usize
    ensures { result ≡ length (spec.own_fields program.now method.0) }
{
    program.facts();
    let mut count = 0;
    for field in 0..program.program().fields.len() {
        if is_own_field(program, method, field as u32) {
            count += 1;
        }
    }
    count
}

/// How many reference fields a constructor's class has.
#[tactic(auto, using(crate::proofs::OwnFields::own_listed))]
fn own_count(program: &IndexedProgram, method: MethodNo) -> usize
    ensures { result ≡ length (spec.own_fields program.now method.0) }
{
    match program.indexed() {
        Some(indexed) => {
            let class = class_of(program, method);
            count_own(program, method, indexed.own_fields(class.0))
        }
        None => listed_count(program, method),
    }
}

fn are_many(facts: usize, own: usize) -> bool
    ensures { result ≡ ltb 4096 (facts + own) }
{
    facts > 4_096 || own > 4_096 - facts
}

fn is_too_large(alloc: Global, program: &IndexedProgram, body: &Body) -> Result<bool, AllocError>
    ensures { IfOk result (λ b. b ≡ spec.is_too_large program.now body.now) }
{
    let facts = fact_count(alloc, program, body)?;
    let own = own_count(program, body.method);
    let many = are_many(facts, own);
    Ok(body.points.len() > 65_535 || body.regs.len() > 1_024 || many)
}

/// Adds row J6 at the method's name where its body has more than 65,535 points, 1,024 registers or 4,096 facts.
///
/// # Errors
/// No memory was found.
pub fn limit_rows(
    alloc: Global,
    program: &IndexedProgram,
    body: &Body,
    rows: &mut Seq<Row>,
) -> Result<(), AllocError>
    ensures { OnOk result (rows.new
        ≡ rows.old
        ++ annotated.when (spec.is_too_large program.now body.now)
        (annotated.row J6 (bodies.name_span program.now body.now.method.0))) }
{
    if is_too_large(alloc, program, body)? {
        rows.push(Row {
            span: name_span(program, body.method),
            code: Code::J6,
        })?;
    }
    Ok(())
}
