//! Calls that no program makes in this form, since it has the keys of a body at hand: each over one program, with plenty of memory.
ghost use Rattle.std.specs.Prelude.{◌≡◌, ◌<◌, ◌^◌, length};
ghost use Rattle.jn_env.specs.Sized.{EnvSized};

use crate::overriding::overriding;
use jn_base::{BodyNo, Code, FieldNo, MethodNo, PointNo, SlotNo};
use jn_checks::checks;
use jn_contrib::{contrib, pair_contrib};
use jn_ctor::unassigned_at_end;
use jn_env::{Env, FlowTable, find_keys};
use jn_index::indexed::IndexedProgram;
use jn_index::{fields, lookup};
use jn_points::{Program, dispatch};
use jn_quals::Qual;
use jn_sigs::{Sig, start};
use jn_test_programs::build::SECOND;
use jn_test_programs::lines::row;
use jn_transfer::entry::entry;
use jn_transfer::{Analysis, transfer};
use std::alloc::Global;
use std::process::Abort;

/// The constructor of `Base`.
const NEW: BodyNo = BodyNo(1);

/// The first `take`.
const TAKE: BodyNo = BodyNo(2);

/// The second `take`.
const AGAIN: MethodNo = MethodNo(3);

fn made(rt: &impl Abort, alloc: Global) -> Program {
    let Ok(program) = overriding(alloc) else {
        panic!(rt; "no memory")
    };
    program
}

fn started(rt: &impl Abort, alloc: Global, program: &Program) -> Sig {
    assert!(rt; program.slots.as_slice().len() <= u32::MAX as usize);
    let Ok(sig) = start(alloc, program) else {
        panic!(rt; "no memory")
    };
    sig
}

/// The environment at the body's entry.
fn entered(rt: &impl Abort, alloc: Global, program: &Program, sig: &Sig, body: BodyNo) -> Env
    ensures few { length program.now.fields < 2 ^ 32 }
    ensures sized { EnvSized program.now body.0 result }
{
    assert!(rt; program.fields.as_slice().len() <= u32::MAX as usize);
    assert!(rt; (body.0 as usize) < program.bodies.as_slice().len());
    let Ok(keys) = find_keys(alloc, program, body) else {
        panic!(rt; "no memory")
    };
    let analysis = Analysis::new(program, sig, body, &keys);
    let Ok(env) = entry(alloc, &analysis) else {
        panic!(rt; "no memory")
    };
    env
}

/// A table of the body in which one point alone is reached, as the body's entry.
fn reached_at(rt: &impl Abort, alloc: Global, points: u32, point: u32, env: Env) -> FlowTable
    requires { point < points }
    ensures { length result ≡ points }
{
    let Ok(mut table) = FlowTable::unreached(alloc, points) else {
        panic!(rt; "no memory")
    };
    table.put(PointNo(point), env);
    table
}

/// The call of `length` on a parameter that may be null: the next point is reached.
#[test]
fn transfers(rt: HostRuntime) {
    let alloc = rt.alloc();
    let program = made(&rt, alloc);
    let sig = started(&rt, alloc, &program);
    expect_next(&rt, alloc, &program, &sig);
}

/// One edge leads on from the call, to the next point.
fn expect_next(rt: &impl Abort, alloc: Global, program: &Program, sig: &Sig) {
    let bodies = program.bodies.as_slice();
    assert!(rt; (TAKE.0 as usize) < bodies.len());
    assert!(rt; bodies[TAKE.0 as usize].points.as_slice().len() == 2);
    let env = entered(rt, alloc, program, sig, TAKE);
    let Ok(edges) = transfer(alloc, program, sig, TAKE, PointNo(0), &env) else {
        panic!(rt; "no memory")
    };
    assert_eq!(rt; edges.len(), 1);
    assert_eq!(rt; edges[0].0, PointNo(1));
}

/// The receiver may be null.
#[test]
fn checks_a_body(rt: HostRuntime) {
    let alloc = rt.alloc();
    let program = made(&rt, alloc);
    let sig = started(&rt, alloc, &program);
    expect_row(&rt, alloc, &program, &sig);
}

fn expect_row(rt: &impl Abort, alloc: Global, program: &Program, sig: &Sig) {
    let bodies = program.bodies.as_slice();
    assert!(rt; (TAKE.0 as usize) < bodies.len());
    assert!(rt; bodies[TAKE.0 as usize].points.as_slice().len() == 2);
    assert!(rt; program.fields.as_slice().len() <= u32::MAX as usize);
    let env = entered(rt, alloc, program, sig, TAKE);
    let table = reached_at(rt, alloc, 2, 0, env);
    let Ok(rows) = checks(alloc, program, sig, TAKE, &table) else {
        panic!(rt; "no memory")
    };
    assert_eq!(rt; rows.as_slice(), [row(Code::Deref, 538)].as_slice());
}

/// What is sent to these slots, with these bits.
fn expect_sends(rt: &impl Abort, sends: &[(SlotNo, Qual)], wanted: &[(u32, u8)]) {
    assert_eq!(rt; sends.len(), wanted.len());
    for ((slot, qual), (number, bits)) in sends.iter().zip(wanted) {
        assert_eq!(rt; slot.0, *number);
        assert_eq!(rt; qual.bits(), *bits);
    }
}

/// The constructor writes what may be null into the inferred field.
#[test]
fn contributes(rt: HostRuntime) {
    let alloc = rt.alloc();
    let program = made(&rt, alloc);
    let sig = started(&rt, alloc, &program);
    expect_sent(&rt, alloc, &program, &sig);
}

fn expect_sent(rt: &impl Abort, alloc: Global, program: &Program, sig: &Sig) {
    assert!(rt; (NEW.0 as usize) < program.bodies.as_slice().len());
    assert!(rt; program.fields.as_slice().len() <= u32::MAX as usize);
    let env = entered(rt, alloc, program, sig, NEW);
    let table = reached_at(rt, alloc, 3, 1, env);
    let Ok(sends) = contrib(alloc, program, sig, NEW, &table) else {
        panic!(rt; "no memory")
    };
    expect_sends(rt, sends.as_slice(), &[(0, 3)]);
}

/// The parameter that is overridden may be null, so the overriding one may be.
#[test]
fn contributes_by_overriding(rt: HostRuntime) {
    let alloc = rt.alloc();
    let program = made(&rt, alloc);
    let sig = started(&rt, alloc, &program);
    let Ok(Some(indexed)) = IndexedProgram::new(alloc, program) else {
        panic!(rt; "no memory")
    };
    expect_pairs(&rt, alloc, &indexed, &sig);
}

fn expect_pairs(rt: &impl Abort, alloc: Global, indexed: &IndexedProgram, sig: &Sig) {
    let program = indexed.program();
    assert!(rt; (AGAIN.0 as usize) < program.methods.as_slice().len());
    assert!(rt; program.classes.as_slice().len() <= u32::MAX as usize);
    assert!(rt; program.methods.as_slice().len() <= u32::MAX as usize);
    let Ok(sends) = pair_contrib(alloc, indexed, sig, AGAIN) else {
        panic!(rt; "no memory")
    };
    expect_sends(rt, sends.as_slice(), &[(5, 3)]);
}

/// A constructor that ends with nothing assigned leaves both fields.
#[test]
fn finds_what_is_unassigned(rt: HostRuntime) {
    let alloc = rt.alloc();
    let program = made(&rt, alloc);
    let sig = started(&rt, alloc, &program);
    expect_unassigned(&rt, alloc, &program, &sig);
}

fn expect_unassigned(rt: &impl Abort, alloc: Global, program: &Program, sig: &Sig) {
    assert!(rt; (NEW.0 as usize) < program.bodies.as_slice().len());
    assert!(rt; program.fields.as_slice().len() <= u32::MAX as usize);
    let env = entered(rt, alloc, program, sig, NEW);
    let table = reached_at(rt, alloc, 3, 2, env);
    let Ok(fields) = unassigned_at_end(alloc, program, sig, NEW, &table) else {
        panic!(rt; "no memory")
    };
    assert_eq!(rt; fields.as_slice(), [FieldNo(0), FieldNo(1)].as_slice());
}

/// At the constructor's entry no field is assigned.
#[test]
fn knows_no_assigned_field_at_the_entry(rt: HostRuntime) {
    let alloc = rt.alloc();
    let program = made(&rt, alloc);
    let sig = started(&rt, alloc, &program);
    let env = entered(&rt, alloc, &program, &sig, NEW);
    assert!(rt; (NEW.0 as usize) < program.bodies.as_slice().len());
    assert!(rt; program.fields.as_slice().len() <= u32::MAX as usize);
    let Ok(keys) = find_keys(alloc, &program, NEW) else {
        panic!(rt; "no memory")
    };
    assert!(rt; !env.has_assigned(&keys, FieldNo(0)));
}

/// An object of `Derived` runs the second `take` for the first, and has the fields of `Base`.
#[test]
fn looks_up_members(rt: HostRuntime) {
    let alloc = rt.alloc();
    let program = made(&rt, alloc);
    assert!(rt; program.methods.as_slice().len() <= u32::MAX as usize);
    assert_eq!(rt; dispatch(&program, SECOND, MethodNo(2)), Some(AGAIN));
    let Ok(Some(indexed)) = IndexedProgram::new(alloc, program) else {
        panic!(rt; "no memory")
    };
    expect_members(&rt, &indexed);
}

fn expect_members(rt: &impl Abort, indexed: &IndexedProgram) {
    let Some(program) = indexed.indexed() else {
        panic!(rt; "no index")
    };
    assert_eq!(rt;
        lookup::dispatch(&program, SECOND, MethodNo(2)),
        Some(AGAIN)
    );
    assert!(rt; fields::has_field(&program, SECOND, FieldNo(1)));
}
