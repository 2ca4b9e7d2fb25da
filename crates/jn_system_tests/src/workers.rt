//! One program, solved and checked by one, two and sixteen workers, and by two that meet.
ghost use Rattle.std.specs.Prelude.{◌<◌};

use crate::programs::round_of_calls;
use jn_base::{Code, Row, SlotNo};
use jn_index::indexed::IndexedProgram;
use jn_sharing::Workers;
use jn_sigs::Sig;
use jn_solver_samples::Meet;
use jn_system::{check_all, is_inferable, solve_sig};
use jn_test_programs::lines::row;
use jn_workers::{Gate, Straight};
use std::alloc::Global;
use std::process::Abort;
use std::thread::Threads;

fn program(rt: &impl Abort, alloc: Global) -> IndexedProgram {
    let Ok(program) = round_of_calls(alloc) else {
        panic!(rt; "no memory")
    };
    let Ok(Some(indexed)) = IndexedProgram::new(alloc, program) else {
        panic!(rt; "no memory")
    };
    indexed
}

/// The least signature of the program.
fn solved<R: Threads + Abort + Sync, G: Gate + Sync>(
    rt: &R,
    alloc: Global,
    program: &IndexedProgram,
    workers: Workers,
    gate: &G,
) -> Sig {
    assert!(rt; is_inferable(program.program()));
    let Ok(sig) = solve_sig(rt, alloc, program, workers, gate) else {
        panic!(rt; "no memory")
    };
    sig
}

/// The rows of the program.
fn checked<R: Threads + Abort + Sync, G: Gate + Sync>(
    rt: &R,
    alloc: Global,
    program: &IndexedProgram,
    sig: &Sig,
    workers: Workers,
    gate: &G,
) -> Vec<Row> {
    assert!(rt; is_inferable(program.program()));
    let Ok(rows) = check_all(rt, alloc, program, sig, workers, gate) else {
        panic!(rt; "no memory")
    };
    rows
}

/// Parameters of the three private methods may be null, their receivers never, and one dereference is a row.
fn expect_found<R: Threads + Abort + Sync>(rt: &R, alloc: Global, workers: Workers) {
    let program = program(rt, alloc);
    let sig = solved(rt, alloc, &program, workers, &Straight);
    for (slot, bits) in [(0, 3), (1, 2), (2, 3), (3, 2), (4, 3), (5, 2)].as_slice() {
        assert_eq!(rt; sig.get(SlotNo(*slot)).bits(), *bits, "slot {slot}");
    }
    let rows = checked(rt, alloc, &program, &sig, workers, &Straight);
    assert_eq!(rt; rows.as_slice(), [row(Code::Deref, 330)].as_slice());
}

#[test]
fn one_worker(rt: HostRuntime) {
    expect_found(&rt, rt.alloc(), Workers::of(1));
}

#[test]
fn two_workers(rt: HostRuntime) {
    expect_found(&rt, rt.alloc(), Workers::of(2));
}

#[test]
fn sixteen_workers(rt: HostRuntime) {
    expect_found(&rt, rt.alloc(), Workers::of(16));
}

#[test]
fn two_workers_meet_where_they_solve(rt: HostRuntime) {
    let program = program(&rt, rt.alloc());
    let gate = Meet::new(1);
    let sig = solved(&rt, rt.alloc(), &program, Workers::of(2), &gate);
    assert_eq!(rt; sig.get(SlotNo(0)).bits(), 3);
    assert!(rt; gate.met());
}

/// Two workers enter five bodies, each once.
#[test]
fn two_workers_meet_where_they_check(rt: HostRuntime) {
    let program = program(&rt, rt.alloc());
    let sig = solved(&rt, rt.alloc(), &program, Workers::of(1), &Straight);
    let gate = Meet::new(1);
    let rows = checked(&rt, rt.alloc(), &program, &sig, Workers::of(2), &gate);
    assert_eq!(rt; rows.len(), 1);
    assert!(rt; gate.met());
    assert_eq!(rt; gate.entries(), 5);
}
