ghost use Rattle.std.specs.Prelude.{◌<◌};

use crate::{Meet, Net, Pair, Shape, Starved, drained, solved};
use jn_base::{BodyNo, OutOfMemory};
use jn_sharing::Workers;
use jn_sigtable::SigTable;
use jn_workers::{Straight, solve};
use jn_worklist::{Task, plan, run_body};
use std::alloc::Global;
use std::test::Fail;
use std::thread::Threads;

#[test]
fn one_two_and_sixteen_workers(rt: HostRuntime) -> Result<(), Fail> {
    for workers in [1, 2, 16] {
        let Ok(words) = solve(&rt, rt.alloc(), Pair, &[0], Workers::of(workers), &Straight) else {
            panic!(rt; "no memory")
        };
        assert!(rt; words.len() == 1 && words[0] == 6);
    }
    Ok(())
}

#[test]
fn a_drain_of_the_pair(rt: HostRuntime) -> Result<(), Fail> {
    let Ok(words) = drained(rt.alloc(), &Pair) else {
        panic!(rt; "no memory")
    };
    assert!(rt; words.len() == 1 && words[0] == 6);
    Ok(())
}

#[test]
fn a_body_that_was_run_is_clear(rt: HostRuntime) -> Result<(), Fail> {
    let Ok(readers) = plan(rt.alloc(), &Pair) else {
        panic!(rt; "no memory")
    };
    let Ok((table, mut pass)) = SigTable::new(rt.alloc(), Pair, &[0]) else {
        panic!(rt; "no memory")
    };
    let Some(body) = table.take_body(&mut pass, BodyNo(0)) else {
        panic!(rt; "not dirty at the start")
    };
    let task = Task {
        table: &table,
        plan: &readers,
        body,
    };
    let run = run_body(rt.alloc(), &task, &mut pass);
    assert!(rt; run.is_ok());
    assert!(rt; table.take_body(&mut pass, BodyNo(0)) == None);
    let Ok((_, words)) = table.close(rt.alloc(), pass) else {
        panic!(rt; "no memory")
    };
    assert!(rt; words.len() == 1 && words[0] == 2);
    Ok(())
}

#[test]
fn a_body_without_memory_is_dirty_again(rt: HostRuntime) -> Result<(), Fail> {
    let Ok(readers) = plan(rt.alloc(), &Starved) else {
        panic!(rt; "no memory")
    };
    let Ok((table, mut pass)) = SigTable::new(rt.alloc(), Starved, &[0]) else {
        panic!(rt; "no memory")
    };
    let Some(body) = table.take_body(&mut pass, BodyNo(0)) else {
        panic!(rt; "not dirty at the start")
    };
    let task = Task {
        table: &table,
        plan: &readers,
        body,
    };
    let run = run_body(rt.alloc(), &task, &mut pass);
    assert!(rt; run.is_err());
    assert!(rt; table.take_body(&mut pass, BodyNo(0)) == Some(BodyNo(0)));
    let Ok((_, words)) = table.close(rt.alloc(), pass) else {
        panic!(rt; "no memory")
    };
    assert!(rt; words.len() == 1 && words[0] == 0);
    Ok(())
}

#[test]
fn workers_without_memory(rt: HostRuntime) -> Result<(), Fail> {
    for workers in [1, 2] {
        assert!(rt;
            solve(
                &rt,
                rt.alloc(),
                Starved,
                &[0],
                Workers::of(workers),
                &Straight
            )
            .is_err()
        );
    }
    Ok(())
}

#[test]
fn two_workers_meet(rt: HostRuntime) -> Result<(), Fail> {
    let gate = Meet::new(1);
    let Ok(words) = solve(&rt, rt.alloc(), Pair, &[0], Workers::of(2), &gate) else {
        panic!(rt; "no memory")
    };
    assert!(rt; words.len() == 1 && words[0] == 6);
    assert!(rt; gate.met() && gate.entries() >= 2);
    Ok(())
}

// Whether so many workers find these words of a net.
fn finds<R: Threads + Sync>(
    rt: &R,
    alloc: Global,
    net: Net,
    workers: Workers,
    expected: &Vec<u64>,
) -> Result<bool, OutOfMemory>
    requires any { 0 < net.bodies }
{
    let words = solved(rt, alloc, net, workers)?;
    Ok(words == *expected)
}

// Whether the words of a net by 1, 2, 4 and 16 workers are those of a drain.
fn agrees<R: Threads + Sync>(rt: &R, alloc: Global, shape: Shape) -> Result<bool, OutOfMemory> {
    let net = Net {
        shape,
        bodies: 2000,
    };
    let expected = drained(alloc, &net)?;
    let one = finds(rt, alloc, net, Workers::of(1), &expected)?;
    let two = finds(rt, alloc, net, Workers::of(2), &expected)?;
    let four = finds(rt, alloc, net, Workers::of(4), &expected)?;
    let sixteen = finds(rt, alloc, net, Workers::of(16), &expected)?;
    Ok(one && two && four && sixteen)
}

#[test]
fn a_chain_of_bodies(rt: HostRuntime) -> Result<(), Fail> {
    assert!(rt; matches!(agrees(&rt, rt.alloc(), Shape::Chain), Ok(true)));
    Ok(())
}

#[test]
fn a_star_of_bodies(rt: HostRuntime) -> Result<(), Fail> {
    assert!(rt; matches!(agrees(&rt, rt.alloc(), Shape::Star), Ok(true)));
    Ok(())
}

#[test]
fn a_ring_of_bodies(rt: HostRuntime) -> Result<(), Fail> {
    assert!(rt; matches!(agrees(&rt, rt.alloc(), Shape::Ring), Ok(true)));
    Ok(())
}
