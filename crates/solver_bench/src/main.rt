//! Solves a sample system again and again, so that the solver's ways can be timed.
#![tactic(auto)]

mod end;
mod request;

ghost use Rattle.std.specs.Prelude.{◌<◌, ◌≤◌};

use end::End;
use jn_base::OutOfMemory;
use jn_sharing::Workers;
use jn_solver_samples::{drained, solved};
use request::{Request, request_of};
use std::alloc::Global;
use std::process::ExitCode;
use std::rt::Env;
use std::thread::Threads;
use std::{env, io};

const USAGE: &str =
    "usage: solver_bench SHAPE COUNT WORKERS REPEATS, where SHAPE is chain, star or ring, and WORKERS 0 to 16";

/// The words after the program's name.
fn words<R: Env + AllocGlobal>(rt: &R) -> io::Result<Vec<String>> {
    let mut words = Vec::new(rt.alloc());
    for word in env::args(rt)?.skip(1) {
        words.push(word)?;
    }
    Ok(words)
}

/// How many bits are set.
fn bits_of(words: &[u64]) -> u64 {
    let mut bits = 0u64;
    for word in words {
        bits = bits.saturating_add(u64::from(word.count_ones()));
    }
    bits
}

/// The words of the request's net, by a drain where there are no workers.
fn solve_once<R: Threads + Sync>(
    rt: &R,
    alloc: Global,
    request: Request,
) -> Result<Vec<u64>, OutOfMemory>
    requires any { 0 < request.net.bodies }
    requires workers { request.workers ≤ 16 }
{
    if request.workers == 0 {
        drained(alloc, &request.net)
    } else {
        solved(rt, alloc, request.net, Workers::of(request.workers))
    }
}

/// The bits that the last of the request's runs found.
fn bits_found<R: Threads + Sync>(
    rt: &R,
    alloc: Global,
    request: Request,
) -> Result<u64, OutOfMemory>
    requires any { 0 < request.net.bodies }
    requires workers { request.workers ≤ 16 }
{
    let mut bits = 0;
    for _ in 0..request.repeats {
        let words = solve_once(rt, alloc, request)?;
        bits = bits_of(words.as_slice());
    }
    Ok(bits)
}

fn run<R: Env + AllocGlobal + Print + Eprint + Threads + Sync>(rt: &R) -> Result<(), End> {
    let words = words(rt)?;
    let Some(request) = request_of(words.as_slice()) else {
        eprintln!(rt; "{USAGE}")?;
        return Err(End::Usage);
    };
    let bits = bits_found(rt, rt.alloc(), request)?;
    let (shape, bodies, workers) = (request.shape_name(), request.net.bodies, request.workers);
    println!(rt; "{shape} {bodies} {workers}: {bits} bits")?;
    Ok(())
}

fn main(rt: HostRuntime) -> ExitCode {
    match run(&rt) {
        Ok(()) => ExitCode::SUCCESS,
        Err(end) => ExitCode::from(end.number()),
    }
}
