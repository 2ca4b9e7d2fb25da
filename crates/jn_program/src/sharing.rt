//! Bodies shared among workers.
ghost use Rattle.std.specs.Prelude.{◌≡◌, ◌<◌, false, get_or, length, slice_get, true, IfOk, MatchOption, Some};
ghost use Rattle.jn_lower_stmt.specs.Sources.{source_of, sources_of};
ghost use Rattle.jn_program.specs.Known.{AreKnown, IsKnown};
ghost use Rattle.jn_program.specs.Ranges.{IsLowered, IsLoweredAt, IsLoweredBody};

use crate::bodies::{LoweredBody, LoweredFiles, lower_one, put_together};
use crate::copying::copy_body;
use jn_base::{OutOfMemory, Seq};
use jn_index::indexed::IndexedProgram;
use jn_lower_stmt::body::Source;
use jn_points::Body;
use jn_sharing::share_out;
use std::alloc::Global;
use std::thread::Threads;

/// The known body of this number; none where none is told to be known.
fn known_body<'b>(bodies: &'b [Body], known: &[bool], at: usize) -> Option<&'b Body>
    ensures { MatchOption result (Unit {0})
        (λ body. (get_or known.now at false ≡ true) × (slice_get bodies.now at ≡ Some body.now)) }
{
    match known.get(at) {
        Some(true) => bodies.get(at),
        _ => None,
    }
}

/// A copy of a known body, which has no row.
fn known_copy(
    alloc: Global,
    program: &IndexedProgram,
    source: &Source,
    body: &Body,
) -> Result<LoweredBody, OutOfMemory>
    requires { IsKnown program.now (source_of source.now) (Some body.now) }
    ensures { IfOk result (λ lowered. IsLoweredBody program.now (source_of source.now) lowered) }
{
    let _program = program;
    let _source = source;
    let body = copy_body(alloc, body)?;
    Ok(LoweredBody {
        body,
        rows: Seq::new(alloc),
    })
}

/// What the source of this number is lowered to, and its rows; a copy where its body is known.
fn lower_or_copy(
    alloc: Global,
    program: &IndexedProgram,
    sources: &[Source],
    bodies: &[Body],
    known: &[bool],
    at: usize,
) -> Result<LoweredBody, OutOfMemory>
    requires known { AreKnown program.now (sources_of sources.now) bodies.now known.now }
    requires inside { at < length sources.now }
    ensures { IfOk result (λ lowered. IsLoweredAt program.now sources.now at lowered) }
{
    let source = &sources[at];
    match known_body(bodies, known, at) {
        Some(body) => known_copy(alloc, program, source, body),
        None => lower_one(alloc, program, source),
    }
}

/// The bodies of sources in their order, and their rows: worker 0 and as many others as `more`, together no more than there
/// are sources, take one after the other. Known bodies are copied.
pub fn lower_by<R: Threads + Sync>(
    rt: &R,
    alloc: Global,
    program: &IndexedProgram,
    sources: &[Source],
    bodies: &[Body],
    known: &[bool],
    more: u32,
) -> Result<LoweredFiles, OutOfMemory>
    requires known { AreKnown program.now (sources_of sources.now) bodies.now known.now }
    ensures { IfOk result (λ lowered. IsLowered program.now (sources_of sources.now) lowered) }
{
    let lower = |at: usize, _worker: u32| -> Result<LoweredBody, OutOfMemory>
        requires { AreKnown program.now (sources_of sources.now) bodies.now known.now
            × (at < length sources.now) }
        ensures { IfOk result
            (λ lowered. IsLoweredAt program.entry.now sources.entry.now at lowered) }
    {
        let lowered = lower_or_copy(alloc, program, sources, bodies, known, at)?;
        Ok(lowered)
    };
    let others = sources.len().saturating_sub(1).min(more as usize) as u32;
    let lowered = share_out(rt, alloc, sources.len(), others, &lower)?;
    let all = put_together(alloc, lowered)?;
    Ok(all)
}
