//! Calls within each other: a method's body in a frame of its own (JLS 15.12.4.5).
ghost use Rattle.std.specs.Prelude.{◌≡◌, None, Some, MatchOption, slice_get};
ghost use Rattle.jn_lower_stmt.specs.Sources.{source_of as seen_source, sources_of};
ghost use Rattle.jn_meaning.specs.Expressions.{Caller};
ghost use Rattle.jn_tree_world.specs.Outcomes.{Found, Means};
ghost use Rattle.jn_tree_world.specs.Worlds.{world_of};
ghost use Rattle.jn_tree_run.specs.Beginning.{entered_in, framed_in, source_in};

use crate::body::{execute, given};
use crate::entry::local_count;
use jn_base::MethodNo;
use jn_index::indexed::IndexedProgram;
use jn_lower_stmt::body::Source;
use jn_machine::{Value, body_of};
use jn_scopes::heads::class_of;
use jn_tree_expr::{Calling, Enters};
use jn_tree_simple::Site;
use jn_tree_world::frames::padded;
use jn_tree_world::{Halt, World};
use jn_trees::Names;
use std::alloc::Global;
use std::mem::replace;

/// What doesn't change in a run: the program, the sources of its bodies, the texts of its strings, and the greatest number of frames.
#[derive(Clone, Copy)]
pub struct Run<'a> {
    pub program: &'a IndexedProgram,
    pub sources: &'a [Source<'a>],
    pub names: &'a Names,
    pub deepest: u64,
    pub alloc: Global,
}

/// A method's number, which fits where there is such a method.
fn number(method: usize) -> Result<MethodNo, Halt>
    ensures { Found (λ m. m.0 ≡ method) result }
{
    if method < 0x1_0000_0000 {
        Ok(MethodNo(method as u32))
    } else {
        Err(Halt::OutOfMemory)
    }
}

/// The source of a body by its number.
#[tactic(auto, using(crate::proofs::Sources::seen_there, crate::proofs::Sources::seen_past))]
fn source_at<'a>(sources: &'a [Source<'a>], body: usize) -> Option<&'a Source<'a>>
    ensures { MatchOption result (slice_get (sources_of sources.now) body ≡ None)
        (λ s. slice_get (sources_of sources.now) body ≡ Some (seen_source s.now)) }
{
    sources.get(body)
}

/// The source of a method's body, where it has one.
fn source_of<'a>(run: &'a Run, method: usize) -> Option<&'a Source<'a>>
    ensures { MatchOption result (source_in run.now method ≡ None)
        (λ s. source_in run.now method ≡ Some (seen_source s.now)) }
{
    match body_of(run.program.program(), method) {
        None => None,
        Some(body) => source_at(run.sources, body as usize),
    }
}

/// The method's body with these values as its first locals. The caller's locals come back after it.
fn in_frame<F: Enters>(
    run: &Run,
    turns: u64,
    method: usize,
    values: Vec<Value>,
    call: &Calling<F>,
    w: &mut World,
) -> Result<Option<Value>, Halt>
    ensures { (m : Caller) → F.keeps call.now m
        → Means (framed_in run.now m turns method values.items (world_of w.old)) result
        (world_of w.new) }
{
    let Some(source) = source_of(run, method) else {
        return Err(Halt::Senseless);
    };
    let own = number(method)?;
    let b = Site {
        program: run.program,
        class: class_of(run.program, own),
        alloc: run.alloc,
    };
    let count = local_count(run.program, own, source.body)?;
    let Ok(locals) = padded(run.alloc, values, count) else {
        return Err(Halt::OutOfMemory);
    };
    let outer = replace(&mut w.locals, locals);
    let flow = execute(source, own, turns, &b, run.names, call, w)?;
    w.locals = outer;
    Ok(given(flow))
}

/// The same, where calls are made by code that may be called with any arguments.
fn in_frame_by<F: Enters>(
    run: &Run,
    turns: u64,
    method: usize,
    values: Vec<Value>,
    call: F,
    w: &mut World,
) -> Result<Option<Value>, Halt>
    requires { F.callable call }
    ensures { (m : Caller) → F.keeps call m
        → Means (framed_in run.now m turns method values.items (world_of w.old)) result
        (world_of w.new) }
{
    let calling = Calling::new(call);
    in_frame(run, turns, method, values, &calling, w)
}

/// A method's body in a further frame, unless there are more than the most: that takes a unit of fuel. A loop makes at most so many turns, and
/// calls within each other are at most as many.
pub fn enter(
    run: &Run,
    turns: u64,
    frames: u64,
    method: usize,
    values: Vec<Value>,
    w: &mut World,
) -> Result<Option<Value>, Halt>
    ensures { Means (entered_in run.now turns frames method values.items (world_of w.old)) result
        (world_of w.new) }
{
    if frames >= run.deepest {
        return Err(Halt::TooDeep);
    }
    if turns == 0 {
        return Err(Halt::FuelOut);
    }
    w.spend()?;
    let left = turns - 1;
    let further = frames + 1;
    let call = |method: usize, values: Vec<Value>, w: &mut World| -> Result<Option<Value>, Halt>
        ensures { Means
            (entered_in run.entry.now left further method values.items (world_of w.old)) result
            (world_of w.new) }
    { enter(run, left, further, method, values, w) };
    in_frame_by(run, left, method, values, call, w)
}
