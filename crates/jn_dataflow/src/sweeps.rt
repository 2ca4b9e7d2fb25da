//! Sweeps over the blocks that wait to be passed over, until none does.
ghost use Rattle.std.specs.Prelude.{◌≡◌, ◌<◌, [], IfOk, IsTrue, None, Some, length, cond, replicate, slice_set, true, false};
ghost use Rattle.jn_dataflow.specs.Problem.{slot_at};
ghost use Rattle.jn_dataflow.specs.Solution.{Solves};
ghost use Rattle.jn_dataflow.specs.Settled.{SlotValid, Blocks, Stepped, Swept, Ended, Visited, NobodyWaits, join_slot, flow_in, edges_from};

use crate::analysis::Dataflow;
use crate::blocks::{entry_alone, goes_on, only, set_inner};
use crate::loops::Loops;
use crate::slots::Slots;
use jn_base::{OutOfMemory, Seq, either};
use std::alloc::Global;

/// A joined environment, and whether it is new.
#[derive(Drop)]
struct Joined<E> {
    env: E,
    changed: bool,
}

/// Joins an environment to what stands at its point.
fn join_slot<D: Dataflow>(
    alloc: Global,
    analysis: &D,
    slot: Option<D::Env>,
    env: &D::Env,
) -> Result<Joined<D::Env>, OutOfMemory>
    requires old { SlotValid (D.describe analysis.now) slot }
    requires new { IsTrue ((D.describe analysis.now).valid env.now) }
    ensures joined { IfOk result
        (λ j. Some j.env ≡ join_slot (D.describe analysis.now) slot env.now) }
    ensures same { IfOk result (λ j. j.changed ≡ false → Some j.env ≡ slot) }
    ensures other { IfOk result (λ j. j.changed ≡ true → Some j.env ≡ slot → ⊥) }
{
    match slot {
        None => Ok(Joined {
            env: analysis.copy(alloc, env)?,
            changed: true,
        }),
        Some(mut old) => {
            let changed = analysis.join(&mut old, env);
            Ok(Joined { env: old, changed })
        }
    }
}

/// Joins the environment of an edge into the table. Gives whether that changed it.
fn flow_in<D: Dataflow>(
    alloc: Global,
    analysis: &D,
    table: &mut Slots<D::Env>,
    edge: &(u32, D::Env),
) -> Result<bool, OutOfMemory>
    requires target { edge.now.0 < length table.old }
    requires old { SlotValid (D.describe analysis.now) (slot_at table.old edge.now.0) }
    requires new { IsTrue ((D.describe analysis.now).valid edge.now.1) }
    ensures { IfOk result (λ changed. Stepped (flow_in (D.describe analysis.now) edge.now table.old)
        table.old table.new changed) }
{
    let joined = join_slot(alloc, analysis, table.take(edge.0 as usize), &edge.1)?;
    table.put(edge.0 as usize, joined.env);
    Ok(joined.changed)
}

/// Joins an edge, whose target starts a block from then on, and waits where its environment rose. Gives whether it did.
fn raise<D: Dataflow>(
    alloc: Global,
    analysis: &D,
    table: &mut Slots<D::Env>,
    waiting: &mut Seq<bool>,
    starts: &mut Seq<bool>,
    edge: &(u32, D::Env),
) -> Result<bool, OutOfMemory>
    requires target { edge.now.0 < length table.old }
    requires place { edge.now.0 < length waiting.old }
    requires block { edge.now.0 < length starts.old }
    requires old { SlotValid (D.describe analysis.now) (slot_at table.old edge.now.0) }
    requires new { IsTrue ((D.describe analysis.now).valid edge.now.1) }
    ensures joined { IfOk result (λ rose.
        Stepped (flow_in (D.describe analysis.now) edge.now table.old) table.old table.new rose) }
    ensures marked { IfOk result
        (λ rose. waiting.new ≡ cond rose (slice_set waiting.old edge.now.0 true) waiting.old) }
    ensures begun { IfOk result (λ rose. starts.new ≡ slice_set starts.old edge.now.0 true) }
{
    starts.set(edge.0 as usize, true);
    let rose = flow_in(alloc, analysis, table, edge)?;
    if rose {
        waiting.set(edge.0 as usize, true);
    }
    Ok(rose)
}

/// Joins the edges of a point after which its block ends. Gives whether any environment rose.
fn raise_all<D: Dataflow>(
    alloc: Global,
    analysis: &D,
    table: &mut Slots<D::Env>,
    waiting: &mut Seq<bool>,
    starts: &mut Seq<bool>,
    edges: &[(u32, D::Env)],
) -> Result<bool, OutOfMemory>
    requires { Blocks (D.describe analysis.now) edges.now table.old waiting.old starts.old }
    ensures { IfOk result (λ rose. Ended (D.describe analysis.now) table.old table.new waiting.old
        waiting.new starts.old starts.new rose) }
{
    let mut rose = false;
    for edge in edges {
        rose = either(rose, raise(alloc, analysis, table, waiting, starts, edge)?);
    }
    Ok(rose)
}

/// The edges of the point at a place; none where it is unreached.
fn edges_from<D: Dataflow>(
    alloc: Global,
    analysis: &D,
    at: usize,
    slot: &Option<D::Env>,
) -> Result<Vec<(u32, D::Env)>, OutOfMemory>
    requires there { at < (D.describe analysis.now).count }
    requires valid { SlotValid (D.describe analysis.now) slot.now }
    ensures { IfOk result
        (λ edges. edges.items ≡ edges_from (D.describe analysis.now) at slot.now) }
{
    match slot {
        None => Ok(Vec::new(alloc)),
        Some(env) => analysis.edges(alloc, at, env),
    }
}

/// Goes over the edges of a point if it waits, which it does no more: the next point of its block is set and taken up
/// next, and at the block's end the edges are joined. Gives whether the environment of a block's start rose.
fn visit<D: Dataflow>(
    alloc: Global,
    analysis: &D,
    at: usize,
    table: &mut Slots<D::Env>,
    waiting: &mut Seq<bool>,
    starts: &mut Seq<bool>,
    loops: &mut Loops,
) -> Result<bool, OutOfMemory>
    requires there { at < (D.describe analysis.now).count }
    requires blocks { Blocks (D.describe analysis.now) [] table.old waiting.old starts.old }
    ensures { IfOk result (λ rose. Visited (D.describe analysis.now) at table.old table.new
        waiting.old waiting.new starts.old starts.new rose) }
{
    if !waiting.at(at) {
        return Ok(false);
    }
    waiting.set(at, false);
    let edges = edges_from(alloc, analysis, at, &table.as_slice()[at])?;
    if goes_on(at, starts, &edges) {
        set_inner(table, waiting, only(edges));
        return Ok(false);
    }
    loops.note_all(at, &edges);
    raise_all(alloc, analysis, table, waiting, starts, &edges)
}

/// Whether a point waits.
fn waits(waiting: &Seq<bool>, at: usize) -> bool {
    at < waiting.len() && waiting.at(at)
}

/// Where the loop begins that ends at a point, if that beginning waits.
fn back_from(loops: &Loops, waiting: &Seq<bool>, at: usize) -> Option<usize> {
    match loops.ended(at) {
        Some(head) => if waits(waiting, head) {
            Some(head)
        } else {
            None
        },
        None => None,
    }
}

/// How a sweep ended.
#[derive(Clone, Copy)]
struct Turn {
    /// Whether the environment of a block's start rose.
    rose: bool,
    /// The point with which the next sweep begins.
    next: usize,
}

/// Passes over each block from a point on that waits, in the order of the points, until a loop ends whose beginning waits,
/// or the body. Where no environment of a block's start rose, and nobody before that point waited, nobody waits.
fn sweep<D: Dataflow>(
    alloc: Global,
    analysis: &D,
    from: usize,
    table: &mut Slots<D::Env>,
    waiting: &mut Seq<bool>,
    starts: &mut Seq<bool>,
    loops: &mut Loops,
) -> Result<Turn, OutOfMemory>
    requires blocks { Blocks (D.describe analysis.now) [] table.old waiting.old starts.old }
    ensures swept { IfOk result (λ turn. Swept (D.describe analysis.now) table.old table.new
        waiting.new starts.old starts.new turn.rose) }
    ensures still { IfOk result (λ turn. turn.rose ≡ false → from ≡ 0 → NobodyWaits waiting.new) }
    ensures whole { IfOk result (λ turn. turn.rose ≡ false → turn.next ≡ 0) }
{
    let mut rose = false;
    for at in from..analysis.points() {
        rose = either(
            rose,
            visit(alloc, analysis, at, table, waiting, starts, loops)?,
        );
        if rose {
            if let Some(head) = back_from(loops, waiting, at) {
                return Ok(Turn {
                    rose: true,
                    next: head,
                });
            }
        }
    }
    Ok(Turn { rose, next: 0 })
}

/// The table in which only the entry is reached.
fn start<D: Dataflow>(alloc: Global, analysis: &D) -> Result<Slots<D::Env>, OutOfMemory>
    requires { 0 < (D.describe analysis.now).count }
    ensures { IfOk result (λ t. t
        ≡ slice_set (replicate (D.describe analysis.now).count None) 0
        (Some (D.describe analysis.now).entry)) }
{
    let mut table = Slots::unreached(alloc, analysis.points())?;
    table.put(0, analysis.entry(alloc)?);
    Ok(table)
}

/// Solves the analysis, block by block. A block starts at the entry and wherever an edge was joined: at the target of an
/// edge that isn't the next point, and at the targets of a point whose edges aren't just one edge to the next point. To an
/// inner point one edge comes, from the point before it, so its environment is what that edge carries, and is set; at the
/// start of a block environments are joined. A block is passed over again where the environment of its start rose, in
/// sweeps over the blocks that wait for that, until none does. A sweep goes over the points in their order, so an inner
/// point that was set is taken up next, and what only edges forward carry is joined by the first sweep. From the second
/// sweep on a loop is passed over until nothing rises in it before what stands after it is: what inner loops add comes to
/// the beginning of each outer one at once (Bourdoncle, Efficient chaotic iteration strategies with widenings, 1993).
///
/// # Errors
/// No memory was found.
pub fn solve<D: Dataflow>(alloc: Global, analysis: &D) -> Result<Slots<D::Env>, OutOfMemory>
    requires { 0 < (D.describe analysis.now).count }
    ensures { IfOk result (λ t. Solves (D.describe analysis.now) t) }
{
    let mut table = start(alloc, analysis)?;
    let mut waiting = entry_alone(alloc, analysis.points())?;
    let mut starts = entry_alone(alloc, analysis.points())?;
    let mut loops = Loops::unknown(alloc, analysis.points())?;
    let mut from: usize = 0;
    loop {
        let turn = sweep(
            alloc,
            analysis,
            from,
            &mut table,
            &mut waiting,
            &mut starts,
            &mut loops,
        )?;
        if from == 0 {
            if !turn.rose {
                return Ok(table);
            }
        }
        loops.all_known();
        from = turn.next;
    }
}
