//! Where blocks start, and how a block goes on.
ghost use Rattle.std.specs.Prelude.{ℕ, ◌≡◌, ◌+◌, ◌<◌, ◌==◌, ◌∷◌, [], IfOk, Some, length, slice_set, replicate, true, false};
ghost use Rattle.jn_dataflow.specs.Problem.{IsAmong};
ghost use Rattle.jn_dataflow.specs.Settled.{goes_on};

use crate::slots::Slots;
use jn_base::Seq;
use std::alloc::{AllocError, Global};

/// So many marks, none of them set.
fn unset(alloc: Global, count: usize) -> Result<Vec<bool>, AllocError>
    ensures { IfOk result (λ marks. marks.items ≡ replicate count false) }
{
    let mut marks = Vec::new(alloc);
    for _i in 0..count {
        marks.push(false)?;
    }
    Ok(marks)
}

/// So many marks, of which the entry's alone is set.
pub fn entry_alone(alloc: Global, count: usize) -> Result<Seq<bool>, AllocError>
    requires { 0 < count }
    ensures { IfOk result (λ marks. marks ≡ slice_set (replicate count false) 0 true) }
{
    let mut marks = Seq::of_vec(unset(alloc, count)?);
    marks.set(0, true);
    Ok(marks)
}

/// Whether a point is the next one.
fn is_next(at: usize, next: usize) -> bool
    ensures { result ≡ (next == at + 1) }
{
    at < next && next - at == 1
}

/// Whether the block of a point goes on after it: its one edge leads to the next point, where no block starts.
pub fn goes_on<E>(at: usize, starts: &Seq<bool>, edges: &[(u32, E)]) -> bool
    requires { (x : ℕ × E) → IsAmong x edges.now → x.0 < length starts.now }
    ensures { result ≡ goes_on at starts.now edges.now }
{
    match edges {
        [edge] => is_next(at, edge.0 as usize) && !starts.at(edge.0 as usize),
        _ => false,
    }
}

/// The only edge.
pub fn only<E: Drop>(edges: Vec<(u32, E)>) -> (u32, E)
    requires { length edges.items ≡ 1 }
    ensures { edges.items ≡ result ∷ [] }
{
    let mut edges = edges;
    match edges.pop() {
        Some(edge) => edge,
        None => unreachable!(),
    }
}

/// Sets the environment of an inner point to what the one edge to it carries. It waits, and is taken up next.
pub fn set_inner<E: Drop>(table: &mut Slots<E>, waiting: &mut Seq<bool>, inner: (u32, E))
    requires target { inner.0 < length table.old }
    requires place { inner.0 < length waiting.old }
    ensures set { table.new ≡ slice_set table.old inner.0 (Some inner.1) }
    ensures marked { waiting.new ≡ slice_set waiting.old inner.0 true }
{
    let (next, env) = inner;
    table.put(next as usize, env);
    waiting.set(next as usize, true);
}
