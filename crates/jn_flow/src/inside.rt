//! Whether the edges of a body stay in it.
ghost use Rattle.std.specs.Prelude.{◌≡◌, ◌<◌, ◌-◌, ◌^◌, length, true, false};
ghost use Rattle.jn_points.specs.Lookup.{body_at, points_of};
ghost use Rattle.jn_transfer.specs.Sized.{Below, StaysInside};
ghost use Rattle.jn_flow.specs.Inside.{AllInside};

use jn_base::{BodyNo, PointNo};
use jn_points::{Body, Edges, Program, edges};

/// Whether the body has a point, fewer than 2^32 - 1 of them, and all its edges stay in it.
pub fn stays_inside(program: &Program, body: BodyNo) -> bool
    requires { body.0 < length program.now.bodies }
    ensures stays { result ≡ true → StaysInside program.now body.0 }
    ensures short { result ≡ true → length (points_of (body_at program.now body.0)) < 2 ^ 32 - 1 }
    ensures left { result ≡ false → StaysInside program.now body.0
        → length (points_of (body_at program.now body.0)) < 2 ^ 32 - 1 → ⊥ }
{
    let info = &program.bodies.as_slice()[body.0 as usize];
    let count = info.points.len();
    if count == 0 || count >= u32::MAX as usize {
        return false;
    }
    all_inside(info)
}

fn all_inside(body: &Body) -> bool
    requires { length body.now.points < 2 ^ 32 - 1 }
    ensures stays { result ≡ true → AllInside body.now.points (length body.now.points) }
    ensures left { result ≡ false → AllInside body.now.points (length body.now.points) → ⊥ }
{
    let count = body.points.len();
    for at in 0..count {
        if !are_below(edges(body, PointNo(at as u32)), count) {
            return false;
        }
    }
    true
}

fn are_below(edges: Edges, count: usize) -> bool
    ensures below { result ≡ true → Below count edges.first × Below count edges.second }
    ensures left { result ≡ false → Below count edges.first × Below count edges.second → ⊥ }
{
    is_below(edges.first, count) && is_below(edges.second, count)
}

fn is_below(to: Option<PointNo>, count: usize) -> bool
    ensures below { result ≡ true → Below count to }
    ensures left { result ≡ false → Below count to → ⊥ }
{
    match to {
        None => true,
        Some(to) => (to.0 as usize) < count,
    }
}
