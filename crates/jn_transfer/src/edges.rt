//! The transfer of a point.
ghost use Rattle.std.specs.Prelude.{◌≡◌, ◌+◌, ◌<◌, ◌^◌, IfOk, length};
ghost use Rattle.jn_points.specs.declared.point.Point.{Point};
ghost use Rattle.jn_points.specs.Lookup.{body_at, points_of, point_at};
ghost use Rattle.jn_transfer.specs.Transfer.{transfer};
ghost use Rattle.jn_env.specs.Sized.{EnvSized};
ghost use Rattle.jn_transfer.specs.Covered.{numbered};

use crate::analysis::{Analysis, Edge};
use jn_base::{BodyNo, OutOfMemory, PointNo};
use jn_env::{Env, find_keys};
use jn_points::Program;
use jn_sigs::Sig;
use std::alloc::{AllocError, Global};

/// For each edge of a point its target and the environment after it.
///
/// # Errors
/// No memory was found.
pub fn transfer(
    alloc: Global,
    program: &Program,
    sig: &Sig,
    body: BodyNo,
    point: PointNo,
    env: &Env,
) -> Result<Vec<(PointNo, Env)>, OutOfMemory>
    requires inside { body.0 < length program.now.bodies }
    requires there { point.0 < length (points_of (body_at program.now body.0)) }
    requires few { length program.now.fields < 2 ^ 32 }
    requires small { point.0 + 1 < 2 ^ 32 }
    requires sized { EnvSized program.now body.0 env.now }
    ensures { IfOk result (λ edges. (pt : Point) → point_at program.now body.0 point.0 ≡ Some pt
        → numbered edges.items ≡ transfer program.now sig.now body.0 pt.kind point.0 env.now) }
{
    let keys = find_keys(alloc, program, body)?;
    let analysis = Analysis::new(program, sig, body, &keys);
    let info = &program.bodies.as_slice()[body.0 as usize];
    let kind = &info.points.as_slice()[point.0 as usize].kind;
    let edges = analysis.edges_after(alloc, kind, point.0, env)?;
    Ok(with_numbers(alloc, edges)?)
}

fn with_numbers(alloc: Global, edges: Vec<Edge>) -> Result<Vec<(PointNo, Env)>, AllocError>
    ensures { IfOk result (λ xs. numbered xs.items ≡ edges.items) }
{
    let mut numbered = Vec::new(alloc);
    for (to, env) in edges {
        numbered.push((PointNo(to), env))?;
    }
    Ok(numbered)
}
