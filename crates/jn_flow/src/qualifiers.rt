//! The qualifiers, facts and assigned fields of a body as a dataflow problem.
ghost use Rattle.std.specs.Prelude.{◌≡◌, ◌<◌, ◌^◌, IfOk, length};
ghost use Rattle.jn_points.specs.Lookup.{body_at, points_of, point_at};
ghost use Rattle.jn_env.specs.Sized.{EnvSized};
ghost use Rattle.jn_flow.specs.Quals.{edges_after};
ghost use Rattle.jn_flow.specs.QualsLaws.{EdgesStay, edges_stay_prop};

use jn_base::OutOfMemory;
use jn_dataflow::Dataflow;
use jn_env::Env;
use jn_transfer::entry::entry;
use jn_transfer::{Analysis, Edge};
use std::alloc::Global;

/// The analysis of a body that is in range, under a signature.
#[derive(Drop)]
pub struct Qualifiers<'a> {
    analysis: &'a Analysis<'a>,
    ghost inside: { analysis.now.body < length analysis.now.program.bodies },
    ghost stays: { EdgesStay analysis.now.program analysis.now.body } by { edges_stay_prop analysis.now.program analysis.now.body },
    ghost short: { length (points_of (body_at analysis.now.program analysis.now.body)) < 2 ^ 32 },
}

impl<'a> Qualifiers<'a> {
    /// The analysis of a body whose edges stay in it.
    pub fn new(analysis: &'a Analysis<'a>) -> Self
        requires inside { analysis.now.body < length analysis.now.program.bodies }
        requires stays { EdgesStay analysis.now.program analysis.now.body }
        requires short { length (points_of (body_at analysis.now.program analysis.now.body))
            < 2 ^ 32 }
        ensures { result.analysis.now ≡ analysis.now }
    {
        Qualifiers { analysis }
    }
}

/// For each edge of the point at a place its target and the environment after it.
fn edges_at(
    alloc: Global,
    analysis: &Analysis,
    at: usize,
    env: &Env,
) -> Result<Vec<Edge>, OutOfMemory>
    requires inside { analysis.now.body < length analysis.now.program.bodies }
    requires there { at < length (points_of (body_at analysis.now.program analysis.now.body)) }
    requires short { length (points_of (body_at analysis.now.program analysis.now.body)) < 2 ^ 32 }
    requires sized { EnvSized analysis.now.program analysis.now.body env.now }
    ensures { IfOk result (λ xs. xs.items
        ≡ edges_after analysis.now.program analysis.now.sig analysis.now.body
        (point_at analysis.now.program analysis.now.body at) at env.now) }
{
    let info = &analysis.program().bodies.as_slice()[analysis.body().0 as usize];
    let point = &info.points.as_slice()[at];
    analysis.edges_after(alloc, &point.kind, at as u32, env)
}

impl<'a> Dataflow for Qualifiers<'a> {
    ghost use Rattle.jn_flow.specs.Quals.{qualifiers};
    ghost use Rattle.jn_flow.specs.QualsLaws.{qualifiers_lawful};

    type Env = Env;

    ghost describe = { λ it. qualifiers it.analysis.now.program it.analysis.now.sig it.analysis.now.body };

    fn points(&self) -> usize {
        let analysis = self.analysis;
        analysis.program().bodies.as_slice()[analysis.body().0 as usize]
            .points
            .len()
    }

    fn entry(&self, alloc: Global) -> Result<Env, OutOfMemory> {
        entry(alloc, self.analysis)
    }

    fn copy(&self, alloc: Global, env: &Env) -> Result<Env, OutOfMemory> {
        env.copy(alloc)
    }

    fn edges(&self, alloc: Global, at: usize, env: &Env) -> Result<Vec<Edge>, OutOfMemory> {
        edges_at(alloc, self.analysis, at, env)
    }

    fn join(&self, env: &mut Env, other: &Env) -> bool {
        env.join(other)
    }

    ghost laws = { λ it. qualifiers_lawful it.analysis.now.program it.analysis.now.sig it.analysis.now.body it.stays };
}
