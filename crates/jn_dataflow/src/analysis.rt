//! What a dataflow analysis gives.
ghost use Rattle.std.specs.Prelude.{◌≡◌, ◌<◌, IfOk, IsTrue, true, false};
ghost use Rattle.jn_dataflow.specs.Problem.{Problem, IsLawful};

use jn_base::OutOfMemory;
use std::alloc::Global;

/// Environments at the points of a body, which edges carry on, and which are joined where edges meet. Contracts see an
/// analysis as a `Problem`; its laws (`IsLawful`) say that environments form a semilattice of bounded height, and that no
/// edge leaves the body.
pub trait Dataflow {
    /// What is known at a point.
    type Env: Drop;

    /// The analysis as plain data.
    ghost describe: { Self → Problem Self.Env };

    /// How many points there are. They are numbered from 0, the entry.
    fn points(&self) -> usize
        ensures { result ≡ (describe self.now).count };

    /// What is known at the entry.
    ///
    /// # Errors
    /// No memory was found.
    fn entry(&self, alloc: Global) -> Result<Self::Env, OutOfMemory>
        ensures { IfOk result (λ env. env ≡ (describe self.now).entry) };

    /// An equal environment.
    ///
    /// # Errors
    /// No memory was found.
    fn copy(&self, alloc: Global, env: &Self::Env) -> Result<Self::Env, OutOfMemory>
        ensures { IfOk result (λ same. same ≡ env.now) };

    /// For each edge of a point its target and the environment after it.
    ///
    /// # Errors
    /// No memory was found.
    fn edges(
        &self,
        alloc: Global,
        at: usize,
        env: &Self::Env,
    ) -> Result<Vec<(u32, Self::Env)>, OutOfMemory>
        requires there { at < (describe self.now).count }
        requires valid { IsTrue ((describe self.now).valid env.now) }
        ensures { IfOk result (λ edges. edges.items ≡ (describe self.now).edges at env.now) };

    /// Joins the other environment into this one. Gives whether that changed it.
    fn join(&self, env: &mut Self::Env, other: &Self::Env) -> bool
        requires valid { IsTrue ((describe self.now).valid env.old) }
        requires other { IsTrue ((describe self.now).valid other.now) }
        ensures joined { env.new ≡ (describe self.now).join env.old other.now }
        ensures same { result ≡ false → env.new ≡ env.old }
        ensures changed { result ≡ true → env.new ≡ env.old → ⊥ };

    /// The problem meets the laws.
    ghost laws: { (it : Self) → IsLawful (describe it) };
}
