//! Laws of contributions.
ghost use Rattle.std.specs.Prelude.{List, [], true, ℕ, ◌≡◌};
ghost use Rattle.jn_contrib.specs.Sends.{body_sends};
ghost use Rattle.jn_contrib.specs.SentBy.{IsSentBy};
ghost use Rattle.jn_env.specs.Order.{Table};
ghost use Rattle.jn_points.specs.Lookup.{method_at};
ghost use Rattle.jn_points.specs.Members.{is_pair};
ghost use Rattle.jn_points.specs.declared.program.Program.{Program};
ghost use Rattle.jn_quals.specs.Qualifier.{Qualifier};
ghost use Rattle.jn_sigs.specs.Signature.{OnlyPrivateInferred};
ghost use Rattle.jn_transfer.specs.Closing.{AllTargetsInferred, HasNoTargets, IsClosed, IsClosedUnderBodies, NoPrivatePairs, PairFits};
ghost use Rattle.jn_transfer.specs.Contributions.{IsSent};
ghost use Rattle.jn_transfer.specs.Pairs.{pair_sends};
ghost use Rattle.jn_transfer.specs.Rules.{pair_rows};

/// A body's contributions are exactly those of its reached points.
pub fn contributions_are_of_reached_points()
    ensures none_else { (P : Program) (b : ℕ) (t : Table) (x : ℕ × Qualifier)
        → IsSent x (body_sends P b t) → IsSentBy P b t x }
    ensures all { (P : Program) (b : ℕ) (t : Table) (x : ℕ × Qualifier) → IsSentBy P b t x
        → IsSent x (body_sends P b t) }
{}

/// Under a closed signature the parameters, receiver and result of an overriding pair fit wherever their target is inferred. So a row of a
/// pair stands only where a target is written.
pub fn closed_pairs_fit()
    ensures fits { (P : Program) (s : List Qualifier) (m k : ℕ) → IsClosed P s
        → is_pair P m k ≡ true → PairFits P s (method_at P m) (method_at P k) }
    ensures no_rows { (P : Program) (s : List Qualifier) (m k : ℕ) → IsClosed P s
        → AllTargetsInferred P (method_at P m) (method_at P k) → pair_rows P s m k ≡ [] }
{}

/// Where no pair has an inferred target, overriding methods send nothing, and a signature is closed where it is closed under what the
/// bodies send. So it is where private methods alone have inferred slots, and none of them is of a pair.
pub fn without_targets_bodies_alone_send()
    ensures nothing { (P : Program) (s : List Qualifier) (m : ℕ) → HasNoTargets P
        → pair_sends P s m ≡ [] }
    ensures same { (P : Program) (s : List Qualifier) → HasNoTargets P → IsClosedUnderBodies P s
        → IsClosed P s }
    ensures private_ones { (P : Program) → OnlyPrivateInferred P → NoPrivatePairs P
        → HasNoTargets P }
{}
