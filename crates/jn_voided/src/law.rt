//! Laws of facts that something made void.
ghost use Rattle.std.specs.Prelude.{◌≡◌, ℕ, List, Option};
ghost use Rattle.jn_quals.specs.Qualifier.{Qualifier};
ghost use Rattle.jn_points.specs.declared.program.Program.{Program};
ghost use Rattle.jn_env.specs.Keys.{Key};
ghost use Rattle.jn_env.specs.Order.{Table};
ghost use Rattle.jn_voided.specs.declared.search.Voided.{Voided};
ghost use Rattle.jn_voided.specs.Voided.{IsFound};

/// There is one first pair, or none.
pub fn first_pairs_are_unique()
    ensures { (P : Program) (s : List Qualifier) (b : ℕ) (t : Table) (k : Key) (read : ℕ) (one other : Option Voided)
        → IsFound P s b t k read one → IsFound P s b t k read other → one ≡ other }
{}
