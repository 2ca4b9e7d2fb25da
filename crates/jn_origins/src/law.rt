//! Laws of origins.
ghost use Rattle.std.specs.Prelude.{◌≡◌, ◌<◌, ◌∷◌, ℕ, List, [], Some, None, length, slice_index_or};
ghost use Rattle.jn_quals.specs.Qualifier.{Qualifier};
ghost use Rattle.jn_quals.specs.Order.{no_qual, null_or_committed};
ghost use Rattle.jn_points.specs.declared.program.Program.{Program};
ghost use Rattle.jn_env.specs.Order.{Table};
ghost use Rattle.jn_transfer.specs.Least.{IsLeastTable};
ghost use Rattle.jn_tables_law.specs.Inferable.{IsInferable};
ghost use Rattle.jn_inference_law.specs.Solution.{IsLeastSignature};
ghost use Rattle.jn_inference_law.specs.OpenExamples.{widened, escaping};
ghost use Rattle.jn_reasons_law.specs.Items.{Stands};
ghost use Rattle.jn_reasons_law.specs.Chains.{HasChain};
ghost use Rattle.jn_reasons_law.specs.declared.item.Item.{Item};
ghost use Rattle.jn_reasons_law.specs.declared.item.Bit.TheVariants.{Nullable, Free};
ghost use Rattle.jn_reasons_law.specs.declared.item.Item.TheVariants.{AtSlot, AtRegister};
ghost use Rattle.jn_reasons_law.specs.declared.item.Place.TheVariants.{OfMethod, OfBody, OfPoint};
ghost use Rattle.jn_reasons.specs.Listed.{cause_at, causes};
ghost use Rattle.jn_origins.specs.Standing.{AreSized, standing};
ghost use Rattle.jn_origins.specs.Worked.{free_tables};

use jn_reasons_law::law::each_bit_has_a_chain;

/// Least tables have environments of their bodies: so they are asked for no more.
pub fn least_tables_are_sized()
    ensures { (P : Program) (s : List Qualifier) (tables : List Table) → IsInferable P
        → ((b : ℕ) → b < length P.bodies → IsLeastTable P s b (slice_index_or tables b []))
        → AreSized P tables }
{}

/// What stands in the least signature, or in the least tables of all bodies under it, has a chain of causes: so `jn_chain::first_chain` may be
/// asked for it.
pub fn what_stands_has_a_chain()
    ensures { (P : Program) (s : List Qualifier) (tables : List Table) → IsInferable P
        → IsLeastSignature P s → length tables ≡ length P.bodies
        → ((b : ℕ) → b < length P.bodies → IsLeastTable P s b (slice_index_or tables b []))
        → (x : Item) → Stands s tables x → HasChain P s tables x }
{
    each_bit_has_a_chain();
}

/// Worked cases. A parameter may be null since that of the method that it overrides may. In a constructor that calls a method of its own, the
/// object is under construction before the call by the constructor's head, and after the call since it was before.
pub fn causes_of_worked_cases()
    ensures overrides { standing (no_qual ∷ null_or_committed ∷ no_qual ∷ no_qual ∷ []) []
        (causes widened (no_qual ∷ null_or_committed ∷ no_qual ∷ no_qual ∷ []) []
        (AtSlot 3 Nullable))
        ≡ cause_at (OfMethod 3) (Some (AtSlot 1 Nullable)) ∷ [] }
    ensures enters { standing (no_qual ∷ no_qual ∷ []) free_tables
        (causes escaping (no_qual ∷ no_qual ∷ []) free_tables (AtRegister 0 0 0 Free))
        ≡ cause_at (OfBody 0) None ∷ [] }
    ensures carried { standing (no_qual ∷ no_qual ∷ []) free_tables
        (causes escaping (no_qual ∷ no_qual ∷ []) free_tables (AtRegister 0 1 0 Free))
        ≡ cause_at (OfPoint 0 0) (Some (AtRegister 0 0 0 Free)) ∷ [] }
{}
