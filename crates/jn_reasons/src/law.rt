//! Laws of the list of causes.
ghost use Rattle.std.specs.Prelude.{◌≡◌, ℕ, List, Option};
ghost use Rattle.jn_quals.specs.Qualifier.{Qualifier};
ghost use Rattle.jn_points.specs.declared.program.Program.{Program};
ghost use Rattle.jn_env.specs.Order.{Table};
ghost use Rattle.jn_reasons_law.specs.declared.item.Item.{Item};
ghost use Rattle.jn_reasons_law.specs.declared.item.Place.{Place};
ghost use Rattle.jn_reasons_law.specs.Chains.{IsCause};
ghost use Rattle.jn_reasons.specs.Listed.{IsListed, cause_at, causes};

/// The list of an item's causes has each of them, and nothing else.
pub fn causes_are_listed()
    ensures all { (P : Program) (s : List Qualifier) (tables : List Table) (x : Item) (p : Place)
        (z : Option Item)
        → IsCause P s tables x p z → IsListed (cause_at p z) (causes P s tables x) }
    ensures none_else { (P : Program) (s : List Qualifier) (tables : List Table) (x : Item)
        (p : Place) (z : Option Item)
        → IsListed (cause_at p z) (causes P s tables x) → IsCause P s tables x p z }
{}
