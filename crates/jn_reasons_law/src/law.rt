//! Laws of reasons.
ghost use Rattle.std.specs.Prelude.{◌≡◌, ◌<◌, ◌≤◌, ◌+◌, ℕ, Bool, true, List, [], length, Option, Some, None, slice_get, slice_index_or};
ghost use Rattle.jn_quals.specs.Qualifier.{Qualifier};
ghost use Rattle.jn_points.specs.declared.program.Program.{Program};
ghost use Rattle.jn_env.specs.Environment.{Env};
ghost use Rattle.jn_env.specs.Order.{Table};
ghost use Rattle.jn_transfer.specs.Least.{IsLeastTable};
ghost use Rattle.jn_tables_law.specs.Inferable.{IsInferable};
ghost use Rattle.jn_inference_law.specs.Solution.{IsLeastSignature};
ghost use Rattle.jn_reasons_law.specs.declared.item.Item.{Item};
ghost use Rattle.jn_reasons_law.specs.declared.item.Place.{Place};
ghost use Rattle.jn_reasons_law.specs.declared.item.Step.{Step};
ghost use Rattle.jn_reasons_law.specs.Items.{Stands};
ghost use Rattle.jn_reasons_law.specs.Chains.{HasChain, IsCause, IsChain, StandsBefore, StandsIn, SendsBit};
ghost use Rattle.jn_reasons_law.specs.Sources.{IsOneOf, from_pairs, sent_from};
ghost use Rattle.jn_reasons_law.specs.declared.item.Bit.{Bit};
ghost use Rattle.jn_points.specs.declared.point.PointKind.{PointKind};
ghost use Rattle.jn_transfer.specs.Contributions.{is_inferred, kind_sends};
ghost use Rattle.jn_transfer.specs.Pairs.{pair_sends};
ghost use Rattle.jn_reasons_law.specs.Choice.{BeginsAt, IsFirstChain};
ghost use Rattle.jn_reasons_law.specs.Walk.{IsWalk};

use jn_tables_law::law::transfer_is_monotone;

/// Each bit that stands in the least signature, or in a least table under it, has a chain of causes that ends.
pub fn each_bit_has_a_chain()
    ensures { (P : Program) (s : List Qualifier) (tables : List Table) → IsInferable P
        → IsLeastSignature P s → ((b : ℕ) → IsLeastTable P s b (slice_index_or tables b []))
        → (x : Item) → Stands s tables x → HasChain P s tables x }
{
    transfer_is_monotone();
}

/// A search that follows all causes and meets no end has met no bit that has a chain: so a search from a bit that stands meets an end.
pub fn searches_meet_an_end()
    ensures { (P : Program) (s : List Qualifier) (tables : List Table) (seen : Item → Bool)
        → ((x y : Item) (p : Place) → seen x ≡ true → IsCause P s tables x p (Some y)
        → Stands s tables y → seen y ≡ true)
        → ((x : Item) (p : Place) → seen x ≡ true → IsCause P s tables x p None → ⊥)
        → (x : Item) → seen x ≡ true → HasChain P s tables x → ⊥ }
{}

/// At most one chain is the first of the shortest ones, so which is shown doesn't depend on who looked for it.
pub fn first_chains_are_unique()
    ensures { (P : Program) (s : List Qualifier) (tables : List Table) (x : Item)
        (a b : List Step)
        → IsFirstChain P s tables x a → IsFirstChain P s tables x b → a ≡ b }
{}

/// A source of what a point sends to an inferred slot that stands before the point is sent: so no more need be tested of it.
pub fn sources_that_stand_are_sent()
    ensures { (P : Program) (b p : ℕ) (e : Env) (kind : PointKind) (k : ℕ) (bit : Bit)
        (z : Option Item)
        → is_inferred (slice_get P.slots k) ≡ true → StandsBefore e z
        → IsOneOf z (sent_from b p P e k kind bit) → SendsBit k bit (kind_sends P b e kind) }
{}

/// A slot's bit that stands, from which an overriding method would send it to an inferred slot, is sent there.
pub fn sources_of_pairs_that_stand_are_sent()
    ensures { (P : Program) (s : List Qualifier) (m k : ℕ) (bit : Bit) (z : Option Item)
        → is_inferred (slice_get P.slots k) ≡ true → StandsIn s z
        → IsOneOf z (from_pairs P m k bit) → SendsBit k bit (pair_sends P s m) }
{}

/// Where no chain is shorter, one that goes the least way at each step is the first.
pub fn least_ways_make_the_first_chain()
    ensures { (P : Program) (s : List Qualifier) (tables : List Table) (x : Item)
        (steps : List Step)
        → BeginsAt x steps → IsWalk P s tables steps
        → ((others : List Step) → BeginsAt x others → IsChain P s tables others
        → length steps ≤ length others)
        → IsFirstChain P s tables x steps }
{}

/// Where each of n levels has what the items of the level before come from, and none of these comes from the text, each chain from an item of the
/// first level has more than n steps.
pub fn levels_bound_chains()
    ensures { (P : Program) (s : List Qualifier) (tables : List Table) (level : ℕ → Item → Bool)
        (n : ℕ)
        → ((m : ℕ) (x y : Item) (p : Place) → m < n → level m x ≡ true
        → IsCause P s tables x p (Some y) → Stands s tables y → level (m + 1) y ≡ true)
        → ((m : ℕ) (x : Item) (p : Place) → m < n → level m x ≡ true
        → IsCause P s tables x p None → ⊥)
        → (x : Item) (steps : List Step) → level 0 x ≡ true → BeginsAt x steps
        → IsChain P s tables steps → n < length steps }
{}
