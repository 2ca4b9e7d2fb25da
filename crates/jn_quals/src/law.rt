//! Laws of qualifiers and packed words.
ghost use Rattle.std.specs.Prelude.{◌≡◌, ◌<◌, ◌≤◌, ◌+◌, ◌*◌, ◌^◌, ℕ, IsTrue};
ghost use Rattle.jn_quals.specs.Qualifier.{Qualifier};
ghost use Rattle.jn_quals.specs.Order.{join, within};
ghost use Rattle.jn_quals.specs.Word.{unpack, pack};

/// Inclusion is a partial order.
pub fn within_is_an_order()
    ensures reflexive { (a : Qualifier) → IsTrue (within a a) }
    ensures antisymmetric { (a b : Qualifier) → IsTrue (within a b) → IsTrue (within b a) → a ≡ b }
    ensures transitive { (a b c : Qualifier) → IsTrue (within a b) → IsTrue (within b c)
        → IsTrue (within a c) }
{}

/// The join is the least that both are within.
pub fn join_is_least()
    ensures left { (a b : Qualifier) → IsTrue (within a (join a b)) }
    ensures right { (a b : Qualifier) → IsTrue (within b (join a b)) }
    ensures least { (a b c : Qualifier) → IsTrue (within a c) → IsTrue (within b c)
        → IsTrue (within (join a b) c) }
{}

/// What is packed is joined to what stood at its index, and nothing else changes.
pub fn pack_joins()
    ensures same { (word index : ℕ) (q : Qualifier)
        → unpack (pack word index q) index ≡ join (unpack word index) q }
    ensures others { (word index other : ℕ) (q : Qualifier) → (index ≡ other → ⊥)
        → unpack (pack word index q) other ≡ unpack word other }
    ensures small { (word index width : ℕ) (q : Qualifier) → word < 2 ^ width
        → 3 * index + 3 ≤ width → pack word index q < 2 ^ width }
{}
