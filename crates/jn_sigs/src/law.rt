//! Laws of packed words.
ghost use Rattle.std.specs.Prelude.{◌≡◌, ◌≢◌, ◌<◌, ℕ, List, length, slice_index_or};
ghost use Rattle.jn_quals.specs.Qualifier.{Qualifier};
ghost use Rattle.jn_quals.specs.Order.{no_qual, join};
ghost use Rattle.jn_sigs.specs.Packed.{ArePacked, raised, unpacked};

/// Words hold as many qualifiers as there are slots, and the words of a list are unique.
pub fn words_are_unique()
    ensures slots { (words : List ℕ) (slots : ℕ) → length (unpacked words slots) ≡ slots }
    ensures one { (words others : List ℕ) (slots : ℕ) → ArePacked words slots
        → ArePacked others slots → unpacked words slots ≡ unpacked others slots → words ≡ others }
{}

/// What is raised is joined to what stood there, and nothing else changes.
pub fn raise_joins()
    ensures slots { (quals : List Qualifier) (i : ℕ) (q : Qualifier)
        → length (raised quals i q) ≡ length quals }
    ensures same { (quals : List Qualifier) (i : ℕ) (q : Qualifier) → i < length quals
        → slice_index_or (raised quals i q) i no_qual ≡ join (slice_index_or quals i no_qual) q }
    ensures others { (quals : List Qualifier) (i other : ℕ) (q : Qualifier) → i ≢ other
        → slice_index_or (raised quals i q) other no_qual ≡ slice_index_or quals other no_qual }
{}
