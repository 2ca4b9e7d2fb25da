//! Laws over lists of names.
ghost use Rattle.std.specs.Prelude.{◌≡◌, List, ℕ, Some, slice_get};
ghost use Rattle.jn_trees.specs.Names.{with_name, number_in, AreDistinct};

/// The number that a text gets is that of the text, and distinct texts stay distinct.
pub fn names_are_found_by_their_numbers()
    ensures found { (names : List (List ℕ)) (text : List ℕ)
        → slice_get (with_name names text) (number_in names text) ≡ Some text }
    ensures distinct { (names : List (List ℕ)) (text : List ℕ) → AreDistinct names
        → AreDistinct (with_name names text) }
{}
