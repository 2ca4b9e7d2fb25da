//! Laws of the first phases.
ghost use Rattle.std.specs.Prelude.{◌≡◌, List, ℕ};
ghost use Rattle.jn_base.specs.declared.number.FileNo.{FileNo};
ghost use Rattle.jn_base.specs.declared.place.Row.{Row};
ghost use Rattle.jn_trees.specs.declared.token.Token.{Token};
ghost use Rattle.jn_places.specs.Placed.{PlacedFile};
ghost use Rattle.jn_places.specs.Places.{IsPlacedFile};
ghost use Rattle.jn_lexer.specs.Lexed.{Lexed};
ghost use Rattle.jn_front.specs.declared.source.SourceFile.{SourceFile};
ghost use Rattle.jn_front.specs.Phases.{AreParsed, FrontRows};

use jn_lexer::law::texts_have_one_reading;
use jn_parse_decl_law::law::files_have_one_outcome;
use jn_parse_placed::law::files_have_one_placed_tree;

/// Files have the rows of one phase, in one way, or their names, tokens and trees with places, in one way, and never both.
pub fn files_have_one_front()
    ensures rows { (files : List SourceFile) (rows others : List Row) → FrontRows files rows
        → FrontRows files others → rows ≡ others }
    ensures parsed { (files : List SourceFile) (names others : List (List ℕ))
        (tokens us : List (List Token)) (trees vs : List PlacedFile)
        → AreParsed files names tokens trees → AreParsed files others us vs
        → (names ≡ others) × (tokens ≡ us) × (trees ≡ vs) }
    ensures apart { (files : List SourceFile) (names : List (List ℕ)) (tokens : List (List Token))
        (trees : List PlacedFile) (rows : List Row)
        → AreParsed files names tokens trees → FrontRows files rows → ⊥ }
{
    texts_have_one_reading();
    files_have_one_outcome();
    files_have_one_placed_tree();
}

/// A text has at most one tree with places.
pub fn texts_have_one_placed_tree()
    ensures { (file : FileNo) (text : List ℕ) (old : List (List ℕ)) (ts us : List Token)
        (ns ms : List (List ℕ)) (one other : PlacedFile)
        → Lexed file text old ts ns → Lexed file text old us ms → IsPlacedFile ts one
        → IsPlacedFile us other → one ≡ other }
{
    texts_have_one_reading();
    files_have_one_placed_tree();
}
