//! Laws of texts that are lexed with names of their own.
ghost use Rattle.std.specs.Prelude.{◌≡◌, ℕ, List};
ghost use Rattle.jn_base.specs.declared.number.FileNo.{FileNo};
ghost use Rattle.jn_base.specs.declared.place.Row.{Row};
ghost use Rattle.jn_known.specs.Known.{known_names};
ghost use Rattle.jn_trees.specs.declared.token.Token.{Token};
ghost use Rattle.jn_trees.specs.Pieces.{IsSyntaxRow};
ghost use Rattle.jn_places.specs.Placed.{PlacedFile};
ghost use Rattle.jn_places.specs.Places.{IsPlacedFile};
ghost use Rattle.jn_lexer.specs.Lexed.{Lexed};
ghost use Rattle.jn_renumber.specs.Merged.{merged, merged_numbers};
ghost use Rattle.jn_renumber.specs.Renumbered.{renumbered_file};
ghost use Rattle.jn_renumber.specs.Tokens.{tokens_by};

/// A text that is lexed from the known names on has the tokens and names that it has from all names on, once its own names are
/// merged into these and its tokens renumbered by their new numbers, where all names have the known ones; and no other. All that
/// grow from the known names have them.
pub fn own_names_can_be_merged()
    ensures lexed { (file : FileNo) (text : List ℕ) (known all own : List (List ℕ))
        (tokens : List Token)
        → merged all known ≡ all → Lexed file text known tokens own
        → Lexed file text all (tokens_by (merged_numbers all own) tokens) (merged all own) }
    ensures only { (file : FileNo) (text : List ℕ) (known all own new : List (List ℕ))
        (tokens others : List Token)
        → merged all known ≡ all → Lexed file text known tokens own → Lexed file text all others new
        → (others ≡ tokens_by (merged_numbers all own) tokens) × (new ≡ merged all own) }
    ensures begun { merged known_names known_names ≡ known_names }
    ensures kept { (all own known : List (List ℕ)) → merged all known ≡ all
        → merged (merged all own) known ≡ merged all own }
{}

/// The tree that is parsed of a text's own tokens is, renumbered, that of the tokens from all names on, with its places; and the
/// syntax row of the own tokens is theirs.
pub fn own_trees_can_be_renumbered()
    ensures parsed { (file : FileNo) (text : List ℕ) (known all own : List (List ℕ))
        (tokens : List Token) (tree : PlacedFile)
        → merged all known ≡ all → Lexed file text known tokens own → IsPlacedFile tokens tree
        → Lexed file text all (tokens_by (merged_numbers all own) tokens) (merged all own)
        × IsPlacedFile (tokens_by (merged_numbers all own) tokens)
        (renumbered_file (merged_numbers all own) tree) }
    ensures undone { (file : FileNo) (text : List ℕ) (known all own : List (List ℕ))
        (tokens : List Token)
        → merged all known ≡ all → Lexed file text known tokens own
        → tokens_by (merged_numbers own (merged all own))
        (tokens_by (merged_numbers all own) tokens)
        ≡ tokens }
    ensures row { (file : FileNo) (text : List ℕ) (known all own : List (List ℕ))
        (tokens : List Token) (end : ℕ) (row : Row)
        → merged all known ≡ all → Lexed file text known tokens own
        → IsSyntaxRow file end tokens row
        → IsSyntaxRow file end (tokens_by (merged_numbers all own) tokens) row }
{}
