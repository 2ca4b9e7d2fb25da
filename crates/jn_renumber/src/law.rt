//! Laws of names that are merged, and of trees that are renumbered.
ghost use Rattle.std.specs.Prelude.{◌≡◌, ◌++◌, ℕ, List, map};
ghost use Rattle.jn_base.specs.declared.number.FileNo.{FileNo};
ghost use Rattle.jn_base.specs.declared.number.NameNo.{NameNo};
ghost use Rattle.jn_base.specs.declared.place.Row.{Row};
ghost use Rattle.jn_trees.specs.declared.token.Token.{Token};
ghost use Rattle.jn_trees.specs.Names.{number_in, with_name};
ghost use Rattle.jn_trees.specs.Pieces.{IsFile, IsSyntaxRow};
ghost use Rattle.jn_trees.specs.Spelling.{spell_file};
ghost use Rattle.jn_trees.specs.Trees.{SourceTree};
ghost use Rattle.jn_trees.specs.WellFormed.{GoodFile};
ghost use Rattle.jn_places.specs.Forget.{forget_file};
ghost use Rattle.jn_places.specs.Placed.{PlacedFile};
ghost use Rattle.jn_places.specs.Places.{IsPlacedFile};
ghost use Rattle.jn_renumber.specs.ByNumbers.{file_by};
ghost use Rattle.jn_renumber.specs.Merged.{merged, merged_numbers};
ghost use Rattle.jn_renumber.specs.Names.{entry};
ghost use Rattle.jn_renumber.specs.Renumbered.{renumbered_file};
ghost use Rattle.jn_renumber.specs.Tokens.{kind_by, tokens_by};

/// A tree that is renumbered is the tree of the renumbered tokens: it forgets its places as the tree without places is renumbered,
/// its spelling is the renumbered one, it is well formed if the tree was, and it stands at the same places.
pub fn renumbered_trees_are_those_of_the_tokens()
    ensures forgotten { (numbers : List NameNo) (file : PlacedFile)
        → forget_file (renumbered_file numbers file) ≡ file_by numbers (forget_file file) }
    ensures spelled { (numbers : List NameNo) (tree : SourceTree)
        → spell_file (file_by numbers tree) ≡ map (kind_by numbers) (spell_file tree) }
    ensures good { (numbers : List NameNo) (tree : SourceTree) → GoodFile tree
        → GoodFile (file_by numbers tree) }
    ensures file { (numbers : List NameNo) (tokens : List Token) (tree : SourceTree)
        → IsFile tokens tree → IsFile (tokens_by numbers tokens) (file_by numbers tree) }
    ensures placed { (numbers : List NameNo) (tokens : List Token) (file : PlacedFile)
        → IsPlacedFile tokens file
        → IsPlacedFile (tokens_by numbers tokens) (renumbered_file numbers file) }
{}

/// Where the new numbers can be undone, the renumbered tokens have the syntax row that the tokens have.
pub fn syntax_rows_stay()
    ensures { (numbers back : List NameNo) (file : FileNo) (end : ℕ) (tokens : List Token)
        (row : Row)
        → tokens_by back (tokens_by numbers tokens) ≡ tokens → IsSyntaxRow file end tokens row
        → IsSyntaxRow file end (tokens_by numbers tokens) row }
{}

/// What a list of its own calls a text, the list of all calls by the entry of that number once the own one is merged into it;
/// merging after one more name is merging and then adding that name; and names that all have stay theirs.
pub fn merged_names_are_found_by_their_entries()
    ensures entry { (all own more : List (List ℕ)) (text : List ℕ) (number : NameNo)
        → number.0 ≡ number_in own text
        → (entry (merged_numbers all (with_name own text ++ more)) number).0
        ≡ number_in (merged all own) text }
    ensures with { (all own : List (List ℕ)) (text : List ℕ)
        → merged all (with_name own text) ≡ with_name (merged all own) text }
    ensures known { (all own known : List (List ℕ)) → merged all known ≡ all
        → merged (merged all own) known ≡ merged all own }
{}
