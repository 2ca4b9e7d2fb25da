//! Laws of the grammar of expressions.
ghost use Rattle.std.specs.Prelude.{◌≡◌, ◌≤◌, ◌++◌, List, ℕ};
ghost use Rattle.jn_trees.specs.declared.token.TokenKind.{TokenKind};
ghost use Rattle.jn_trees.specs.Trees.{Tree};
ghost use Rattle.jn_trees.specs.Spelling.{spell};
ghost use Rattle.jn_trees.specs.WellFormed.{Good, nesting};
ghost use Rattle.jn_trees.specs.Longest.{Try, IsLongest};
ghost use Rattle.jn_parse_expr_law.specs.Follow.{Reads};
ghost use Rattle.jn_parse_expr_law.specs.Reader.{reader};

/// Each token list has at most one well-formed expression; the reader gives the longest one.
pub fn expressions_are_read_once()
    ensures one_tree { (t u : Tree) → Good t → Good u → spell t ≡ spell u → t ≡ u }
    ensures longest { (d : ℕ) (ts : List TokenKind) → IsLongest d ts ((reader d).whole ts) }
    ensures unique { (d : ℕ) (ts : List TokenKind) (a b : Try) → IsLongest d ts a → IsLongest d ts b
        → a ≡ b }
    ensures reads { (d : ℕ) (t : Tree) (rest : List TokenKind) → Good t → nesting t ≤ d
        → Reads t rest ((reader d).whole (spell t ++ rest)) }
{}
