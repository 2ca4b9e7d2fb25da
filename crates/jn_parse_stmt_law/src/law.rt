//! Laws of the grammar of statements.
ghost use Rattle.std.specs.Prelude.{◌≡◌, ◌≤◌, ◌++◌, List, ◌∷◌, ℕ, Some, true, false};
ghost use Rattle.jn_base.specs.declared.number.NameNo.{NameNo};
ghost use Rattle.jn_trees.specs.declared.context.Context.{Context};
ghost use Rattle.jn_trees.specs.declared.token.TokenKind.{TokenKind};
ghost use Rattle.jn_trees.specs.Trees.{DeclaratorTree, LocalMark, LocalTree, ParameterTree, Statement, TypeUseTree};
ghost use Rattle.jn_trees.specs.Spelling.{spell_annotations, spell_local, spell_marks, spell_parameter, spell_statement, spell_type_use};
ghost use Rattle.jn_trees.specs.WellFormed.{final_once, GoodDeclarators, GoodLocal, GoodStatement, nesting_declarators, nesting_local, nesting_statement};
ghost use Rattle.jn_trees.specs.Longest.{IsLongestStatement, TryStatement};
ghost use Rattle.jn_parse_expr_law.specs.Reader.{reader};
ghost use Rattle.jn_parse_stmt_law.specs.Parts.{read_annotations, read_declarators, read_local, read_marks, read_parameter, read_type_use};
ghost use Rattle.jn_parse_stmt_law.specs.Fronts.{EndsDeclarators, ReadsStatement, SoundDeclarators, SoundLocal, SoundParameter, Spelled, SpelledIfRead, spell_declarators, starts_annotation, starts_brackets, starts_mark};
ghost use Rattle.jn_parse_stmt_law.specs.StatementReader.{statement_reader};

/// What is read of a part spells the front; and what a part spells is read, where nothing goes on with it.
pub fn parts_are_read_once()
    ensures annotations_spelled { (ts : List TokenKind)
        → Spelled spell_annotations ts (read_annotations ts) }
    ensures annotations { (names : List NameNo) (rest : List TokenKind)
        → starts_annotation rest ≡ false
        → read_annotations (spell_annotations names ++ rest) ≡ (names, rest) }
    ensures marks_spelled { (ts : List TokenKind) → Spelled spell_marks ts (read_marks ts) }
    ensures marks { (ms : List LocalMark) (rest : List TokenKind) → starts_mark rest ≡ false
        → read_marks (spell_marks ms ++ rest) ≡ (ms, rest) }
    ensures type_use_spelled { (ts : List TokenKind)
        → SpelledIfRead spell_type_use ts (read_type_use ts) }
    ensures type_use { (u : TypeUseTree) (rest : List TokenKind) → starts_brackets rest ≡ false
        → read_type_use (spell_type_use u ++ rest) ≡ Some (u, rest) }
    ensures parameter_spelled { (ts : List TokenKind) → SoundParameter ts (read_parameter ts) }
    ensures parameter { (p : ParameterTree) (rest : List TokenKind) → final_once p.marks ≡ true
        → read_parameter (spell_parameter p ++ rest) ≡ Some (p, rest) }
    ensures declarators_spelled { (d : ℕ) (ts : List TokenKind)
        → SoundDeclarators d ts (read_declarators (reader d).whole ts) }
    ensures declarators { (d : ℕ) (x : DeclaratorTree) (more : List DeclaratorTree)
        (rest : List TokenKind)
        → GoodDeclarators (x ∷ more) → nesting_declarators (x ∷ more) ≤ d → EndsDeclarators rest
        → read_declarators (reader d).whole (spell_declarators (x, more) ++ rest)
        ≡ Some ((x, more), rest) }
    ensures local_spelled { (d : ℕ) (ts : List TokenKind)
        → SoundLocal d ts (read_local (reader d).whole ts) }
    ensures local { (d : ℕ) (l : LocalTree) (rest : List TokenKind) → GoodLocal l
        → nesting_local l ≤ d → EndsDeclarators rest
        → read_local (reader d).whole (spell_local l ++ rest) ≡ Some (l, rest) }
{}

/// Each token list has at most one well-formed statement; the reader gives the longest one, and what it gives is all of a statement unless an `else` follows that the statement could take.
pub fn statements_are_read_once()
    ensures one_statement { (c : Context) (s u : Statement) → GoodStatement c s → GoodStatement c u
        → spell_statement s ≡ spell_statement u → s ≡ u }
    ensures longest { (c : Context) (d : ℕ) (ts : List TokenKind)
        → IsLongestStatement c d ts (statement_reader d c ts) }
    ensures unique { (c : Context) (d : ℕ) (ts : List TokenKind) (a b : TryStatement)
        → IsLongestStatement c d ts a → IsLongestStatement c d ts b → a ≡ b }
    ensures reads { (c : Context) (d : ℕ) (s : Statement) (rest : List TokenKind)
        → GoodStatement c s → nesting_statement s ≤ d
        → ReadsStatement s rest (statement_reader d c (spell_statement s ++ rest)) }
{}
