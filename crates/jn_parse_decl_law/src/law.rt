//! Laws of the grammar of files.
ghost use Rattle.std.specs.Prelude.{◌≡◌, ◌-◌, ◌<◌, ◌++◌, ℕ, List, [], length, Some, None};
ghost use Rattle.jn_base.specs.declared.number.FileNo.{FileNo};
ghost use Rattle.jn_base.specs.declared.place.Row.{Row};
ghost use Rattle.jn_trees.specs.declared.token.Token.{Token};
ghost use Rattle.jn_trees.specs.declared.token.TokenKind.{TokenKind};
ghost use Rattle.jn_trees.specs.Trees.{SourceTree};
ghost use Rattle.jn_trees.specs.Spelling.{spell_file};
ghost use Rattle.jn_trees.specs.WellFormed.{GoodFile};
ghost use Rattle.jn_trees.specs.Pieces.{Piece, Around, AtStart, May, behind, pieces, spell_piece, spell_pieces, InOrder, IsPlace, IsFile, IsSyntaxRow};
ghost use Rattle.jn_parse_decl_law.specs.Runs.{SoundPiece, FullPiece};
ghost use Rattle.jn_parse_decl_law.specs.Built.{Built, nothing, add, add_all, finished};
ghost use Rattle.jn_parse_decl_law.specs.TreePieces.{tree_pieces};
ghost use Rattle.jn_parse_decl_law.specs.PieceReader.{piece_reader};
ghost use Rattle.jn_parse_decl_law.specs.Progress.{file_run, no_else_first, IsReached};

/// Reading pieces again and again ends at the place of the syntax row, the greatest one before which the tokens are pieces in order.
pub fn files_are_read_by_pieces()
    ensures place { (ts : List TokenKind)
        → IsPlace pieces AtStart ts (length ts - length (file_run ts).1) }
    ensures one_place { (ts : List TokenKind) (m n : ℕ) → IsPlace pieces AtStart ts m
        → IsPlace pieces AtStart ts n → m ≡ n }
{}

/// How a loop over pieces gets from the start to the end: nothing is built at first, each piece that is read takes it further, and where none is read it stands at the place of the syntax row.
pub fn pieces_are_read_in_turn()
    ensures begun { (ts : List TokenKind) → IsReached ts nothing AtStart ts }
    ensures more { (ts : List TokenKind) (built : Built) (around : Around) (rest : List TokenKind)
        (piece : Piece) (left : List TokenKind)
        → IsReached ts built around rest → piece_reader around rest ≡ Some (piece, left)
        → IsReached ts (add built piece) (behind around piece) left }
    ensures shorter { (around : Around) (rest : List TokenKind) (piece : Piece)
        (left : List TokenKind)
        → piece_reader around rest ≡ Some (piece, left) → length left < length rest }
    ensures stops { (ts : List TokenKind) (built : Built) (around : Around) (rest : List TokenKind)
        → IsReached ts built around rest → piece_reader around rest ≡ None
        → IsPlace pieces AtStart ts (length ts - length rest) }
{}

/// A loop that has read all tokens and leaves nothing open has built the well-formed file that spells them; and where it stops otherwise there is none.
pub fn pieces_build_files()
    ensures found { (ts : List TokenKind) (built : Built) (around : Around) (tree : SourceTree)
        → IsReached ts built around [] → finished built ≡ Some tree
        → GoodFile tree × (ts ≡ spell_file tree) }
    ensures only { (ts : List TokenKind) (built : Built) (around : Around) (rest : List TokenKind)
        → IsReached ts built around rest → piece_reader around rest ≡ None → (tree : SourceTree)
        → GoodFile tree → ts ≡ spell_file tree → (rest ≡ []) × (finished built ≡ Some tree) }
    ensures none { (ts : List TokenKind) (built : Built) (around : Around) (rest : List TokenKind)
        → IsReached ts built around rest → piece_reader around rest ≡ None
        → (rest ≡ [] → finished built ≡ None) → (tree : SourceTree) → GoodFile tree
        → ts ≡ spell_file tree → ⊥ }
{}

/// What the reader of one piece gives may stand there and spells the front; a piece that may stand there is read, or one that goes further, and just it where no `else` follows.
pub fn a_piece_is_read_once()
    ensures sound { (around : Around) (ts : List TokenKind)
        → SoundPiece pieces around ts (piece_reader around ts) }
    ensures full { (around : Around) (piece : Piece) (rest : List TokenKind) → May around piece
        → FullPiece pieces no_else_first piece rest
        (piece_reader around (spell_piece piece ++ rest)) }
{}

/// A well-formed file is its pieces in order, and pieces in order that leave nothing open are those of a well-formed file; so a token list is the spelling of at most one.
pub fn files_are_pieces_in_order()
    ensures in_order { (tree : SourceTree) → GoodFile tree
        → InOrder pieces AtStart (tree_pieces tree) }
    ensures spelled { (tree : SourceTree)
        → spell_pieces pieces (tree_pieces tree) ≡ spell_file tree }
    ensures built { (tree : SourceTree)
        → finished (add_all nothing (tree_pieces tree)) ≡ Some tree }
    ensures closed { (row : List Piece) (tree : SourceTree) → InOrder pieces AtStart row
        → finished (add_all nothing row) ≡ Some tree → GoodFile tree × (row ≡ tree_pieces tree) }
    ensures one_tree { (t u : SourceTree) → GoodFile t → GoodFile u → spell_file t ≡ spell_file u
        → t ≡ u }
{}

/// The tokens of a file have one tree or one syntax row, and never both.
pub fn files_have_one_outcome()
    ensures one_file { (tokens : List Token) (t u : SourceTree) → IsFile tokens t → IsFile tokens u
        → t ≡ u }
    ensures one_row { (file : FileNo) (end : ℕ) (tokens : List Token) (a b : Row)
        → IsSyntaxRow file end tokens a → IsSyntaxRow file end tokens b → a ≡ b }
    ensures not_both { (file : FileNo) (end : ℕ) (tokens : List Token) (row : Row)
        (tree : SourceTree)
        → IsSyntaxRow file end tokens row → IsFile tokens tree → ⊥ }
{}
