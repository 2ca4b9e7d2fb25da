//! Laws over the definitions of tokens and faults.
ghost use Rattle.std.specs.Prelude.{◌≡◌, ◌≤◌, ◌+◌, List, ℕ, length};
ghost use Rattle.jn_base.specs.declared.number.FileNo.{FileNo};
ghost use Rattle.jn_base.specs.declared.place.Row.{Row};
ghost use Rattle.jn_trees.specs.declared.token.Token.{Token};
ghost use Rattle.jn_lexer.specs.Faults.{LexicalFault};
ghost use Rattle.jn_lexer.specs.Lexed.{Lexed};

/// A text has at most one list of tokens, one that has such a list has no fault, and a text has at most one fault.
pub fn texts_have_one_reading()
    ensures one { (file : FileNo) (text : List ℕ) (old : List (List ℕ)) (ts us : List Token)
        (ns ms : List (List ℕ))
        → Lexed file text old ts ns → Lexed file text old us ms → (ts ≡ us) × (ns ≡ ms) }
    ensures faultless { (file : FileNo) (text : List ℕ) (old : List (List ℕ)) (ts : List Token)
        (ns : List (List ℕ)) (row : Row)
        → Lexed file text old ts ns → LexicalFault file text row → ⊥ }
    ensures one_fault { (file : FileNo) (text : List ℕ) (row other : Row)
        → LexicalFault file text row → LexicalFault file text other → row ≡ other }
{}

/// A text has at most one token for each of its bytes, and adds at most so many names.
pub fn texts_have_few_tokens()
    ensures tokens { (file : FileNo) (text : List ℕ) (old : List (List ℕ)) (tokens : List Token)
        (new : List (List ℕ))
        → Lexed file text old tokens new → length tokens ≤ length text }
    ensures names { (file : FileNo) (text : List ℕ) (old : List (List ℕ)) (tokens : List Token)
        (new : List (List ℕ))
        → Lexed file text old tokens new → length new ≤ length old + length text }
{}
