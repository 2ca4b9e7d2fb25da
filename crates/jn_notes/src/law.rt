//! Laws of notes.
ghost use Rattle.std.specs.Prelude.{◌≡◌, ℕ, List, None, Some};
ghost use Rattle.jn_base.specs.declared.place.Row.{Row};
ghost use Rattle.jn_quals.specs.Qualifier.{Qualifier};
ghost use Rattle.jn_points.specs.declared.program.Program.{Program};
ghost use Rattle.jn_env.specs.Order.{Table};
ghost use Rattle.jn_reasons_law.specs.declared.item.Item.{Item};
ghost use Rattle.jn_note_words.specs.declared.note.Notes.{Notes};
ghost use Rattle.jn_notes.specs.declared.reads.Sought.{Sought};
ghost use Rattle.jn_notes.specs.Asked.{item_of, sought_of};
ghost use Rattle.jn_notes.specs.Lacking.{IsLacking, TakesAll};
ghost use Rattle.jn_notes.specs.Noted.{AreNotesOf};

use jn_reasons_law::law::first_chains_are_unique;
use jn_tables_law::law::rounds_give_the_least_table;
use jn_voided::law::first_pairs_are_unique;

/// Rows have one list of notes: the least tables are one, the first chain is one, and so is the first pair of what made a fact and what made it void.
pub fn rows_have_one_list_of_notes()
    ensures { (P : Program) (names : List (List ℕ)) (s : List Qualifier) (rows : List Row)
        (one other : List Notes)
        → AreNotesOf P names s rows one → AreNotesOf P names s rows other → one ≡ other }
{
    rounds_give_the_least_table();
    first_chains_are_unique();
    first_pairs_are_unique();
}

/// A row of a value speaks of the bit for which its rule has the row: the rule has this row at a point where the value has the bit, which isn't
/// taken there. Where it speaks of none, that bit is taken wherever the rule asks something of the value: what it lacks is what is whole.
pub fn notes_speak_of_what_is_lacking()
    ensures item { (P : Program) (s : List Qualifier) (tables : List Table) (row : Row) (q : Sought) (x : Item)
        → sought_of row.span row.code ≡ Some q → item_of P s row tables ≡ Some x → IsLacking P s tables row q x }
    ensures none { (P : Program) (s : List Qualifier) (tables : List Table) (row : Row) (q : Sought)
        → sought_of row.span row.code ≡ Some q → item_of P s row tables ≡ None → TakesAll P s tables q }
{}
