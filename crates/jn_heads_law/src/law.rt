//! Laws of lowering, base typing, indexes and rows of classes over class tables that differ in places.
ghost use Rattle.std.specs.Prelude.{◌≡◌, ℕ, List, map};
ghost use Rattle.jn_base.specs.declared.place.Row.{Row};
ghost use Rattle.jn_points.specs.declared.program.Program.{Program};
ghost use Rattle.jn_points.specs.BaseRows.{NoBaseRows};
ghost use Rattle.jn_points.specs.Lookup.{body_at};
ghost use Rattle.jn_index.specs.Index.{IsIndex, Lists};
ghost use Rattle.jn_heads.specs.declared.head.ClassHead.{ClassHead};
ghost use Rattle.jn_classtable.specs.Rows.{t_rows};
ghost use Rattle.jn_classtable.specs.Table.{table};
ghost use Rattle.jn_lowering.specs.Bodies.{Source, body_of_source, name_span};
ghost use Rattle.jn_lowering.specs.BodyRows.{rows_of_body};
ghost use Rattle.jn_basecheck.specs.Rows.{BodyRow};
ghost use Rattle.jn_places_law.specs.Bare.{Alike, codes_of};
ghost use Rattle.jn_heads_law.specs.Heads.{HeadsAlike};
ghost use Rattle.jn_heads_law.specs.Plain.{plain_head};

/// In programs that differ in places alone a source is lowered to the same body, places included, where the name of its method stands at one
/// place in both; so lowering looks at no other place of the class table.
pub fn lowering_looks_at_no_other_place()
    ensures bodies { (P Q : Program) (s : Source) → Alike P Q
        → name_span P s.method ≡ name_span Q s.method
        → body_of_source P s ≡ body_of_source Q s }
    ensures rows { (P Q : Program) (s : Source) → Alike P Q
        → name_span P s.method ≡ name_span Q s.method
        → rows_of_body P s ≡ rows_of_body Q s }
{}

/// A body that has no row J7 to J10 in a base-typed program has none in one that declares the same but for places, whatever the other bodies
/// are.
pub fn base_typing_looks_at_no_place_of_the_class_table()
    ensures { (P Q : Program) (b : ℕ) (row : Row) → HeadsAlike P Q
        → body_at P b ≡ body_at Q b
        → NoBaseRows Q → BodyRow P b row → ⊥ }
{}

/// An index of a program is one of each that declares the same but for places.
pub fn indexes_serve_alike_programs()
    ensures { (P Q : Program) (x : Lists) → HeadsAlike P Q
        → IsIndex P x → IsIndex Q x }
{}

/// Heads that are the same but for places and what is written of nullness and initialization have class tables that differ in no more, and rows T1
/// to T10 of the same codes, in one order.
pub fn alike_heads_have_alike_tables()
    ensures tables { (hs gs : List ClassHead) → map plain_head hs ≡ map plain_head gs
        → Alike (table hs) (table gs) }
    ensures rows { (hs gs : List ClassHead) → map plain_head hs ≡ map plain_head gs
        → codes_of (t_rows hs) ≡ codes_of (t_rows gs) }
{}
