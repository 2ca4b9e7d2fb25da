//! Laws of programs that differ in places and in what slots start with, and of what is lowered.
ghost use Rattle.std.specs.Prelude.{◌≡◌, ℕ, List, Option, slice_index_or, []};
ghost use Rattle.jn_quals.specs.Qualifier.{Qualifier};
ghost use Rattle.jn_points.specs.declared.point.Point.{Point};
ghost use Rattle.jn_points.specs.declared.program.Program.{Program};
ghost use Rattle.jn_points.specs.Lookup.{method_in};
ghost use Rattle.jn_points.specs.BaseRows.{IsBaseRow, NoBaseRows};
ghost use Rattle.jn_base.specs.declared.place.Row.{Row};
ghost use Rattle.jn_sigs.specs.Signature.{start_signature};
ghost use Rattle.jn_env.specs.Environment.{Env};
ghost use Rattle.jn_env.specs.Order.{QualsWithin, Table};
ghost use Rattle.jn_transfer.specs.Closing.{IsClosed, IsNotBelowStart};
ghost use Rattle.jn_transfer.specs.Least.{IsLeastTable};
ghost use Rattle.jn_transfer.specs.Rules.{ctor_rows, pair_rows, rows, rows_at};
ghost use Rattle.jn_places_law.specs.Bare.{Alike, bare_body, bare_point, codes_of};
ghost use Rattle.jn_places_law.specs.Written.{IsWritten};
ghost use Rattle.jn_places.specs.Placed.{PlacedTree};
ghost use Rattle.jn_places.specs.Places.{place, place_statement};
ghost use Rattle.jn_trees.specs.Trees.{Statement, Tree};
ghost use Rattle.jn_trees.specs.declared.token.Token.{Token};
ghost use Rattle.jn_lowering.specs.Locals.{State};
ghost use Rattle.jn_lowering.specs.Statements.{statement};
ghost use Rattle.jn_lowering.specs.Temporaries.{Temporaries};
ghost use Rattle.jn_lowering.specs.Scopes.{Scope};
ghost use Rattle.jn_lowering.specs.Expressions.{lower};
ghost use Rattle.jn_places_law.specs.Erased.{bare_lowered, bare_scope, bare_state, bare_step, bare_tree, coded_scope};
ghost use Rattle.jn_points.specs.declared.program.Body.{Body};
ghost use Rattle.jn_lowering.specs.Bodies.{Source, body_of_source};
ghost use Rattle.jn_lowering.specs.ExpressionRows.{Setting, rows_of};
ghost use Rattle.jn_lowering.specs.StatementRows.{statement_rows};
ghost use Rattle.jn_lowering.specs.BodyRows.{is_too_large, rows_of_body, rows_of_source};

/// Programs that are alike have the same least tables under each signature.
pub fn alike_programs_have_the_same_tables()
    ensures { (P Q : Program) (s : List Qualifier) (b : ℕ) (t : Table) → Alike P Q
        → IsLeastTable P s b t → IsLeastTable Q s b t }
{}

/// They break the same rules under the same tables: at each point, at each constructor, at each overriding pair, and in one order.
pub fn alike_programs_break_the_same_rules()
    ensures points { (P Q : Program) (s : List Qualifier) (b : ℕ) (p q : Point) (e : Option Env)
        → Alike P Q → bare_point p ≡ bare_point q
        → codes_of (rows_at P s b p e) ≡ codes_of (rows_at Q s b q e) }
    ensures constructors { (P Q : Program) (s : List Qualifier) (b : ℕ) (t : Table) → Alike P Q
        → codes_of (ctor_rows P s b (method_in P b) t)
        ≡ codes_of (ctor_rows Q s b (method_in Q b) t) }
    ensures pairs { (P Q : Program) (s : List Qualifier) (m k : ℕ) → Alike P Q
        → codes_of (pair_rows P s m k) ≡ codes_of (pair_rows Q s m k) }
    ensures all { (P Q : Program) (s : List Qualifier) (tables : List (List (Option Env)))
        → Alike P Q → codes_of (rows P s tables) ≡ codes_of (rows Q s tables) }
{}

/// What is written in all slots is the start, is closed, and is within each signature that isn't below the start: so it is the least.
pub fn written_programs_are_solved_by_what_is_written()
    ensures start { (P : Program) (s : List Qualifier) → IsWritten P s → start_signature P ≡ s }
    ensures closed { (P : Program) (s t : List Qualifier) → IsWritten P s → IsClosed P t }
    ensures starts { (P : Program) (s : List Qualifier) → IsWritten P s → IsNotBelowStart P s }
    ensures least { (P : Program) (s t : List Qualifier) → IsWritten P s → IsNotBelowStart P t
        → QualsWithin s t }
{}

/// In alike programs and scopes, expressions that differ in places are lowered to points that differ in places alone.
pub fn alike_expressions_are_lowered_alike()
    ensures { (P Q : Program) (c first : ℕ) (s r : Scope) (t : Temporaries) (e d : PlacedTree)
        → Alike P Q → bare_scope s ≡ bare_scope r → bare_tree e ≡ bare_tree d
        → bare_lowered (lower P c first s t e) ≡ bare_lowered (lower Q c first r t d) }
{}

/// So is a statement wherever it stands, in states that differ in rows of types alone.
pub fn alike_statements_are_lowered_alike()
    ensures { (P Q : Program) (c first : ℕ) (st r : State) (ts us : List Token) (x : Statement)
        → Alike P Q → bare_state st ≡ bare_state r
        → bare_step (statement P c first st (place_statement ts x))
        ≡ bare_step (statement Q c first r (place_statement us x)) }
{}

/// In alike programs, and in scopes that differ in places alone, expressions that differ in places have rows J1 to J5 of the same codes, in one order.
pub fn alike_expressions_have_the_same_rows()
    ensures { (P Q : Program) (c : ℕ) (at : Setting) (s r : Scope) (ts us : List Token) (e : Tree)
        → Alike P Q → coded_scope s ≡ coded_scope r
        → codes_of (rows_of P c at s (place ts e)) ≡ codes_of (rows_of Q c at r (place us e)) }
{}

/// So has a statement wherever it stands, in states that differ in places alone, and so are the states after it.
pub fn alike_statements_have_the_same_rows()
    ensures rows { (P Q : Program) (c first : ℕ) (at : Setting) (st r : State) (ts us : List Token)
        (x : Statement)
        → Alike P Q → bare_state st ≡ bare_state r → coded_scope st.scope ≡ coded_scope r.scope
        → codes_of (statement_rows P c first at st (place_statement ts x))
        ≡ codes_of (statement_rows Q c first at r (place_statement us x)) }
    ensures scopes { (P Q : Program) (c first : ℕ) (st r : State) (ts us : List Token)
        (x : Statement)
        → Alike P Q → bare_state st ≡ bare_state r → coded_scope st.scope ≡ coded_scope r.scope
        → coded_scope (statement P c first st (place_statement ts x)).behind.scope
        ≡ coded_scope (statement Q c first r (place_statement us x)).behind.scope }
{}

/// A body that differs in places alone is too large where the other is (J6), which is looked for where none of them has another row.
pub fn alike_bodies_have_the_same_limits()
    ensures large { (P Q : Program) (x y : Body) → Alike P Q → bare_body x ≡ bare_body y
        → is_too_large P x ≡ is_too_large Q y }
    ensures rows { (P Q : Program) (s r : Source) → Alike P Q
        → codes_of (rows_of_source P s) ≡ codes_of (rows_of_source Q r)
        → bare_body (body_of_source P s) ≡ bare_body (body_of_source Q r)
        → codes_of (rows_of_body P s) ≡ codes_of (rows_of_body Q r) }
{}

/// Programs that are alike have rows J7 to J10 of the same codes, and none where the other has none. Since `Alike` has no direction, that holds
/// both ways.
pub fn alike_programs_have_the_same_base_rows()
    ensures rows { (P Q : Program) (row : Row) → Alike P Q → IsBaseRow P row
        → (other : Row) × IsBaseRow Q other × (other.code ≡ row.code) }
    ensures typed { (P Q : Program) → Alike P Q → NoBaseRows P → NoBaseRows Q }
{}
