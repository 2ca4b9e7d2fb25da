//! Laws of least tables, and of what bodies send under them.
ghost use Rattle.std.specs.Prelude.{◌≡◌, ◌<◌, ℕ, List, length};
ghost use Rattle.jn_quals.specs.Qualifier.{Qualifier};
ghost use Rattle.jn_points.specs.Lookup.{points_of, body_at};
ghost use Rattle.jn_points.specs.Regular.{Regular};
ghost use Rattle.jn_points.specs.declared.point.PointKind.{PointKind};
ghost use Rattle.jn_points.specs.declared.program.Program.{Program};
ghost use Rattle.jn_env.specs.Environment.{Env};
ghost use Rattle.jn_env.specs.Order.{EnvWithin, QualsWithin, Table, TableWithin};
ghost use Rattle.jn_transfer.specs.Contributions.{IsSent};
ghost use Rattle.jn_transfer.specs.Covered.{Covered};
ghost use Rattle.jn_transfer.specs.Least.{IsLeastTable, Respects};
ghost use Rattle.jn_transfer.specs.Sized.{StaysInside};
ghost use Rattle.jn_transfer.specs.Transfer.{IsAmong, transfer};
ghost use Rattle.jn_contrib.specs.Sends.{body_sends};
ghost use Rattle.jn_tables_law.specs.CoveredSend.{CoveredSend};
ghost use Rattle.jn_tables_law.specs.Inferable.{IsInferable, least_sends, least_table};
ghost use Rattle.jn_tables_law.specs.Tasks.{task_sends};

/// As many rounds as can change anything give a table of whole rounds; it respects the entry and all edges, is within each table that does,
/// and is the only one.
pub fn rounds_give_the_least_table()
    ensures exists { (P : Program) (s : List Qualifier) (b : ℕ) → StaysInside P b
        → IsLeastTable P s b (least_table P s b) }
    ensures respects { (P : Program) (s : List Qualifier) (b : ℕ) (t : Table) → StaysInside P b
        → IsLeastTable P s b t → Respects P s b t }
    ensures least { (P : Program) (s : List Qualifier) (b : ℕ) (t u : Table) → StaysInside P b
        → IsLeastTable P s b t → length u ≡ length (points_of (body_at P b)) → Respects P s b u
        → TableWithin t u }
    ensures unique { (P : Program) (s : List Qualifier) (b : ℕ) (t u : Table) → IsLeastTable P s b t
        → IsLeastTable P s b u → t ≡ u }
{}

/// A greater environment under a greater signature has greater ones after all edges.
pub fn transfer_is_monotone()
    ensures { (P : Program) (s t : List Qualifier) (b : ℕ) (kind : PointKind) (p : ℕ) (e f : Env)
        (x : ℕ × Env)
        → QualsWithin s t → EnvWithin e f → IsAmong x (transfer P s b kind p e)
        → Covered x (transfer P t b kind p f) }
{}

/// A greater signature has greater least tables.
pub fn least_tables_are_monotone()
    ensures { (P : Program) (s t : List Qualifier) (b : ℕ) (T U : Table) → StaysInside P b
        → QualsWithin s t → IsLeastTable P s b T → IsLeastTable P t b U → TableWithin T U }
{}

/// A body sends at least as much under a greater table, and so under a greater signature.
pub fn contributions_are_monotone()
    ensures tables { (P : Program) (b : ℕ) (T U : Table) (x : ℕ × Qualifier) → TableWithin T U
        → IsSent x (body_sends P b T) → CoveredSend x (body_sends P b U) }
    ensures signatures { (P : Program) (s t : List Qualifier) (b : ℕ) (T U : Table)
        (x : ℕ × Qualifier)
        → StaysInside P b → QualsWithin s t → IsLeastTable P s b T → IsLeastTable P t b U
        → IsSent x (body_sends P b T) → CoveredSend x (body_sends P b U) }
{}

/// Each regular program can be inferred.
pub fn regular_programs_can_be_inferred()
    ensures { (P : Program) → Regular P → IsInferable P }
{}

/// What a task below the number of bodies sends is what that body sends under its least table.
pub fn tasks_of_bodies_send_under_least_tables()
    ensures { (P : Program) (s : List Qualifier) (t : ℕ) → t < length P.bodies
        → task_sends P s t ≡ least_sends P s t }
{}
