//! Laws of least tables as parts of certificates.
ghost use Rattle.std.specs.Prelude.{List, [], Option, ℕ, ◌≡◌, ◌<◌, length, slice_index_or};
ghost use Rattle.jn_quals.specs.Qualifier.{Qualifier};
ghost use Rattle.jn_points.specs.BaseRows.{NoBaseRows};
ghost use Rattle.jn_points.specs.Regular.{Regular};
ghost use Rattle.jn_points.specs.declared.program.Program.{Program};
ghost use Rattle.jn_env.specs.Environment.{Env};
ghost use Rattle.jn_transfer.specs.Closing.{IsClosed, IsNotBelowStart};
ghost use Rattle.jn_transfer.specs.Least.{IsLeastTable};
ghost use Rattle.jn_transfer.specs.Rules.{Breaks};
ghost use Rattle.jn_inference_law.specs.Solution.{IsLeastSignature};
ghost use Rattle.jn_cert_form.specs.Form.{ArePlain, AreParts, cert_bytes};
ghost use Rattle.jn_cert_law.specs.Certificate.{CertHolds};
ghost use Rattle.jn_cert_law.specs.Holds.{KeepsWritten};

/// The least tables of a base-typed program have a form: where a register is of primitive type or of type Void, nothing
/// is known of it at any point.
pub fn least_tables_have_a_form()
    ensures plain { (P : Program) (s : List Qualifier) (b : ℕ) (t : List (Option Env))
        → Regular P → NoBaseRows P → b < length P.bodies → IsLeastTable P s b t → ArePlain P b t }
    ensures parts { (P : Program) (s : List Qualifier) (tables : List (List (Option Env)))
        → Regular P → NoBaseRows P → length s ≡ length P.slots → length tables ≡ length P.bodies
        → ((b : ℕ) → b < length P.bodies → IsLeastTable P s b (slice_index_or tables b []))
        → AreParts P s tables }
{}

/// A least signature keeps what is written: a slot that isn't inferred has just what it starts with.
pub fn least_signatures_keep_what_is_written()
    ensures { (P : Program) (s : List Qualifier) → Regular P → IsLeastSignature P s
        → KeepsWritten P s }
{}

/// So the form of an accepted program's least tables, under its signature, is a certificate that holds: under any closed
/// one that isn't below the start and keeps what is written, as the least one does.
pub fn accepted_programs_have_certificates()
    ensures closed { (P : Program) (s : List Qualifier) (tables : List (List (Option Env)))
        → Regular P → NoBaseRows P → length tables ≡ length P.bodies
        → ((b : ℕ) → b < length P.bodies → IsLeastTable P s b (slice_index_or tables b []))
        → IsClosed P s → IsNotBelowStart P s → KeepsWritten P s → Breaks P s []
        → CertHolds P (cert_bytes P s tables) }
    ensures least { (P : Program) (s : List Qualifier) (tables : List (List (Option Env)))
        → Regular P → NoBaseRows P → length tables ≡ length P.bodies
        → ((b : ℕ) → b < length P.bodies → IsLeastTable P s b (slice_index_or tables b []))
        → IsLeastSignature P s → Breaks P s [] → CertHolds P (cert_bytes P s tables) }
{}
