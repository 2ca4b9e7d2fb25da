//! Laws of the least signature.
ghost use Rattle.std.specs.Prelude.{List};
ghost use Rattle.jn_quals.specs.Qualifier.{Qualifier};
ghost use Rattle.jn_points.specs.Regular.{Regular};
ghost use Rattle.jn_points.specs.declared.program.Program.{Program};
ghost use Rattle.jn_soundness.specs.Accepting.{IsAccepted};
ghost use Rattle.jn_inference_law.specs.Solution.{IsLeastSignature};
ghost use Rattle.jn_cert_law.specs.Holds.{KeepsWritten};

use jn_cert_exists_law::law::least_signatures_keep_what_is_written;

/// Each regular program has a least signature.
pub fn programs_have_a_least_signature()
    ensures { (P : Program) → Regular P → (s : List Qualifier) × IsLeastSignature P s }
{}

/// What is accepted under some signature that keeps what is written is accepted under the least one: less is known under it to be null or
/// free, so less is broken at slots that are written, and all that goes to an inferred slot is within it.
pub fn what_is_accepted_is_accepted_under_the_least()
    ensures { (P : Program) (s t : List Qualifier) → IsAccepted P s → KeepsWritten P s
        → IsLeastSignature P t → IsAccepted P t }
{
    least_signatures_keep_what_is_written();
}
