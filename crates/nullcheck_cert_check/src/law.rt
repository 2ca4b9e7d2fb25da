//! Laws of verdicts on certificates.
ghost use Rattle.std.specs.Prelude.{List, [], ℕ};
ghost use Rattle.jn_base.specs.declared.infer.Infer.{Infer};
ghost use Rattle.jn_places.specs.Placed.{PlacedFile};
ghost use Rattle.jn_points.specs.declared.program.Program.{Program};
ghost use Rattle.jn_program.specs.Lowered.{IsProgram};
ghost use Rattle.jn_cert_form.specs.Counted.{IsCounted};
ghost use Rattle.jn_cert_judge.specs.declared.fault.CertFault.{CertFault};
ghost use Rattle.jn_cert_law.specs.Certificate.{CertHolds};
ghost use Rattle.jn_command.specs.declared.report.Report.TheVariants.{Checked};
ghost use Rattle.jn_report.specs.Report.{IsReport};
ghost use Rattle.jn_front.specs.declared.source.SourceFile.{SourceFile};
ghost use Rattle.nullcheck_cert_check.specs.declared.verdict.CertVerdict.{CertVerdict};
ghost use Rattle.nullcheck_cert_check.specs.Verdicts.{IsCertifiedBy, IsFaultyBy, IsProgramOfFiles, IsSameVerdict, IsVerdict};

use jn_cert::law::refused_certificates_have_one_fault;
use jn_cert_law::law::what_holds_is_accepted;
use jn_phases::law::files_have_one_typing;
use jn_safe_files::law::files_accepted_under_some_signature_are_safe;

/// A certificate has bytes.
pub fn nothing_is_no_certificate()
    ensures { (P : Program) → CertHolds P [] → ⊥ }
{}

/// The bodies of trees without rows are small, so their keys have numbers of 32 bits, and a certificate of their program has one
/// reading.
pub fn programs_of_trees_are_counted()
    ensures { (infer : Infer) (trees : List PlacedFile) (P : Program) → IsProgram infer trees P
        → IsCounted P }
{}

/// Files and a certificate have one verdict: the rows of the first phase that has any, or else that the certificate is too large, its
/// first fault, or that it holds of the files' one program; and what has a fault holds of no program of theirs.
pub fn files_and_certificates_have_one_verdict()
    ensures one { (infer : Infer) (files : List SourceFile) (cert : List ℕ) (one other : CertVerdict)
        → IsVerdict infer files cert one → IsVerdict infer files cert other
        → IsSameVerdict one other }
    ensures none { (infer : Infer) (files : List SourceFile) (cert : List ℕ) (P Q : Program)
        (fault : CertFault)
        → IsFaultyBy infer files cert P fault → IsProgramOfFiles infer files Q → CertHolds Q cert → ⊥ }
{
    files_have_one_typing();
    refused_certificates_have_one_fault();
}

/// Files with a certificate are accepted by the rules, too: none is broken under the least signature of their program.
pub fn certified_files_are_accepted()
    ensures { (infer : Infer) (files : List SourceFile) (cert : List ℕ) (P : Program)
        → IsCertifiedBy infer files cert P → IsReport infer files (Checked []) }
{
    what_holds_is_accepted();
    files_accepted_under_some_signature_are_safe();
}
